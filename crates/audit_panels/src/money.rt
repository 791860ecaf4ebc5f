//! The deposits and their parts. Amounts are in mills.
use audit_facts::{DeviceStanding, Standing};
use audit_markup::{
    begin_picture, begin_table, end_table, many, put_amount_cell, put_head, put_hundredths,
    put_number_head, put_tenths, share,
};
use audit_sheet::Sheet;
use bench_base::words::Kind;

/// Where the deposits are: their parts in the order of the page.
#[derive(Clone, Copy)]
struct Sums {
    parts: [u64; 4],
    deposits: u64,
}

const CLASSES: [&str; 4] = ["f", "l", "w", "b"];

const NAMES: [&str; 4] = [
    "Franked",
    "On the devices",
    "On the way",
    "With the customers",
];

const TITLES: [&str; 4] = [
    "franked ",
    ", on the devices ",
    ", on the way ",
    ", with the customers ",
];

const MEANINGS: [&str; 4] = [
    " printed on mail, and spent",
    " left to frank with",
    " granted, not yet on the device",
    " paid in, not yet loaded",
];

// Whether the device has applied what is in flight.
fn is_applied(device: &DeviceStanding) -> bool {
    match device.centre {
        Some(centre) => centre != device.held,
        None => true,
    }
}

// Adds what the device has. A refund that it has not applied is with the customer already.
fn add_device(parts: &mut [u64; 4], device: &DeviceStanding) {
    let mut left = device.descending;
    if !is_applied(device) {
        match device.flight {
            Some(Kind::Reset) => parts[2] = parts[2].saturating_add(device.amount),
            Some(Kind::Refund | Kind::Withdraw) => left = left.saturating_sub(device.amount),
            Some(Kind::Enrol | Kind::Audit) | None => {}
        }
    }
    parts[0] = parts[0].saturating_add(device.ascending);
    parts[1] = parts[1].saturating_add(left);
}

fn sums_of(standing: &Standing) -> Sums {
    let mut parts = [0; 4];
    for device in standing.devices.iter() {
        add_device(&mut parts, device);
    }
    let mut deposits = 0u64;
    for customer in standing.customers.iter() {
        deposits = deposits.saturating_add(customer.deposits);
        parts[3] = parts[3].saturating_add(customer.balance);
    }
    Sums { parts, deposits }
}

// The sum of the parts before this one.
fn before(sums: &Sums, part: usize) -> u64 {
    let mut sum = 0u64;
    for at in 0..4 {
        if at < part {
            sum = sum.saturating_add(sums.parts[at]);
        }
    }
    sum
}

// The share of a part on this scale.
fn share_of(sums: &Sums, part: usize, scale: u64) -> u64 {
    match sums.parts.get(part) {
        Some(value) => share(before(sums, part), *value, sums.deposits, scale),
        None => 0,
    }
}

fn put_part(sheet: &mut Sheet, sums: &Sums, at: usize, from: u64, width: u64) {
    if width == 0 || at >= 4 {
        return;
    }
    sheet.put_own("<rect class=\"s-");
    sheet.put_own(CLASSES[at]);
    sheet.put_own("\" x=\"");
    put_hundredths(sheet, from);
    sheet.put_own("\" width=\"");
    put_hundredths(sheet, width);
    sheet.put_own("\" height=\"30\"/>");
}

fn put_bar(sheet: &mut Sheet, sums: &Sums) {
    begin_picture(sheet, "bar", 30, "mo", 0);
    sheet.put_own("Of ");
    sheet.put_mills(sums.deposits as i128);
    sheet.put_own(" paid in: ");
    for at in 0..4 {
        sheet.put_own(TITLES[at]);
        sheet.put_mills(sums.parts[at] as i128);
    }
    sheet.put_own("</title>");
    let mut from = 0u64;
    for at in 0..4 {
        let width = share_of(sums, at, 10_000);
        put_part(sheet, sums, at, from, width);
        from = from.saturating_add(width);
    }
    sheet.put_own("</svg>");
}

fn put_part_row(sheet: &mut Sheet, sums: &Sums, at: usize) {
    if at >= 4 || at == 2 && sums.parts[2] == 0 {
        return;
    }
    sheet.put_own("<tr><th scope=\"row\"><i class=\"sw s-");
    sheet.put_own(CLASSES[at]);
    sheet.put_own("\"></i>");
    sheet.put_own(NAMES[at]);
    sheet.put_own("<span class=\"q\">");
    sheet.put_own(MEANINGS[at]);
    sheet.put_own("</span></th>");
    put_amount_cell(sheet, sums.parts[at]);
    sheet.put_own("<td class=\"n\">");
    put_tenths(sheet, share_of(sums, at, 1000));
    sheet.put_own("</td></tr>");
}

fn put_table(sheet: &mut Sheet, sums: &Sums, customers: usize) {
    begin_table(sheet, "mo");
    put_head(sheet, "");
    put_number_head(sheet, "amount");
    put_number_head(sheet, "share");
    sheet.put_own("</tr></thead><tbody>");
    for at in 0..4 {
        put_part_row(sheet, sums, at);
    }
    sheet.put_own("<tr class=\"sum\"><th scope=\"row\">Paid in by ");
    many(sheet, customers as u64, "customer", "customers");
    sheet.put_own("</th>");
    put_amount_cell(sheet, sums.deposits);
    sheet.put_own("<td class=\"n\"></td></tr>");
    end_table(sheet);
}

/// Puts where the money is.
pub fn put_money(sheet: &mut Sheet, standing: &Standing) {
    let sums = sums_of(standing);
    sheet.put_own("<section id=\"money\"><h2>Where the money is</h2>");
    if sums.deposits == 0 {
        return sheet.put_own("<p class=\"none\">No customer has paid in.</p></section>\n");
    }
    put_bar(sheet, &sums);
    put_table(sheet, &sums, standing.customers.len());
    sheet.put_own("</section>\n");
}
