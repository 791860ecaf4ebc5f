//! The panel of devices: inspections, the registers of each over time and by month, and all of them as a table. Amounts are in mills.
use crate::inspections::put_inspections;
use crate::marks::{put_amounts, put_failures, put_moves, put_rings};
use crate::strips::put_strip;
use crate::tracks::{Span, Track, month_sum, months_of, put_month_head, span_of, track_of};
use audit_facts::{DeviceStanding, PageContent, device_slot};
use audit_markup::{
    begin_picture, begin_plot, begin_table, end_table, put_amount, put_amount_cell, put_count_cell,
    put_counted, put_date, put_head, put_key, put_number_head, put_time,
};
use audit_panels::kind_name;
use audit_plots::{Axis, NONE, Ticks, Unit, greatest, put_band, put_grid, put_stair, ticks_for};
use audit_sheet::Sheet;
use bench_base::words::{Kind, Phase};
use std::alloc::{AllocError, Global};

/// The most points of a curve.
const MOST_POINTS: u32 = 400;

/// The height of the picture of a device, in pixels.
const HEIGHT: u64 = 150;

// The word for how far a device has come, and the same as a status has it.
fn phase_words(phase: Phase) -> (&'static str, &'static str) {
    match phase {
        Phase::Blank => ("blank", "blank"),
        Phase::Manufactured => ("manufactured", "manufactured"),
        Phase::Authorised => ("authorised", "authorised"),
        Phase::InService => ("in service", "in-service"),
        Phase::Locked => ("locked", "locked"),
        Phase::Withdrawn => ("withdrawn", "withdrawn"),
    }
}

fn put_device(sheet: &mut Sheet, device: &DeviceStanding) {
    sheet.put_own("d");
    sheet.put_number(device.device.get() as u64);
}

// Puts an amount of the device, with its name.
fn put_fact(sheet: &mut Sheet, name: &'static str, mills: u64) {
    sheet.put_own("<div><dt>");
    sheet.put_own(name);
    sheet.put_own("</dt><dd>");
    put_amount(sheet, mills);
    sheet.put_own("</dd></div>");
}

fn put_facts(sheet: &mut Sheet, device: &DeviceStanding) {
    sheet.put_own("<dl class=\"fa\">");
    put_fact(sheet, "franked", device.ascending);
    put_fact(sheet, "left", device.descending);
    put_fact(sheet, "returned", device.refunded);
    sheet.put_own("<div><dt>pieces</dt><dd>");
    put_counted(sheet, device.pieces as u64);
    sheet.put_own("</dd></div>");
    if device.deadline != 0 && device.phase != Phase::Withdrawn {
        sheet.put_own("<div><dt>inspect by</dt><dd>");
        put_time(sheet, i64::from(device.deadline));
        sheet.put_own("</dd></div>");
    }
    sheet.put_own("</dl>");
}

fn put_name(sheet: &mut Sheet, device: &DeviceStanding) {
    sheet.put_own("<div class=\"dev\"><h3 class=\"dv\">");
    put_device(sheet, device);
    sheet.put_own(" <small>");
    sheet.put_own(phase_words(device.phase).0);
    if let Some(customer) = device.customer {
        sheet.put_own(", customer ");
        sheet.put_number(customer.get() as u64);
    }
    sheet.put_own("</small></h3>");
}

// Says whether device and centre agree, if nothing is in flight.
fn put_agreement(sheet: &mut Sheet, device: &DeviceStanding, centre: u64) {
    if centre == device.held {
        sheet.put_own("Device and centre agree: ");
        put_amount(sheet, centre);
        return sheet.put_own(".");
    }
    sheet.put_own("<b>Device and centre differ: ");
    put_amount(sheet, device.held);
    sheet.put_own(" and ");
    put_amount(sheet, centre);
    sheet.put_own(".</b>");
}

// Says what is in flight between device and centre.
fn put_flight(sheet: &mut Sheet, device: &DeviceStanding, centre: u64, kind: Kind) {
    sheet.put_own("Device ");
    put_amount(sheet, device.held);
    sheet.put_own(", centre ");
    put_amount(sheet, centre);
    sheet.put_own(", and a ");
    sheet.put_own(kind_name(kind));
    sheet.put_own(" of ");
    put_amount(sheet, device.amount);
    sheet.put_own(if centre == device.held {
        " in flight: not applied yet."
    } else {
        " in flight: applied, not settled."
    });
}

fn put_standing(sheet: &mut Sheet, device: &DeviceStanding) {
    sheet.put_own("<p>");
    match (device.centre, device.flight) {
        (None, _) => sheet.put_own("It is not registered at the centre."),
        (Some(centre), None) => put_agreement(sheet, device, centre),
        (Some(centre), Some(kind)) => put_flight(sheet, device, centre, kind),
    }
    sheet.put_own("</p></div>");
}

// The ticks of the picture: at least a dollar.
fn ticks_of(total: &[u64]) -> Ticks {
    let most = greatest(total, NONE);
    let ticks = ticks_for(if most == 0 { 1000 } else { most });
    if ticks.top >= 1000 {
        return ticks;
    }
    Ticks {
        top: 1000,
        step: 500,
    }
}

fn put_title(sheet: &mut Sheet, axis: &Axis, device: &DeviceStanding) {
    begin_picture(
        sheet,
        "c top",
        HEIGHT + 40,
        "dvd",
        device.device.get() as u64,
    );
    put_device(sheet, device);
    sheet.put_own(" from ");
    put_date(sheet, axis.first);
    sheet.put_own(" to ");
    put_date(sheet, axis.last);
    sheet.put_own(": franked ");
    sheet.put_mills(device.ascending as i128);
    sheet.put_own(", left ");
    sheet.put_mills(device.descending as i128);
    sheet.put_own("</title>");
}

// Puts what the device franked as a stair, and what it has left on it.
fn put_curves(sheet: &mut Sheet, axis: &Axis, franked: &[u64], total: &[u64], top: u64) {
    begin_plot(sheet, axis.cells, HEIGHT);
    sheet.put_own("<path class=\"f-f\" d=\"");
    put_stair(sheet, franked, top);
    sheet.put_own("\"/><path class=\"f-l\" d=\"");
    put_band(sheet, franked, total, top);
    sheet.put_own("\"/></svg>");
}

// Puts the picture of a device.
fn put_picture(
    alloc: Global,
    sheet: &mut Sheet,
    page: &PageContent<'_>,
    span: &Span,
    device: &DeviceStanding,
) -> Result<(), AllocError> {
    let axis = Axis::new(span.first, span.last, MOST_POINTS);
    let cells = page.facts.cells.of(device_slot(device.device));
    let total = track_of(alloc, &axis, span, cells, Track::Total)?;
    if greatest(total.as_slice(), NONE) == 0 {
        sheet.put_own("<p class=\"none\">Nothing was loaded.</p>");
        return Ok(());
    }
    let franked = track_of(alloc, &axis, span, cells, Track::Franked)?;
    let flight = track_of(alloc, &axis, span, cells, Track::Flight)?;
    let ticks = ticks_of(total.as_slice());
    put_title(sheet, &axis, device);
    put_grid(sheet, &axis, ticks, HEIGHT, Unit::Mills);
    put_curves(
        sheet,
        &axis,
        franked.as_slice(),
        total.as_slice(),
        ticks.top,
    );
    put_moves(sheet, page, &axis, span, device.device);
    put_amounts(sheet, page, &axis, span, device.device);
    put_failures(sheet, page, &axis, span, device);
    put_strip(sheet, franked.as_slice(), flight.as_slice());
    put_rings(sheet, page, &axis, span, device.device);
    sheet.put_own("</svg>");
    Ok(())
}

fn put_month(
    sheet: &mut Sheet,
    page: &PageContent<'_>,
    span: &Span,
    device: &DeviceStanding,
    month: u32,
) {
    let cells = page.facts.cells.of(device_slot(device.device));
    let sum = month_sum(cells, span, month, month.saturating_add(1));
    // Before that it was not made.
    if !sum.has_level {
        return;
    }
    put_month_head(sheet, month);
    put_amount_cell(sheet, sum.loaded);
    put_amount_cell(sheet, sum.returned);
    put_amount_cell(sheet, sum.franked);
    put_count_cell(sheet, sum.pieces);
    put_amount_cell(sheet, sum.level);
    sheet.put_own("</tr>");
}

fn put_months(sheet: &mut Sheet, page: &PageContent<'_>, span: &Span, device: &DeviceStanding) {
    sheet.put_own("<details><summary>");
    put_device(sheet, device);
    sheet.put_own(" month by month</summary>");
    begin_table(sheet, "");
    put_head(sheet, "month");
    put_number_head(sheet, "resets");
    put_number_head(sheet, "refunds");
    put_number_head(sheet, "franked");
    put_number_head(sheet, "pieces");
    put_number_head(sheet, "left at the end");
    sheet.put_own("</tr></thead><tbody>");
    let months = months_of(span);
    for month in months.shown..months.end {
        put_month(sheet, page, span, device, month);
    }
    end_table(sheet);
    sheet.put_own("</details>");
}

fn put_block(sheet: &mut Sheet, page: &PageContent<'_>, span: &Span, device: &DeviceStanding) {
    put_name(sheet, device);
    put_facts(sheet, device);
    let alloc = sheet.alloc();
    if put_picture(alloc, sheet, page, span, device).is_err() {
        sheet.lose();
    }
    put_standing(sheet, device);
    put_months(sheet, page, span, device);
}

fn put_legend(sheet: &mut Sheet) {
    sheet.put_own(
        "<h3>Registers</h3><p class=\"q lg\"><span><i class=\"sw s-f\"></i>franked</span> <span><i class=\"sw s-l\"></i>left; both together are what was loaded, less refunds</span> <span>",
    );
    put_key(sheet, "up");
    sheet.put_own(" reset</span> <span>");
    put_key(sheet, "down");
    sheet.put_own(" refund or withdrawal</span> <span>");
    put_key(sheet, "bolt");
    sheet.put_own(
        " power or storage failed</span></p><p class=\"q lg\">Strip below: <span><i class=\"sw s-g\"></i>device and centre agree</span> <span><i class=\"sw s-w\"></i>money in flight between them</span> <span>",
    );
    put_key(sheet, "dot");
    sheet.put_own(" inspection</span></p>");
}

// The word for what is in flight, as in a script.
fn kind_word(kind: Kind) -> &'static str {
    match kind {
        Kind::Enrol => "enrol ",
        Kind::Reset => "reset ",
        Kind::Audit => "audit ",
        Kind::Refund => "refund ",
        Kind::Withdraw => "withdraw ",
    }
}

// Puts what a device holds by itself and by the centre, and what is in flight.
fn put_sums(sheet: &mut Sheet, device: &DeviceStanding) {
    put_amount_cell(sheet, device.held);
    match device.centre {
        Some(centre) => put_amount_cell(sheet, centre),
        None => sheet.put_own("<td class=\"n\"></td>"),
    }
    sheet.put_own("<td>");
    match device.flight {
        Some(kind) => {
            sheet.put_own(kind_word(kind));
            put_amount(sheet, device.amount);
        }
        None => sheet.put_own("none"),
    }
    sheet.put_own("</td></tr>");
}

fn put_row(sheet: &mut Sheet, device: &DeviceStanding) {
    sheet.put_own("<tr><th scope=\"row\">");
    put_device(sheet, device);
    sheet.put_own("</th><td>");
    if let Some(customer) = device.customer {
        sheet.put_number(customer.get() as u64);
    }
    sheet.put_own("</td><td>");
    sheet.put_own(phase_words(device.phase).1);
    sheet.put_own("</td>");
    put_amount_cell(sheet, device.ascending);
    put_amount_cell(sheet, device.descending);
    put_amount_cell(sheet, device.refunded);
    put_count_cell(sheet, device.pieces as u64);
    sheet.put_own("<td>");
    if device.deadline != 0 {
        put_time(sheet, i64::from(device.deadline));
    }
    sheet.put_own("</td>");
    put_sums(sheet, device);
}

fn put_heads(sheet: &mut Sheet) {
    sheet.put_own("<details><summary>All devices as a table</summary>");
    begin_table(sheet, "");
    put_head(sheet, "device");
    put_head(sheet, "customer");
    put_head(sheet, "phase");
    put_number_head(sheet, "franked");
    put_number_head(sheet, "left");
    put_number_head(sheet, "returned");
    put_number_head(sheet, "pieces");
    put_head(sheet, "inspect by");
    put_number_head(sheet, "device's sum");
    put_number_head(sheet, "centre's sum");
    put_head(sheet, "in flight");
    sheet.put_own("</tr></thead><tbody>");
}

/// Puts the devices, in runs that have a day.
pub fn put_devices(sheet: &mut Sheet, page: &PageContent<'_>) {
    let Some(span) = span_of(page.standing) else {
        return;
    };
    let devices = page.standing.devices.as_slice();
    sheet.put_own("<section id=\"devices\"><h2>Devices</h2>");
    if devices.is_empty() {
        return sheet.put_own("<p class=\"none\">No device was made.</p></section>\n");
    }
    put_inspections(sheet, page, span.last);
    put_legend(sheet);
    for device in devices.iter() {
        put_block(sheet, page, &span, device);
    }
    put_heads(sheet);
    for device in devices.iter() {
        put_row(sheet, device);
    }
    end_table(sheet);
    sheet.put_own("</details></section>\n");
}
