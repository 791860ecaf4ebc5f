//! Until when devices are inspected.
use audit_facts::{DeviceStanding, PageContent};
use audit_markup::{begin_picture, many, put_date_words, put_hundredths};
use audit_plots::Axis;
use audit_sheet::Sheet;
use bench_base::words::Phase;

/// How many days a device is in service after an inspection, and how many of grace there are after them.
const DAYS: i64 = 92;

const GRACE: i64 = 7;

/// The height of the row of a device, in pixels.
const ROW: u64 = 38;

// Puts until when a device is inspected.
fn put_text(sheet: &mut Sheet, device: &DeviceStanding, today: i64) {
    let due = i64::from(device.deadline);
    if let Phase::Withdrawn = device.phase {
        return sheet.put_own("withdrawn");
    }
    if due == 0 || matches!(device.phase, Phase::Manufactured | Phase::Authorised) {
        return sheet.put_own("not yet inspected");
    }
    if today > due {
        sheet.put_own("overdue since ");
        put_date_words(sheet, due);
        sheet.put_own(" (");
        put_days(sheet, today.saturating_sub(due));
        return sheet.put_own(")");
    }
    sheet.put_own("due ");
    put_date_words(sheet, due);
    sheet.put_own(", in ");
    put_days(sheet, due.saturating_sub(today));
}

fn put_days(sheet: &mut Sheet, days: i64) {
    many(sheet, u64::try_from(days).unwrap_or(0), "day", "days");
}

fn put_device(sheet: &mut Sheet, device: &DeviceStanding) {
    sheet.put_own("d");
    sheet.put_number(device.device.get() as u64);
}

// Puts a bar between two days.
fn put_bar(sheet: &mut Sheet, axis: &Axis, class: &'static str, from: i64, to: i64, down: u64) {
    let begin = axis.begin(from);
    sheet.put_own(class);
    put_hundredths(sheet, begin);
    sheet.put_own("\" width=\"");
    put_hundredths(sheet, axis.begin(to).saturating_sub(begin));
    sheet.put_own("\" y=\"");
    sheet.put_number(down.saturating_add(18));
    sheet.put_own("\" height=\"9\"/>");
}

// Puts the bars of a device that was inspected.
fn put_bars(sheet: &mut Sheet, axis: &Axis, device: &DeviceStanding, down: u64) {
    let due = i64::from(device.deadline);
    if due == 0 || !matches!(device.phase, Phase::InService | Phase::Locked) {
        return;
    }
    let end = axis.last.saturating_add(1);
    let from = due.saturating_sub(DAYS).max(axis.first).min(end);
    let to = due.saturating_add(1).max(axis.first).min(end);
    let last = due.saturating_add(1 + GRACE).max(axis.first).min(end);
    put_bar(sheet, axis, "<rect class=\"s-l\" x=\"", from, to, down);
    put_bar(sheet, axis, "<rect class=\"s-w\" x=\"", to, last, down);
}

fn put_name(sheet: &mut Sheet, device: &DeviceStanding, today: i64, down: u64) {
    sheet.put_own("<text class=\"ga\" y=\"");
    sheet.put_number(down.saturating_add(12));
    sheet.put_own("\"><tspan class=\"bo\">");
    put_device(sheet, device);
    sheet.put_own("</tspan> ");
    put_text(sheet, device, today);
    sheet.put_own("</text>");
}

fn put_title(sheet: &mut Sheet, devices: &[DeviceStanding], today: i64) {
    for at in 0..devices.len() {
        if at > 0 {
            sheet.put_own(". ");
        }
        put_device(sheet, &devices[at]);
        sheet.put_own(" ");
        put_text(sheet, &devices[at], today);
    }
    sheet.put_own("</title>");
}

// Puts a label at this height, after the text that begins it.
fn put_label(sheet: &mut Sheet, front: &'static str, down: u64) {
    sheet.put_own(front);
    sheet.put_own("\" y=\"");
    sheet.put_number(down.saturating_add(13));
    sheet.put_own("\">");
}

// Puts the line of today, down to this height.
fn put_today(sheet: &mut Sheet, axis: &Axis, today: i64, down: u64) {
    sheet.put_own("<line class=\"now\" x1=\"");
    put_hundredths(sheet, axis.middle(today));
    sheet.put_own("\" x2=\"");
    put_hundredths(sheet, axis.middle(today));
    sheet.put_own("\" y1=\"0\" y2=\"");
    sheet.put_number(down);
    sheet.put_own("\"/>");
}

fn put_labels(sheet: &mut Sheet, axis: &Axis, today: i64, down: u64) {
    sheet.put_own("<text class=\"ax mid\" x=\"");
    put_hundredths(sheet, axis.middle(today));
    put_label(sheet, "", down);
    put_date_words(sheet, today);
    put_label(sheet, "</text><text class=\"ax\" x=\"0", down);
    put_label(
        sheet,
        "92 days before</text><text class=\"ax end\" x=\"100%",
        down,
    );
    sheet.put_own("99 days after</text></svg>");
}

/// Puts until when each device is inspected.
pub fn put_inspections(sheet: &mut Sheet, page: &PageContent<'_>, today: i64) {
    let devices = page.standing.devices.as_slice();
    let down = ROW.saturating_mul(devices.len() as u64);
    let axis = Axis::new(
        today.saturating_sub(DAYS),
        today.saturating_add(DAYS + GRACE),
        10_000,
    );
    sheet.put_own("<h3>Inspections</h3>");
    begin_picture(sheet, "bar", down.saturating_add(18), "in", 0);
    put_title(sheet, devices, today);
    for at in 0..devices.len() {
        put_bars(sheet, &axis, &devices[at], ROW.saturating_mul(at as u64));
    }
    put_today(sheet, &axis, today, down);
    for at in 0..devices.len() {
        put_name(sheet, &devices[at], today, ROW.saturating_mul(at as u64));
    }
    put_labels(sheet, &axis, today, down);
    sheet.put_own(
        "<p class=\"q lg\"><i class=\"sw s-l\"></i>in service, 92 days from the last granted reset or inspection <i class=\"sw s-w\"></i>seven days of grace, pieces of at most ",
    );
    sheet.put_mills(1000);
    sheet.put_own("</p>");
}
