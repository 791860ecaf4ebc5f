//! The marks above and in the picture of a device: what it applied, and where it failed.
ghost use Rattle.std.specs.Prelude.{◌<◌};

use crate::tracks::Span;
use audit_facts::{Applied, DeviceStanding, PageContent};
use audit_markup::{end_symbol, put_date, put_hundredths, put_name, put_symbol};
use audit_panels::kind_name;
use audit_plots::Axis;
use audit_sheet::Sheet;
use audit_tally::{Incident, Mishap};
use bench_base::numbers::DevNo;
use bench_base::words::{Kind, Node};

/// The most marks of a kind, and the most amounts that are written.
const MOST_MARKS: usize = 400;

const MOST_WRITTEN: usize = 9;

/// No cell.
const NOWHERE: u64 = u64::MAX;

// The symbol of what was applied, and how far down it is.
fn symbol_of(kind: Kind) -> Option<(&'static str, &'static str)> {
    match kind {
        Kind::Reset => Some(("up", "-20")),
        Kind::Refund | Kind::Withdraw => Some(("down", "-20")),
        Kind::Audit => Some(("dot", "172")),
        Kind::Enrol => None,
    }
}

// The amount with its sign.
fn amount_of(applied: &Applied) -> i128 {
    let size = applied.size as i128;
    if applied.is_minus { -size } else { size }
}

fn put_applied(sheet: &mut Sheet, axis: &Axis, span: &Span, applied: &Applied) {
    let Some((name, down)) = symbol_of(applied.kind) else {
        return;
    };
    let day = span.within(applied.day);
    put_symbol(sheet, name, axis.middle(day), down);
    put_date(sheet, day);
    sheet.put_own(" ");
    sheet.put_own(kind_name(applied.kind));
    if applied.size > 0 {
        sheet.put_own(" ");
        sheet.put_mills(amount_of(applied));
    }
    end_symbol(sheet, name);
}

// The place of a kind among all.
fn place_of(kind: Kind) -> usize
    ensures { result < 5 }
{
    match kind {
        Kind::Enrol => 0,
        Kind::Reset => 1,
        Kind::Audit => 2,
        Kind::Refund => 3,
        Kind::Withdraw => 4,
    }
}

// Puts what the device applied, of each kind once in each cell: inspections, or all else.
fn put_all(
    sheet: &mut Sheet,
    page: &PageContent<'_>,
    axis: &Axis,
    span: &Span,
    device: DevNo,
    is_audit: bool,
) {
    let mut last = [NOWHERE; 5];
    let mut count = 0usize;
    for applied in page.facts.cells.applied().iter() {
        let cell = axis.cell(span.within(applied.day));
        let place = place_of(applied.kind);
        let is_shown = applied.device == device && (applied.kind == Kind::Audit) == is_audit;
        if is_shown && cell != last[place] && count < MOST_MARKS {
            put_applied(sheet, axis, span, applied);
            last[place] = cell;
            count = count.saturating_add(1);
        }
    }
}

/// Puts the resets, refunds and withdrawals of a device.
pub fn put_moves(
    sheet: &mut Sheet,
    page: &PageContent<'_>,
    axis: &Axis,
    span: &Span,
    device: DevNo,
) {
    put_all(sheet, page, axis, span, device, false);
}

/// Puts the inspections of a device.
pub fn put_rings(
    sheet: &mut Sheet,
    page: &PageContent<'_>,
    axis: &Axis,
    span: &Span,
    device: DevNo,
) {
    put_all(sheet, page, axis, span, device, true);
}

/// The cells above which an amount is written.
#[derive(Clone, Copy)]
struct Written {
    cells: [u64; 9],
    count: usize,
}

// Whether there is room for an amount above this cell.
fn has_room(axis: &Axis, written: &Written, cell: u64) -> bool {
    for at in 0..9 {
        let other = written.cells[at];
        if at < written.count && cell.abs_diff(other).saturating_mul(9) <= axis.cells {
            return false;
        }
    }
    true
}

// Whether the amount of this is written, if there is room.
fn is_writable(applied: &Applied, device: DevNo) -> bool {
    applied.device == device && applied.size > 0 && symbol_of(applied.kind).is_some()
}

// The greatest amount for which there is room: the first of these.
fn greatest<'a>(
    page: &PageContent<'a>,
    axis: &Axis,
    span: &Span,
    written: &Written,
    device: DevNo,
) -> Option<&'a Applied> {
    let mut found: Option<&'a Applied> = None;
    for applied in page.facts.cells.applied().iter() {
        let most = match found {
            Some(other) => other.size,
            None => 0,
        };
        let cell = axis.cell(span.within(applied.day));
        if applied.size > most && is_writable(applied, device) && has_room(axis, written, cell) {
            found = Some(applied);
        }
    }
    found
}

fn put_amount(sheet: &mut Sheet, axis: &Axis, day: i64, applied: &Applied) {
    let is_end = axis.cell(day).saturating_mul(10) > axis.cells.saturating_mul(9);
    sheet.put_own(if is_end {
        "<text class=\"lb wide end\" x=\""
    } else {
        "<text class=\"lb wide\" x=\""
    });
    put_hundredths(sheet, axis.middle(day));
    sheet.put_own(if is_end {
        "\" dx=\"6\" y=\"-25\">"
    } else {
        "\" dx=\"-6\" y=\"-25\">"
    });
    if !applied.is_minus {
        sheet.put_own("+");
    }
    sheet.put_mills(amount_of(applied));
    sheet.put_own("</text>");
}

/// Puts the greatest amounts of a device above its picture, where there is room.
pub fn put_amounts(
    sheet: &mut Sheet,
    page: &PageContent<'_>,
    axis: &Axis,
    span: &Span,
    device: DevNo,
) {
    let mut written = Written {
        cells: [NOWHERE; 9],
        count: 0,
    };
    for at in 0..MOST_WRITTEN {
        let Some(applied) = greatest(page, axis, span, &written, device) else {
            return;
        };
        let day = span.within(applied.day);
        put_amount(sheet, axis, day, applied);
        written.cells[at] = axis.cell(day);
        written.count = at + 1;
    }
}

// Whether the node is the device.
fn is_device(node: Node, device: DevNo) -> bool {
    match node {
        Node::Device(other) => other == device,
        Node::Centre | Node::Host | Node::Verifier => false,
    }
}

// The word for a failure of the device.
fn failure_of(incident: &Incident, device: DevNo) -> Option<&'static str> {
    match incident.mishap {
        Mishap::Power(node) if is_device(node, device) => Some("power"),
        Mishap::Fault(node) if is_device(node, device) => Some("fault"),
        Mishap::Power(_) | Mishap::Fault(_) | Mishap::Printer(_) | Mishap::Stop => None,
    }
}

fn put_failure(
    sheet: &mut Sheet,
    page: &PageContent<'_>,
    axis: &Axis,
    day: i64,
    incident: &Incident,
    word: &'static str,
) {
    put_symbol(sheet, "bolt", axis.middle(day), "6");
    put_date(sheet, day);
    sheet.put_own(" ");
    sheet.put_own(word);
    sheet.put_own(", ");
    if let Some(name) = page.names.get(incident.place.run) {
        put_name(sheet, name.as_str());
    }
    sheet.put_own(" line ");
    sheet.put_number(incident.place.line as u64);
    end_symbol(sheet, "bolt");
}

/// Puts the failures of a device, once in each cell.
pub fn put_failures(
    sheet: &mut Sheet,
    page: &PageContent<'_>,
    axis: &Axis,
    span: &Span,
    device: &DeviceStanding,
) {
    let mut last = NOWHERE;
    let mut count = 0usize;
    for incident in page.incidents.iter() {
        let (Some(word), Some(day)) = (failure_of(incident, device.device), incident.day) else {
            continue;
        };
        let day = span.within(day.get());
        let cell = axis.cell(day);
        if cell != last && count < MOST_MARKS {
            put_failure(sheet, page, axis, day, incident, word);
            last = cell;
            count = count.saturating_add(1);
        }
    }
}
