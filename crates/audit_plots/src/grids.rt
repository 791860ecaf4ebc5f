//! The lines and labels of both axes.
use crate::axis::Axis;
use crate::parts::Ticks;
use audit_markup::{civil_of, month_name, month_of, month_start, part, put_hundredths, put_whole};
use audit_sheet::Sheet;

/// The most months that are named.
const MOST_NAMES: u32 = 13;

/// What an axis counts.
#[derive(Clone, Copy)]
pub enum Unit {
    Mills,
    Pieces,
}

/// The months that are named on an axis: `count` of them from `first` on, each `step` after the one before.
#[derive(Clone, Copy)]
struct Months {
    first: u32,
    count: u32,
    step: u32,
}

// Puts a line at this height, with its label.
fn put_line(sheet: &mut Sheet, height: u64, value: u64, unit: Unit) {
    sheet.put_own("<line class=\"gr\" x2=\"100%\" y1=\"");
    sheet.put_number(height);
    sheet.put_own("\" y2=\"");
    sheet.put_number(height);
    sheet.put_own("\"/><text class=\"ay\" x=\"-8\" y=\"");
    sheet.put_number(height.saturating_add(4));
    sheet.put_own("\">");
    match unit {
        Unit::Mills => put_whole(sheet, value),
        Unit::Pieces => sheet.put_number(value),
    }
    sheet.put_own("</text>");
}

// Puts the lines of the axis of values.
fn put_lines(sheet: &mut Sheet, ticks: Ticks, height: u64, unit: Unit) {
    let mut value = 0u64;
    for _ in 0..5 {
        if value <= ticks.top {
            let up = part(value, ticks.top, height);
            put_line(sheet, height.saturating_sub(up), value, unit);
        }
        value = value.saturating_add(ticks.step);
    }
}

// The months of this step that begin on the axis.
fn months_by(axis: &Axis, step: u32) -> Months {
    let step = step.max(1);
    let month = month_of(axis.first);
    let begun = if month_start(month) < axis.first {
        month.saturating_add(1)
    } else {
        month
    };
    let first = begun.div_ceil(step).saturating_mul(step);
    let last = month_of(axis.last);
    if first > last {
        return Months {
            first,
            count: 0,
            step,
        };
    }
    Months {
        first,
        count: ((last - first) / step).saturating_add(1),
        step,
    }
}

// The months that are named on the axis: each, each second or fourth, or those of a year each, each second, fifth or tenth.
fn months_of(axis: &Axis) -> Months {
    for step in [1u32, 2, 4, 12, 24, 60, 120] {
        let months = months_by(axis, step);
        if months.count <= MOST_NAMES {
            return months;
        }
    }
    months_by(axis, 240)
}

// How much of the axis these days are, in thousandths.
fn room(axis: &Axis, days: u64) -> u64 {
    part(days, axis.days(), 1000)
}

// How much room there is before the first month that is named.
fn room_before(axis: &Axis, months: &Months) -> u64 {
    if months.count == 0 {
        return room(axis, axis.cells);
    }
    room(axis, axis.offset(month_start(months.first)))
}

// Puts the label of the first day, if there is room for it.
fn put_first_day(sheet: &mut Sheet, axis: &Axis, room: u64, height: u64) {
    sheet.put_own(if room > 200 {
        "<text class=\"ax\" x=\"0\" y=\""
    } else {
        "<text class=\"ax wide\" x=\"0\" y=\""
    });
    sheet.put_number(height.saturating_add(17));
    sheet.put_own("\">");
    let civil = civil_of(axis.first);
    sheet.put_number(civil.day as u64);
    sheet.put_own(" ");
    sheet.put_own(month_name(civil.month));
    if room > 110 {
        sheet.put_own(" ");
        sheet.put_number(civil.year as u64);
    }
    sheet.put_own("</text>");
}

// Puts the tick of a month.
fn put_tick(sheet: &mut Sheet, across: u64, height: u64) {
    sheet.put_own("<line class=\"tk\" x1=\"");
    put_hundredths(sheet, across);
    sheet.put_own("\" x2=\"");
    put_hundredths(sheet, across);
    sheet.put_own("\" y1=\"");
    sheet.put_number(height);
    sheet.put_own("\" y2=\"");
    sheet.put_number(height.saturating_add(5));
    sheet.put_own("\"/>");
}

// Puts the name of a month, with its year or without.
fn put_month_name(sheet: &mut Sheet, months: &Months, at: u32, has_year: bool) {
    let month = months.first.saturating_add(at.saturating_mul(months.step));
    sheet.put_own(month_name(month % 12));
    if has_year {
        sheet.put_own(if months.count > 6 {
            "<tspan class=\"wide\"> "
        } else {
            "<tspan> "
        });
        sheet.put_number((month / 12) as u64);
        sheet.put_own("</tspan>");
    }
}

// Whether the month has its year: of each January, and of the first one if the first day has no label, where there is room.
fn has_year(axis: &Axis, months: &Months, at: u32, is_led: bool) -> bool {
    let month = months.first.saturating_add(at.saturating_mul(months.step));
    if month % 12 != 0 && (at != 0 || is_led) {
        return false;
    }
    let second = month_start(months.first.saturating_add(months.step));
    let days = axis
        .offset(second)
        .saturating_sub(axis.offset(month_start(months.first)));
    months.count <= 1 || room(axis, days) > 100 || at.saturating_add(1) == months.count
}

// Puts the tick and the name of a month.
fn put_month_mark(sheet: &mut Sheet, axis: &Axis, months: &Months, at: u32, height: u64) {
    let month = months.first.saturating_add(at.saturating_mul(months.step));
    let across = axis.begin(month_start(month));
    put_tick(sheet, across, height);
    sheet.put_own(if at % 2 == 1 && months.count > 4 {
        "<text class=\"ax alt\" x=\""
    } else {
        "<text class=\"ax\" x=\""
    });
    put_hundredths(sheet, across);
    sheet.put_own("\" dx=\"4\" y=\"");
    sheet.put_number(height.saturating_add(17));
    sheet.put_own("\">");
}

/// Puts the lines and labels of both axes; the picture is so many pixels high.
pub fn put_grid(sheet: &mut Sheet, axis: &Axis, ticks: Ticks, height: u64, unit: Unit) {
    put_lines(sheet, ticks, height, unit);
    let months = months_of(axis);
    let room = room_before(axis, &months);
    let is_led = room > 70;
    if is_led {
        put_first_day(sheet, axis, room, height);
    }
    for at in 0..months.count {
        put_month_mark(sheet, axis, &months, at, height);
        put_month_name(sheet, &months, at, has_year(axis, &months, at, is_led));
        sheet.put_own("</text>");
    }
}
