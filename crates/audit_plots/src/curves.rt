//! Curves and bars, as the paths of a picture whose height is 1,000.
use crate::parts::level;
use audit_sheet::Sheet;

/// No value.
pub const NONE: u64 = u64::MAX;

/// The values, where each that is not known is that before it.
pub fn filled(values: &mut Vec<u64>) {
    let mut last = NONE;
    for at in 0..values.len() {
        if values[at] == NONE {
            values[at] = last;
        } else {
            last = values[at];
        }
    }
}

// How far below the top the value is; on the ground without one.
fn level_at(values: &[u64], at: usize, top: u64) -> u64 {
    match values.get(at) {
        Some(value) if *value != NONE => level(*value, top),
        _ => 1000,
    }
}

// Puts a step at this place to this height.
fn put_step(sheet: &mut Sheet, at: usize, height: u64) {
    sheet.put_own("H");
    sheet.put_number(at as u64);
    sheet.put_own("V");
    sheet.put_number(height);
}

// The place of the first value that is known.
fn start_of(values: &[u64]) -> Option<usize> {
    for at in 0..values.len() {
        if values[at] != NONE {
            return Some(at);
        }
    }
    None
}

// Puts the steps from this place on.
fn put_steps(sheet: &mut Sheet, values: &[u64], start: usize, top: u64) {
    let mut last = level_at(values, start, top);
    for at in start.saturating_add(1)..values.len() {
        let height = level_at(values, at, top);
        if height != last {
            put_step(sheet, at, height);
            last = height;
        }
    }
}

/// Puts the area under the values as a stair.
pub fn put_stair(sheet: &mut Sheet, values: &[u64], top: u64) {
    let Some(start) = start_of(values) else {
        return;
    };
    sheet.put_own("M");
    sheet.put_number(start as u64);
    sheet.put_own(" 1000V");
    sheet.put_number(level_at(values, start, top));
    put_steps(sheet, values, start, top);
    sheet.put_own("H");
    sheet.put_number(values.len() as u64);
    sheet.put_own("V1000Z");
}

// Puts the steps of the values backwards, down to this place.
fn put_steps_back(sheet: &mut Sheet, values: &[u64], start: usize, top: u64) {
    let count = values.len();
    let mut last = level_at(values, count.saturating_sub(1), top);
    for behind in 1..count {
        let at = count - 1 - behind;
        let height = level_at(values, at, top);
        if at >= start && height != last {
            put_step(sheet, at + 1, height);
            last = height;
        }
    }
}

/// Puts the band between two stairs of as many values.
pub fn put_band(sheet: &mut Sheet, low: &[u64], high: &[u64], top: u64) {
    let Some(start) = start_of(high) else {
        return;
    };
    sheet.put_own("M");
    sheet.put_number(start as u64);
    sheet.put_own(" ");
    sheet.put_number(level_at(high, start, top));
    put_steps(sheet, high, start, top);
    put_step(
        sheet,
        high.len(),
        level_at(low, low.len().saturating_sub(1), top),
    );
    put_steps_back(sheet, low, start, top);
    sheet.put_own("H");
    sheet.put_number(start as u64);
    sheet.put_own("Z");
}

/// Puts a bar for each value that is not 0, in cells that are ten wide.
pub fn put_bars(sheet: &mut Sheet, values: &[u64], top: u64) {
    for at in 0..values.len() {
        if values[at] > 0 {
            sheet.put_own("M");
            sheet.put_number((at as u64).saturating_mul(10).saturating_add(1));
            sheet.put_own(" 1000V");
            sheet.put_number(level(values[at], top));
            sheet.put_own("h8V1000Z");
        }
    }
}

/// Puts a line across its cell for each value that is not 0, in cells that are ten wide.
pub fn put_levels(sheet: &mut Sheet, values: &[u64], top: u64) {
    for at in 0..values.len() {
        if values[at] > 0 {
            sheet.put_own("M");
            sheet.put_number((at as u64).saturating_mul(10));
            sheet.put_own(" ");
            sheet.put_number(level(values[at], top));
            sheet.put_own("h10");
        }
    }
}
