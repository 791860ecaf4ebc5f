//! What is known by day as values of cells and sums of months. Amounts are in mills.
use audit_facts::{Cell, Standing};
use audit_markup::{month_of, put_month};
use audit_plots::{Axis, NONE, filled};
use audit_sheet::Sheet;
use std::alloc::{AllocError, Global};

/// The most months of a table.
const MOST_MONTHS: u32 = 60;

/// The first day and the last. Days outside count as those.
#[derive(Clone, Copy)]
pub struct Span {
    pub first: i64,
    pub last: i64,
}

/// The days of the runs, if a day was page.
pub fn span_of(standing: &Standing) -> Option<Span> {
    let (first, last) = standing.days?;
    let last = i64::from(last.get());
    Some(Span {
        first: i64::from(first.get()).min(last),
        last,
    })
}

impl Span {
    /// The day, or the first or the last one if it is outside.
    pub fn within(&self, day: i32) -> i64 {
        i64::from(day).max(self.first).min(self.last)
    }
}

/// The months of a span: `shown` is the first that a table has.
#[derive(Clone, Copy)]
pub struct Months {
    pub first: u32,
    pub shown: u32,
    /// The month after the last.
    pub end: u32,
}

/// The months of a span.
pub fn months_of(span: &Span) -> Months {
    let first = month_of(span.first);
    let end = month_of(span.last).saturating_add(1);
    Months {
        first,
        shown: first.max(end.saturating_sub(MOST_MONTHS)),
        end,
    }
}

// What happened in both.
fn sum_of(sum: &Cell, cell: &Cell) -> Cell {
    Cell {
        paid: sum.paid.saturating_add(cell.paid),
        loaded: sum.loaded.saturating_add(cell.loaded),
        returned: sum.returned.saturating_add(cell.returned),
        franked: sum.franked.saturating_add(cell.franked),
        pieces: sum.pieces.saturating_add(cell.pieces),
        ..*cell
    }
}

/// What happened in the months from the first up to the end, with what was left at the end of the last one or before.
pub fn month_sum(cells: &[Cell], span: &Span, first: u32, end: u32) -> Cell {
    let mut sum = Cell {
        day: 0,
        paid: 0,
        loaded: 0,
        returned: 0,
        franked: 0,
        pieces: 0,
        level: 0,
        has_level: false,
        flight: 0,
        has_flight: false,
    };
    for cell in cells.iter() {
        let month = month_of(span.within(cell.day));
        if month < first {
            sum.level = cell.level;
            sum.has_level = cell.has_level;
        } else if month < end {
            sum = sum_of(&sum, cell);
        }
    }
    sum
}

/// Begins the row of a month.
pub fn put_month_head(sheet: &mut Sheet, month: u32) {
    sheet.put_own("<tr><th scope=\"row\">");
    put_month(sheet, month);
    sheet.put_own("</th>");
}

/// What a curve shows.
#[derive(Clone, Copy)]
pub(crate) enum Track {
    Franked,
    /// What was ever loaded and not given back: what is franked, and what is left on top of it.
    Total,
    Level,
    Flight,
}

// The value of a curve after this cell, where so much was franked up to it.
fn value_of(cell: &Cell, franked: u64, track: Track) -> u64 {
    let is_known = match track {
        Track::Flight => cell.has_flight,
        Track::Franked | Track::Total | Track::Level => cell.has_level,
    };
    if !is_known {
        return NONE;
    }
    match track {
        Track::Franked => franked,
        Track::Total => franked.saturating_add(cell.level),
        Track::Level => cell.level,
        Track::Flight => cell.flight,
    }
}

/// The values of a curve: of each cell of the axis that at its end. AllocError is lack of memory.
pub(crate) fn track_of(
    alloc: Global,
    axis: &Axis,
    span: &Span,
    cells: &[Cell],
    track: Track,
) -> Result<Vec<u64>, AllocError> {
    let count = usize::try_from(axis.cells).unwrap_or(0);
    let mut values = vec![in alloc; NONE; count]?;
    let mut franked = 0u64;
    for cell in cells.iter() {
        franked = franked.saturating_add(cell.franked);
        let value = value_of(cell, franked, track);
        let at = usize::try_from(axis.cell(span.within(cell.day))).unwrap_or(0);
        if value != NONE && at < values.len() {
            values[at] = value;
        }
    }
    filled(&mut values);
    Ok(values)
}
