//! Days on a line.
use audit_markup::part;

/// The days from `first` on, in cells of `size` days each.
#[derive(Clone, Copy)]
pub struct Axis {
    pub first: i64,
    pub last: i64,
    /// How many days a cell has.
    pub size: u64,
    pub cells: u64,
}

// How many days there are from the first to the last.
fn days_between(first: i64, last: i64) -> u64 {
    u64::try_from(last.saturating_sub(first)).unwrap_or(0)
}

// How many days a cell has: one, or the least number of whole weeks with which so many cells suffice.
fn size_for(days: u64, most: u64) -> u64 {
    if days < most {
        return 1;
    }
    let spans = days / 7 / most.max(1);
    spans.saturating_add(1).saturating_mul(7)
}

impl Axis {
    /// The days from the first to the last in at most so many cells, of a day each, or of 7, 14, 21 .. days.
    pub fn new(first: i64, last: i64, most: u32) -> Axis {
        let days = days_between(first, last);
        let size = size_for(days, most as u64);
        Axis {
            first,
            last,
            size,
            cells: (days / size.max(1)).saturating_add(1),
        }
    }

    /// The same, where cells of weeks begin on a Monday.
    pub fn weekly(first: i64, last: i64, most: u32) -> Axis {
        let axis = Axis::new(first, last, most);
        if axis.size == 1 {
            return axis;
        }
        let back = first.saturating_add(3).rem_euclid(7);
        let monday = first.saturating_sub(back);
        let days = days_between(monday, last);
        Axis {
            first: monday,
            cells: (days / axis.size.max(1)).saturating_add(1),
            ..axis
        }
    }

    /// How many days there are in all cells.
    pub fn days(&self) -> u64 {
        self.cells.saturating_mul(self.size)
    }

    /// How many days the day is after the first one.
    pub fn offset(&self, day: i64) -> u64 {
        days_between(self.first, day)
    }

    /// The cell of the day.
    pub fn cell(&self, day: i64) -> u64 {
        let cell = self.offset(day) / self.size.max(1);
        cell.min(self.cells.saturating_sub(1))
    }

    /// Where the day begins, in hundredths of a per cent.
    pub fn begin(&self, day: i64) -> u64 {
        part(self.offset(day), self.days(), 10_000)
    }

    /// Where the middle of the day is, in hundredths of a per cent.
    pub fn middle(&self, day: i64) -> u64 {
        let halves = self.offset(day).saturating_mul(2).saturating_add(1);
        part(halves, self.days(), 5_000)
    }
}
