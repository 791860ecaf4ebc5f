//! Refusals, by cause.
use crate::causes::cause_of;
use crate::places::device_at;
use audit_tally::{Place, one_more};
use bench_base::numbers::DayNo;
use std::alloc::{AllocError, Global};

/// Refusals of one cause.
#[derive(Clone, Copy)]
pub struct Refused {
    pub cause: usize,
    pub count: u64,
    /// The day of the first one.
    pub day: Option<DayNo>,
    pub last: Place,
    /// Whether it was this device, of each.
    pub devices: [bool; 8],
}

/// All refusals, in the order of the first of each cause.
#[derive(Drop)]
pub struct Refusals {
    rows: Vec<Refused>,
}

// The refusal with the device whose line this is, if it is one of a device.
fn with_device(row: &Refused, line: &[u8]) -> Refused {
    let mut devices = row.devices;
    let text = line.strip_prefix(b"refused ".as_slice()).unwrap_or(line);
    if let Some(at) = device_at(text) {
        if at < 8 {
            devices[at] = true;
        }
    }
    Refused { devices, ..*row }
}

impl Refusals {
    /// Nothing was refused.
    pub fn new(alloc: Global) -> Refusals {
        Refusals {
            rows: Vec::new(alloc),
        }
    }

    /// The refusals, a row a cause.
    pub fn as_slice(&self) -> &[Refused] {
        self.rows.as_slice()
    }

    // The place of this cause.
    fn find(&self, cause: usize) -> Option<usize> {
        for at in 0..self.rows.len() {
            if self.rows[at].cause == cause {
                return Some(at);
            }
        }
        None
    }

    // Counts one more of the cause in this place.
    fn again(&mut self, at: usize, place: Place, line: &[u8]) {
        let Some(row) = self.rows.get_mut(at) else {
            return;
        };
        let mut next = with_device(row, line);
        one_more(&mut next.count);
        next.last = place;
        *row = next;
    }

    /// Counts the line of a report, if it refuses something. AllocError is lack of memory.
    pub fn note(
        &mut self,
        place: Place,
        day: Option<DayNo>,
        line: &[u8],
    ) -> Result<(), AllocError> {
        let Some(cause) = cause_of(line) else {
            return Ok(());
        };
        if let Some(at) = self.find(cause) {
            self.again(at, place, line);
            return Ok(());
        }
        let first = Refused {
            cause,
            count: 1,
            day,
            last: place,
            devices: [false; 8],
        };
        self.rows.push(with_device(&first, line))?;
        Ok(())
    }
}
