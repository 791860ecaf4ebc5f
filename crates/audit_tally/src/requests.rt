//! What devices asked of the centre.
use crate::place::Place;
use bench_base::numbers::{DayNo, DevNo};
use bench_base::words::{Kind, Verdict};

/// What a device asked.
#[derive(Clone, Copy)]
pub struct Ask {
    pub number: u32,
    pub kind: Kind,
    /// The amount of a reset, a refund or a withdrawal, in mills.
    pub asked: Option<u64>,
    pub day: Option<DayNo>,
}

/// A request that was not granted, and the line of its ruling.
#[derive(Clone, Copy)]
pub struct Ungranted {
    pub place: Place,
    pub device: DevNo,
    pub ask: Ask,
    pub verdict: Verdict,
}
