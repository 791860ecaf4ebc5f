//! What is known of each run, and the lines that are shown of some.
use audit_tally::Place;
use bench_base::numbers::DayNo;

/// How a run of which nothing was found ended. Numbers are those of lines of its script.
#[derive(Clone, Copy)]
pub enum RunState {
    Lawful,
    Stopped(u32),
    EndsBadly(u32),
    TooLong,
}

/// A run of which nothing was found.
#[derive(Clone, Copy)]
pub struct RunFact {
    pub state: RunState,
    pub answers: u32,
    pub first: Option<DayNo>,
    pub last: Option<DayNo>,
}

/// A line of a script and its answer.
#[derive(Drop)]
pub struct Lines {
    pub script: Vec<u8>,
    pub answer: Vec<u8>,
}

/// A mark that was printed.
#[derive(Clone, Copy)]
pub struct Printed {
    pub place: Place,
    pub job: u32,
}
