//! The content of a page: runs, finding and prints.
use crate::facts::Facts;
use crate::standing::Standing;
use audit_tally::{Incident, Job, OwnSums, Pieces, Ungranted};
use bench_base::numbers::DayNo;

/// What a page shows of the runs that have no finding.
#[derive(Clone, Copy)]
pub struct PageContent<'a> {
    /// The names of all runs, also of those that were not judged.
    pub names: &'a [String],
    pub facts: &'a Facts,
    pub standing: &'a Standing,
    pub jobs: &'a [Job],
    pub pieces: &'a Pieces,
    pub incidents: &'a [Incident],
    pub ungranted: &'a [Ungranted],
    pub own: &'a OwnSums,
    /// For each run, the digest of all runs up to and including it.
    pub digests: &'a [[u8; 32]],
}

/// How a run's report differs from what a meter may have answered.
#[derive(Clone, Copy)]
pub enum FindingKind {
    Wrong,
    Forged,
    More,
}

/// The finding in a run: where it is, the answer that was due, and the run.
#[derive(Drop)]
pub struct RunFinding {
    pub kind: FindingKind,
    pub run: usize,
    pub line: u32,
    pub day: Option<DayNo>,
    pub due: Vec<u8>,
    pub script: Vec<u8>,
    pub report: Vec<u8>,
}

/// Whether the prints are those of the runs.
#[derive(Clone, Copy)]
pub enum PrintsState {
    Fit,
    /// Another line is there in place of that of a print.
    Differ,
    /// The file goes on after the last print.
    GoOn,
}

/// Whether prints fit, and the first place that differs.
#[derive(Drop)]
pub struct PrintsFinding {
    pub state: PrintsState,
    pub file: String,
    /// The run and the line of the print, and its line in the file.
    pub run: usize,
    pub line: u32,
    pub number: u64,
    /// How many marks the runs printed, and how many lines of the file were read.
    pub marks: u64,
    pub lines: u64,
}

/// What was found.
#[derive(Clone, Copy)]
pub struct Found<'a> {
    pub finding: Option<&'a RunFinding>,
    pub prints: Option<&'a PrintsFinding>,
    /// The file of marks that were seen on mail.
    pub seen: Option<&'a str>,
}
