//! A run that is whole in memory, line by line.
ghost use Rattle.std.specs.Prelude.{◌≤◌, length};

use crate::own::OwnLine;
use memchr::memchr;

/// The most lines of a script that are looked at, as by a judgement.
pub(crate) const LINES: u32 = 1_000_000;

/// A run, whole in memory.
#[derive(Drop)]
pub struct Run {
    pub script: Vec<u8>,
    pub report: Vec<u8>,
    pub rates: Vec<u8>,
    /// For each line of the script, the number under which it is reported; None if they are numbered from 1 on.
    pub lines: Option<Vec<u32>>,
    /// The lines of its own that were answered, in their order. Their events are among those of the script.
    pub own: Vec<OwnLine>,
}

/// What is left of a run.
#[derive(Clone, Copy)]
pub(crate) struct Left<'a> {
    pub script: &'a [u8],
    pub report: &'a [u8],
    pub rates: &'a [u8],
}

impl Run {
    // All of it.
    pub(crate) fn whole(&self) -> Left<'_> {
        Left {
            script: self.script.as_slice(),
            report: self.report.as_slice(),
            rates: self.rates.as_slice(),
        }
    }

    // How many lines are looked at.
    pub(crate) fn most(&self) -> usize {
        match &self.lines {
            Some(lines) => lines.len(),
            None => LINES as usize,
        }
    }

    // The number of the line at this place, counted from 0.
    pub(crate) fn number_at(&self, place: usize) -> u32 {
        match &self.lines {
            Some(lines) => lines.get(place).copied().unwrap_or(0),
            None => u32::try_from(place).unwrap_or(LINES).saturating_add(1),
        }
    }
}

// The place of the first line end, or the end.
pub(crate) fn line_len(bytes: &[u8]) -> usize
    ensures { result ≤ length bytes.now }
{
    match memchr(b'\n', bytes) {
        Some(at) => at,
        None => bytes.len(),
    }
}

// What is left after so many bytes.
pub(crate) fn behind(bytes: &[u8], taken: usize) -> &[u8] {
    if taken < bytes.len() {
        &bytes[taken..]
    } else {
        &[]
    }
}

// What is left after the first line and its line end.
pub(crate) fn behind_line(bytes: &[u8]) -> &[u8] {
    let end = line_len(bytes);
    if end < bytes.len() {
        &bytes[end + 1..]
    } else {
        &[]
    }
}
