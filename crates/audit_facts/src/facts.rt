//! What is kept of runs for a page, while they are gone over.
use crate::cells::Cells;
use crate::refusals::Refusals;
use crate::runs::{Lines, Printed, RunFact, RunState};
use audit_journal::{Amount, JournalEntry};
use audit_tally::Place;
use bench_base::numbers::DayNo;
use std::alloc::{AllocError, Global};

/// What is kept of runs.
#[derive(Drop)]
pub struct Facts {
    /// Whether something is kept at all.
    is_kept: bool,
    /// Whether some amount is no whole cent.
    pub has_mills: bool,
    pub cells: Cells,
    pub refusals: Refusals,
    pub prints: Vec<Printed>,
    pub runs: Vec<RunFact>,
    /// The lines of the first incidents, in their order.
    pub lines: Vec<Lines>,
    first: Option<DayNo>,
    last: Option<DayNo>,
}

// Whether the amount is no whole cent.
fn has_mills(amount: &Option<Amount>) -> bool {
    match amount {
        Some(amount) => amount.size % 10 != 0,
        None => false,
    }
}

impl Facts {
    /// Nothing is known yet; what is entered is kept, or not. AllocError if memory runs out.
    pub fn new(alloc: Global, is_kept: bool) -> Result<Facts, AllocError> {
        let cells = Cells::new(alloc)?;
        Ok(Facts {
            is_kept,
            has_mills: false,
            cells,
            refusals: Refusals::new(alloc),
            prints: Vec::new(alloc),
            runs: Vec::new(alloc),
            lines: Vec::new(alloc),
            first: None,
            last: None,
        })
    }

    /// Begins a run.
    pub fn begin(&mut self) {
        self.first = None;
        self.last = None;
    }

    /// Keeps the day of a line.
    pub fn date(&mut self, day: Option<DayNo>) {
        let Some(day) = day else {
            return;
        };
        if self.first.is_none() {
            self.first = Some(day);
        }
        self.last = Some(day);
    }

    /// Ends a run of which nothing was found. AllocError is lack of memory.
    pub fn end(&mut self, state: RunState, answers: u32) -> Result<(), AllocError> {
        if !self.is_kept {
            return Ok(());
        }
        let run = RunFact {
            state,
            answers,
            first: self.first,
            last: self.last,
        };
        self.runs.push(run)?;
        Ok(())
    }

    /// Keeps a commit that counts. AllocError is lack of memory.
    pub fn enter(&mut self, entry: &JournalEntry) -> Result<(), AllocError> {
        if !self.is_kept {
            return Ok(());
        }
        self.has_mills = self.has_mills || has_mills(&entry.amount);
        self.cells.enter(entry)
    }

    /// Keeps that a line of a run's own changed a sum by this.
    pub fn change(&mut self, amount: &Option<Amount>) {
        self.has_mills = self.has_mills || has_mills(amount);
    }

    /// Keeps a mark that was printed. AllocError is lack of memory.
    pub fn print(&mut self, place: Place, job: u32) -> Result<(), AllocError> {
        if !self.is_kept {
            return Ok(());
        }
        self.prints.push(Printed { place, job })?;
        Ok(())
    }

    /// Keeps a line of a report, if it refuses something. AllocError is lack of memory.
    pub fn refuse(
        &mut self,
        place: Place,
        day: Option<DayNo>,
        line: &[u8],
    ) -> Result<(), AllocError> {
        if !self.is_kept {
            return Ok(());
        }
        self.refusals.note(place, day, line)
    }

    /// Keeps the lines of an incident, the next after those that are kept. AllocError is lack of memory.
    pub fn show(&mut self, script: Vec<u8>, answer: Vec<u8>) -> Result<(), AllocError> {
        self.lines.push(Lines { script, answer })?;
        Ok(())
    }
}
