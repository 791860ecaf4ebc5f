//! The jobs of the host, each with its piece and how far it came. Amounts are in mills.
use bench_base::numbers::{DayNo, DevNo};
use bench_base::words::JobState;
use psd_wire::DebitMsg;
use std::alloc::{AllocError, Global};

/// A job, by the commits that count.
#[derive(Clone, Copy)]
pub struct Job {
    pub device: DevNo,
    pub piece: u32,
    pub class: u16,
    pub postage: u64,
    pub state: JobState,
    /// The day when it came so far.
    pub day: Option<DayNo>,
    pub printed: bool,
    /// The day on which it was ordered, whether it held its mark, and whether its print was begun.
    pub ordered: Option<DayNo>,
    pub held: bool,
    pub begun: bool,
}

impl Job {
    // Whether the message asks for the mark of this job's piece.
    fn is_for(&self, debit: &DebitMsg) -> bool {
        self.device.get() == debit.device
            && self.piece == debit.piece
            && self.class == debit.class
            && self.postage == debit.postage as u64
    }
}

/// All jobs that were ordered, from job 1 on.
#[derive(Drop)]
pub struct Jobs {
    rows: Vec<Job>,
}

// The place of the job, counted from 0.
fn place(job: u32) -> Option<usize> {
    (job as usize).checked_sub(1)
}

impl Jobs {
    /// No job was ordered.
    pub fn new(alloc: Global) -> Jobs {
        Jobs {
            rows: Vec::new(alloc),
        }
    }

    /// The jobs, from job 1 on.
    pub fn as_slice(&self) -> &[Job] {
        self.rows.as_slice()
    }

    /// The job of this number; None if none was ordered under it.
    pub fn get(&self, job: u32) -> Option<Job> {
        self.rows.get(place(job)?).copied()
    }

    /// Keeps a job that was ordered under this number on this day, if it is the next one; of any other number nothing is kept. AllocError is lack of memory.
    pub fn order(
        &mut self,
        number: u32,
        device: DevNo,
        piece: u32,
        class: u16,
        postage: u64,
        day: Option<DayNo>,
    ) -> Result<(), AllocError> {
        if place(number) != Some(self.rows.len()) {
            return Ok(());
        }
        let ordered = day;
        let job = Job {
            device,
            piece,
            class,
            postage,
            state: JobState::Ordered,
            day,
            printed: false,
            ordered,
            held: false,
            begun: false,
        };
        self.rows.push(job)?;
        Ok(())
    }

    /// Keeps how far the job came, and its day.
    pub fn come(&mut self, job: u32, state: JobState, day: Option<DayNo>) {
        let Some(at) = place(job) else {
            return;
        };
        if let Some(row) = self.rows.get_mut(at) {
            row.state = state;
            row.day = day;
            row.held = row.held || state == JobState::Held;
            row.begun = row.begun || state == JobState::Begun;
        }
    }

    /// Keeps that the mark of the job was printed.
    pub fn print(&mut self, job: u32) {
        let Some(at) = place(job) else {
            return;
        };
        if let Some(row) = self.rows.get_mut(at) {
            row.printed = true;
        }
    }

    /// The last job that was ordered for what this message asks, if there is one.
    pub fn asked_by(&self, debit: &DebitMsg) -> Option<u32> {
        let count = self.rows.len();
        for behind in 0..count {
            let at = count - 1 - behind;
            if self.rows[at].is_for(debit) {
                return u32::try_from(at + 1).ok();
            }
        }
        None
    }
}
