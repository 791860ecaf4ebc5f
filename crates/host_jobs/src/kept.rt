//! The rows of all jobs, in memory that is lent once, and what is kept of them, so that no call walks them.
ghost use Rattle.std.specs.Prelude.{◌≡◌, ◌<◌, IfOk, set};
ghost use Rattle.std.specs.Option.{option_copied};
ghost use Rattle.bench_base.specs.Jobs as jobs;
ghost use Rattle.host_jobs.specs.Rows.{no_jobs, row_in, job_row, put_row};
ghost use Rattle.host_jobs.specs.Rows as told;
ghost use Rattle.host_jobs.specs.Soundness.{IsDerived, IsNext};

use crate::rows::JobRow;
use crate::sizes::HOST_CELLS;
use bench_base::words::JobState;
use std::alloc::{AllocError, Global};
use std::marker::Model;

/// Memory for the rows of 1,024 jobs, each in its cell.
#[derive(Drop)]
pub struct JobRows {
    rows: Vec<Option<JobRow>>,
}

impl Model for JobRows {
    ghost use Rattle.std.specs.Prelude.{◌≡◌, length};
    ghost use Rattle.host_jobs.specs.Rows.{Jobs};
    ghost use Rattle.host_jobs.specs.declared.sizes.TheConstants.{HOST_CELLS};

    ghost Value = { Jobs };

    ghost view = { λ r. r.rows.items };

    ghost invariant = { λ r. length r.rows.items ≡ HOST_CELLS };
}

/// What is kept of the rows.
#[derive(Clone, Copy)]
pub struct Kept {
    /// The last job; 0 if there is no job.
    pub last: u32,
    /// The job of each of the devices 1 to 8 that is ordered and neither held nor closed.
    pub open_jobs: [Option<u32>; 8],
    /// The greatest piece of each that was ever held; 0 where none was.
    pub tops: [u32; 8],
}

/// The cell of a job: job j lies in cell (j - 1) mod 1,024.
pub fn cell_of(job: u32) -> u32
    ensures { result ≡ jobs.cell_of job }
{
    job.saturating_sub(1) % HOST_CELLS
}

impl JobRows {
    /// Takes the memory. No job is there. AllocError is lack of memory.
    pub fn new(alloc: Global) -> Result<JobRows, AllocError>
        ensures { IfOk result (λ rows. rows ≡ no_jobs) }
    {
        let mut rows = Vec::with_capacity(alloc, HOST_CELLS as usize)?;
        for _cell in 0..HOST_CELLS {
            rows.push(None)?;
        }
        Ok(JobRows { rows })
    }

    /// The row in a cell, None where it is blank.
    pub fn get(&self, cell: u32) -> Option<&JobRow>
        requires { cell < HOST_CELLS }
        ensures { option_copied result ≡ row_in self.now cell }
    {
        self.rows[cell as usize].as_ref()
    }

    /// The row of the job, None where its cell does not hold it.
    pub fn job(&self, job: u32) -> Option<&JobRow>
        ensures { option_copied result ≡ job_row self.now job }
    {
        match self.get(cell_of(job)) {
            Some(row) if row.job == job => Some(row),
            _ => None,
        }
    }

    /// Puts a row into a cell, or makes it blank.
    pub fn set(&mut self, cell: u32, row: Option<JobRow>)
        requires { cell < HOST_CELLS }
        ensures { self.new ≡ set self.old cell row }
    {
        self.rows[cell as usize] = row;
    }

    /// Makes each cell blank.
    pub fn clear(&mut self)
        ensures { self.new ≡ no_jobs }
    {
        for cell in 0..self.rows.len() {
            self.rows[cell] = None;
        }
    }
}

// The open job of the row's device, with the row.
fn opened_by(row: &JobRow, open_job: Option<u32>) -> Option<u32>
    ensures { result ≡ told.opened_by row.now open_job }
{
    if matches!(row.state, JobState::Ordered) {
        return Some(row.job);
    }
    match open_job {
        Some(job) if job != row.job => Some(job),
        _ => None,
    }
}

impl Kept {
    /// What is kept where there is no job.
    pub fn none() -> Kept
        ensures { IsDerived no_jobs result }
    {
        Kept {
            last: 0,
            open_jobs: [None; 8],
            tops: [0; 8],
        }
    }

    // The same with the row that is written next.
    fn after(&self, row: &JobRow) -> Kept
        ensures { result ≡ told.kept_after self.now row.now }
    {
        let place = row.device.get() as usize - 1;
        let last = if self.last < row.job {
            row.job
        } else {
            self.last
        };
        let mut open_jobs = self.open_jobs;
        open_jobs[place] = opened_by(row, self.open_jobs[place]);
        Kept {
            last,
            open_jobs,
            tops: row.tops,
        }
    }
}

/// Puts the row that is written next into its cell, and keeps what follows from it.
pub fn put(rows: &mut JobRows, kept: &mut Kept, row: &JobRow)
    requires kept { IsDerived rows.old kept.old }
    requires next { IsNext rows.old row.now }
    ensures rows { rows.new ≡ put_row rows.old row.now }
    ensures kept { IsDerived rows.new kept.new }
{
    rows.set(cell_of(row.job), Some(*row));
    *kept = kept.after(row);
}
