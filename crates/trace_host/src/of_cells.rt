//! The record of the host, by what its cells have.
ghost use Rattle.std.specs.Prelude.{◌≡◌, ◌≤◌, ℕ, IfOk, IfSome, IfNone, length};
ghost use Rattle.bench_base.specs.declared.sizes.TheConstants.{MOST_COMMITS};
ghost use Rattle.node_acts.specs.RowList.{commits_at, commits_in, row_at, row_of};
ghost use Rattle.host_jobs.specs.declared.sizes.TheConstants.{HOST_CELLS};
ghost use Rattle.host_jobs.specs.Seen.{IsKnown, rows_in};
ghost use Rattle.host_jobs.specs.Soundness.{ArePlaced};

use crate::record::{HostRecord, count_of};
use host_jobs::{HOST_CELLS, JobRow, JobRows, Kept};
use std::alloc::{AllocError, Global};

// How many commits the cells have.
fn count_all(cells: &[Option<(u32, JobRow)>]) -> u64
    requires { length cells.now ≡ HOST_CELLS }
    ensures value { result ≡ commits_in cells.now }
    ensures few { (k : ℕ) → commits_at (row_at cells.now k) ≤ MOST_COMMITS }
{
    let mut total = 0;
    for cell in cells {
        total += u64::from(count_of(cell));
    }
    total
}

fn job_of(cell: &Option<(u32, JobRow)>) -> Option<JobRow>
    ensures { result ≡ row_of cell.now }
{
    match cell {
        Some((_, row)) => Some(*row),
        None => None,
    }
}

// The jobs of the cells.
fn jobs_of(alloc: Global, cells: &[Option<(u32, JobRow)>]) -> Result<JobRows, AllocError>
    requires { length cells.now ≡ HOST_CELLS }
    ensures { IfOk result (λ jobs. jobs ≡ rows_in cells.now) }
{
    let mut jobs = JobRows::new(alloc)?;
    for cell in 0..HOST_CELLS {
        jobs.set(cell, job_of(&cells[cell as usize]));
    }
    Ok(jobs)
}

impl HostRecord {
    ghost use Rattle.trace_host.specs.Cells.{cells_of};

    /// The host whose cells have these commits and jobs, each job sound and in its own cell. None if and only if the jobs do not agree: see `Kept::of`.
    /// AllocError is lack of memory.
    pub fn of(
        alloc: Global,
        cells: Vec<Option<(u32, JobRow)>>,
    ) -> Result<Option<HostRecord>, AllocError>
        requires placed { ArePlaced (rows_in cells.items) }
        ensures some { IfOk result (λ found. IfSome found (λ r. (cells_of r ≡ cells.items) × IsKnown cells.items)) }
        ensures none { IfOk result (λ found. IfNone found (IsKnown cells.items → ⊥)) }
    {
        let total = count_all(cells.as_slice());
        let jobs = jobs_of(alloc, cells.as_slice())?;
        let Some(kept) = Kept::of(&jobs) else {
            return Ok(None);
        };
        Ok(Some(HostRecord {
            cells,
            jobs,
            kept,
            total,
        }))
    }
}
