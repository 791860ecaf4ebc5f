//! The record of the host, with the count of each of its cells.
ghost use Rattle.std.specs.Prelude.{◌≡◌, ◌<◌, [], false, IfOk};
ghost use Rattle.node_acts.specs.RowList.{commits_at, is_worn, put};
ghost use Rattle.host_jobs.specs.Records.{seen_after};
ghost use Rattle.host_jobs.specs.Seen as host;
ghost use Rattle.host_jobs.specs.Soundness.{IsDerived};
ghost use Rattle.host_node.specs.Unique.{kept_prop};
ghost use Rattle.trace_host.specs.Records.{AreJoined, IsFit};

use bench_base::sizes::MOST_COMMITS;
use host_jobs::{HOST_CELLS, JobRow, JobRows, JobsOf, Kept};
use node_acts::Holds;
use std::alloc::{AllocError, Global};
use trace_nodes::Record;

/// The jobs of the host in their cells, with the commits of each; and the jobs as they are read, with what is kept of them, beside.
#[derive(Drop)]
pub struct HostRecord {
    pub(crate) cells: Vec<Option<(u32, JobRow)>>,
    pub(crate) jobs: JobRows,
    pub(crate) kept: Kept,
    pub(crate) total: u64,
    ghost joined: { AreJoined cells.items jobs total },
    ghost follows: { IsDerived jobs kept } by { kept_prop jobs kept },
}

// The cell of a job.
pub(crate) fn cell_of(row: &JobRow) -> usize
    ensures value { result ≡ host.cell_of row.now }
    ensures inside { result < 1024 }
{
    row.job.saturating_sub(1) as usize % 1024
}

pub(crate) fn count_of(cell: &Option<(u32, JobRow)>) -> u32
    ensures { result ≡ commits_at cell.now }
{
    match cell {
        Some((count, _)) => *count,
        None => 0,
    }
}

// Puts the job into its cell, and beside.
fn put_in(
    cells: &mut Vec<Option<(u32, JobRow)>>,
    jobs: &mut JobRows,
    kept: &mut Kept,
    total: &mut u64,
    row: &JobRow,
)
    requires joined { AreJoined cells.old.items jobs.old total.old }
    requires kept { IsDerived jobs.old kept.old }
    requires fits { IsFit cells.old.items row.now }
    requires room { is_worn cells.old.items (host.cell_of row.now) ≡ false }
    ensures put { cells.new.items ≡ put cells.old.items (host.cell_of row.now) row.now }
    ensures joined { AreJoined cells.new.items jobs.new total.new }
    ensures kept { IsDerived jobs.new kept.new }
{
    let cell = cell_of(row);
    let count = count_of(&cells[cell]);
    cells[cell] = Some((count + 1, *row));
    host_jobs::put(jobs, kept, row);
    *total += 1;
}

// The cells of a host without a job.
fn no_cells(alloc: Global) -> Result<Vec<Option<(u32, JobRow)>>, AllocError>
    ensures { IfOk result (λ cells. cells.items ≡ seen_after []) }
{
    let mut cells = Vec::with_capacity(alloc, HOST_CELLS as usize)?;
    for _cell in 0..HOST_CELLS {
        cells.push(None)?;
    }
    Ok(cells)
}

impl HostRecord {
    ghost use Rattle.trace_host.specs.Cells.{cells_of};

    /// The cells: None of a blank one, otherwise its commits and its job.
    pub fn cells(&self) -> &[Option<(u32, JobRow)>]
        ensures { result.now ≡ cells_of self.now }
    {
        self.cells.as_slice()
    }

    /// A host without a job: as it is seen before the first commit. AllocError is lack of memory.
    pub fn blank(alloc: Global) -> Result<HostRecord, AllocError>
        ensures { IfOk result (λ r. cells_of r ≡ seen_after []) }
    {
        let cells = no_cells(alloc)?;
        let jobs = JobRows::new(alloc)?;
        Ok(HostRecord {
            cells,
            jobs,
            kept: Kept::none(),
            total: 0,
        })
    }
}

impl Holds for HostRecord {
    type By = HostRecord;
}

impl JobsOf<HostRecord> for HostRecord {
    ghost use Rattle.trace_host.specs.Cells.{cells_of};

    ghost jobs = { λ r. host.rows_in (cells_of r) };

    fn jobs(&self) -> &JobRows {
        &self.jobs
    }

    fn kept(&self) -> &Kept {
        &self.kept
    }
}

impl Record<JobRow> for HostRecord {
    ghost Seen = { host.Seen };

    ghost counting = { host.counting };

    ghost IsFit = { λ s x. IsFit s x };

    ghost seen = { λ r. r.cells.items };

    fn commits(&self) -> u64 {
        self.total
    }

    fn is_worn(&self, change: &JobRow) -> bool {
        count_of(&self.cells[cell_of(change)]) == MOST_COMMITS
    }

    fn put(&mut self, change: &JobRow) {
        put_in(
            &mut self.cells,
            &mut self.jobs,
            &mut self.kept,
            &mut self.total,
            change,
        );
    }
}
