//! The jobs of the host, as its node keeps them, and the node.
ghost use Rattle.std.specs.Prelude.{◌≡◌, length};
ghost use Rattle.host_jobs.specs.declared.sizes.TheConstants.{HOST_CELLS};

use crate::boot::read_jobs;
use host_jobs::{HOST_CELLS, JOB_BYTES, JobRow, JobRows, Kept, cell_of, put};
use nv_store::Room;
use row_node::{RowNode, RowRoom, Rows};
use std::alloc::{AllocError, Global};

/// The jobs that the cells hold, and what is kept of them.
#[derive(Drop)]
pub struct HostRows {
    pub(crate) jobs: JobRows,
    pub(crate) kept: Kept,
    ghost long: { length jobs ≡ HOST_CELLS },
}

/// Memory for the 1,024 cells of the host, and for the rows of their jobs.
pub type HostRoom = RowRoom<HostRows>;

/// The host over storage of 245,760 bytes: 1,024 cells of two slots, each with a job as payload. While it is off, what it
/// knew of its storage counts for nothing.
pub type HostNode<N> = RowNode<N, HostRows>;

impl Rows for HostRows {
    ghost use Rattle.host_node.specs.Table.{host_table, host_laws};

    type Change = JobRow;

    type Memory = Room<JOB_BYTES>;

    ghost table = { host_table };

    ghost laws = { host_laws };

    fn cells() -> u32 {
        HOST_CELLS
    }

    fn new(alloc: Global) -> Result<HostRows, AllocError> {
        let jobs = JobRows::new(alloc)?;
        Ok(HostRows {
            jobs,
            kept: Kept::none(),
        })
    }

    fn clear(&mut self) {
        self.jobs.clear();
        self.kept = Kept::none();
    }

    fn cell_of(row: &JobRow) -> u32 {
        cell_of(row.job)
    }

    fn payload_with(&self, _cells: &Room<JOB_BYTES>, row: &JobRow) -> [u8; JOB_BYTES] {
        row.write_payload()
    }

    fn take(&mut self, _cells: &Room<JOB_BYTES>, row: &JobRow, _blank: bool) {
        put(&mut self.jobs, &mut self.kept, row);
    }

    fn read(&mut self, cells: &Room<JOB_BYTES>) -> bool {
        let Ok(()) = read_jobs(cells, &mut self.jobs) else {
            return false;
        };
        match Kept::of(&self.jobs) {
            Some(kept) => {
                self.kept = kept;
                true
            }
            None => false,
        }
    }
}
