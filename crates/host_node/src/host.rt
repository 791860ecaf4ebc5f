//! The running host: its jobs in its storage, and the commit that failed.
ghost use Rattle.std.specs.Prelude.{◌≡◌, ◌≢◌, IfOk, IfErr, MatchResult, Err, false};
ghost use Rattle.host_jobs.specs.declared.sizes.TheConstants.{JOB_BYTES, HOST_BYTES};
ghost use Rattle.nv_store.specs.Turns.{Kept as WithPower};
ghost use Rattle.node_storage.specs.Does.{Reads, Spends, SpendsOne, SyncsOnce};
ghost use Rattle.node_storage.specs.Ends.{end_of_boot};
ghost use Rattle.host_jobs.specs.Seen.{counting};
ghost use Rattle.host_jobs.specs.Soundness.{IsDerived};
ghost use Rattle.host_node.specs.Payloads.{IsDamaged};
ghost use Rattle.host_node.specs.Table.{host_table};
ghost use Rattle.row_node.specs.Boots.{AllShowSound};

use crate::rows::{HostRoom, HostRows};
use bench_base::ledger::Commit;
use bench_base::refusals::{BootFail, HostFail};
use host_jobs::{HostAct, JobRows, JobsOf, Kept};
use nv_model::{Fused, Nv};
use row_node::RunningRows;

/// The host over storage of 245,760 bytes: 1,024 cells, each with a job. Job j lies in cell (j - 1) mod 1,024.
#[derive(Drop)]
pub struct Host<N: Nv> {
    pub(crate) rows: RunningRows<N, HostRows>,
}

impl<N: Nv> Host<N> {
    ghost use Rattle.host_node.specs.HostView.{storage_of, seen_of, rows_of, torn_of, Starts, CanCommit, Performs};

    /// The host in its storage and in this memory, or why it does not start, with both. Power is not lost. Nothing is written.
    ///
    /// `Damaged` if the storage has not 245,760 bytes, or if a cell has an open slot of count 0 or two open slots of equal
    /// counts. Also if a current payload reads as no job of its cell, or if the jobs do not agree. They do not agree if one of
    /// the last 1,024 is missing, two of a device are ordered, or one is ordered for a piece that is not above the device's
    /// top. Blank storage is a host without jobs.
    pub fn boot(nv: N, room: HostRoom) -> Result<Host<N>, (N, HostRoom, BootFail)>
        requires { (N.meters nv).lost ≡ false }

        // What starts is what the storage shows, and nothing is written.
        ensures starts { IfOk result Starts }
        ensures reads { MatchResult result (λ h. Reads N.Nv nv (storage_of h)) (λ e. Reads N.Nv nv e.0) }

        // Why it fails, and what it costs.
        ensures size { N.size nv ≢ HOST_BYTES → IfErr result (λ e. (e.0 ≡ nv) × (e.2 ≡ BootFail.Damaged)) }
        ensures damaged { N.tells → MatchResult result (λ h. IsDamaged N.Nv (storage_of h) → ⊥)
            (λ e. e.2 ≡ BootFail.Damaged → IsDamaged N.Nv e.0) }
        ensures sound { N.tells → N.size nv ≡ HOST_BYTES → AllShowSound host_table JOB_BYTES N.Nv nv → IfErr result (λ e. e.2 ≢ BootFail.Damaged) }
        ensures spent { MatchResult result (λ h. Spends N.Nv 1 nv (storage_of h) WithPower) (λ e. Spends N.Nv 1 nv e.0 (end_of_boot (Err e.2))) }
        ensures once { MatchResult result (λ h. SpendsOne N.Nv nv (storage_of h)) (λ e. SyncsOnce N.Nv HOST_BYTES nv e.0 (Err e.2)) }
    {
        match RunningRows::boot(nv, room) {
            Ok(rows) => Ok(Host { rows }),
            Err(fail) => Err(fail),
        }
    }

    /// The jobs.
    pub(crate) fn jobs(&self) -> &JobRows
        ensures { result.now ≡ rows_of self.now }
    {
        self.rows.node().jobs()
    }

    /// What is kept of them.
    pub(crate) fn kept(&self) -> &Kept
        ensures { IsDerived (rows_of self.now) result.now }
    {
        self.rows.node().kept()
    }

    // Does what a call decided on: see `RunningRows::perform`.
    pub(crate) fn perform<A: Copy>(&mut self, act: HostAct<A>) -> Result<A, HostFail>
        requires fits { CanCommit act self.old }
        ensures { Performs act self.old self.new result }
    {
        self.rows.perform(act)
    }

    /// The number of commits.
    pub fn commits(&self) -> u64
        ensures { result ≡ counting.count (seen_of self.now) }
    {
        self.rows.commits()
    }

    /// The commit that a call of this value which answered Power or Fault would have added; None if and only if no call did.
    pub fn torn(&self) -> Option<Commit>
        ensures { result ≡ torn_of self.now }
    {
        self.rows.torn()
    }

    /// Gives the storage and the memory back.
    pub fn shut(self) -> (N, HostRoom)
        ensures { result.0 ≡ storage_of self }
    {
        let Host { rows } = self;
        rows.shut()
    }
}

impl<M: Nv> Host<Fused<M>> {
    ghost use Rattle.nv_model.specs.Fuses.{inside, state_of};
    ghost use Rattle.nv_model.specs.Still.{armed};
    ghost use Rattle.host_node.specs.HostView.{storage_of, seen_of, torn_of};

    /// Arms the fuse of the storage: see `Fused::arm`.
    pub fn arm(&mut self, calls: u32, keep: u32, byte: u8)
        ensures armed { state_of (storage_of self.new) ≡ armed calls keep byte (state_of (storage_of self.old)) }
        ensures inside { inside (storage_of self.new) ≡ inside (storage_of self.old) }
        ensures seen { seen_of self.new ≡ seen_of self.old }
        ensures torn { torn_of self.new ≡ torn_of self.old }
    {
        self.rows.arm(calls, keep, byte);
    }
}
