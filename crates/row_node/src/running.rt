//! A running node of rows: its rows in its storage, and the commit of it that failed.
ghost use Rattle.std.specs.Prelude.{◌≡◌, ◌≢◌, IfOk, IfErr, MatchResult, Err, false, not, is_some};
ghost use Rattle.nv_store.specs.Turns.{Kept};
ghost use Rattle.node_storage.specs.Does.{Reads, Spends, SpendsOne, SyncsOnce};
ghost use Rattle.node_storage.specs.Ends.{end_of_boot};
ghost use Rattle.row_node.specs.Tables.{IsDamaged, bytes_of, counting};
ghost use Rattle.row_node.specs.NodeView.{storage_in, is_on};
ghost use Rattle.row_node.specs.Boots.{AllShowSound};

use crate::node::RowNode;
use crate::room::RowRoom;
use crate::rows::Rows;
use bench_base::ledger::Commit;
use bench_base::refusals::{BootFail, Fail};
use node_acts::Act;
use node_storage::Running;
use nv_model::{Fused, Nv};

/// A node of rows that was on when it was taken, and the commit that failed, after which no other is tried.
#[derive(Drop)]
pub struct RunningRows<N: Nv, R: Rows> {
    pub(crate) running: Running<RowNode<N, R>>,
    ghost runs: { is_on running.node ≡ not (is_some running.torn) },
    ghost size: { N.size (storage_in running.node) ≡ bytes_of R.table R.Memory.size },
}

impl<N: Nv, R: Rows> RunningRows<N, R> {
    ghost use Rattle.row_node.specs.RunningView.{storage_of, seen_of, node_of, torn_of, Starts, CanCommit, Performs};

    /// The rows in their storage and in this memory, or why they do not start, with both. Power is not lost. Nothing is
    /// written. `Damaged` where the size is another, a cell is mixed, a payload reads as no row of its cell, or the rows do
    /// not agree.
    pub fn boot(nv: N, room: RowRoom<R>) -> Result<RunningRows<N, R>, (N, RowRoom<R>, BootFail)>
        requires { (N.meters nv).lost ≡ false }

        // What starts is what the storage shows, and nothing is written.
        ensures starts { IfOk result Starts }
        ensures reads { MatchResult result (λ r. Reads N.Nv nv (storage_of r)) (λ e. Reads N.Nv nv e.0) }

        // Why it fails, and what it costs.
        ensures size { N.size nv ≢ bytes_of R.table R.Memory.size
            → IfErr result (λ e. (e.0 ≡ nv) × (e.2 ≡ BootFail.Damaged)) }
        ensures damaged { N.tells
            → MatchResult result (λ r. IsDamaged R.table R.Memory.size N.Nv (storage_of r) → ⊥)
            (λ e. e.2 ≡ BootFail.Damaged → IsDamaged R.table R.Memory.size N.Nv e.0) }
        ensures sound { N.tells → N.size nv ≡ bytes_of R.table R.Memory.size
            → AllShowSound R.table R.Memory.size N.Nv nv → IfErr result (λ e. e.2 ≢ BootFail.Damaged) }
        ensures spent { MatchResult result (λ r. Spends N.Nv 1 nv (storage_of r) Kept)
            (λ e. Spends N.Nv 1 nv e.0 (end_of_boot (Err e.2))) }
        ensures once { MatchResult result (λ r. SpendsOne N.Nv nv (storage_of r))
            (λ e. SyncsOnce N.Nv (bytes_of R.table R.Memory.size) nv e.0 (Err e.2)) }
    {
        let mut node = RowNode::new(nv, room);
        match node.boot_rows() {
            Ok(()) => Ok(RunningRows {
                running: Running { node, torn: None },
            }),
            Err(fail) => {
                let (nv, room) = node.into_storage();
                Err((nv, room, fail))
            }
        }
    }

    /// Does what a call decided on: see `Running::perform`.
    pub fn perform<F: Copy, A: Copy>(&mut self, act: Act<R::Change, F, A>) -> Result<A, Fail<F>>
        requires fits { CanCommit act self.old }
        ensures { Performs act self.old self.new result }
    {
        self.running.perform(act)
    }

    /// The node.
    pub fn node(&self) -> &RowNode<N, R>
        ensures { result.now ≡ node_of self.now }
    {
        &self.running.node
    }

    /// The number of commits.
    pub fn commits(&self) -> u64
        ensures { result ≡ (counting R.table).count (seen_of self.now) }
    {
        self.running.commits()
    }

    /// The commit that a call of this value which answered Power or Fault would have added; None if and only if no call did.
    pub fn torn(&self) -> Option<Commit>
        ensures { result ≡ torn_of self.now }
    {
        self.running.torn()
    }

    /// Gives the storage and the memory back.
    pub fn shut(self) -> (N, RowRoom<R>)
        ensures { result.0 ≡ storage_of self }
    {
        let RunningRows { running } = self;
        running.into_node().into_storage()
    }
}

impl<M: Nv, R: Rows> RunningRows<Fused<M>, R> {
    ghost use Rattle.nv_model.specs.Fuses.{inside, state_of};
    ghost use Rattle.nv_model.specs.Still.{armed};
    ghost use Rattle.row_node.specs.RunningView.{storage_of, seen_of, torn_of};

    /// Arms the fuse of the storage: see `Fused::arm`.
    pub fn arm(&mut self, calls: u32, keep: u32, byte: u8)
        ensures armed { state_of (storage_of self.new) ≡ armed calls keep byte (state_of (storage_of self.old)) }
        ensures inside { inside (storage_of self.new) ≡ inside (storage_of self.old) }
        ensures seen { seen_of self.new ≡ seen_of self.old }
        ensures torn { torn_of self.new ≡ torn_of self.old }
    {
        self.running.node.nv.arm(calls, keep, byte);
    }
}
