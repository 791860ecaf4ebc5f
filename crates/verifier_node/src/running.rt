//! The running verifier: its rows in its storage, and the commit that failed.
ghost use Rattle.std.specs.Prelude.{◌≡◌, ◌≢◌, IfOk, IfErr, MatchResult, Err, false};
ghost use Rattle.bench_base.specs.declared.sizes.TheConstants.{BLOCK_BYTES, VERIFIER_CELLS, VERIFIER_BYTES};
ghost use Rattle.nv_store.specs.RoomView.{cells_of};
ghost use Rattle.nv_store.specs.Turns.{Kept};
ghost use Rattle.node_storage.specs.Does.{Reads, Spends, SpendsOne, SyncsOnce};
ghost use Rattle.node_storage.specs.Ends.{end_of_boot};
ghost use Rattle.verifier.specs.Seen.{counting};
ghost use Rattle.verifier_node.specs.Payloads.{IsDamaged};
ghost use Rattle.verifier_node.specs.Table.{verifier_table};
ghost use Rattle.row_node.specs.Boots.{AllShowSound};

use crate::rows::VerifierRows;
use bench_base::ledger::Commit;
use bench_base::refusals::{BootFail, ScanFail};
use bench_base::sizes::{BLOCK_BYTES, VERIFIER_CELLS};
use nv_model::{Fused, Nv};
use nv_store::Room;
use row_node::{RowRoom, RunningRows};
use verifier::{BlockIndex, ScanAct};

/// The verifier over storage of 4,253,904 bytes: 1,032 cells, of devices 1 to 8 and then of blocks, each with its row.
#[derive(Drop)]
pub struct Verifier<N: Nv> {
    pub(crate) rows: RunningRows<N, VerifierRows>,
}

impl<N: Nv> Verifier<N> {
    ghost use Rattle.verifier.specs.Index.{IsIndexOf};
    ghost use Rattle.verifier_node.specs.VerifierView.{storage_of, seen_of, torn_of, Starts, CanCommit, Performs};

    /// The verifier in its storage and in memory for 1,032 cells, or why it does not start, with both. Power is not lost.
    /// Nothing is written.
    ///
    /// `Damaged` if the storage has not 4,253,904 bytes, or if a cell has an open slot of count 0 or two open slots of equal
    /// counts. Also if a current payload reads as no row of its cell, or if the rows break a condition together. They break
    /// one if the device of a block is not trusted, a blank cell is before a block, or two cells hold one block. Blank
    /// storage is a verifier with no rows.
    pub fn boot(
        nv: N,
        room: Room<BLOCK_BYTES>,
    ) -> Result<Verifier<N>, (N, Room<BLOCK_BYTES>, BootFail)>
        requires powered { (N.meters nv).lost ≡ false }
        requires cells { cells_of room ≡ VERIFIER_CELLS }

        // What starts is what the storage shows, and nothing is written.
        ensures starts { IfOk result Starts }
        ensures reads { MatchResult result (λ v. Reads N.Nv nv (storage_of v)) (λ e. Reads N.Nv nv e.0) }

        // Why it fails, and what it costs.
        ensures size { N.size nv ≢ VERIFIER_BYTES → IfErr result (λ e. (e.0 ≡ nv) × (e.2 ≡ BootFail.Damaged)) }
        ensures damaged { N.tells → MatchResult result (λ v. IsDamaged N.Nv (storage_of v) → ⊥)
            (λ e. e.2 ≡ BootFail.Damaged → IsDamaged N.Nv e.0) }
        ensures sound { N.tells → N.size nv ≡ VERIFIER_BYTES → AllShowSound verifier_table BLOCK_BYTES N.Nv nv → IfErr result (λ e. e.2 ≢ BootFail.Damaged) }
        ensures room { IfErr result (λ e. cells_of e.1 ≡ VERIFIER_CELLS) }
        ensures spent { MatchResult result (λ v. Spends N.Nv 1 nv (storage_of v) Kept) (λ e. Spends N.Nv 1 nv e.0 (end_of_boot (Err e.2))) }
        ensures once { MatchResult result (λ v. SpendsOne N.Nv nv (storage_of v)) (λ e. SyncsOnce N.Nv VERIFIER_BYTES nv e.0 (Err e.2)) }
    {
        let room = RowRoom {
            cells: room,
            rows: VerifierRows::none(),
        };
        match RunningRows::boot(nv, room) {
            Ok(rows) => Ok(Verifier { rows }),
            Err((nv, room, fail)) => Err((nv, room.cells, fail)),
        }
    }

    // Does what a call decided on: see `RunningRows::perform`.
    pub(crate) fn perform<A: Copy>(&mut self, act: ScanAct<A>) -> Result<A, ScanFail>
        requires fits { CanCommit act self.old }
        ensures { Performs act self.old self.new result }
    {
        self.rows.perform(act)
    }

    /// The blocks in use, each with its cell.
    pub fn blocks(&self) -> &BlockIndex
        ensures { IsIndexOf result.now (seen_of self.now) }
    {
        &self.rows.node().rows().index
    }

    /// The number of commits.
    pub fn commits(&self) -> u64
        ensures { result ≡ counting.count (seen_of self.now) }
    {
        self.rows.commits()
    }

    /// The commit that a call of this value which answered Power or Fault would have added; None if and only if no call did.
    pub fn torn(&self) -> Option<Commit>
        ensures { result ≡ torn_of self.now }
    {
        self.rows.torn()
    }

    /// Gives the storage and the memory back.
    pub fn shut(self) -> (N, Room<BLOCK_BYTES>)
        ensures storage { result.0 ≡ storage_of self }
        ensures cells { cells_of result.1 ≡ VERIFIER_CELLS }
    {
        let Verifier { rows } = self;
        let (nv, room) = rows.shut();
        (nv, room.cells)
    }
}

impl<M: Nv> Verifier<Fused<M>> {
    ghost use Rattle.nv_model.specs.Fuses.{inside, state_of};
    ghost use Rattle.nv_model.specs.Still.{armed};
    ghost use Rattle.verifier_node.specs.VerifierView.{storage_of, seen_of, torn_of};

    /// Arms the fuse of the storage: see `Fused::arm`.
    pub fn arm(&mut self, calls: u32, keep: u32, byte: u8)
        ensures armed { state_of (storage_of self.new) ≡ armed calls keep byte (state_of (storage_of self.old)) }
        ensures inside { inside (storage_of self.new) ≡ inside (storage_of self.old) }
        ensures seen { seen_of self.new ≡ seen_of self.old }
        ensures torn { torn_of self.new ≡ torn_of self.old }
    {
        self.rows.arm(calls, keep, byte);
    }
}
