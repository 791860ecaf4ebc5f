//! The running centre: its rows in its storage, and the commit that failed.
ghost use Rattle.std.specs.Prelude.{◌≡◌, ◌≢◌, IfOk, IfErr, MatchResult, Err, false};
ghost use Rattle.bench_base.specs.declared.sizes.TheConstants.{ROW_BYTES, CENTRE_CELLS, CENTRE_BYTES};
ghost use Rattle.nv_store.specs.RoomView.{cells_of};
ghost use Rattle.nv_store.specs.Turns.{Kept};
ghost use Rattle.node_storage.specs.Does.{Reads, Spends, SpendsOne, SyncsOnce};
ghost use Rattle.node_storage.specs.Ends.{end_of_boot};
ghost use Rattle.centre_ledger.specs.Books.{AreSound};
ghost use Rattle.centre_ledger.specs.Seen.{counting};
ghost use Rattle.centre_protocol.specs.Payloads.{IsDamaged};
ghost use Rattle.centre_protocol.specs.Table.{centre_table};
ghost use Rattle.row_node.specs.Boots.{AllShowSound};

use crate::rows::CentreRows;
use bench_base::ledger::Commit;
use bench_base::refusals::{BootFail, CentreFail};
use bench_base::sizes::{CENTRE_CELLS, ROW_BYTES};
use centre_ledger::{Accounts, Balances, BooksOf, CentreAct};
use nv_model::{Fused, Nv};
use nv_store::Room;
use row_node::{RowRoom, RunningRows};

/// The centre over storage of 28,368 bytes: 72 cells, of devices 1 to 8 and then of customers 1 to 64, each with its row.
#[derive(Drop)]
pub struct Centre<N: Nv> {
    pub(crate) rows: RunningRows<N, CentreRows>,
}

impl<N: Nv> Centre<N> {
    ghost use Rattle.centre_ledger.specs.Books.{balances_by};
    ghost use Rattle.centre_protocol.specs.CentreView.{storage_of, seen_of, books_of, torn_of, Starts, CanCommit, Performs};

    /// The centre in its storage and in memory for 72 cells, or why it does not start, with both. Power is not lost.
    /// Nothing is written.
    ///
    /// `Damaged` is returned in these cases:
    ///
    /// 1. The storage has not 28,368 bytes.
    /// 2. A cell has an open slot of count 0, or two open slots of equal counts.
    /// 3. A current payload reads as no row of its device or customer.
    /// 4. The rows do not agree: the customer of a device is not open, or a customer has less than 0.
    ///
    /// Blank storage is a centre with no rows.
    pub fn boot(nv: N, room: Room<ROW_BYTES>) -> Result<Centre<N>, (N, Room<ROW_BYTES>, BootFail)>
        requires powered { (N.meters nv).lost ≡ false }
        requires cells { cells_of room ≡ CENTRE_CELLS }

        // What starts is what the storage shows, and nothing is written.
        ensures starts { IfOk result Starts }
        ensures reads { MatchResult result (λ c. Reads N.Nv nv (storage_of c)) (λ e. Reads N.Nv nv e.0) }

        // Why it fails, and what it costs.
        ensures size { N.size nv ≢ CENTRE_BYTES → IfErr result (λ e. (e.0 ≡ nv) × (e.2 ≡ BootFail.Damaged)) }
        ensures damaged { N.tells → MatchResult result (λ c. IsDamaged N.Nv (storage_of c) → ⊥)
            (λ e. e.2 ≡ BootFail.Damaged → IsDamaged N.Nv e.0) }
        ensures sound { N.tells → N.size nv ≡ CENTRE_BYTES → AllShowSound centre_table ROW_BYTES N.Nv nv → IfErr result (λ e. e.2 ≢ BootFail.Damaged) }
        ensures room { IfErr result (λ e. cells_of e.1 ≡ CENTRE_CELLS) }
        ensures spent { MatchResult result (λ c. Spends N.Nv 1 nv (storage_of c) Kept) (λ e. Spends N.Nv 1 nv e.0 (end_of_boot (Err e.2))) }
        ensures once { MatchResult result (λ c. SpendsOne N.Nv nv (storage_of c)) (λ e. SyncsOnce N.Nv CENTRE_BYTES nv e.0 (Err e.2)) }
    {
        let room = RowRoom {
            cells: room,
            rows: CentreRows::none(),
        };
        match RunningRows::boot(nv, room) {
            Ok(rows) => Ok(Centre { rows }),
            Err((nv, room, fail)) => Err((nv, room.cells, fail)),
        }
    }

    /// Its rows, with what each customer has left.
    pub(crate) fn accounts(&self) -> &Accounts
        ensures rows { result.now ≡ books_of self.now }
        ensures sound { AreSound result.now }
    {
        self.rows.node().books()
    }

    // Does what a call decided on: see `RunningRows::perform`.
    pub(crate) fn perform<A: Copy>(&mut self, act: CentreAct<A>) -> Result<A, CentreFail>
        requires fits { CanCommit act self.old }
        ensures { Performs act self.old self.new result }
    {
        self.rows.perform(act)
    }

    /// What each customer has left, in mills, and 0 for each that is not open.
    pub fn kept(&self) -> &Balances
        ensures { result.now ≡ balances_by (books_of self.now).devices (books_of self.now).customers }
    {
        self.accounts().kept()
    }

    /// The number of commits.
    pub fn commits(&self) -> u64
        ensures { result ≡ counting.count (seen_of self.now) }
    {
        self.rows.commits()
    }

    /// The commit that a call of this value which answered Power or Fault would have added; None if and only if no call did.
    pub fn torn(&self) -> Option<Commit>
        ensures { result ≡ torn_of self.now }
    {
        self.rows.torn()
    }

    /// Gives the storage and the memory back.
    pub fn shut(self) -> (N, Room<ROW_BYTES>)
        ensures storage { result.0 ≡ storage_of self }
        ensures cells { cells_of result.1 ≡ CENTRE_CELLS }
    {
        let Centre { rows } = self;
        let (nv, room) = rows.shut();
        (nv, room.cells)
    }
}

impl<M: Nv> Centre<Fused<M>> {
    ghost use Rattle.nv_model.specs.Fuses.{inside, state_of};
    ghost use Rattle.nv_model.specs.Still.{armed};
    ghost use Rattle.centre_protocol.specs.CentreView.{storage_of, seen_of, torn_of};

    /// Arms the fuse of the storage: see `Fused::arm`.
    pub fn arm(&mut self, calls: u32, keep: u32, byte: u8)
        ensures armed { state_of (storage_of self.new) ≡ armed calls keep byte (state_of (storage_of self.old)) }
        ensures inside { inside (storage_of self.new) ≡ inside (storage_of self.old) }
        ensures seen { seen_of self.new ≡ seen_of self.old }
        ensures torn { torn_of self.new ≡ torn_of self.old }
    {
        self.rows.arm(calls, keep, byte);
    }
}
