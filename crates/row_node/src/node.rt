//! A node of rows, on or off.
ghost use Rattle.std.specs.Prelude.{◌≡◌, ◌<◌, true, false};
ghost use Rattle.nv_model.specs.Meters.{Restarts};
ghost use Rattle.nv_store.specs.RoomView.{cells_of, kept_in};
ghost use Rattle.nv_store.specs.Rooms.{RoomRuns};
ghost use Rattle.node_storage.specs.Does.{Reads};
ghost use Rattle.node_acts.specs.RowList.{is_worn};
ghost use Rattle.row_node.specs.Tables.{Filled, bytes_of, counting};
ghost use Rattle.row_node.specs.Unique.{filled_one};

use crate::cells::Cells;
use crate::room::RowRoom;
use crate::rows::Rows;
use bench_base::refusals::StoreFail;
use nv_model::{Nv, NvFail};

/// A node of rows over its storage: a cell of two slots for each row. While it is off, what it knew of its storage counts
/// for nothing.
#[derive(Drop)]
pub struct RowNode<N: Nv, R: Rows> {
    pub(crate) nv: N,
    pub(crate) cells: R::Memory,
    /// What is kept of the rows that the cells hold.
    pub(crate) rows: R,
    pub(crate) on: bool,
    ghost many: { cells_of (R.Memory.room cells) ≡ R.table.cells },
    ghost filled: { Filled R.table rows (kept_in (R.Memory.room cells)) } by { filled_one R.table rows (kept_in (R.Memory.room cells)) },
    ghost follows: { R.table.Follows rows (kept_in (R.Memory.room cells)) } by { R.table.one_follows rows (kept_in (R.Memory.room cells)) },
    ghost size: { on ≡ true → N.size nv ≡ bytes_of R.table R.Memory.size },
    ghost runs: { on ≡ true → RoomRuns N.Nv (R.Memory.room cells) nv },
}

impl<N: Nv, R: Rows> RowNode<N, R> {
    ghost use Rattle.row_node.specs.NodeView.{storage_in, seen_in, is_on};
    ghost use Rattle.row_node.specs.Committed.{Committed};

    /// The node that is off, in this storage and this memory.
    pub fn new(nv: N, room: RowRoom<R>) -> RowNode<N, R>
        ensures off { is_on result ≡ false }
        ensures storage { storage_in result ≡ nv }
    {
        let RowRoom { cells, rows } = room;
        let mut cells = cells;
        let mut rows = rows;
        cells.clear();
        rows.clear();
        RowNode {
            nv,
            cells,
            rows,
            on: false,
        }
    }

    /// What is kept of its rows.
    pub fn rows(&self) -> &R
        ensures { result.now ≡ self.now.rows }
    {
        &self.rows
    }

    /// The memory of its cells.
    pub fn cells(&self) -> &R::Memory
        ensures { result.now ≡ self.now.cells }
    {
        &self.cells
    }

    /// The number of commits.
    pub(crate) fn count(&self) -> u64
        ensures { result ≡ (counting R.table).count (seen_in self.now) }
    {
        self.cells.count()
    }

    /// Restarts the storage of a node that is off.
    pub(crate) fn restart_storage(&mut self) -> Result<(), NvFail>
        requires off { is_on self.old ≡ false }
        ensures off { is_on self.new ≡ false }
        ensures reads { Reads N.Nv (storage_in self.old) (storage_in self.new) }
        ensures answer { Restarts (N.meters (storage_in self.old)) (N.meters (storage_in self.new)) result }
    {
        self.nv.restart()
    }

    // Whether the cell, which is there, has as many commits as can be counted.
    fn is_worn(&self, cell: u32) -> bool
        requires inside { cell < R.table.cells }
        ensures { result ≡ is_worn (seen_in self.now) cell }
    {
        self.cells.is_worn(cell)
    }

    /// Commits a change, and keeps it once it is committed. After Power and Fault the node is off.
    pub(crate) fn commit_change(&mut self, change: &R::Change) -> Result<(), StoreFail>
        requires on { is_on self.old ≡ true }
        requires fits { R.table.IsFit (seen_in self.old) change.now }
        ensures { Committed change.now self.old self.new result }
    {
        let cell = R::cell_of(change);
        if self.is_worn(cell) {
            return Err(StoreFail::Worn);
        }
        let blank = self.cells.is_blank(cell);
        let payload = self.rows.payload_with(&self.cells, change);
        match self.cells.commit(&mut self.nv, cell, &payload) {
            Ok(()) => {
                self.rows.take(&self.cells, change, blank);
                Ok(())
            }
            Err(fail) => {
                self.on = false;
                Err(fail)
            }
        }
    }

    /// Gives the storage and the memory back.
    pub fn into_storage(self) -> (N, RowRoom<R>)
        ensures { result.0 ≡ storage_in self }
    {
        let RowNode {
            nv,
            cells,
            rows,
            on: _,
        } = self;
        (nv, RowRoom { cells, rows })
    }
}
