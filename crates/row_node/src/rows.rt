//! The rows of a node: how its cells read, and what it keeps of them.
ghost use Rattle.std.specs.Prelude.{◌≡◌, ℕ, List, Option, MatchBool};
ghost use Rattle.node_acts.specs.RowList.{RowList};
ghost use Rattle.nv_store.specs.Slot.{Held};
ghost use Rattle.nv_store.specs.RoomView.{cells_of, kept_in};
ghost use Rattle.row_node.specs.Tables.{Keeps, seen_of};
ghost use Rattle.row_node.specs.Laws.{IsCommitted, Takes};
ghost use Rattle.row_node.specs.Boots.{Found, HoldNone, IsNone};

use crate::cells::Cells;
use std::alloc::{AllocError, Global};

/// What a node keeps of the rows of its cells, and how it lays them out.
pub trait Rows: Drop + Sized {
    ghost use Rattle.row_node.specs.Tables.{Table};
    ghost use Rattle.row_node.specs.Laws.{Laws};

    /// What a commit changes: one row.
    type Change: Copy;
    /// The memory of the cells.
    type Memory: Cells;

    /// How the cells read as rows, which rows are sound, and what is kept of them.
    ghost table: { Table Self Self.Change };

    /// How many cells there are.
    fn cells() -> u32
        ensures { result ≡ table.cells };

    /// The memory of what is kept. AllocError is lack of memory.
    fn new(alloc: Global) -> Result<Self, AllocError>;

    /// Keeps no row.
    fn clear(&mut self)
        ensures { IsNone table self.new };

    /// The cell of a change.
    fn cell_of(change: &Self::Change) -> u32
        ensures value { result ≡ table.cell change.now }
        ensures has { (s : RowList table.Row) → table.IsFit s change.now → table.HasCell change.now };

    /// The payload of the cell once the change is made.
    fn payload_with(
        &self,
        cells: &Self::Memory,
        change: &Self::Change,
    ) -> <Self::Memory as Cells>::Payload
        requires cells { cells_of (Self.Memory.room cells.now) ≡ table.cells }
        requires keeps { Keeps table self.now (kept_in (Self.Memory.room cells.now)) }
        requires has { table.HasCell change.now }
        requires fits { table.IsFit (seen_of table self.now (kept_in (Self.Memory.room cells.now))) change.now }
        ensures reads { table.reads (table.cell change.now)
            (table.row (seen_of table self.now (kept_in (Self.Memory.room cells.now))) change.now)
            (Self.Memory.bytes result) }
        ensures value { Self.Memory.bytes result
            ≡ table.spelled (table.row (seen_of table self.now (kept_in (Self.Memory.room cells.now))) change.now) };

    /// Keeps a change that was committed, to a cell that was blank or not.
    fn take(&mut self, cells: &Self::Memory, change: &Self::Change, blank: bool)
        requires many { cells_of (Self.Memory.room cells.now) ≡ table.cells }
        requires committed { (held : ℕ → Option Held) × (payload : List ℕ)
            × IsCommitted table self.old held (kept_in (Self.Memory.room cells.now)) change.now payload blank }
        ensures { (held : ℕ → Option Held) (payload : List ℕ)
            → IsCommitted table self.old held (kept_in (Self.Memory.room cells.now)) change.now payload blank
            → Takes table self.old self.new held (kept_in (Self.Memory.room cells.now)) change.now };

    /// Reads the rows of the cells. False where a payload reads as no row of its cell, or the rows do not agree.
    fn read(&mut self, cells: &Self::Memory) -> bool
        requires cells { cells_of (Self.Memory.room cells.now) ≡ table.cells }
        ensures { MatchBool result (Found table self.new (kept_in (Self.Memory.room cells.now)))
            (HoldNone table (kept_in (Self.Memory.room cells.now))) };

    ghost laws: { Laws Self.Memory.size table };
}
