//! The memory that a node of rows runs in.
ghost use Rattle.std.specs.Prelude.{◌≡◌};
ghost use Rattle.nv_store.specs.RoomView.{cells_of};

use crate::cells::Cells;
use crate::rows::Rows;
use std::alloc::{AllocError, Global};

/// Memory for the cells of a node of rows, and for what it keeps of them.
#[derive(Drop)]
pub struct RowRoom<R: Rows> {
    pub cells: R::Memory,
    pub rows: R,
    ghost many: { cells_of (R.Memory.room cells) ≡ R.table.cells },
}

impl<R: Rows> RowRoom<R> {
    /// Takes the memory. AllocError is lack of memory.
    pub fn new(alloc: Global) -> Result<RowRoom<R>, AllocError> {
        let cells = R::Memory::new(alloc, R::cells())?;
        let rows = R::new(alloc)?;
        Ok(RowRoom { cells, rows })
    }
}
