//! An image that is read cell by cell, up to the first cell that shows neither what was counted nor the commit in doubt.
ghost use Rattle.std.specs.Prelude.{◌≡◌, ◌≤◌, ◌<◌, ◌*◌, ℕ, List, take, length, IfSome, IfOk, OnErr};
ghost use Rattle.node_images.specs.Cells.{IsWhat};
ghost use Rattle.trace_folder.specs.Sources.{IsUnread};
ghost use Rattle.trace_folder.specs.Walks.{IsReadCell, CellsAre, cell_in};

use crate::filling::fill_whole;
use crate::shows::{MOST_CELL, Shows};
use bench_base::stream::{ReadFail, Source};
use node_images::CellShows;

/// A node whose storage has cells, as the reports describe it.
pub(crate) trait Cells {
    /// How many cells there are.
    ghost COUNT: { ℕ };

    const COUNT: u32;

    /// How many bytes each has.
    ghost SIZE: { ℕ };

    const SIZE: usize;

    /// The record can take the commit in doubt, if there is one.
    ghost IsSettled: { Self → Type 0 };

    /// The bytes of the cell at this place show what was counted of it.
    ghost counted: { Self → ℕ → List ℕ → Type 0 };

    /// They show that with the commit in doubt.
    ghost opened: { Self → ℕ → List ℕ → Type 0 };

    /// What the bytes of the cell at this place show.
    fn cell_shows(&self, place: usize, cell: &[u8]) -> CellShows
        requires settled { IsSettled self.now }
        requires inside { place < COUNT }
        requires long { length cell.now ≡ SIZE }
        ensures { IsWhat (counted self.now place cell.now) (opened self.now place cell.now) result };
}

// Reads the cell at this place into the front of the buffer: what it shows. ReadFail if the source fails or has too few bytes.
fn next_cell<C: Cells, S: Source>(
    node: &C,
    place: u32,
    image: &mut S,
    buffer: &mut [u8; MOST_CELL],
) -> Result<CellShows, ReadFail>
    requires small { C.SIZE ≤ 4122 }
    requires settled { C.IsSettled node.now }
    requires inside { place < C.COUNT }
    ensures shows { IfOk result (IsReadCell C.SIZE (C.counted node.now place) (C.opened node.now place) (S.left image.old) (S.left image.new)) }
    ensures later { S.faults image.old ≤ S.faults image.new }
    ensures failed { OnErr result (IsUnread C.SIZE (S.faults image.old) (S.faults image.new) (S.left image.old)) }
{
    let cell = &mut buffer[..C::SIZE];
    fill_whole(image, cell)?;
    Ok(node.cell_shows(place as usize, cell))
}

/// What the cells of the image show together. The bytes of a cell that shows neither are then in the buffer. ReadFail if the source fails or has too few
/// bytes.
pub(crate) fn image_shows<C: Cells, S: Source>(
    node: &C,
    image: &mut S,
    buffer: &mut [u8; MOST_CELL],
) -> Result<Shows, ReadFail>
    requires small { C.SIZE ≤ 4122 }
    requires settled { C.IsSettled node.now }
    ensures shows { IfSome (S.left image.old)
        (λ bytes. IfOk result (CellsAre (C.counted node.now) (C.opened node.now) (cell_in C.SIZE (take (C.COUNT * C.SIZE) bytes)) C.COUNT)) }
    ensures later { S.faults image.old ≤ S.faults image.new }
    ensures failed { OnErr result (IsUnread (C.COUNT * C.SIZE) (S.faults image.old) (S.faults image.new) (S.left image.old)) }
{
    let mut seen = Shows::Counted;
    for place in 0..C::COUNT {
        match next_cell(node, place, image, buffer)? {
            CellShows::Counted => {}
            CellShows::Open => seen = Shows::Open,
            CellShows::Other => return Ok(Shows::Other(place)),
        }
    }
    Ok(seen)
}
