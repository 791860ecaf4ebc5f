//! What the payloads of a table read as.
ghost use Rattle.std.specs.Prelude.{◌≡◌, ◌↔◌, ◌<◌, Some, IsTrue};
ghost use Rattle.nv_store.specs.RoomView.{cells_of, kept_in};
ghost use Rattle.row_store.specs.Seen.{AllRead, seen_in};

use nv_store::Room;

/// The rows of a table of so many cells with payloads of L bytes.
pub trait Rows<const L: usize> {
    ghost use Rattle.std.specs.Prelude.{ℕ, List, Option};
    ghost use Rattle.node_acts.specs.RowList.{RowList};

    type Row: Copy;

    /// The row that the payload of a cell reads as.
    ghost decoded: { ℕ → List ℕ → Option Self.Row };

    /// The payload that is written for a row in a cell.
    ghost spelled: { ℕ → Self.Row → List ℕ };

    /// The row may be in this cell.
    ghost IsFit: { ℕ → Self.Row → Type 0 };

    /// The rows agree.
    ghost IsSound: { RowList Self.Row → Type 0 };

    /// The row that a cell's payload reads as.
    fn read(cell: u32, payload: &[u8; L]) -> Option<Self::Row>
        ensures { result ≡ decoded cell payload.now };

    /// The payload of a row.
    fn write(cell: u32, kept: &Self::Row) -> [u8; L]
        requires fits { IsFit cell kept.now }
        ensures reads { decoded cell result ≡ Some kept.now }
        ensures value { result ≡ spelled cell kept.now };

    /// Whether the rows of so many cells agree.
    fn agree(room: &Room<L>, cells: u32) -> bool
        requires all { cells ≡ cells_of room.now }
        requires filled { AllRead decoded (cells_of room.now) (kept_in room.now) }
        ensures { IsTrue result ↔ IsSound (seen_in decoded (cells_of room.now) (kept_in room.now)) };
}
