//! Rows out of storage.
ghost use Rattle.std.specs.Prelude.{◌≡◌, ◌≢◌, ◌+◌, ◌*◌, ◌≤◌, ◌<◌, ℕ, List, Some, Err, OnOk, IsErrOf, MatchBool, false};
ghost use Rattle.nv_model.specs.Moments.{Image};
ghost use Rattle.nv_store.specs.declared.TheConstants.{MOST_BYTES};
ghost use Rattle.nv_store.specs.Mounts.{Mounts};
ghost use Rattle.nv_store.specs.RoomView.{cells_of, kept_in};
ghost use Rattle.nv_store.specs.Rooms.{RoomRuns};
ghost use Rattle.row_node.specs.Kept.{HoldsForeign};
ghost use Rattle.row_node.specs.Shows.{ShowsRows, IsDamagedTable};
ghost use Rattle.row_store.specs.Seen.{IsRead, AllRead, ReadsAs, seen_in};
ghost use Rattle.row_store.specs.Boots.{boot_fail, fail_in, BootCauses};

use crate::rows::Rows;
use bench_base::refusals::BootFail;
use nv_model::Nv;
use nv_store::{MountCause, Room, get_room, mount_room};

// Whether the payload of a cell, where it has one, reads as a row.
fn is_read<W: Rows<L>, const L: usize>(room: &Room<L>, cell: u32) -> bool
    requires small { L ≤ MOST_BYTES }
    requires inside { cell < cells_of room.now }
    ensures { MatchBool result (IsRead W.decoded cell (kept_in room.now cell))
        (HoldsForeign (cells_of room.now) (ReadsAs W.decoded) (kept_in room.now)) }
{
    match get_room(room, cell) {
        Some(payload) => W::read(cell, payload).is_some(),
        None => true,
    }
}

// So of all cells.
fn all_read<W: Rows<L>, const L: usize>(room: &Room<L>, cells: u32) -> bool
    requires small { L ≤ MOST_BYTES }
    requires all { cells ≡ cells_of room.now }
    ensures { MatchBool result (AllRead W.decoded (cells_of room.now) (kept_in room.now))
        (HoldsForeign (cells_of room.now) (ReadsAs W.decoded) (kept_in room.now)) }
{
    for cell in 0..cells {
        if !is_read::<W, L>(room, cell) {
            return false;
        }
    }
    true
}

fn fail_of(cause: MountCause) -> BootFail
    ensures { result ≡ boot_fail cause }
{
    match cause {
        MountCause::Power => BootFail::Power,
        MountCause::Fault => BootFail::Fault,
        MountCause::Size(_) | MountCause::Mixed(_) => BootFail::Damaged,
    }
}

/// Reads the rows of so many cells, which are those of the memory. Nothing is written, and no memory is taken. `Damaged` is
/// returned if and only if the size is not `2·(5+L)` bytes a cell, a cell is mixed, a payload reads as no row of its cell,
/// or the rows do not agree.
pub fn boot_rows<W: Rows<L>, N: Nv, const L: usize>(
    nv: &mut N,
    room: &mut Room<L>,
    cells: u32,
) -> Result<(), BootFail>
    requires small { L ≤ MOST_BYTES }
    requires all { cells ≡ cells_of room.old }
    requires powered { (N.meters nv.old).lost ≡ false }

    // What starts is what the storage shows, and nothing is written.
    ensures cells { cells_of room.new ≡ cells_of room.old }
    ensures read { OnOk result (AllRead W.decoded (cells_of room.new) (kept_in room.new)) }
    ensures sound { OnOk result (W.IsSound (seen_in W.decoded (cells_of room.new) (kept_in room.new))) }
    ensures runs { OnOk result (RoomRuns N.Nv room.new nv.new) }
    ensures shows { N.tells
        → OnOk result ((c : List ℕ) → Image (N.times nv.new) c
        → ShowsRows L (cells_of room.new) (ReadsAs W.decoded)
        (seen_in W.decoded (cells_of room.new) (kept_in room.new)) c) }
    ensures mounts { N.tells → Mounts (N.times nv.old) (N.times nv.new) }

    // Why it fails, and what it costs.
    ensures size { N.size nv.old ≢ cells_of room.old * (2 * (5 + L)) → (result ≡ Err BootFail.Damaged)
        × (nv.new ≡ nv.old) }
    ensures damaged { N.tells → IsErrOf result BootFail.Damaged
        → IsDamagedTable L (cells_of room.new) (ReadsAs W.decoded) W.IsSound N.Nv nv.new }
    ensures intact { N.tells
        → OnOk result (IsDamagedTable L (cells_of room.new) (ReadsAs W.decoded) W.IsSound N.Nv nv.new → ⊥) }
    ensures bytes { N.size nv.new ≡ N.size nv.old }
    ensures causes { BootCauses (N.meters nv.old) (N.meters nv.new) (fail_in result) }
{
    match mount_room(nv, room) {
        Ok(()) => {}
        Err(cause) => return Err(fail_of(cause)),
    }
    if all_read::<W, L>(room, cells) && W::agree(room, cells) {
        return Ok(());
    }
    Err(BootFail::Damaged)
}
