//! Rows in storage and memory that lie side by side.
ghost use Rattle.std.specs.Prelude.{◌≡◌, ◌<◌, ◌≤◌, false};
ghost use Rattle.nv_store.specs.declared.TheConstants.{MOST_BYTES};
ghost use Rattle.nv_store.specs.Fails.{ends_failed};
ghost use Rattle.nv_store.specs.RoomView.{cells_of, kept_in};
ghost use Rattle.nv_store.specs.Rooms.{RoomRuns};
ghost use Rattle.node_acts.specs.RowList.{row_at, row_of};
ghost use Rattle.row_store.specs.Seen.{AllRead, seen_in};
ghost use Rattle.row_store.specs.Commits.{CommitsRow};

use crate::rows::Rows;
use bench_base::refusals::StoreFail;
use nv_model::Nv;
use nv_store::{Room, commit_room, get_room};

/// The row of a cell, None where it is blank.
pub fn row_in<W: Rows<L>, const L: usize>(room: &Room<L>, cell: u32) -> Option<W::Row>
    requires small { L ≤ MOST_BYTES }
    requires inside { cell < cells_of room.now }
    requires filled { AllRead W.decoded (cells_of room.now) (kept_in room.now) }
    ensures { result ≡ row_of (row_at (seen_in W.decoded (cells_of room.now) (kept_in room.now)) cell) }
{
    match get_room(room, cell) {
        None => None,
        Some(payload) => W::read(cell, payload),
    }
}

/// Commits a row to a cell: its payload goes to the next slot, by four or six calls of the storage. Worn is returned if the
/// cell has 4,294,967,295 commits; otherwise Power or Fault if the storage failed. The caller must not commit again once
/// this answered Power or Fault.
pub fn commit_row<W: Rows<L>, N: Nv, const L: usize>(
    nv: &mut N,
    room: &mut Room<L>,
    cell: u32,
    row: &W::Row,
) -> Result<(), StoreFail>
    requires small { L ≤ MOST_BYTES }
    requires inside { cell < cells_of room.old }
    requires filled { AllRead W.decoded (cells_of room.old) (kept_in room.old) }
    requires fits { W.IsFit cell row.now }
    requires runs { RoomRuns N.Nv room.old nv.old }
    ensures cells { cells_of room.new ≡ cells_of room.old }
    ensures filled { AllRead W.decoded (cells_of room.new) (kept_in room.new) }
    ensures runs { ends_failed result ≡ false → RoomRuns N.Nv room.new nv.new }
    ensures commits { CommitsRow N.tells W.decoded W.spelled L cell row.now
        (record {
          cells = cells_of room.old;
          held = kept_in room.old;
          content = N.content nv.old;
          times = N.times nv.old;
          meters = N.meters
              nv.old;
        })
        (record {
          cells = cells_of room.new;
          held = kept_in room.new;
          content = N.content nv.new;
          times = N.times nv.new;
          meters = N.meters
              nv.new;
        }) result }
    ensures size { N.size nv.new ≡ N.size nv.old }
{
    let payload = W::write(cell, row);
    commit_room(nv, room, cell, &payload)
}
