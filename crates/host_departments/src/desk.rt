//! The departments: they keep their quotas and jobs in a storage of their own.
ghost use Rattle.std.specs.Prelude.{◌≡◌, false};
ghost use Rattle.nv_store.specs.RoomView.{cells_of, kept_in};
ghost use Rattle.nv_store.specs.Rooms.{RoomRuns};
ghost use Rattle.row_store.specs.Seen.{read_prop};
ghost use Rattle.host_departments.specs.Index.{IsIndexed};
ghost use Rattle.host_departments.specs.Kept.{AllFilled, rows_in};
ghost use Rattle.host_departments.specs.Payload.{decoded};
ghost use Rattle.host_departments.specs.Rows.{IsSound};
ghost use Rattle.host_departments.specs.Waits.{IsWaiting, waiting_prop};
ghost use Rattle.host_departments.specs.declared.row.TheConstants.{CELLS};

use crate::answer::Answer;
use nv_model::Nv;
use nv_store::Room;

/// Who keeps the quotas and jobs, in a table of storage and memory that lie side by side, with an index of the jobs. Once a commit of it
/// failed it commits no more.
#[derive(Drop)]
pub struct Departments<N: Nv> {
    pub(crate) nv: N,
    pub(crate) room: Room<12>,
    pub(crate) failed: bool,
    pub(crate) said: Answer,
    pub(crate) index: [u16; 2048],
    ghost cells: { cells_of room ≡ CELLS },
    ghost filled: { AllFilled room } by { read_prop decoded (cells_of room) (kept_in room) },
    ghost sound: { IsSound (rows_in room) },
    ghost waits: { IsWaiting (rows_in room) said } by { waiting_prop (rows_in room) said },
    ghost indexed: { IsIndexed index (rows_in room) },
    ghost runs: { failed ≡ false → RoomRuns N.Nv room nv },
}
