//! The desk: it keeps the claims in a storage of its own.
ghost use Rattle.std.specs.Prelude.{◌≡◌, false};
ghost use Rattle.nv_store.specs.RoomView.{cells_of, kept_in};
ghost use Rattle.nv_store.specs.Rooms.{RoomRuns};
ghost use Rattle.row_store.specs.Seen.{AllRead, read_prop, seen_in};
ghost use Rattle.spoil_claims.specs.Claims.{HasNoGaps};
ghost use Rattle.spoil_claims.specs.Payload.{decoded};
ghost use Rattle.spoil_claims.specs.Waits.{IsWaiting, waiting_prop};
ghost use Rattle.spoil_claims.specs.declared.claim.TheConstants.{CLAIM_CELLS};

use crate::answer::Answer;
use nv_model::Nv;
use nv_store::Room;

/// Who keeps the claims, in a table of storage and memory that lie side by side. Once a commit of it failed it commits no more.
#[derive(Drop)]
pub struct Desk<N: Nv> {
    pub(crate) nv: N,
    pub(crate) room: Room<73>,
    pub(crate) failed: bool,
    pub(crate) said: Answer,
    ghost cells: { cells_of room ≡ CLAIM_CELLS },
    ghost read: { AllRead decoded (cells_of room) (kept_in room) } by { read_prop decoded (cells_of room) (kept_in room) },
    ghost packed: { HasNoGaps (seen_in decoded (cells_of room) (kept_in room)) },
    ghost waits: { IsWaiting (seen_in decoded (cells_of room) (kept_in room)) said } by { waiting_prop (seen_in decoded (cells_of room) (kept_in room)) said },
    ghost runs: { failed ≡ false → RoomRuns N.Nv room nv },
}
