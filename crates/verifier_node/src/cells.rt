//! What the cells of the verifier's memory hold, and what a change makes of one.
ghost use Rattle.std.specs.Prelude.{◌≡◌, ◌<◌, ◌≤◌, MatchBool, IsSome, is_some, None, get_or};
ghost use Rattle.bench_base.specs.declared.sizes.TheConstants.{VERIFIER_CELLS, FIRST_BLOCK, BLOCK_PIECES};
ghost use Rattle.nv_store.specs.RoomView.{cells_of, kept_in};
ghost use Rattle.verifier.specs.ActLaws.{IsFit};
ghost use Rattle.verifier.specs.Payload.{RowReadsAs};
ghost use Rattle.verifier.specs.Seen.{key_at, row_with, row_in, scans_in, scan_shown};
ghost use Rattle.verifier.specs.Seen as seen;
ghost use Rattle.verifier_node.specs.Payloads.{HoldRows, seen_held};

use bench_base::sizes::{BLOCK_BYTES, FIRST_BLOCK};
use bench_base::words::Key;
use nv_store::{Room, get_room};
use verifier::{Change, accept_payload, key_in, scan_in, trust_payload};

/// Whether the cell has no commit.
pub fn is_blank(room: &Room<BLOCK_BYTES>, cell: u32) -> bool
    requires { cell < cells_of room.now }
    ensures { MatchBool result (kept_in room.now cell ≡ None) (IsSome (kept_in room.now cell)) }
{
    get_room(room, cell).is_none()
}

/// The key under which marks of the device are trusted.
pub fn key_of(room: &Room<BLOCK_BYTES>, device: u32) -> Option<Key>
    requires cells { cells_of room.now ≡ VERIFIER_CELLS }
    requires filled { HoldRows (kept_in room.now) }
    ensures { result ≡ key_at (seen_held (kept_in room.now)) device }
{
    if device == 0 {
        return None;
    }
    if device > FIRST_BLOCK {
        return None;
    }
    match get_room(room, device - 1) {
        Some(payload) => Some(key_in(payload)),
        None => None,
    }
}

/// Whether marks of the device are trusted under a key.
pub fn is_trusted(room: &Room<BLOCK_BYTES>, device: u32) -> bool
    requires cells { cells_of room.now ≡ VERIFIER_CELLS }
    requires filled { HoldRows (kept_in room.now) }
    ensures { result ≡ is_some (key_at (seen_held (kept_in room.now)) device) }
{
    if device == 0 {
        return false;
    }
    if device > FIRST_BLOCK {
        return false;
    }
    get_room(room, device - 1).is_some()
}

/// The scan under which the piece at this place of the block in a cell was accepted.
pub fn scan_of(room: &Room<BLOCK_BYTES>, cell: u32, place: u32) -> Option<u32>
    requires cells { cells_of room.now ≡ VERIFIER_CELLS }
    requires filled { HoldRows (kept_in room.now) }
    requires from { FIRST_BLOCK ≤ cell }
    requires inside { cell < VERIFIER_CELLS }
    requires place { place < BLOCK_PIECES }
    ensures { result ≡ scan_shown (get_or (scans_in (row_in (seen_held (kept_in room.now)) cell)) place 0) }
{
    match get_room(room, cell) {
        Some(payload) => scan_in(payload, place),
        None => None,
    }
}

/// The cell of a change: device d in cell d - 1, and a block in its own.
pub fn cell_of(change: &Change) -> u32
    ensures { result ≡ seen.cell_of change.now }
{
    match change {
        Change::Trust(device, _) => device.get() - 1,
        Change::Accept { cell, .. } => *cell,
    }
}

/// The payload of the cell once the change is made.
pub fn payload_with(room: &Room<BLOCK_BYTES>, change: &Change) -> [u8; BLOCK_BYTES]
    requires cells { cells_of room.now ≡ VERIFIER_CELLS }
    requires filled { HoldRows (kept_in room.now) }
    requires fits { IsFit (seen_held (kept_in room.now)) change.now }
    ensures { RowReadsAs (row_with (seen_held (kept_in room.now)) change.now) result }
{
    match change {
        Change::Trust(device, key) => trust_payload(*device, key),
        Change::Accept {
            cell,
            device,
            block,
            place,
            scan,
        } => accept_payload(get_room(room, *cell), *device, *block, *place, *scan),
    }
}
