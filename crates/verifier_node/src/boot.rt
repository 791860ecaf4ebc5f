//! The rows of the verifier out of its cells.
ghost use Rattle.std.specs.Prelude.{◌≡◌, ◌+◌, ◌<◌, ◌≤◌, Some, None, OnOk, OnErr, IfOk, MatchBool};
ghost use Rattle.bench_base.specs.declared.sizes.TheConstants.{VERIFIER_CELLS};
ghost use Rattle.nv_store.specs.RoomView.{cells_of, kept_in};
ghost use Rattle.nv_store.specs.Store.{payload_of};
ghost use Rattle.verifier.specs.Payload.{IsPayloadOf, row_of};
ghost use Rattle.verifier.specs.Rows.{Row};
ghost use Rattle.verifier_node.specs.Payloads.{HoldRows};
ghost use Rattle.verifier_node.specs.Boots.{CellRead, AreRead, HasForeign, block_held, AreListed, AreBlank, HasGap, Breaks, HoldNone, HoldSound};

use crate::cells::{is_blank, is_trusted};
use bench_base::numbers::DevNo;
use bench_base::sizes::{BLOCK_BYTES, FIRST_BLOCK, VERIFIER_CELLS};
use nv_store::{Room, get_room};
use verifier::{BlockIndex, ReadyKeys, block_in, key_in, read_block, read_trust};

// Whether a payload reads as a row of its cell.
fn reads(cell: u32, payload: &[u8; BLOCK_BYTES]) -> bool
    requires { cell < VERIFIER_CELLS }
    ensures { MatchBool result (IsPayloadOf cell (row_of cell payload.now) payload.now)
        ((x : Row) → IsPayloadOf cell x payload.now → ⊥) }
{
    match DevNo::new(cell + 1) {
        Some(device) => read_trust(device, payload),
        None => read_block(payload).is_some(),
    }
}

// Whether the payload of a cell, where it has one, reads as a row.
fn is_read(room: &Room<BLOCK_BYTES>, cell: u32) -> bool
    requires cells { cells_of room.now ≡ VERIFIER_CELLS }
    requires inside { cell < VERIFIER_CELLS }
    ensures { MatchBool result (CellRead (kept_in room.now) cell) (HasForeign (kept_in room.now)) }
{
    match get_room(room, cell) {
        Some(payload) => reads(cell, payload),
        None => true,
    }
}

// So of all cells.
fn are_read(room: &Room<BLOCK_BYTES>) -> bool
    requires cells { cells_of room.now ≡ VERIFIER_CELLS }
    ensures { MatchBool result (AreRead (kept_in room.now)) (HasForeign (kept_in room.now)) }
{
    for cell in 0..VERIFIER_CELLS {
        if !is_read(room, cell) {
            return false;
        }
    }
    true
}

// Device and number of the block in a cell; 0 and 0 if the cell is blank.
fn block_at(room: &Room<BLOCK_BYTES>, cell: u32) -> (u32, u32)
    requires cells { cells_of room.now ≡ VERIFIER_CELLS }
    requires inside { cell < VERIFIER_CELLS }
    ensures { result ≡ block_held (kept_in room.now) cell }
{
    match get_room(room, cell) {
        Some(payload) => block_in(payload),
        None => (0, 0),
    }
}

// Whether the device of the block in a cell is trusted.
fn is_listed(room: &Room<BLOCK_BYTES>, cell: u32, payload: &[u8; BLOCK_BYTES]) -> bool
    requires cells { cells_of room.now ≡ VERIFIER_CELLS }
    requires filled { HoldRows (kept_in room.now) }
    requires inside { cell < VERIFIER_CELLS }
    requires payload { payload_of (kept_in room.now cell) ≡ Some payload.now }
    requires listed { AreListed (kept_in room.now) cell }
    ensures { MatchBool result (AreListed (kept_in room.now) (cell + 1)) (Breaks (kept_in room.now)) }
{
    let block = block_in(payload);
    is_trusted(room, block.0)
}

// The first blank cell after the blocks, or the number of cells. Err if the device of a block before it is not trusted.
fn end_of_blocks(room: &Room<BLOCK_BYTES>) -> Result<u32, ()>
    requires cells { cells_of room.now ≡ VERIFIER_CELLS }
    requires read { AreRead (kept_in room.now) }
    ensures listed { IfOk result (AreListed (kept_in room.now)) }
    ensures inside { IfOk result (λ cell. cell ≤ VERIFIER_CELLS) }
    ensures blank { IfOk result (λ cell. cell < VERIFIER_CELLS → kept_in room.now cell ≡ None) }
    ensures breaks { OnErr result (Breaks (kept_in room.now)) }
{
    for cell in FIRST_BLOCK..VERIFIER_CELLS {
        let Some(payload) = get_room(room, cell) else {
            return Ok(cell);
        };
        if !is_listed(room, cell, payload) {
            return Err(());
        }
    }
    Ok(VERIFIER_CELLS)
}

// Whether the cells from this one on are blank.
fn are_blank(room: &Room<BLOCK_BYTES>, first: u32) -> bool
    requires cells { cells_of room.now ≡ VERIFIER_CELLS }
    ensures { MatchBool result (AreBlank (kept_in room.now) first) (HasGap (kept_in room.now) first) }
{
    for cell in first..VERIFIER_CELLS {
        if !is_blank(room, cell) {
            return false;
        }
    }
    true
}

/// The index of the blocks that the cells hold. Err where a payload reads as no row of its cell, or the rows break a
/// condition together.
pub fn index_rows(room: &Room<BLOCK_BYTES>, index: &mut BlockIndex) -> Result<(), ()>
    requires cells { cells_of room.now ≡ VERIFIER_CELLS }
    ensures sound { OnOk result (HoldSound (kept_in room.now) index.new) }
    ensures none { OnErr result (HoldNone (kept_in room.now)) }
{
    if !are_read(room) {
        return Err(());
    }
    let Ok(end) = end_of_blocks(room) else {
        return Err(());
    };
    if !index.fill(end, |cell| block_at(room, cell)) {
        return Err(());
    }
    if are_blank(room, end) {
        Ok(())
    } else {
        Err(())
    }
}

/// The keys that the cells of devices hold, made ready.
pub fn ready_keys(room: &Room<BLOCK_BYTES>, keys: &mut ReadyKeys)
    requires cells { cells_of room.now ≡ VERIFIER_CELLS }
{
    for cell in 0..FIRST_BLOCK {
        if let (Some(payload), Some(device)) = (get_room(room, cell), DevNo::new(cell + 1)) {
            keys.put(device, &key_in(payload));
        }
    }
}
