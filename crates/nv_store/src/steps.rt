//! The writes of a commit: closing a slot's gate, writing the bytes after it, and opening it.
ghost use Rattle.std.specs.Prelude.{◌≡◌, ◌+◌, ◌≤◌, ◌<◌, ◌^◌, ◌++◌, List, [], ◌∷◌, ℕ, length, take, OnOk, Some, None, IsSome, false, is_some, if◌then◌else◌};
ghost use Rattle.std.specs.Int.{to_be_bytes, w32};
ghost use Rattle.nv_model.specs.Bytes.{SameOutside, range};
ghost use Rattle.nv_model.specs.Meters.{Went, UsesExactly};
ghost use Rattle.nv_model.specs.Moments.{Only};
ghost use Rattle.nv_store.specs.Slot.{slot_at};
ghost use Rattle.nv_store.specs.Store.{commit_calls};
ghost use Rattle.nv_store.specs.Fills.{FillsSlot, closed};
ghost use Rattle.nv_store.specs.Steps.{Puts, Steps, IsShut, IsOrShut, IsOrHolds};

use crate::MOST_BYTES;
use nv_model::{Nv, NvFail};

/// The gate of an open slot.
pub const OPEN: u8 = 0xA5;

/// Writes bytes and makes sure of them.
fn put<N: Nv>(nv: &mut N, at: u32, bytes: &[u8]) -> Result<(), NvFail>
    requires room { at + length bytes.now ≤ N.size nv.old }
    requires powered { (N.meters nv.old).lost ≡ false }
    requires alone { N.tells → Only (N.times nv.old) (N.content nv.old) }
    ensures puts { N.tells
        → Puts at bytes.now (N.content nv.old) (N.content nv.new) (N.times nv.old) (N.times nv.new) result }
    ensures durable { N.tells → OnOk result (Only (N.times nv.new) (N.content nv.new)) }
    ensures went { Went 2 (N.meters nv.old) (N.meters nv.new) result }
    ensures calls { OnOk result (UsesExactly 2 (N.meters nv.old).fuse (N.meters nv.new).fuse) }
    ensures size { N.size nv.new ≡ N.size nv.old }
{
    nv.write(at, bytes)?;
    nv.sync()
}

/// Closes the open gate of a slot.
pub fn close_gate<N: Nv, const L: usize>(nv: &mut N, at: u32) -> Result<(), NvFail>
    requires room { at + 5 + L ≤ N.size nv.old }
    requires fits { at + 5 + L < 2 ^ 32 }
    requires powered { (N.meters nv.old).lost ≡ false }
    requires alone { N.tells → Only (N.times nv.old) (N.content nv.old) }
    requires is_open { N.tells → IsSome (slot_at L at (N.content nv.old)) }
    ensures steps { N.tells
        → Steps L at (IsOrShut (slot_at L at (N.content nv.old))) IsShut (N.content nv.old) (N.content nv.new)
        (N.times nv.old) (N.times nv.new) result }
    ensures puts { N.tells
        → Puts at (0 ∷ []) (N.content nv.old) (N.content nv.new) (N.times nv.old) (N.times nv.new) result }
    ensures went { Went 2 (N.meters nv.old) (N.meters nv.new) result }
    ensures calls { OnOk result (UsesExactly 2 (N.meters nv.old).fuse (N.meters nv.new).fuse) }
    ensures size { N.size nv.new ≡ N.size nv.old }
{
    put(nv, at, &[0])
}

/// Puts a count and a payload together.
fn join<const L: usize>(buffer: &mut [u8], count: u32, payload: &[u8; L])
    requires { 4 + L ≤ length buffer.old }
    ensures { take (4 + L) buffer.new ≡ to_be_bytes w32 count ++ payload.now }
{
    buffer[..4].copy_from_slice(&count.to_be_bytes());
    buffer[4..4 + L].copy_from_slice(payload);
}

/// Writes the count and the payload after a closed gate.
pub fn write_payload<N: Nv, const L: usize>(
    nv: &mut N,
    at: u32,
    count: u32,
    payload: &[u8; L],
) -> Result<(), NvFail>
    requires small { L ≤ MOST_BYTES }
    requires room { at + 5 + L ≤ N.size nv.old }
    requires fits { at + 5 + L < 2 ^ 32 }
    requires powered { (N.meters nv.old).lost ≡ false }
    requires alone { N.tells → Only (N.times nv.old) (N.content nv.old) }
    requires shut { N.tells → IsShut (slot_at L at (N.content nv.old)) }
    ensures steps { N.tells
        → Steps L at IsShut IsShut (N.content nv.old) (N.content nv.new) (N.times nv.old) (N.times nv.new) result }
    ensures puts { N.tells
        → Puts (at + 1) (to_be_bytes w32 count ++ payload.now) (N.content nv.old) (N.content nv.new) (N.times nv.old)
        (N.times nv.new) result }
    ensures written { N.tells
        → OnOk result (range (N.content nv.new) (at + 1) (4 + L) ≡ to_be_bytes w32 count ++ payload.now) }
    ensures went { Went 2 (N.meters nv.old) (N.meters nv.new) result }
    ensures calls { OnOk result (UsesExactly 2 (N.meters nv.old).fuse (N.meters nv.new).fuse) }
    ensures size { N.size nv.new ≡ N.size nv.old }
{
    let mut buffer = [0; 4 + MOST_BYTES];
    join(&mut buffer, count, payload);
    put(nv, at + 1, &buffer[..4 + L])
}

/// Opens the gate before a count and a payload.
pub fn open_gate<N: Nv, const L: usize>(
    nv: &mut N,
    at: u32,
    count: u32,
    payload: &[u8; L],
) -> Result<(), NvFail>
    requires room { at + 5 + L ≤ N.size nv.old }
    requires fits { at + 5 + L < 2 ^ 32 }
    requires powered { (N.meters nv.old).lost ≡ false }
    requires alone { N.tells → Only (N.times nv.old) (N.content nv.old) }
    requires shut { N.tells → IsShut (slot_at L at (N.content nv.old)) }
    requires written { N.tells → range (N.content nv.old) (at + 1) (4 + L) ≡ to_be_bytes w32 count ++ payload.now }
    ensures steps { N.tells
        → Steps L at (IsOrHolds None (count, payload.now)) (λ s. s ≡ Some (count, payload.now)) (N.content nv.old)
        (N.content nv.new) (N.times nv.old) (N.times nv.new) result }
    ensures puts { N.tells
        → Puts at (165 ∷ []) (N.content nv.old) (N.content nv.new) (N.times nv.old) (N.times nv.new) result }
    ensures went { Went 2 (N.meters nv.old) (N.meters nv.new) result }
    ensures calls { OnOk result (UsesExactly 2 (N.meters nv.old).fuse (N.meters nv.new).fuse) }
    ensures size { N.size nv.new ≡ N.size nv.old }
{
    put(nv, at, &[OPEN])
}

/// Closes the gate of a slot where it is open.
fn shut<N: Nv, const L: usize>(nv: &mut N, at: u32, is_open: bool) -> Result<(), NvFail>
    requires room { at + 5 + L ≤ N.size nv.old }
    requires fits { at + 5 + L < 2 ^ 32 }
    requires powered { (N.meters nv.old).lost ≡ false }
    requires alone { N.tells → Only (N.times nv.old) (N.content nv.old) }
    requires gate { N.tells → is_some (slot_at L at (N.content nv.old)) ≡ is_open }
    ensures steps { N.tells
        → Steps L at (IsOrShut (slot_at L at (N.content nv.old))) IsShut (N.content nv.old) (N.content nv.new)
        (N.times nv.old) (N.times nv.new) result }
    ensures torn { N.tells → (c : List ℕ) → (N.times nv.new).since (N.times nv.old).moment c
        → SameOutside at 1 (N.content nv.old) c }
    ensures shuts { N.tells → OnOk result (N.content nv.new ≡ closed L at (N.content nv.old)) }
    ensures went { Went 2 (N.meters nv.old) (N.meters nv.new) result }
    ensures calls { OnOk result (UsesExactly (if is_open then 2 else 0) (N.meters nv.old).fuse (N.meters nv.new).fuse) }
    ensures size { N.size nv.new ≡ N.size nv.old }
{
    if is_open {
        close_gate::<N, L>(nv, at)
    } else {
        Ok(())
    }
}

/// Fills a slot: at every moment it is as it was, closed, or filled.
pub fn fill_slot<N: Nv, const L: usize>(
    nv: &mut N,
    at: u32,
    is_open: bool,
    count: u32,
    payload: &[u8; L],
) -> Result<(), NvFail>
    requires small { L ≤ MOST_BYTES }
    requires room { at + 5 + L ≤ N.size nv.old }
    requires fits { at + 5 + L < 2 ^ 32 }
    requires powered { (N.meters nv.old).lost ≡ false }
    requires alone { N.tells → Only (N.times nv.old) (N.content nv.old) }
    requires gate { N.tells → is_some (slot_at L at (N.content nv.old)) ≡ is_open }
    ensures steps { N.tells
        → Steps L at (IsOrHolds (slot_at L at (N.content nv.old)) (count, payload.now))
        (λ s. s ≡ Some (count, payload.now)) (N.content nv.old) (N.content nv.new) (N.times nv.old)
        (N.times nv.new) result }
    ensures fills { N.tells
        → FillsSlot L at (count, payload.now) (N.content nv.old) (N.content nv.new) (N.times nv.old)
        (N.times nv.new) result }
    ensures went { Went 6 (N.meters nv.old) (N.meters nv.new) result }
    ensures calls { OnOk result (UsesExactly (commit_calls is_open) (N.meters nv.old).fuse (N.meters nv.new).fuse) }
    ensures size { N.size nv.new ≡ N.size nv.old }
{
    shut::<N, L>(nv, at, is_open)?;
    write_payload(nv, at, count, payload)?;
    open_gate(nv, at, count, payload)
}
