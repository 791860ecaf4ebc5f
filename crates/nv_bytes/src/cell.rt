//! The slots of a cell, in its bytes.
ghost use Rattle.std.specs.Prelude.{◌≡◌, ◌+◌, ◌*◌, ◌≤◌, ◌<◌, ℕ, List, Option, Some, true, false, length};
ghost use Rattle.nv_model.specs.Bytes.{range};
ghost use Rattle.nv_store.specs.Slot.{Held, slot, slots_at, IsClear};
ghost use Rattle.nv_store.specs.Scans.{open_count};
ghost use Rattle.nv_bytes.specs.Newest.{IsNewest, IsRepeated, ShowsNone, ShowsHeld};

/// The commit marker of a slot that counts.
const OPEN: u8 = 165;

/// The newest slot of a cell: where it is, and its count.
#[derive(Clone, Copy)]
pub struct Newest {
    pub place: usize,
    pub count: u32,
}

// The bytes of the slot at this place.
fn slot_bytes(cell: &[u8], size: usize, place: usize) -> &[u8]
    requires small { size ≤ 2056 }
    requires few { place < 16 }
    requires inside { place * (5 + size) + (5 + size) ≤ length cell.now }
    ensures value { result.now ≡ range cell.now (place * (5 + size)) (5 + size) }
    ensures long { length result.now ≡ 5 + size }
{
    let start = place * (5 + size);
    &cell[start..start + (5 + size)]
}

// The count of a slot, if its marker is set.
fn count_in(bytes: &[u8]) -> Option<u32>
    requires { 5 ≤ length bytes.now }
    ensures { result ≡ open_count (slot bytes.now) }
{
    if bytes[0] == OPEN {
        Some(u32::from_be_bytes([bytes[1], bytes[2], bytes[3], bytes[4]]))
    } else {
        None
    }
}

/// The count of the slot at this place, if its marker is set.
pub fn count_at(cell: &[u8], size: usize, place: usize) -> Option<u32>
    requires small { size ≤ 2056 }
    requires few { place < 16 }
    requires inside { place * (5 + size) + (5 + size) ≤ length cell.now }
    ensures { result ≡ open_count (slots_at size 0 cell.now place) }
{
    count_in(slot_bytes(cell, size, place))
}

/// The payload of the slot at this place, whose marker is set.
pub fn payload_at(cell: &[u8], size: usize, place: usize) -> &[u8]
    requires small { size ≤ 2056 }
    requires few { place < 16 }
    requires inside { place * (5 + size) + (5 + size) ≤ length cell.now }
    ensures value { (held : Held) → slots_at size 0 cell.now place ≡ Some held → held.1 ≡ result.now }
    ensures long { length result.now ≡ size }
{
    &slot_bytes(cell, size, place)[5..]
}

// The newest of the slots up to this one, by the newest of those before it.
fn newer(before: Option<Newest>, place: usize, count: Option<u32>) -> Option<Newest>
    ensures { (slots : ℕ → Option Held) → IsNewest place slots before → open_count (slots place) ≡ count → IsNewest (place + 1) slots result }
{
    let Some(count) = count else {
        return before;
    };
    let is_newer = match before {
        Some(newest) => newest.count < count,
        None => true,
    };
    if is_newer {
        Some(Newest { place, count })
    } else {
        before
    }
}

/// The newest slot of a cell of so many slots, with payloads of `size` bytes. None if no marker is set.
pub fn find_newest(cell: &[u8], slots: usize, size: usize) -> Option<Newest>
    requires small { size ≤ 2056 }
    requires few { slots ≤ 16 }
    requires long { length cell.now ≡ slots * (5 + size) }
    ensures { IsNewest slots (slots_at size 0 cell.now) result }
{
    let mut found = None;
    for place in 0..slots {
        found = newer(found, place, count_at(cell, size, place));
    }
    found
}

// Whether a slot before this place has this count.
fn is_repeated(cell: &[u8], size: usize, place: usize, count: u32) -> bool
    requires small { size ≤ 2056 }
    requires few { place < 16 }
    requires inside { place * (5 + size) ≤ length cell.now }
    ensures yes { result ≡ true → IsRepeated place (slots_at size 0 cell.now) count }
    ensures no { result ≡ false → IsRepeated place (slots_at size 0 cell.now) count → ⊥ }
{
    for earlier in 0..place {
        if count_at(cell, size, earlier) == Some(count) {
            return true;
        }
    }
    false
}

// Whether the cell stays clear with the slot at this place.
fn stays_clear(cell: &[u8], size: usize, place: usize) -> bool
    requires small { size ≤ 2056 }
    requires few { place < 16 }
    requires inside { place * (5 + size) + (5 + size) ≤ length cell.now }
    ensures yes { result ≡ true → IsClear place (slots_at size 0 cell.now) → IsClear (place + 1) (slots_at size 0 cell.now) }
    ensures no { result ≡ false → IsClear (place + 1) (slots_at size 0 cell.now) → ⊥ }
{
    let Some(count) = count_at(cell, size, place) else {
        return true;
    };
    if count == 0 {
        return false;
    }
    !is_repeated(cell, size, place, count)
}

/// Whether the cell is clear: no slot that counts has count 0, and no two have one count.
pub fn is_clear(cell: &[u8], slots: usize, size: usize) -> bool
    requires small { size ≤ 2056 }
    requires few { slots ≤ 16 }
    requires long { length cell.now ≡ slots * (5 + size) }
    ensures yes { result ≡ true → IsClear slots (slots_at size 0 cell.now) }
    ensures no { result ≡ false → IsClear slots (slots_at size 0 cell.now) → ⊥ }
{
    for place in 0..slots {
        if !stays_clear(cell, size, place) {
            return false;
        }
    }
    true
}

/// Whether the cell is clear, and no marker of it is set.
pub fn is_blank(cell: &[u8], slots: usize, size: usize) -> bool
    requires small { size ≤ 2056 }
    requires few { slots ≤ 16 }
    requires long { length cell.now ≡ slots * (5 + size) }
    ensures yes { result ≡ true → ShowsNone slots (slots_at size 0 cell.now) }
    ensures no { result ≡ false → ShowsNone slots (slots_at size 0 cell.now) → ⊥ }
{
    find_newest(cell, slots, size).is_none() && is_clear(cell, slots, size)
}

/// Copies the payload of the newest slot, if the cell is clear and has so many commits. Whether it has.
pub fn copy_newest(cell: &[u8], slots: usize, size: usize, count: u32, payload: &mut [u8]) -> bool
    requires small { size ≤ 2056 }
    requires few { slots ≤ 16 }
    requires long { length cell.now ≡ slots * (5 + size) }
    requires room { length payload.old ≡ size }
    ensures yes { result ≡ true → ShowsHeld slots (slots_at size 0 cell.now) (count, payload.new) }
    ensures no { result ≡ false → (bytes : List ℕ) → ShowsHeld slots (slots_at size 0 cell.now) (count, bytes) → ⊥ }
    ensures room { length payload.new ≡ size }
{
    let Some(found) = find_newest(cell, slots, size) else {
        return false;
    };
    if found.count != count {
        return false;
    }
    payload.copy_from_slice(payload_at(cell, size, found.place));
    is_clear(cell, slots, size)
}
