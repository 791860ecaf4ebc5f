//! Reading a cell: which slot is current, and what it holds.
ghost use Rattle.std.specs.Prelude.{◌≡◌, ◌≢◌, ◌⊎◌, ◌+◌, ◌*◌, ◌≤◌, ◌<◌, ◌^◌, ℕ, slice_set, get_or, OnOk, IfOk, IfSome, IfNone, Some, None, true, false, Option};
ghost use Rattle.nv_model.specs.Bytes.{range};
ghost use Rattle.nv_model.specs.Meters.{Went};
ghost use Rattle.nv_model.specs.Moments.{Rests};
ghost use Rattle.nv_store.specs.Slot.{Held, slot_at, slots_at, IsClear};
ghost use Rattle.nv_store.specs.Cells.{Known};
ghost use Rattle.nv_store.specs.Scans.{Scanned, IsMixed, Reads, front_count, open_count};

use crate::MOST_BYTES;
use crate::head::Head;
use crate::steps::OPEN;
use nv_model::{Nv, NvFail};

/// What the gates and counts of a cell's slots say.
#[derive(Clone, Copy)]
struct Scan {
    head: Head,
    counts: [u32; 16],
}

/// The count in the first bytes of a slot, where its gate is open.
fn count_in(front: &[u8; 5]) -> Option<u32>
    ensures { result ≡ front_count front.now }
{
    if front[0] == OPEN {
        Some(u32::from_be_bytes([front[1], front[2], front[3], front[4]]))
    } else {
        None
    }
}

/// Reads the gate and the count of a slot.
fn read_front<N: Nv, const L: usize>(nv: &mut N, at: u32) -> Result<Option<u32>, NvFail>
    requires room { at + 5 + L ≤ N.size nv.old }
    requires powered { (N.meters nv.old).lost ≡ false }
    ensures rests { N.tells → Rests (N.content nv.old) (N.content nv.new) (N.times nv.old) (N.times nv.new) }
    ensures went { Went 0 (N.meters nv.old) (N.meters nv.new) result }
    ensures size { N.size nv.new ≡ N.size nv.old }
    ensures count { N.tells → IfOk result (λ found. found ≡ open_count (slot_at L at (N.content nv.old))) }
{
    let mut front = [0; 5];
    nv.read(at, &mut front)?;
    Ok(count_in(&front))
}

/// Takes the count of a slot into account, where it is open.
fn note(scan: &mut Scan, place: u32, found: Option<u32>)
    requires { place < 16 }
    ensures place { (scan.new.head.place ≡ scan.old.head.place) ⊎ (scan.new.head.place ≡ place) }
    ensures closed { found ≡ None → scan.new ≡ scan.old }
    ensures gates { (count : ℕ) → found ≡ Some count → scan.new.head.gates ≡ slice_set scan.old.head.gates place true }
    ensures counts { (count : ℕ) → found ≡ Some count → scan.new.counts ≡ slice_set scan.old.counts place count }
    ensures better { (count : ℕ) → found ≡ Some count → scan.old.head.count < count
        → (scan.new.head.count ≡ count) × (scan.new.head.place ≡ place) }
    ensures kept { (count : ℕ) → found ≡ Some count → count ≤ scan.old.head.count
        → (scan.new.head.count ≡ scan.old.head.count) × (scan.new.head.place ≡ scan.old.head.place) }
{
    if let Some(count) = found {
        scan.head.gates[place as usize] = true;
        scan.counts[place as usize] = count;
        if scan.head.count < count {
            scan.head.count = count;
            scan.head.place = place;
        }
    }
}

/// Reads one slot more.
fn read_slot<N: Nv, const L: usize>(
    nv: &mut N,
    at: u32,
    place: u32,
    scan: &mut Scan,
) -> Result<(), NvFail>
    requires inside { place < 16 }
    requires room { at + 5 + L ≤ N.size nv.old }
    requires powered { (N.meters nv.old).lost ≡ false }
    ensures rests { N.tells → Rests (N.content nv.old) (N.content nv.new) (N.times nv.old) (N.times nv.new) }
    ensures went { Went 0 (N.meters nv.old) (N.meters nv.new) result }
    ensures size { N.size nv.new ≡ N.size nv.old }
    ensures place { (scan.new.head.place ≡ scan.old.head.place) ⊎ (scan.new.head.place ≡ place) }
    ensures more { N.tells → OnOk result ((slots : ℕ → Option Held) → slots place ≡ slot_at L at (N.content nv.old)
        → Scanned place slots scan.old.head.count scan.old.head.place scan.old.head.gates scan.old.counts
        → Scanned (place + 1) slots scan.new.head.count scan.new.head.place scan.new.head.gates scan.new.counts) }
{
    let found = read_front::<N, L>(nv, at)?;
    note(scan, place, found);
    Ok(())
}

/// Reads the gates and counts of the cell that begins at a place.
fn scan_slots<N: Nv, const L: usize>(nv: &mut N, at: u32, slots: u32) -> Result<Scan, NvFail>
    requires small { L ≤ MOST_BYTES }
    requires many { slots ≤ 16 }
    requires room { at + slots * (5 + L) ≤ N.size nv.old }
    requires fits { at + slots * (5 + L) < 2 ^ 32 }
    requires powered { (N.meters nv.old).lost ≡ false }
    ensures rests { N.tells → Rests (N.content nv.old) (N.content nv.new) (N.times nv.old) (N.times nv.new) }
    ensures went { Went 0 (N.meters nv.old) (N.meters nv.new) result }
    ensures size { N.size nv.new ≡ N.size nv.old }
    ensures place { IfOk result (λ scan. 0 < slots → scan.head.place < slots) }
    ensures scanned { N.tells
        → IfOk result (λ scan. Scanned slots (slots_at L at (N.content nv.old)) scan.head.count scan.head.place
        scan.head.gates scan.counts) }
{
    let mut scan = Scan {
        head: Head::blank(),
        counts: [0; 16],
    };
    let width = 5 + L as u32;
    for place in 0..slots {
        read_slot::<N, L>(nv, at + place * width, place, &mut scan)?;
    }
    Ok(scan)
}

/// Whether an open slot before this one has its count.
fn repeats(gates: &[bool; 16], counts: &[u32; 16], place: u32) -> bool
    requires { place < 16 }
    ensures found { result ≡ true → (j : ℕ) × (j < place) × (get_or gates.now j false ≡ true)
        × (get_or counts.now j 0 ≡ get_or counts.now place 0) }
    ensures none { result ≡ false → (j : ℕ) → j < place → get_or gates.now j false ≡ true
        → get_or counts.now j 0 ≢ get_or counts.now place 0 }
{
    for j in 0..place {
        if gates[j as usize] && counts[j as usize] == counts[place as usize] {
            return true;
        }
    }
    false
}

/// Whether an open slot has count 0, or two have equal counts.
fn is_mixed(gates: &[bool; 16], counts: &[u32; 16], slots: u32) -> bool
    requires { slots ≤ 16 }
    ensures mixed { result ≡ true → (s : ℕ → Option Held) → Reads slots s gates.now counts.now → IsMixed slots s }
    ensures clear { result ≡ false → (s : ℕ → Option Held) → Reads slots s gates.now counts.now → IsClear slots s }
{
    for place in 0..slots {
        if gates[place as usize] && (counts[place as usize] == 0 || repeats(gates, counts, place)) {
            return true;
        }
    }
    false
}

/// Reads the payload of the current slot, if there is one.
fn read_payload<N: Nv, const L: usize>(
    nv: &mut N,
    at: u32,
    slots: u32,
    head: &Head,
    kept: &mut [u8; L],
) -> Result<(), NvFail>
    requires small { L ≤ MOST_BYTES }
    requires many { slots ≤ 16 }
    requires inside { 0 < head.now.count → head.now.place < slots }
    requires room { at + slots * (5 + L) ≤ N.size nv.old }
    requires fits { at + slots * (5 + L) < 2 ^ 32 }
    requires powered { (N.meters nv.old).lost ≡ false }
    ensures rests { N.tells → Rests (N.content nv.old) (N.content nv.new) (N.times nv.old) (N.times nv.new) }
    ensures went { Went 0 (N.meters nv.old) (N.meters nv.new) result }
    ensures size { N.size nv.new ≡ N.size nv.old }
    ensures payload { N.tells
        → OnOk result (0 < head.now.count → kept.new ≡ range (N.content nv.old) (at + head.now.place * (5 + L) + 5) L) }
{
    if head.count == 0 {
        return Ok(());
    }
    let width = 5 + L as u32;
    nv.read(at + head.place * width + 5, kept)
}

/// Reads the cell that begins at a place, its payload into `kept`: none where the cell is mixed.
pub fn find_cell<N: Nv, const L: usize>(
    nv: &mut N,
    at: u32,
    slots: u32,
    kept: &mut [u8; L],
) -> Result<Option<Head>, NvFail>
    requires small { L ≤ MOST_BYTES }
    requires many { (2 ≤ slots) × (slots ≤ 16) }
    requires room { at + slots * (5 + L) ≤ N.size nv.old }
    requires fits { at + slots * (5 + L) < 2 ^ 32 }
    requires powered { (N.meters nv.old).lost ≡ false }
    ensures rests { N.tells → Rests (N.content nv.old) (N.content nv.new) (N.times nv.old) (N.times nv.new) }
    ensures went { Went 0 (N.meters nv.old) (N.meters nv.new) result }
    ensures size { N.size nv.new ≡ N.size nv.old }
    ensures place { IfOk result (λ found. IfSome found (λ head. head.place < slots)) }
    ensures known { N.tells
        → IfOk result (λ found. IfSome found (λ head. Known slots
        (slots_at L at (N.content nv.old)) head.count head.place head.gates kept.new)) }
    ensures mixed { N.tells → IfOk result (λ found. IfNone found (IsMixed slots (slots_at L at (N.content nv.old)))) }
{
    let scan = scan_slots::<N, L>(nv, at, slots)?;
    if is_mixed(&scan.head.gates, &scan.counts, slots) {
        return Ok(None);
    }
    read_payload(nv, at, slots, &scan.head, kept)?;
    Ok(Some(scan.head))
}
