//! A commit to the cell that begins at a place of the storage.
ghost use Rattle.std.specs.Prelude.{◌≡◌, ◌+◌, ◌*◌, ◌≤◌, ◌<◌, ◌^◌, List, ℕ, OnOk, OnErr, Some, false, is_ok};
ghost use Rattle.nv_model.specs.Bytes.{SameOutside};
ghost use Rattle.nv_model.specs.Meters.{Went, UsesExactly};
ghost use Rattle.nv_model.specs.Moments.{Only, Elapses};
ghost use Rattle.nv_store.specs.Slot.{slots_at};
ghost use Rattle.nv_store.specs.Cells.{Known, Commits, shown, next_of};
ghost use Rattle.nv_store.specs.Store.{commit_calls, next_is_open};
ghost use Rattle.nv_store.specs.Fills.{Fills, fill, told};

use crate::MOST_BYTES;
use crate::head::Head;
use crate::steps::fill_slot;
use nv_model::{Nv, NvFail};

/// Commits a payload to the cell of so many slots that begins at a place.
pub fn commit_at<N: Nv, const L: usize>(
    nv: &mut N,
    at: u32,
    slots: u32,
    head: &mut Head,
    kept: &mut [u8; L],
    payload: &[u8; L],
) -> Result<(), NvFail>
    requires small { L ≤ MOST_BYTES }
    requires many { (2 ≤ slots) × (slots ≤ 16) }
    requires room { at + slots * (5 + L) ≤ N.size nv.old }
    requires fits { at + slots * (5 + L) < 2 ^ 32 }
    requires powered { (N.meters nv.old).lost ≡ false }
    requires next { head.old.count < 4294967295 }
    requires inside { 0 < head.old.count → head.old.place < slots }
    requires alone { N.tells → Only (N.times nv.old) (N.content nv.old) }
    requires known { N.tells
        → Known slots (slots_at L at (N.content nv.old)) head.old.count head.old.place head.old.gates kept.old }

    // At every moment each image shows what was before, or the new count and payload.
    ensures any_moment { N.tells → (c : List ℕ) → (N.times nv.new).since (N.times nv.old).moment c
        → Commits L slots at (shown L slots at (N.content nv.old)) (head.old.count + 1, payload.now)
        (N.content nv.old) c }

    // After Ok the only image shows these.
    ensures done { N.tells
        → OnOk result (shown L slots at (N.content nv.new) ≡ Some (head.old.count + 1, payload.now)) }
    ensures durable { N.tells → OnOk result (Only (N.times nv.new) (N.content nv.new)) }
    ensures known { N.tells
        → OnOk result (Known slots (slots_at L at (N.content nv.new)) head.new.count head.new.place head.new.gates
        kept.new) }
    ensures others { N.tells → OnOk result (SameOutside at (slots * (5 + L)) (N.content nv.old) (N.content nv.new)) }
    ensures time { N.tells → Elapses (N.times nv.old) (N.times nv.new) }
    ensures row { OnOk result ((head.new.count ≡ head.old.count + 1) × (kept.new ≡ payload.now)
        × (head.new.place < slots)) }
    // It fills the next slot.
    ensures fills { N.tells
        → Fills (fill L slots at (head.old.count + 1, payload.now)) (told N.Nv nv.old) (told N.Nv nv.new)
        (is_ok result) }
    ensures place { OnOk result (head.new.place ≡ next_of head.old.count head.old.place slots) }
    ensures same { OnErr result ((head.new ≡ head.old) × (kept.new ≡ kept.old)) }
    ensures went { Went 6 (N.meters nv.old) (N.meters nv.new) result }
    ensures calls { OnOk result (UsesExactly (commit_calls (next_is_open slots head.old)) (N.meters nv.old).fuse
        (N.meters nv.new).fuse) }
    ensures size { N.size nv.new ≡ N.size nv.old }
{
    let place = head.next_place(slots);
    let width = 5 + L as u32;
    let is_open = head.gates[place as usize];
    fill_slot(nv, at + place * width, is_open, head.count + 1, payload)?;
    head.count += 1;
    head.place = place;
    head.gates[place as usize] = true;
    *kept = *payload;
    Ok(())
}
