//! Committing and mounting over lent parts: storage, head and payload side by side, as a node keeps them.
ghost use Rattle.std.specs.Prelude.{◌≡◌, ◌+◌, ◌*◌, ◌≤◌, ◌<◌, OnOk, IfOk, IfSome, IfNone, false};
ghost use Rattle.nv_model.specs.Meters.{Went, UsesExactly};
ghost use Rattle.nv_model.specs.Moments.{Only};
ghost use Rattle.nv_store.specs.Slot.{slots_at};
ghost use Rattle.nv_store.specs.Cells.{Known};
ghost use Rattle.nv_store.specs.Lent.{CommitsParts, MountsParts, parts};
ghost use Rattle.nv_store.specs.Store.{Holds};
ghost use Rattle.nv_store.specs.Mounts.{Mounts};
ghost use Rattle.nv_store.specs.Scans.{IsMixed};

use crate::MOST_BYTES;
use crate::causes::{MountCause, store_fail};
use crate::commit::commit_at;
use crate::head::Head;
use crate::scan::find_cell;
use bench_base::refusals::StoreFail;
use nv_model::{Nv, NvFail};

/// Commits a payload to the one cell of a storage, and updates its head and its kept payload.
///
/// The caller must not commit again once this answered Power or Fault.
pub fn commit_lent<N: Nv, const L: usize>(
    nv: &mut N,
    slots: u32,
    head: &mut Head,
    kept: &mut [u8; L],
    payload: &[u8; L],
) -> Result<(), StoreFail>
    requires small { L ≤ MOST_BYTES }
    requires many { (2 ≤ slots) × (slots ≤ 16) }
    requires room { slots * (5 + L) ≤ N.size nv.old }
    requires powered { (N.meters nv.old).lost ≡ false }
    requires inside { 0 < head.old.count → head.old.place < slots }
    requires holds { N.tells → Holds L slots head.old kept.old (N.times nv.old) (N.content nv.old) }

    ensures { CommitsParts N.Nv L slots (parts nv.old head.old kept.old)
        (parts nv.new head.new kept.new) payload.now result }
{
    if head.count == u32::MAX {
        return Err(StoreFail::Worn);
    }
    match commit_at(nv, 0, slots, head, kept, payload) {
        Ok(()) => Ok(()),
        Err(fail) => Err(store_fail(fail)),
    }
}

/// Makes sure of the storage, and reads its cell, the payload into `kept`: None where the cell is mixed.
fn settle<N: Nv, const L: usize>(
    nv: &mut N,
    slots: u32,
    kept: &mut [u8; L],
) -> Result<Option<Head>, NvFail>
    requires small { L ≤ MOST_BYTES }
    requires many { (2 ≤ slots) × (slots ≤ 16) }
    requires room { slots * (5 + L) ≤ N.size nv.old }
    requires powered { (N.meters nv.old).lost ≡ false }
    ensures mounts { N.tells → Mounts (N.times nv.old) (N.times nv.new) }
    ensures alone { N.tells → OnOk result (Only (N.times nv.new) (N.content nv.new)) }
    ensures went { Went 1 (N.meters nv.old) (N.meters nv.new) result }
    ensures once { OnOk result (UsesExactly 1 (N.meters nv.old).fuse (N.meters nv.new).fuse) }
    ensures size { N.size nv.new ≡ N.size nv.old }
    ensures place { IfOk result (λ found. IfSome found (λ head. head.place < slots)) }
    ensures known { N.tells
        → IfOk result (λ found. IfSome found (λ head. Known slots
        (slots_at L 0 (N.content nv.new)) head.count head.place head.gates kept.new)) }
    ensures mixed { N.tells → IfOk result (λ found. IfNone found (IsMixed slots (slots_at L 0 (N.content nv.new)))) }
{
    nv.sync()?;
    find_cell(nv, 0, slots, kept)
}

/// Mounts the cell of so many slots at the front of storage of `16·(5+L)` bytes: answers its head, and reads its payload,
/// if it has one, into `kept`. Answers Size(n) before any call on the storage where its size n is another, Mixed(0) where
/// the cell has an open slot of count 0 or two open slots of equal count.
pub fn mount_lent<N: Nv, const L: usize>(
    nv: &mut N,
    slots: u32,
    kept: &mut [u8; L],
) -> Result<Head, MountCause>
    requires small { L ≤ MOST_BYTES }
    requires many { (2 ≤ slots) × (slots ≤ 16) }
    requires powered { (N.meters nv.old).lost ≡ false }

    ensures { MountsParts N.Nv L slots nv.old nv.new kept.new result }
{
    let size = nv.size();
    if u64::from(size) != 16 * (5 + L as u64) {
        return Err(MountCause::Size(size));
    }
    match settle(nv, slots, kept) {
        Err(fail) => Err(MountCause::from(fail)),
        Ok(None) => Err(MountCause::Mixed(0)),
        Ok(Some(head)) => Ok(head),
    }
}
