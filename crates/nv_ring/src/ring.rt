//! One cell of sixteen slots.
ghost use Rattle.std.specs.Prelude.{◌≡◌, ◌+◌, ◌*◌, ◌/◌, ◌≤◌, ◌<◌, Some, false, sum, slice_index};
ghost use Rattle.nv_store.specs.declared.TheConstants.{MOST_BYTES};
ghost use Rattle.nv_store.specs.Slot.{Held, slots_at};
ghost use Rattle.nv_store.specs.Cells.{Top};
ghost use Rattle.nv_store.specs.Store.{Holds, count_of, one_view};
ghost use Rattle.nv_ring.specs.Turns.{IsWearOf, fills_of, slot_after};

use crate::wear::Wear;
use bench_base::refusals::StoreFail;
use nv_model::{Fused, Nv};
use nv_store::{Head, MountCause, Store, commit_lent, mount_lent};

/// One cell of sixteen slots, in storage of `16·(5+L)` bytes.
#[derive(Drop)]
pub struct Ring<N: Nv, const L: usize> {
    nv: N,
    head: Head,
    payload: [u8; L],
    wear: Wear,
    failed: bool,
    ghost small: { L ≤ MOST_BYTES },
    ghost room: { 16 * (5 + L) ≤ N.size nv },
    ghost inside: { 0 < head.count → head.place < 16 },
    ghost wears: { IsWearOf wear head },
    ghost powered: { failed ≡ false → (N.meters nv).lost ≡ false },
    ghost holds: { failed ≡ false → N.tells → Holds L 16 head payload (N.times nv) (N.content nv) },
}

impl<N: Nv, const L: usize> Store<L> for Ring<N, L> {
    ghost tells = { N.tells };

    ghost slots = { 16 };

    ghost view = { λ s. one_view N.Nv 16 s.nv s.head s.payload s.failed };

    /// The number of commits and the current slot at the mount.
    ghost keeps = { λ old new. (new.wear.first ≡ old.wear.first) × (new.wear.start ≡ old.wear.start) };

    ghost use Rattle.nv_store.specs.Knows.{holds_shows};

    ghost knows = { λ s tells works. holds_shows (s.holds works tells) };

    fn cells(&self) -> u32 {
        1
    }

    fn get(&self, cell: u32) -> Option<&[u8; L]> {
        if self.head.count == 0 {
            None
        } else {
            Some(&self.payload)
        }
    }

    fn commit(&mut self, cell: u32, payload: &[u8; L]) -> Result<(), StoreFail> {
        if self.failed {
            return Err(StoreFail::Failed);
        }
        let done = commit_lent(&mut self.nv, 16, &mut self.head, &mut self.payload, payload);
        match done {
            Ok(()) => self.wear.count(&self.head),
            Err(StoreFail::Power | StoreFail::Fault) => self.failed = true,
            Err(StoreFail::Worn | StoreFail::Failed) => {}
        }
        done
    }

    fn commits(&self) -> u64 {
        u64::from(self.head.count)
    }
}

impl<N: Nv, const L: usize> Ring<N, L> {
    ghost use Rattle.nv_ring.specs.RingView.{storage_of, held_by, has_failed, first_of, start_of, fills_in};
    ghost use Rattle.nv_ring.specs.Mounts.{MountsRing};

    /// Mounts the ring in storage of `16·(5+L)` bytes; a failed mount gives the storage back.
    pub fn mount(nv: N) -> Result<Ring<N, L>, (N, MountCause)>
        requires small { L ≤ MOST_BYTES }
        requires powered { (N.meters nv).lost ≡ false }
        ensures { MountsRing nv result }
    {
        let mut nv = nv;
        let mut payload = [0; L];
        match mount_lent(&mut nv, 16, &mut payload) {
            Err(cause) => Err((nv, cause)),
            Ok(head) => Ok(Ring {
                nv,
                head,
                payload,
                wear: Wear::new(&head),
                failed: false,
            }),
        }
    }

    /// How many commits of this value filled a slot.
    pub fn fills(&self, slot: u32) -> u32
        requires { slot < 16 }
        ensures fills { result ≡ slice_index (fills_in self.now) slot }

        // Commits fill the slots in turn, so each gets its share of them.
        ensures count { first_of self.now + sum (fills_in self.now) ≡ count_of (held_by self.now) }
        ensures turn { result ≡ fills_of (start_of self.now) (sum (fills_in self.now)) slot }
        ensures share { result ≤ sum (fills_in self.now) / 16 + 1 }

        // The slot of the last commit is the current one.
        ensures current { N.tells → has_failed self.now ≡ false → (held : Held) → held_by self.now ≡ Some held
            → Top 16 (slots_at L 0 (N.content (storage_of self.now))) (slot_after (start_of self.now) (sum (fills_in self.now))) held }
    {
        self.wear.fills[slot as usize]
    }

    /// Gives the storage back.
    pub fn shut(self) -> N
        ensures { result ≡ storage_of self }
    {
        let Ring {
            nv,
            head: _,
            payload: _,
            wear: _,
            failed: _,
        } = self;
        nv
    }
}

impl<M: Nv, const L: usize> Ring<Fused<M>, L> {
    ghost use Rattle.nv_model.specs.Fuses.{inside, state_of};
    ghost use Rattle.nv_ring.specs.RingView.{storage_of, held_by, has_failed, first_of, start_of, fills_in};

    /// Arms the fuse of the storage: see `Fused::arm`.
    pub fn arm(&mut self, calls: u32, keep: u32, byte: u8)
        ensures armed { state_of (storage_of self.new) ≡ record (state_of (storage_of self.old)) { fuse = Some calls; keep = keep; byte = byte } }
        ensures inside { inside (storage_of self.new) ≡ inside (storage_of self.old) }
        ensures held { held_by self.new ≡ held_by self.old }
        ensures wear { (first_of self.new ≡ first_of self.old) × (start_of self.new ≡ start_of self.old) × (fills_in self.new ≡ fills_in self.old) }
        ensures failed { has_failed self.new ≡ has_failed self.old }
    {
        self.nv.arm(calls, keep, byte);
    }
}
