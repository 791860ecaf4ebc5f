//! One cell of two slots.
ghost use Rattle.std.specs.Prelude.{◌≡◌, ◌+◌, ◌*◌, ◌≤◌, ◌<◌, Some, false};
ghost use Rattle.nv_store.specs.declared.TheConstants.{MOST_BYTES};
ghost use Rattle.nv_store.specs.Store.{Holds, one_view};
ghost use Rattle.nv_store.specs.Mounts.{MountsOne};

use crate::causes::{MountCause, ends_failed};
use crate::head::Head;
use crate::lent::{commit_lent, mount_lent};
use crate::store::Store;
use bench_base::refusals::StoreFail;
use nv_model::{Fused, Nv};

/// One cell of two slots, at the front of storage of `16·(5+L)` bytes.
#[derive(Drop)]
pub struct Cell<N: Nv, const L: usize> {
    nv: N,
    head: Head,
    payload: [u8; L],
    failed: bool,
    ghost small: { L ≤ MOST_BYTES },
    ghost room: { 2 * (5 + L) ≤ N.size nv },
    ghost inside: { 0 < head.count → head.place < 2 },
    ghost powered: { failed ≡ false → (N.meters nv).lost ≡ false },
    ghost holds: { failed ≡ false → N.tells → Holds L 2 head payload (N.times nv) (N.content nv) },
}

impl<N: Nv, const L: usize> Store<L> for Cell<N, L> {
    ghost tells = { N.tells };

    ghost slots = { 2 };

    ghost view = { λ s. one_view N.Nv 2 s.nv s.head s.payload s.failed };

    ghost use Rattle.nv_store.specs.Knows.{holds_shows};

    ghost knows = { λ s tells works. holds_shows (s.holds works tells) };

    fn cells(&self) -> u32 {
        1
    }

    fn get(&self, cell: u32) -> Option<&[u8; L]> {
        if self.head.count == 0 {
            None
        } else {
            Some(&self.payload)
        }
    }

    fn commit(&mut self, cell: u32, payload: &[u8; L]) -> Result<(), StoreFail> {
        if self.failed {
            return Err(StoreFail::Failed);
        }
        let done = commit_lent(&mut self.nv, 2, &mut self.head, &mut self.payload, payload);
        self.failed = ends_failed(&done);
        done
    }

    fn commits(&self) -> u64 {
        u64::from(self.head.count)
    }
}

impl<N: Nv, const L: usize> Cell<N, L> {
    ghost use Rattle.nv_store.specs.OneView.{storage_of, held_by, has_failed};

    /// Mounts the cell in storage of `16·(5+L)` bytes; a failed mount gives the storage back.
    pub fn mount(nv: N) -> Result<Cell<N, L>, (N, MountCause)>
        requires small { L ≤ MOST_BYTES }
        requires powered { (N.meters nv).lost ≡ false }
        ensures { MountsOne N.Nv L 2 storage_of held_by has_failed nv result }
    {
        let mut nv = nv;
        let mut payload = [0; L];
        match mount_lent(&mut nv, 2, &mut payload) {
            Err(cause) => Err((nv, cause)),
            Ok(head) => Ok(Cell {
                nv,
                head,
                payload,
                failed: false,
            }),
        }
    }

    /// Gives the storage back.
    pub fn shut(self) -> N
        ensures { result ≡ storage_of self }
    {
        let Cell {
            nv,
            head: _,
            payload: _,
            failed: _,
        } = self;
        nv
    }
}

impl<M: Nv, const L: usize> Cell<Fused<M>, L> {
    ghost use Rattle.nv_model.specs.Fuses.{inside, state_of};
    ghost use Rattle.nv_store.specs.OneView.{storage_of, held_by, has_failed};

    /// Arms the fuse of the storage: see `Fused::arm`.
    pub fn arm(&mut self, calls: u32, keep: u32, byte: u8)
        ensures armed { state_of (storage_of self.new) ≡ record
            (state_of (storage_of self.old)) { fuse = Some calls; keep = keep; byte = byte } }
        ensures inside { inside (storage_of self.new) ≡ inside (storage_of self.old) }
        ensures held { held_by self.new ≡ held_by self.old }
        ensures failed { has_failed self.new ≡ has_failed self.old }
    {
        self.nv.arm(calls, keep, byte);
    }
}
