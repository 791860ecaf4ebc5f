//! Cells of two slots, one after the other.
ghost use Rattle.std.specs.Prelude.{◌≡◌, ◌+◌, ◌*◌, ◌≤◌, ◌<◌, ◌^◌, length, Some, false};
ghost use Rattle.nv_store.specs.declared.TheConstants.{MOST_BYTES};
ghost use Rattle.nv_store.specs.Tables.{TableHolds, PlacesInside, table_view};

use crate::causes::{MountCause, store_fail};
use crate::cells::{commit_cell, settle};
use crate::room::{Room, is_worn, payload_at, sum_counts};
use crate::store::Store;
use bench_base::refusals::StoreFail;
use nv_model::{Fused, Nv};

/// Cells of two slots, one after the other, each `2·(5+L)` bytes.
#[derive(Drop)]
pub struct Table<N: Nv, const L: usize> {
    nv: N,
    room: Room<L>,
    failed: bool,
    ghost small: { L ≤ MOST_BYTES },
    ghost fits: { length room.heads.items * (2 * (5 + L)) < 2 ^ 32 },
    ghost size: { length room.heads.items * (2 * (5 + L)) ≤ N.size nv },
    ghost places: { PlacesInside 2 (length room.heads.items) room.heads.items },
    ghost powered: { failed ≡ false → (N.meters nv).lost ≡ false },
    ghost holds: { failed ≡ false → N.tells → TableHolds L (length room.heads.items) room.heads.items room.payloads.items (N.times nv) (N.content nv) },
}

impl<N: Nv, const L: usize> Store<L> for Table<N, L> {
    ghost tells = { N.tells };

    ghost slots = { 2 };

    ghost view = { λ s. table_view N.Nv s.nv s.room.heads.items s.room.payloads.items s.failed };

    ghost use Rattle.nv_store.specs.TableKnows.{table_only};

    ghost knows = { λ s tells works. table_only s.room.same (s.holds works tells) };

    fn cells(&self) -> u32 {
        self.room.heads.len() as u32
    }

    fn get(&self, cell: u32) -> Option<&[u8; L]> {
        payload_at(&self.room, cell)
    }

    fn commit(&mut self, cell: u32, payload: &[u8; L]) -> Result<(), StoreFail> {
        if self.failed {
            return Err(StoreFail::Failed);
        }
        if is_worn(&self.room, cell) {
            return Err(StoreFail::Worn);
        }
        let done = commit_cell(
            &mut self.nv,
            &mut self.room.heads,
            &mut self.room.payloads,
            cell,
            payload,
        );
        match done {
            Ok(()) => Ok(()),
            Err(fail) => {
                self.failed = true;
                Err(store_fail(fail))
            }
        }
    }

    fn commits(&self) -> u64 {
        sum_counts(&self.room)
    }
}

/// A mount that failed gives back the storage and the memory.
#[derive(Drop)]
pub struct MountFail<N, const L: usize> {
    pub nv: N,
    pub room: Room<L>,
    pub cause: MountCause,
}

impl<N: Nv, const L: usize> Table<N, L> {
    ghost use Rattle.nv_store.specs.RoomView.{cells_of};
    ghost use Rattle.nv_store.specs.TableView.{storage_of, cell_count};
    ghost use Rattle.nv_store.specs.TableMounts.{MountsTable};

    /// Mounts as many cells as the room is for, in storage of `2·(5+L)` bytes a cell.
    pub fn mount(nv: N, room: Room<L>) -> Result<Table<N, L>, MountFail<N, L>>
        requires small { L ≤ MOST_BYTES }
        requires powered { (N.meters nv).lost ≡ false }
        ensures { MountsTable nv room.entry result }
    {
        let mut nv = nv;
        let size = nv.size();
        if u64::from(size) != room.heads.len() as u64 * (2 * (5 + L as u64)) {
            return Err(MountFail {
                nv,
                room,
                cause: MountCause::Size(size),
            });
        }
        let Room {
            mut heads,
            mut payloads,
        } = room;
        let found = settle(&mut nv, &mut heads, &mut payloads);
        let room = Room { heads, payloads };
        match found {
            Err(fail) => Err(MountFail {
                nv,
                room,
                cause: MountCause::from(fail),
            }),
            Ok(Some(cell)) => Err(MountFail {
                nv,
                room,
                cause: MountCause::Mixed(cell),
            }),
            Ok(None) => Ok(Table {
                nv,
                room,
                failed: false,
            }),
        }
    }

    /// Gives the storage and the memory back.
    pub fn shut(self) -> (N, Room<L>)
        ensures storage { result.0 ≡ storage_of self }
        ensures cells { cells_of result.1 ≡ cell_count self }
    {
        let Table {
            nv,
            room,
            failed: _,
        } = self;
        (nv, room)
    }
}

impl<M: Nv, const L: usize> Table<Fused<M>, L> {
    ghost use Rattle.nv_model.specs.Fuses.{inside, state_of};
    ghost use Rattle.nv_store.specs.TableView.{storage_of, cell_count, held_by, has_failed};

    /// Arms the fuse of the storage: see `Fused::arm`.
    pub fn arm(&mut self, calls: u32, keep: u32, byte: u8)
        ensures armed { state_of (storage_of self.new) ≡ record
            (state_of (storage_of self.old)) { fuse = Some calls; keep = keep; byte = byte } }
        ensures inside { inside (storage_of self.new) ≡ inside (storage_of self.old) }
        ensures cells { cell_count self.new ≡ cell_count self.old }
        ensures held { held_by self.new ≡ held_by self.old }
        ensures failed { has_failed self.new ≡ has_failed self.old }
    {
        self.nv.arm(calls, keep, byte);
    }
}
