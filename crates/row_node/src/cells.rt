//! The memory of a table's cells, whatever the size of a payload.
ghost use Rattle.std.specs.Prelude.{◌≡◌, ◌≤◌, ◌<◌, None, IfOk, IsSome, MatchBool, true, false};
ghost use Rattle.bench_base.specs.declared.sizes.TheConstants.{MOST_COMMITS};
ghost use Rattle.nv_store.specs.declared.TheConstants.{MOST_BYTES};
ghost use Rattle.nv_store.specs.RoomView.{cells_of, kept_in};
ghost use Rattle.nv_store.specs.Rooms.{RoomRuns, RoomCommits, RoomMounts};
ghost use Rattle.nv_store.specs.Store.{count_of, count_sum};

use bench_base::refusals::StoreFail;
use nv_model::Nv;
use nv_store::{
    MountCause, Room, clear_room, commit_room, count_room, get_room, is_room_worn, mount_room,
};
use std::alloc::{AllocError, Global};

/// Memory for the cells of a table, side by side with its storage: see `nv_store::Room`.
pub trait Cells: Drop + Sized {
    ghost use Rattle.std.specs.Prelude.{ℕ, List};
    ghost use Rattle.nv_store.specs.declared.room.Room.{Room};

    /// What a cell holds.
    type Payload: Copy;

    /// The size of a payload in bytes.
    ghost size: { ℕ };

    ghost bytes: { Self.Payload → List ℕ };

    ghost room: { Self → Room size };

    /// Takes the memory for so many cells. AllocError is lack of memory.
    fn new(alloc: Global, cells: u32) -> Result<Self, AllocError>
        ensures { IfOk result (λ k. cells_of (room k) ≡ cells) };

    /// Makes each cell blank.
    fn clear(&mut self)
        ensures cells { cells_of (room self.new) ≡ cells_of (room self.old) }
        ensures blank { (k : ℕ) → kept_in (room self.new) k ≡ None };

    /// The sum of the counts of the cells.
    fn count(&self) -> u64
        ensures { result ≡ count_sum (cells_of (room self.now)) (kept_in (room self.now)) };

    /// Whether the cell has no commit.
    fn is_blank(&self, cell: u32) -> bool
        requires small { size ≤ MOST_BYTES }
        requires inside { cell < cells_of (room self.now) }
        ensures { MatchBool result (kept_in (room self.now) cell ≡ None) (IsSome (kept_in (room self.now) cell)) };

    /// Whether the cell has as many commits as can be counted.
    fn is_worn(&self, cell: u32) -> bool
        requires inside { cell < cells_of (room self.now) }
        ensures worn { result ≡ true → count_of (kept_in (room self.now) cell) ≡ MOST_COMMITS }
        ensures less { result ≡ false → count_of (kept_in (room self.now) cell) < MOST_COMMITS };

    /// Commits a payload to a cell: see `nv_store::commit_room`.
    fn commit<N: Nv>(
        &mut self,
        nv: &mut N,
        cell: u32,
        payload: &Self::Payload,
    ) -> Result<(), StoreFail>
        requires inside { cell < cells_of (room self.old) }
        requires runs { RoomRuns N.Nv (room self.old) nv.old }
        ensures { RoomCommits N.Nv cell (bytes payload.now) (room self.old) (room self.new) nv.old nv.new result };

    /// Reads the cells out of storage: see `nv_store::mount_room`.
    fn mount<N: Nv>(&mut self, nv: &mut N) -> Result<(), MountCause>
        requires small { size ≤ MOST_BYTES }
        requires powered { (N.meters nv.old).lost ≡ false }
        ensures { RoomMounts N.Nv (room self.old) (room self.new) nv.old nv.new result };
}

impl<const L: usize> Cells for Room<L> {
    type Payload = [u8; L];

    ghost size = { L };

    ghost bytes = { λ payload. payload };

    ghost room = { λ k. k };

    fn new(alloc: Global, cells: u32) -> Result<Room<L>, AllocError> {
        Room::new(alloc, cells)
    }

    fn clear(&mut self) {
        clear_room(self);
    }

    fn count(&self) -> u64 {
        count_room(self)
    }

    fn is_blank(&self, cell: u32) -> bool {
        get_room(self, cell).is_none()
    }

    fn is_worn(&self, cell: u32) -> bool {
        is_room_worn(self, cell)
    }

    fn commit<N: Nv>(&mut self, nv: &mut N, cell: u32, payload: &[u8; L]) -> Result<(), StoreFail> {
        commit_room(nv, self, cell, payload)
    }

    fn mount<N: Nv>(&mut self, nv: &mut N) -> Result<(), MountCause> {
        mount_room(nv, self)
    }
}
