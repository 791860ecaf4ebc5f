//! The departments out of their storage, and the storage given back.
ghost use Rattle.std.specs.Prelude.{◌≡◌, ◌≢◌, ℕ, List, Some, None, IfOk, IfErr, MatchResult, false, replicate};
ghost use Rattle.nv_model.specs.Moments.{Image, Only};
ghost use Rattle.nv_store.specs.Mounts.{Mounts};
ghost use Rattle.nv_store.specs.RoomView.{cells_of};
ghost use Rattle.row_store.specs.Boots.{BootCauses};
ghost use Rattle.row_store.specs.Seen.{ReadsAs};
ghost use Rattle.row_node.specs.Shows.{ShowsRows, IsDamagedTable};
ghost use Rattle.host_departments.specs.Payload.{decoded};
ghost use Rattle.host_departments.specs.Rows.{IsSound, row_in};
ghost use Rattle.host_departments.specs.View.{storage_of, room_of, has_failed, rows_of};
ghost use Rattle.host_departments.specs.declared.row.TheConstants.{CELLS};

use crate::answer::Answer;
use crate::desk::Departments;
use crate::index::index_of;
use crate::payload::DepartmentRows;
use crate::row::CELLS;
use bench_base::refusals::BootFail;
use nv_model::Nv;
use nv_store::Room;
use row_store::boot_rows;

impl<N: Nv> Departments<N> {
    /// The departments in their storage and in memory for 1,040 cells, or why they do not start, with both. Power is not lost. Nothing
    /// is written, and no memory is taken. Blank storage has no quota and no job.
    ///
    /// Storage is damaged if one of these is so. It has not 35,360 bytes. A cell has an open slot of count 0 or two open slots of equal
    /// counts. A payload is no quota or job of its cell. A job lies after a blank cell of its department or is in two cells. The jobs
    /// of a department are above its quota, or it has jobs and no quota. `Damaged` is returned only for damaged storage, and of
    /// damaged storage nothing starts: it gives `Damaged`, unless a read fails or power is lost before.
    pub fn boot(nv: N, room: Room<12>) -> Result<Departments<N>, (N, Room<12>, BootFail)>
        requires powered { (N.meters nv).lost ≡ false }
        requires cells { cells_of room ≡ CELLS }

        // What starts is what the storage shows, and nothing is written.
        ensures works { IfOk result (λ d. has_failed d ≡ false) }
        ensures shows { N.tells
            → IfOk result (λ d. (c : List ℕ) → Image (N.times (storage_of d)) c
            → ShowsRows 12 CELLS (ReadsAs decoded) (rows_of d) c) }
        ensures mounts { N.tells
            → MatchResult result (λ d. Mounts (N.times nv) (N.times (storage_of d)))
            (λ e. Mounts (N.times nv) (N.times e.0)) }

        // Blank storage has no quota and no job.
        ensures blank { N.tells → (bytes : ℕ) → Only (N.times nv) (replicate bytes 0)
            → IfOk result (λ d. (k : ℕ) → row_in (rows_of d) k ≡ None) }

        // Why it fails, and what it costs.
        ensures size { N.size nv ≢ 35360 → IfErr result (λ e. (e.0 ≡ nv) × (e.2 ≡ BootFail.Damaged)) }
        ensures damaged { N.tells
            → MatchResult result (λ d. IsDamagedTable 12 CELLS (ReadsAs decoded) IsSound N.Nv (storage_of d)
            → ⊥)
            (λ e. e.2 ≡ BootFail.Damaged → IsDamagedTable 12 CELLS (ReadsAs decoded) IsSound N.Nv e.0) }
        ensures room { IfErr result (λ e. cells_of e.1 ≡ CELLS) }
        ensures causes { MatchResult result (λ d. BootCauses (N.meters nv) (N.meters (storage_of d)) None)
            (λ e. BootCauses (N.meters nv) (N.meters e.0) (Some e.2)) }
    {
        let mut nv = nv;
        let mut room = room;
        match boot_rows::<DepartmentRows, N, 12>(&mut nv, &mut room, CELLS) {
            Ok(()) => {
                let index = index_of(&room, CELLS);
                Ok(Departments {
                    nv,
                    room,
                    failed: false,
                    said: Answer::Nothing,
                    index,
                })
            }
            Err(fail) => Err((nv, room, fail)),
        }
    }

    /// Gives the storage and the memory back, as they are. After a commit that failed the storage is restarted before it is booted again.
    pub fn shut(self) -> (N, Room<12>)
        ensures storage { result.0 ≡ storage_of self }
        ensures room { result.1 ≡ room_of self }
        ensures cells { cells_of result.1 ≡ CELLS }
    {
        let Departments {
            nv,
            room,
            failed: _,
            said: _,
            index: _,
        } = self;
        (nv, room)
    }
}
