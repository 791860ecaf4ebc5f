//! The desk out of its storage, and the storage given back.
ghost use Rattle.std.specs.Prelude.{◌≡◌, ◌≢◌, ℕ, List, Some, None, IfOk, IfErr, MatchResult, false, replicate};
ghost use Rattle.nv_model.specs.Moments.{Image, Only};
ghost use Rattle.nv_store.specs.Mounts.{Mounts};
ghost use Rattle.nv_store.specs.RoomView.{cells_of};
ghost use Rattle.row_store.specs.Boots.{BootCauses};
ghost use Rattle.row_store.specs.Seen.{ReadsAs};
ghost use Rattle.row_node.specs.Shows.{ShowsRows, IsDamagedTable};
ghost use Rattle.spoil_claims.specs.Claims.{HasNoGaps, kept};
ghost use Rattle.spoil_claims.specs.Payload.{decoded};
ghost use Rattle.spoil_claims.specs.View.{storage_of, room_of, has_failed, rows_of};
ghost use Rattle.spoil_claims.specs.declared.claim.TheConstants.{CLAIM_CELLS};

use crate::answer::Answer;
use crate::claim::CLAIM_CELLS;
use crate::desk::Desk;
use crate::payload::ClaimRows;
use bench_base::refusals::BootFail;
use nv_model::Nv;
use nv_store::Room;
use row_store::boot_rows;

impl<N: Nv> Desk<N> {
    /// The desk in its storage and in memory for 1,024 cells, or why it does not start, with both. Power is not lost. Nothing is
    /// written, and no memory is taken. Blank storage has no claims.
    ///
    /// Storage is damaged if one of these is so. It has not 159,744 bytes. A cell has an open slot of count 0 or two open slots of
    /// equal counts. A payload is not that of a claim with the number of its cell, a customer from 1 to 64, a state and a mark. A
    /// claim follows a blank cell. `Damaged` is returned only for damaged storage, and of damaged storage nothing starts: it gives
    /// `Damaged`, unless a read fails or power is lost before.
    pub fn boot(nv: N, room: Room<73>) -> Result<Desk<N>, (N, Room<73>, BootFail)>
        requires powered { (N.meters nv).lost ≡ false }
        requires cells { cells_of room ≡ CLAIM_CELLS }

        // What starts is what the storage shows, and nothing is written.
        ensures works { IfOk result (λ d. has_failed d ≡ false) }
        ensures shows { N.tells
            → IfOk result (λ d. (c : List ℕ) → Image (N.times (storage_of d)) c
            → ShowsRows 73 CLAIM_CELLS (ReadsAs decoded) (rows_of d) c) }
        ensures mounts { N.tells
            → MatchResult result (λ d. Mounts (N.times nv) (N.times (storage_of d)))
            (λ e. Mounts (N.times nv) (N.times e.0)) }

        // Blank storage has no claims.
        ensures blank { N.tells → (bytes : ℕ) → Only (N.times nv) (replicate bytes 0)
            → IfOk result (λ d. (c : ℕ) → kept (rows_of d) c ≡ None) }

        // Why it fails, and what it costs.
        ensures size { N.size nv ≢ 159744 → IfErr result (λ e. (e.0 ≡ nv) × (e.2 ≡ BootFail.Damaged)) }
        ensures damaged { N.tells
            → MatchResult result (λ d. IsDamagedTable 73 CLAIM_CELLS (ReadsAs decoded) HasNoGaps N.Nv (storage_of d)
            → ⊥)
            (λ e. e.2 ≡ BootFail.Damaged → IsDamagedTable 73 CLAIM_CELLS (ReadsAs decoded) HasNoGaps N.Nv e.0) }
        ensures room { IfErr result (λ e. cells_of e.1 ≡ CLAIM_CELLS) }
        ensures causes { MatchResult result (λ d. BootCauses (N.meters nv) (N.meters (storage_of d)) None)
            (λ e. BootCauses (N.meters nv) (N.meters e.0) (Some e.2)) }
    {
        let mut nv = nv;
        let mut room = room;
        match boot_rows::<ClaimRows, N, 73>(&mut nv, &mut room, CLAIM_CELLS) {
            Ok(()) => Ok(Desk {
                nv,
                room,
                failed: false,
                said: Answer::Nothing,
            }),
            Err(fail) => Err((nv, room, fail)),
        }
    }

    /// Gives the storage and the memory back, as they are. After a commit that failed the storage is restarted before it is booted again.
    pub fn shut(self) -> (N, Room<73>)
        ensures storage { result.0 ≡ storage_of self }
        ensures room { result.1 ≡ room_of self }
        ensures cells { cells_of result.1 ≡ CLAIM_CELLS }
    {
        let Desk {
            nv,
            room,
            failed: _,
            said: _,
        } = self;
        (nv, room)
    }
}
