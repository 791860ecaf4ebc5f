//! Laws of the definitions: each is the contract of a call that does nothing.
ghost use Rattle.std.specs.Prelude.{◌≡◌, ◌≤◌, ℕ, List, [], None, length, replicate};
ghost use Rattle.bench_base.specs.Ledger.{Ledger};
ghost use Rattle.scan_laws.specs.Acceptances.{EachAccepted};
ghost use Rattle.node_acts.specs.RowList.{row_at};
ghost use Rattle.spoil_claims.specs.Claims.{Claims, kept};
ghost use Rattle.row_store.specs.Seen.{ReadsAs};
ghost use Rattle.row_node.specs.Shows.{ShowsRows};
ghost use Rattle.spoil_claims.specs.Holds.{AreBacked};
ghost use Rattle.spoil_claims.specs.Payload.{decoded};
ghost use Rattle.spoil_claims.specs.declared.claim.TheConstants.{CLAIM_CELLS};

/// The premises of a run with claims on earlier runs hold before the first run. If no claim is kept, and no piece was accepted under a number above
/// 3,000,000,000, claims are backed (`first`). Nothing was accepted in a ledger without entries (`nothing`).
pub fn first_claims_are_backed()
    ensures first { (rows : Claims) (L : Ledger) → ((c : ℕ) → kept rows c ≡ None)
        → EachAccepted (λ d p n. n ≤ 3000000000) L → AreBacked rows L }
    ensures nothing { EachAccepted (λ d p n. n ≤ 3000000000) [] }
{}

/// An image shows one list of 1,024 claims: so a boot after a run finds the claims that its storage shows, without the torn commit or with it.
pub fn one_list_is_shown()
    ensures { (a b : Claims) (image : List ℕ) → length a ≡ CLAIM_CELLS → length b ≡ CLAIM_CELLS
        → ShowsRows 73 CLAIM_CELLS (ReadsAs decoded) a image → ShowsRows 73 CLAIM_CELLS (ReadsAs decoded) b image
        → a ≡ b }
{}

/// Blank storage shows the empty list. Zeros, however many, show cells without claims (`shows`); and no list of 1,024 cells that they show has one
/// (`none`).
pub fn blank_shows_no_claims()
    ensures shows { (rows : Claims) (bytes : ℕ) → ((k : ℕ) → row_at rows k ≡ None)
        → ShowsRows 73 CLAIM_CELLS (ReadsAs decoded) rows (replicate bytes 0) }
    ensures none { (rows : Claims) (bytes : ℕ) → length rows ≡ CLAIM_CELLS
        → ShowsRows 73 CLAIM_CELLS (ReadsAs decoded) rows (replicate bytes 0) → (c : ℕ) → kept rows c ≡ None }
{}
