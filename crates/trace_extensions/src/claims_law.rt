//! Laws of the claims that an audit infers: each is the contract of a call that does nothing.
ghost use Rattle.std.specs.Prelude.{◌≡◌, ℕ, List, [], ◌∷◌, Option, None};
ghost use Rattle.bench_abstraction.specs.Tariff.{IsOfTexts};
ghost use Rattle.bench_base.specs.declared.ledger.Entry.TheVariants.{Begin};
ghost use Rattle.bench_base.specs.Ledger.{Ledger};
ghost use Rattle.ledger_moves.specs.Tariffs.{Tariff};
ghost use Rattle.spoil_claims.specs.Claims.{Claims, AreNumbered, kept};
ghost use Rattle.trace_bench.specs.Seeing.{Audit, Sees};
ghost use Rattle.trace_extensions.specs.ClaimsKept.{AtBacked, RunKeepsClaims, KeptIfLawful};
ghost use Rattle.trace_extensions.specs.ClaimsModel.{Standing, claims_model};
ghost use Rattle.trace_extensions.specs.Fits.{FitsSo, FitsIfLawful};
ghost use Rattle.trace_extensions.specs.declared.papers.SideVerdict.{SideVerdict};
ghost use Rattle.trace_runs.specs.Verdicts.{status_of};
ghost use Rattle.trace_runs.specs.declared.verdict.Ending.{Ending};

use ledger_laws::laws::histories;
use spoil_claims::laws::first_claims_are_backed;

/// CLAIMS HOLD FOR WHAT AN AUDIT INFERS, as they do for the desk over its own storage. Before a run the auditor saw a history that backs the claims which
/// it had. If a run under `claims` fits from there, the claims after it hold by the ledger that the run leaves (`run`). Each credited piece was accepted
/// under the number of its claim and no other, and no piece is credited twice. What is credited is what was debited, and `credits` tells that. Each line
/// about claims has its answer, by the claims that were kept then.
///
/// So if `judge_side` calls a run under `claims` lawful, all this holds of it, and the premise holds for the next run (`verdict`). Nothing is assumed of
/// forged bytes: a run that fits has none.
pub fn audited_claims_hold()
    ensures run { (audit : Audit) (τ : Tariff) (H : Ledger) (v : Standing) (end : Ending) (script report rates : List ℕ)
        → AtBacked audit v.rows τ H → (fits : FitsSo claims_model τ (Begin ∷ H) script report rates v (status_of end))
        → RunKeepsClaims τ (Begin ∷ H) v.rows (status_of end) script report
        fits.run.did.behind.scene.ledger fits.run.did.behind.desk.rows }
    ensures verdict { (script report : Option (List ℕ)) (rates : List ℕ) (v w : Standing) (old new : Audit) (verdict : SideVerdict)
        → FitsIfLawful claims_model script report rates v w old new verdict → KeptIfLawful script report v w old new verdict }
{
    histories();
}

/// The premise of `audited_claims_hold` can be met, and stays met. A list without a claim has each claim in the cell of its number (`none`). If a run
/// under `claims` fits, and each claim was in the cell of its number before it, so is each one after it (`left`). If a new auditor has no claim, the empty
/// history backs the claims that it has (`first`).
pub fn claims_have_numbers()
    ensures none { (rows : Claims) → ((c : ℕ) → kept rows c ≡ None) → AreNumbered rows }
    ensures left { (τ : Tariff) (H : Ledger) (v : Standing) (end : Ending) (script report rates : List ℕ) → AreNumbered v.rows
        → (fits : FitsSo claims_model τ (Begin ∷ H) script report rates v (status_of end))
        → AreNumbered fits.run.did.behind.desk.rows }
    ensures first { (audit : Audit) (rows : Claims) (τ : Tariff) → IsOfTexts τ → Sees audit [] → ((c : ℕ) → kept rows c ≡ None)
        → AtBacked audit rows τ [] }
{
    first_claims_are_backed();
}
