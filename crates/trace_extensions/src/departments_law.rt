//! The law of departments for what an audit infers, as the contract of a call that does nothing.
ghost use Rattle.std.specs.Prelude.{ℕ, List, [], ◌∷◌, Option};
ghost use Rattle.bench_base.specs.declared.ledger.Entry.TheVariants.{Begin};
ghost use Rattle.bench_base.specs.Ledger.{Ledger};
ghost use Rattle.bench_base.specs.Rules.{editions};
ghost use Rattle.host_departments.specs.Fresh.{KeepsNone};
ghost use Rattle.host_departments.specs.Holds.{AreBacked};
ghost use Rattle.host_departments.specs.Rows.{Agree};
ghost use Rattle.host_departments.specs.declared.desk.Departments.{Departments as TheDepartments};
ghost use Rattle.ledger_moves.specs.Histories.{History};
ghost use Rattle.ledger_moves.specs.Tariffs.{Tariff};
ghost use Rattle.trace_bench.specs.Seeing.{Audit};
ghost use Rattle.trace_runs.specs.Verdicts.{status_of};
ghost use Rattle.trace_runs.specs.declared.verdict.Ending.{Ending};
ghost use Rattle.trace_extensions.specs.DepartmentsHold.{HoldIfLawful, HoldThrough};
ghost use Rattle.trace_extensions.specs.DepartmentsModel.{Kept, departments_model, departments_view};
ghost use Rattle.trace_extensions.specs.Fits.{FitsIfLawful, FitsSo};
ghost use Rattle.trace_extensions.specs.declared.papers.SideVerdict.{SideVerdict};

use ledger_laws::laws::histories;
use nv_model::Nv;

/// DEPARTMENTS HOLD FOR WHAT AN AUDIT INFERS. Suppose that the quotas and jobs that it infers before a run agree, and that a history backs the jobs. If a run
/// under `departments` fits from there, each of its lines was answered by what was kept at that line and by the ledger so far. Only jobs that a department
/// has were printed, and no department spent more than its quota. What is inferred after the run agrees and holds by the ledger that it leaves, so that the
/// next run may start from it (`run`). So it is of a run whose verdict is lawful, from each history that the auditor had and that backs the jobs (`lawful`).
///
/// What an audit keeps in its storage agrees (`agree`). A new auditor keeps no job, so that the empty history backs all (`first`). No premise speaks of
/// forged events, since a run with one does not fit.
pub fn audited_departments_hold<N: Nv>()
    ensures run { (τ : Tariff) (H : Ledger) (script report rates : List ℕ) (v : Kept) (end : Ending)
        → History τ editions H → Agree v.rows → AreBacked v.rows H
        → (fits : FitsSo departments_model τ (Begin ∷ H) script report rates v (status_of end))
        → HoldThrough τ H script report rates v.rows end fits.run.did.behind.scene.ledger fits.run.did.behind.desk.rows }
    ensures lawful { (script report : Option (List ℕ)) (rates : List ℕ) (v w : Kept) (old new : Audit) (verdict : SideVerdict)
        → Agree v.rows → FitsIfLawful departments_model script report rates v w old new verdict
        → HoldIfLawful script report rates v w old new verdict }
    ensures agree { (desk : TheDepartments N N.Nv) → Agree (departments_view desk).rows }
    ensures first { (desk : TheDepartments N N.Nv) → KeepsNone desk → AreBacked (departments_view desk).rows [] }
{
    histories();
}
