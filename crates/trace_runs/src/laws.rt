//! Laws of audits: each is the contract of a call that does nothing.
ghost use Rattle.std.specs.Prelude.{◌≡◌, ℕ, List, [], Option, Some};
ghost use Rattle.bench_base.specs.Ledger.{Ledger};
ghost use Rattle.bench_base.specs.Rules.{todays_rules, editions};
ghost use Rattle.ledger_terms.specs.Lawful.{Lawful};
ghost use Rattle.ledger_moves.specs.Tariffs.{Tariff};
ghost use Rattle.ledger_moves.specs.Histories.{History};
ghost use Rattle.line_extensions.specs.Trace.{StepRecord};
ghost use Rattle.script_replay.specs.Trace.{ledger_after};
ghost use Rattle.trace_bench.specs.Seeing.{Audit};
ghost use Rattle.trace_runs.specs.Audits.{IsRun, AreAlike};
ghost use Rattle.trace_runs.specs.Fitting.{AreEqual, AreTold, IsExact, PrintsFit};
ghost use Rattle.trace_runs.specs.Runs.{AreAudited, AreExact, AuditedRun, FitRuns, HasJudged, Papers};
ghost use Rattle.trace_runs.specs.Verdicts.{Audited, AuditedOf, Says};
ghost use Rattle.trace_runs.specs.declared.{imprint.Imprint.Imprint, verdict.Verdict.Verdict};

use ledger_laws::laws::histories;
use script_text::laws::{one_line, one_reply};

/// Runs that fit over a history, one after the other, leave a lawful ledger. Steps that are possible in turn leave one too, and steps of a run make a
/// history again.
pub fn fits_are_lawful()
    ensures history { (τ : Tariff) (H : Ledger) (left : List ℕ) (trace : List StepRecord) → History τ editions H → IsRun τ H left trace
        → History τ editions (ledger_after τ H trace) }
    ensures told { (τ : Tariff) (H : Ledger) (left : List ℕ) (trace : List StepRecord) → History τ editions H → AreTold τ H left trace
        → Lawful todays_rules (ledger_after τ H trace) }
    ensures lawful { (τ : Tariff) (H K : Ledger) (runs : List Papers) → History τ editions H → FitRuns τ H runs K → Lawful todays_rules K }
{
    histories();
}

/// Script, report and rates leave one ledger: two runs of the same events with the same lines of the report leave the same.
pub fn one_ledger()
    ensures { (τ : Tariff) (H : Ledger) (left : List ℕ) (a b : List StepRecord) → IsRun τ H left a → IsRun τ H left b → AreAlike a b
        → ledger_after τ H a ≡ ledger_after τ H b }
{
    one_reply();
}

/// An audit is exact, unless it was cut short. What it says of a run leaves no steps that fit further than it paired. If any steps fit to the end,
/// it says that the run is lawful.
pub fn audits_are_exact()
    ensures { (v : Verdict) (script report rates : List ℕ) (old new : Audit) (says : Says v script report rates old new)
        → IsExact v script report rates old new says }
{
    one_reply();
    one_line();
}

/// SEVERAL RUNS. An auditor judges them one after the other. If each verdict is lawful or stopped, some executions give these reports, each run over what
/// the one before it left. And if some do, each verdict is lawful or stopped.
///
/// It assumes a history that the auditor saw before the first run, by a tariff of texts; a new auditor sees the empty one. The second half assumes that
/// no verdict was cut short. An event that was stopped before its answer was begun counts as one whose commit is open (`StopLeaves`). What it sent or
/// released counts as such only when it is given out again.
pub fn runs_are_exact()
    ensures begins { (start : Audit) → HasJudged start [] start }
    ensures exact { (start : Audit) (audits : List AuditedRun) → AreAudited start audits → AreExact start audits }
{
    histories();
    one_reply();
    one_line();
}

/// The verdict is one. Two verdicts over the same script, report and rates, by auditors that had the same before the run, are equal: in the line, in how
/// the script had ended, and in the answer that was due.
///
/// It assumes that neither was cut short: memory ran out, a source could not be read, or the auditor keeps nothing to recognize forged bytes. And it
/// assumes a history that the auditors see as the run begins, by a tariff of texts. New auditors see the empty one, and each run that is lawful or
/// stopped leaves them one.
pub fn one_verdict()
    ensures { (v w : Verdict) (script report rates : List ℕ) (old new other : Audit) → AreEqual v w script report rates old new other }
{
    one_reply();
    one_line();
}

/// Prints are those of what the audit says that the printer was given in a lawful run if and only if they are the prints of some steps that fit. So if
/// they aren't, no lawful run with this script and this report prints so.
pub fn prints_fit()
    ensures { (v : Verdict) (script report rates : List ℕ) (old new : Audit) (given : List Imprint) → PrintsFit v script report rates old new given }
{
    one_reply();
    one_line();
}

/// If sources expose what they have, an audit says of all of that what it says of what it read.
pub fn audits_read_all()
    ensures { (v : Verdict) (script report rates : List ℕ) (script_left report_left : Option (List ℕ)) (old new : Audit) (before after : List Imprint)
        → AuditedOf v (Some script) script_left (Some report) report_left rates old new before after → Audited v script report rates old new before after }
{}
