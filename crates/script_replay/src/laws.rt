//! Laws of the definitions: each is the contract of a call that does nothing.
ghost use Rattle.std.specs.Prelude.{◌≡◌, ℕ, List, map};
ghost use Rattle.std.specs.List.{AllByRecursion};
ghost use Rattle.script_text.specs.Texts.{told};
ghost use Rattle.bench_base.specs.Ledger.{Ledger};
ghost use Rattle.ledger_moves.specs.Tariffs.{Tariff};
ghost use Rattle.bench_abstraction.specs.Tariff.{IsOfTexts};
ghost use Rattle.line_extensions.specs.Trace.{StepRecord, TraceStep, done_in};
ghost use Rattle.line_runs.specs.Trace.{Reads, report_of};
ghost use Rattle.script_replay.specs.Trace.{AreUnforged};
ghost use Rattle.line_runs.specs.Ends.{EndsAs};
ghost use Rattle.line_extensions.specs.Scripts.{script_grammar, script_lines};
ghost use Rattle.script_replay.specs.Generated.{replies_of};
ghost use Rattle.script_replay.specs.Outside.{BringsNone};
ghost use Rattle.script_replay.specs.Run.{Unforged};
ghost use Rattle.line_runs.specs.declared.status.Status.{Status};

use host_rates::laws::prices_by_text;

/// A script ends in one way: two statuses that its bytes allow are one.
pub fn one_end()
    ensures { (s t : Status) (bytes : List ℕ) → EndsAs script_grammar s bytes → EndsAs script_grammar t bytes → s ≡ t }
{}

/// A report determines its replies: if the reports of the steps of two scripts are the same bytes, the steps report the same, reply
/// by reply. Those of a run are such steps (`Replayed.each`), so no more is asked of them.
pub fn one_report()
    ensures { (a b : List TraceStep) → AllByRecursion (Reads script_lines) a → AllByRecursion (Reads script_lines) b
        → report_of script_lines a ≡ report_of script_lines b
        → map told (replies_of (done_in a)) ≡ map told (replies_of (done_in b)) }
{}

/// If no event gives or scans bytes from outside, nothing is forged: what a run promises by a history holds of it as it is.
pub fn nothing_forged()
    ensures { (τ : Tariff) (H : Ledger) (trace : List StepRecord) → AllByRecursion BringsNone trace
        → AreUnforged τ Unforged H trace }
{}

/// There is a tariff of texts: that what a run promises is by such a one leaves nothing out.
pub fn texts_have_a_tariff()
    ensures { (τ : Tariff) × IsOfTexts τ }
{
    prices_by_text();
}
