//! The laws of steps, as the contract of a function that takes and answers nothing.
ghost use Rattle.std.specs.Prelude.{◌≡◌, ℕ, List, ◌++◌, Contains};
ghost use Rattle.bench_base.specs.declared.events.Event.TheVariants as ev;
ghost use Rattle.bench_base.specs.Ledger.{Ledger};
ghost use Rattle.bench_base.specs.Questions.{IsAccepted};
ghost use Rattle.line_extensions.specs.Trace.{StepRecord};
ghost use Rattle.ledger_moves.specs.Tariffs.{Tariff};
ghost use Rattle.run_laws.specs.Trace.{AllMoved, IsAcceptedAs};
ghost use Rattle.script_replay.specs.Trace.{ledger_after, RunWhile, AreUnforged};
ghost use Rattle.script_replay.specs.Run.{Unforged, Moves};

/// Steps, one after the other:
///
/// - `moved`. What a run says of each event as long as none is forged, it says of all if none is forged.
/// - `both`. What two parts of the steps do to a ledger one after the other, they do as one.
/// - `stays`. A piece that was accepted stays accepted, whatever is done.
/// - `scans`. If a scan of bytes among the steps was answered by an acceptance, the bytes are a released mark in the ledger after all
///   steps. The piece of that mark was accepted under the number of the scan.
pub fn trace()
    ensures moved { (τ : Tariff) (H : Ledger) (steps : List StepRecord) → AreUnforged τ Unforged H steps
        → RunWhile τ Unforged (Moves τ) H steps → AllMoved τ H steps }
    ensures both { (τ : Tariff) (H : Ledger) (a b : List StepRecord)
        → ledger_after τ (ledger_after τ H a) b ≡ ledger_after τ H (a ++ b) }
    ensures stays { (τ : Tariff) (H : Ledger) (steps : List StepRecord) (n : ℕ) (bytes : List ℕ) → IsAcceptedAs n bytes H
        → IsAcceptedAs n bytes (ledger_after τ H steps) }
    ensures scans { (τ : Tariff) (H : Ledger) (steps : List StepRecord) (d : StepRecord) (n : ℕ) (bytes : List ℕ)
        → AllMoved τ H steps → Contains steps d → d.event ≡ ev.ScanHex n bytes → IsAccepted d.reply
        → IsAcceptedAs n bytes (ledger_after τ H steps) }
{}
