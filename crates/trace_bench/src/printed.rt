//! The mark that a `print` prints where it is done.
ghost use Rattle.std.specs.Prelude.{◌≡◌, []};
ghost use Rattle.bench_base.specs.declared.events.Event.TheVariants.{Print};
ghost use Rattle.bench_base.specs.Ledger.{Ledger};
ghost use Rattle.bench_base.specs.Rules.{todays_rules, editions};
ghost use Rattle.bench_base.specs.Events.{IsWholeEvent};
ghost use Rattle.ledger_moves.specs.Histories.{History};
ghost use Rattle.ledger_moves.specs.Moves.{plan};
ghost use Rattle.ledger_moves.specs.Tariffs.{Tariff};
ghost use Rattle.node_turns.specs.Printing.{print_of};
ghost use Rattle.trace_bench.specs.Seeing.{Sees, audit_of};

use crate::auditor::Auditor;
use trace_host::mark_due as due_of_host;

/// The mark that a `print` of this job prints where nothing fails; None where it is refused, or there is no day, or the host is off.
pub fn mark_due(auditor: &Auditor, job: u32) -> Option<[u8; 64]>
    requires whole { IsWholeEvent (Print job) }
    ensures { (τ : Tariff) (H : Ledger) → History τ editions H → Sees (audit_of auditor.now) H
        → print_of (plan τ todays_rules H (Print job) []).after ≡ result }
{
    match auditor.day {
        None => None,
        Some(_) => due_of_host(&auditor.host, job),
    }
}
