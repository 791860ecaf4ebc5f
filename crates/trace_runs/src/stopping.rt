//! A report that ends before the line end of an answer.
ghost use Rattle.std.specs.Prelude.{◌≡◌, ◌≢◌, ◌+◌, ◌<◌, ◌≤◌, ℕ, length};
ghost use Rattle.bench_base.specs.Events.{IsWholeEvent};
ghost use Rattle.bench.specs.declared.benches.TheConstants.{MOST_MESSAGES};
ghost use Rattle.trace_bench.specs.Seeing.{IsReady, audit_of, keeps};
ghost use Rattle.trace_runs.specs.Stops.{StopsSo};
ghost use Rattle.trace_runs.specs.declared.{verdict.Ending.Ending, verdict.Verdict.Verdict};

use crate::imprint::{Imprint, due_mark, keep, open_in};
use crate::verdict::Verdict;
use bench_base::events::Event;
use std::alloc::Global;
use trace_bench::{Auditor, Finding, stop};

// What is said where these bytes are all that the report has for the event of the line of this number.
pub(crate) fn stopped(
    alloc: Global,
    auditor: &mut Auditor,
    imprints: &mut Vec<Imprint>,
    number: u32,
    event: &Event,
    report: &[u8],
    rates: &[u8],
) -> Verdict
    requires whole { IsWholeEvent event.now }
    requires ready { IsReady (audit_of auditor.old) }
    requires few { length (audit_of auditor.old).messages < MOST_MESSAGES }
    ensures ready { IsReady (audit_of auditor.new) }
    ensures kept { keeps (audit_of auditor.new) ≡ keeps (audit_of auditor.old) }
    ensures few { length (audit_of auditor.new).messages ≤ length (audit_of auditor.old).messages + 1 }
    ensures unlawful { (end : Ending) → result ≢ Verdict.Lawful end }
    ensures short { (n : ℕ) → result ≡ Verdict.Stopped n → length report.now ≤ 256 }
    ensures stops { StopsSo number event.now report.now rates.now (audit_of auditor.old) (audit_of auditor.new) imprints.old.items imprints.new.items result }
{
    let open = open_in(event, due_mark(auditor, event), report);
    match stop(alloc, auditor, event, rates, report) {
        Err(Finding::Wrong(due)) => Verdict::Wrong(number, due),
        Err(Finding::Memory) => Verdict::Memory,
        Ok(_) => match keep(imprints, number, open) {
            Ok(()) => Verdict::Stopped(number),
            Err(_) => Verdict::Memory,
        },
    }
}
