//! The audit of several runs, one after the other.
ghost use Rattle.std.specs.Prelude.{◌≡◌, ◌≤◌};
ghost use Rattle.trace_bench.specs.Seeing.{IsReady, audit_of, keeps};
ghost use Rattle.trace_runs.specs.Counted.{HasAnswers};
ghost use Rattle.trace_runs.specs.Reads.{FailsSo};
ghost use Rattle.trace_runs.specs.Runs.{JudgesNextOf};
ghost use Rattle.trace_runs.specs.Verdicts.{AuditedOf};
ghost use Rattle.trace_runs.specs.declared.verdict.Input.{Input};

use crate::audit::audit_run;
use crate::imprint::Imprint;
use crate::verdict::{Input, Judgment};
use bench_base::stream::Source;
use ledger_laws::laws::histories;
use script_text::laws::{one_line, one_reply};
use std::alloc::Global;
use text_streams::ReadAhead;
use trace_bench::Auditor;

/// Judges the next run, over an auditor that judged the runs before it, as `audit_run` does. The first run is judged over a new auditor.
///
/// If a verdict is lawful or stopped, the runs so far fit: some executions give these reports, each run over what the one before it left. And the
/// auditor sees whatever they may have left, so the next run may be judged. If it is a finding, no executions give these reports. Nothing is said of
/// them if it was cut short.
#[inline(always)]
pub fn judge_next<S: Source, R: Source>(
    alloc: Global,
    auditor: &mut Auditor,
    script: &mut ReadAhead<S>,
    report: &mut ReadAhead<R>,
    rates: &[u8],
    imprints: &mut Vec<Imprint>,
) -> Judgment
    requires ready { IsReady (audit_of auditor.old) }
    ensures ready { IsReady (audit_of auditor.new) }
    ensures kept { keeps (audit_of auditor.new) ≡ keeps (audit_of auditor.old) }
    ensures audited { AuditedOf result.verdict (⟦<ReadAhead<S> as Source>⟧.left script.old) (⟦<ReadAhead<S> as Source>⟧.left script.new)
        (⟦<ReadAhead<R> as Source>⟧.left report.old) (⟦<ReadAhead<R> as Source>⟧.left report.new) rates.now
        (audit_of auditor.old) (audit_of auditor.new) imprints.old.items imprints.new.items }
    ensures next { JudgesNextOf result.verdict (⟦<ReadAhead<S> as Source>⟧.left script.old) (⟦<ReadAhead<S> as Source>⟧.left script.new)
        (⟦<ReadAhead<R> as Source>⟧.left report.old) (⟦<ReadAhead<R> as Source>⟧.left report.new) rates.now (audit_of auditor.old) (audit_of auditor.new) }
    ensures counted { HasAnswers result.answers (⟦<ReadAhead<R> as Source>⟧.left report.old) (⟦<ReadAhead<R> as Source>⟧.left report.new) result.verdict }
    ensures script_later { ⟦<ReadAhead<S> as Source>⟧.faults script.old ≤ ⟦<ReadAhead<S> as Source>⟧.faults script.new }
    ensures script_failed { FailsSo Input.Script (⟦<ReadAhead<S> as Source>⟧.faults script.old) (⟦<ReadAhead<S> as Source>⟧.faults script.new) result.verdict }
    ensures report_later { ⟦<ReadAhead<R> as Source>⟧.faults report.old ≤ ⟦<ReadAhead<R> as Source>⟧.faults report.new }
    ensures report_failed { FailsSo Input.Report (⟦<ReadAhead<R> as Source>⟧.faults report.old) (⟦<ReadAhead<R> as Source>⟧.faults report.new) result.verdict }
{
    histories();
    one_reply();
    one_line();
    audit_run(alloc, auditor, script, report, rates, imprints)
}
