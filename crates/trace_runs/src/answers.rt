//! The answer that a report has for an event.
ghost use Rattle.std.specs.Prelude.{◌≡◌, ◌+◌, ◌<◌, ◌≤◌, [], length, IfErr};
ghost use Rattle.bench_base.specs.Events.{IsWholeEvent};
ghost use Rattle.bench.specs.declared.benches.TheConstants.{MOST_MESSAGES};
ghost use Rattle.ledger_moves.specs.Histories.{Unforged};
ghost use Rattle.line_runs.specs.Lines.{IsOneLine, ended};
ghost use Rattle.trace_bench.specs.Forging.{AtHistory};
ghost use Rattle.trace_bench.specs.Seeing.{IsReady, audit_of, keeps};
ghost use Rattle.trace_runs.specs.Reads.{FailsSo, HasScript};
ghost use Rattle.trace_runs.specs.Takes.{AnswerTakes};
ghost use Rattle.trace_runs.specs.Turns.{IsAnswer};
ghost use Rattle.trace_runs.specs.declared.verdict.Input.{Input};

use crate::ends::over;
use crate::imprint::{Imprint, due_mark, given_in, keep};
use crate::stopping::stopped;
use crate::untold::Untold;
use crate::verdict::{Ending, Input, Verdict};
use bench_base::events::Event;
use bench_base::stream::Source;
use line_extensions::ended_by;
use line_runs::lines::{LineRead, read_line};
use script_text::laws::one_reply;
use std::alloc::Global;
use text_streams::ReadAhead;
use trace_bench::{Auditor, Finding, index, is_forged, judge};

// Judges the line that the report has for the event of the line of this number: how much of the rates the event took, in bytes. What is left of the
// report follows the line end.
fn judge_line<R: Source>(
    alloc: Global,
    auditor: &mut Auditor,
    imprints: &mut Vec<Imprint>,
    number: u32,
    event: &Event,
    line: &[u8],
    report: &mut ReadAhead<R>,
    rates: &[u8],
) -> Result<usize, Verdict>
    requires whole { IsWholeEvent event.now }
    requires inside { number ≤ 1000000 }
    requires one { IsOneLine line.now }
    requires unforged { AtHistory (audit_of auditor.old) (λ H. Unforged event.now H) }
    requires ready { IsReady (audit_of auditor.old) }
    requires few { length (audit_of auditor.old).messages < MOST_MESSAGES }
    ensures ready { IsReady (audit_of auditor.new) }
    ensures kept { keeps (audit_of auditor.new) ≡ keeps (audit_of auditor.old) }
    ensures few { length (audit_of auditor.new).messages ≤ length (audit_of auditor.old).messages + 1 }
    ensures answers { IsAnswer number event.now (ended line.now) rates.now (audit_of auditor.old) (audit_of auditor.new)
        imprints.old.items imprints.new.items (⟦<ReadAhead<R> as Source>⟧.left report.old) (⟦<ReadAhead<R> as Source>⟧.left report.new) result }
    ensures counted { AnswerTakes 0 (⟦<ReadAhead<R> as Source>⟧.left report.old) (⟦<ReadAhead<R> as Source>⟧.left report.new) result }
    ensures later { ⟦<ReadAhead<R> as Source>⟧.faults report.old ≤ ⟦<ReadAhead<R> as Source>⟧.faults report.new }
    ensures failed { IfErr result (λ v. FailsSo Input.Report (⟦<ReadAhead<R> as Source>⟧.faults report.old)
        (⟦<ReadAhead<R> as Source>⟧.faults report.new) v × HasScript v) }
{
    one_reply();
    let mark = due_mark(auditor, event);
    let given = given_in(event, mark, line);
    match judge::<Untold>(alloc, auditor, event, rates, line) {
        Err(Finding::Wrong(due)) => Err(Verdict::Wrong(number, due)),
        Err(Finding::Memory) => Err(Verdict::Memory),
        Ok(judged) => match ended_by(event) {
            Some(_) => Err(over(Ending::Done, number, report)),
            None => match keep(imprints, number, given) {
                Ok(()) => Ok(judged.taken),
                Err(_) => Err(Verdict::Memory),
            },
        },
    }
}

// Judges what the report has for the event, which contains nothing forged.
fn hear<R: Source>(
    alloc: Global,
    auditor: &mut Auditor,
    imprints: &mut Vec<Imprint>,
    number: u32,
    event: &Event,
    buf: &mut [u8; 600],
    report: &mut ReadAhead<R>,
    rates: &[u8],
) -> Result<usize, Verdict>
    requires whole { IsWholeEvent event.now }
    requires inside { number ≤ 1000000 }
    requires unforged { AtHistory (audit_of auditor.old) (λ H. Unforged event.now H) }
    requires ready { IsReady (audit_of auditor.old) }
    requires few { length (audit_of auditor.old).messages < MOST_MESSAGES }
    ensures ready { IsReady (audit_of auditor.new) }
    ensures kept { keeps (audit_of auditor.new) ≡ keeps (audit_of auditor.old) }
    ensures few { length (audit_of auditor.new).messages ≤ length (audit_of auditor.old).messages + 1 }
    ensures answers { IsAnswer number event.now [] rates.now (audit_of auditor.old) (audit_of auditor.new) imprints.old.items imprints.new.items
        (⟦<ReadAhead<R> as Source>⟧.left report.old) (⟦<ReadAhead<R> as Source>⟧.left report.new) result }
    ensures counted { AnswerTakes 1 (⟦<ReadAhead<R> as Source>⟧.left report.old) (⟦<ReadAhead<R> as Source>⟧.left report.new) result }
    ensures later { ⟦<ReadAhead<R> as Source>⟧.faults report.old ≤ ⟦<ReadAhead<R> as Source>⟧.faults report.new }
    ensures failed { IfErr result (λ v. FailsSo Input.Report (⟦<ReadAhead<R> as Source>⟧.faults report.old)
        (⟦<ReadAhead<R> as Source>⟧.faults report.new) v × HasScript v) }
{
    match read_line(report, buf) {
        LineRead::Line(len, is_ended) => {
            let line = &buf[..len as usize];
            if is_ended {
                judge_line(alloc, auditor, imprints, number, event, line, report, rates)
            } else {
                Err(stopped(alloc, auditor, imprints, number, event, line, rates))
            }
        }
        LineRead::End => Err(stopped(alloc, auditor, imprints, number, event, &[], rates)),
        LineRead::Long => Err(stopped(alloc, auditor, imprints, number, event, &buf[..], rates)),
        LineRead::Fault => Err(Verdict::Unread(Input::Report, number)),
    }
}

// Reads and judges what the report has for the event of the line of this number, once what the event asks for of all runs is found by its
// hash: how much of the rates it took, in bytes.
pub(crate) fn answer<R: Source>(
    alloc: Global,
    auditor: &mut Auditor,
    imprints: &mut Vec<Imprint>,
    number: u32,
    event: &Event,
    buf: &mut [u8; 600],
    report: &mut ReadAhead<R>,
    rates: &[u8],
) -> Result<usize, Verdict>
    requires whole { IsWholeEvent event.now }
    requires inside { number ≤ 1000000 }
    requires ready { IsReady (audit_of auditor.old) }
    requires few { length (audit_of auditor.old).messages < MOST_MESSAGES }
    ensures ready { IsReady (audit_of auditor.new) }
    ensures kept { keeps (audit_of auditor.new) ≡ keeps (audit_of auditor.old) }
    ensures few { length (audit_of auditor.new).messages ≤ length (audit_of auditor.old).messages + 1 }
    ensures answers { IsAnswer number event.now [] rates.now (audit_of auditor.old) (audit_of auditor.new) imprints.old.items imprints.new.items
        (⟦<ReadAhead<R> as Source>⟧.left report.old) (⟦<ReadAhead<R> as Source>⟧.left report.new) result }
    ensures counted { AnswerTakes 1 (⟦<ReadAhead<R> as Source>⟧.left report.old) (⟦<ReadAhead<R> as Source>⟧.left report.new) result }
    ensures later { ⟦<ReadAhead<R> as Source>⟧.faults report.old ≤ ⟦<ReadAhead<R> as Source>⟧.faults report.new }
    ensures failed { IfErr result (λ v. FailsSo Input.Report (⟦<ReadAhead<R> as Source>⟧.faults report.old)
        (⟦<ReadAhead<R> as Source>⟧.faults report.new) v × HasScript v) }
{
    if index(alloc, auditor, event).is_err() {
        return Err(Verdict::Memory);
    }
    let Some(forged) = is_forged(auditor, event) else {
        return Err(Verdict::Unkept(number));
    };
    if forged {
        return Err(Verdict::Forged(number));
    }
    hear(alloc, auditor, imprints, number, event, buf, report, rates)
}
