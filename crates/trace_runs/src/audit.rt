//! The audit of one run.
ghost use Rattle.std.specs.Prelude.{◌≡◌, ◌+◌, ◌<◌, ◌≤◌, drop, length, IfErr, IfOk};
ghost use Rattle.bench.specs.declared.benches.TheConstants.{MOST_MESSAGES};
ghost use Rattle.trace_bench.specs.Seeing.{IsReady, audit_of, keeps};
ghost use Rattle.trace_runs.specs.Counted.{HasAnswers};
ghost use Rattle.trace_runs.specs.Reads.{FailsSo};
ghost use Rattle.trace_runs.specs.Takes.{TurnTakes, answers_behind};
ghost use Rattle.trace_runs.specs.Turns.{IsTurn};
ghost use Rattle.trace_runs.specs.Verdicts.{AuditedOf};
ghost use Rattle.trace_runs.specs.declared.verdict.Input.{Input};

use crate::answers::answer;
use crate::ends::{LINES, missing_at, over};
use crate::imprint::Imprint;
use crate::verdict::{Ending, Input, Judgment, Verdict};
use bench_base::stream::Source;
use line_runs::lines::{LineRead, read_line};
use script_text::{is_skipped, read_event};
use std::alloc::Global;
use text_streams::ReadAhead;
use trace_bench::Auditor;

// What a line took: of the rates in bytes, and of the report in lines; and whether the script has ended after it, without a line end.
#[derive(Clone, Copy)]
pub(crate) struct Step {
    pub rates: usize,
    pub answers: u32,
    pub is_last: bool,
}

/// What is left after so many bytes.
pub fn behind(bytes: &[u8], taken: usize) -> &[u8]
    ensures { result.now ≡ drop taken bytes.now }
{
    if taken < bytes.len() {
        &bytes[taken..]
    } else {
        &[]
    }
}

// The verdict, with the number of answers before it, and the answer to `end`, if the run is lawful and has one.
fn judged(verdict: Verdict, answers: u32) -> Judgment
    requires few { answers ≤ 1000000 }
    ensures verdict { result.verdict ≡ verdict }
    ensures answers { result.answers ≡ answers + answers_behind verdict }
{
    let last = match verdict {
        Verdict::Lawful(Ending::Done) => 1,
        Verdict::Lawful(Ending::Script(_))
        | Verdict::Lawful(Ending::TooLong)
        | Verdict::Stopped(_)
        | Verdict::Wrong(_, _)
        | Verdict::Forged(_)
        | Verdict::Unkept(_)
        | Verdict::More(_, _)
        | Verdict::Memory
        | Verdict::Unread(_, _) => 0,
    };
    Judgment {
        verdict,
        answers: answers + last,
    }
}

// Judges the line of this number, where the lines of the script and of the report are read into these.
fn turn<S: Source, R: Source>(
    alloc: Global,
    auditor: &mut Auditor,
    imprints: &mut Vec<Imprint>,
    number: u32,
    line_buf: &mut [u8; 600],
    answer_buf: &mut [u8; 600],
    script: &mut ReadAhead<S>,
    report: &mut ReadAhead<R>,
    rates: &[u8],
) -> Result<Step, Verdict>
    requires inside { number ≤ 1000000 }
    requires ready { IsReady (audit_of auditor.old) }
    requires few { length (audit_of auditor.old).messages < MOST_MESSAGES }
    ensures ready { IsReady (audit_of auditor.new) }
    ensures kept { keeps (audit_of auditor.new) ≡ keeps (audit_of auditor.old) }
    ensures few { length (audit_of auditor.new).messages ≤ length (audit_of auditor.old).messages + 1 }
    ensures turns { IsTurn number rates.now (audit_of auditor.old) (audit_of auditor.new) imprints.old.items imprints.new.items
        (⟦<ReadAhead<S> as Source>⟧.left script.old) (⟦<ReadAhead<S> as Source>⟧.left script.new) (⟦<ReadAhead<R> as Source>⟧.left report.old)
        (⟦<ReadAhead<R> as Source>⟧.left report.new) result }
    ensures script_later { ⟦<ReadAhead<S> as Source>⟧.faults script.old ≤ ⟦<ReadAhead<S> as Source>⟧.faults script.new }
    ensures counted { TurnTakes (⟦<ReadAhead<R> as Source>⟧.left report.old) (⟦<ReadAhead<R> as Source>⟧.left report.new) result }
    ensures few_answers { IfOk result (λ step. step.answers ≤ 1) }
    ensures script_failed { IfErr result (FailsSo Input.Script (⟦<ReadAhead<S> as Source>⟧.faults script.old) (⟦<ReadAhead<S> as Source>⟧.faults script.new)) }
    ensures report_later { ⟦<ReadAhead<R> as Source>⟧.faults report.old ≤ ⟦<ReadAhead<R> as Source>⟧.faults report.new }
    ensures report_failed { IfErr result (FailsSo Input.Report (⟦<ReadAhead<R> as Source>⟧.faults report.old) (⟦<ReadAhead<R> as Source>⟧.faults report.new)) }
{
    match read_line(script, line_buf) {
        LineRead::Fault => Err(Verdict::Unread(Input::Script, number)),
        LineRead::End => Err(over(Ending::Script(number), number, report)),
        LineRead::Long => Err(over(Ending::Script(number), number, report)),
        LineRead::Line(len, is_ended) => {
            let line = &line_buf[..len as usize];
            if is_skipped(line) {
                return Ok(Step {
                    rates: 0,
                    answers: 0,
                    is_last: !is_ended,
                });
            }
            match &read_event(line) {
                Ok(event) => {
                    match answer(
                        alloc, auditor, imprints, number, event, answer_buf, report, rates,
                    ) {
                        Ok(rates) => Ok(Step {
                            rates,
                            answers: 1,
                            is_last: !is_ended,
                        }),
                        Err(verdict) => Err(verdict),
                    }
                }
                Err(_) => Err(over(Ending::Script(number), number, report)),
            }
        }
    }
}

/// Audits one run over what the auditor has: whether each event of the script may get the line that the report has for it, in turn, with these
/// rates. The auditor begins the run. After it the auditor has what the verdict says of the lines that were paired. So runs are audited in order
/// over one auditor.
///
/// Script and report are read once, a line at a time, and no further than the verdict asks for. What it says holds whatever follows that. `Unread`
/// is returned only if a source's count of faults rose.
///
/// Each line of a lawful report is one answer. The answers are counted.
///
/// What the printer was given in the lines that were paired is added to the imprints. If the run was stopped, what is open of it is added too. An
/// event was done if its answer is begun. If that is in doubt, a stop is reported as one in which a node lost its power, if it may have. So a run
/// over what was kept may be audited next. No answer is judged of an event that contains forged bytes: the audit ends there. It also ends at an
/// event that contains bytes if the auditor does not keep what was sent and released; an auditor that keeps it judges each.
#[inline(always)]
pub fn audit_run<S: Source, R: Source>(
    alloc: Global,
    auditor: &mut Auditor,
    script: &mut ReadAhead<S>,
    report: &mut ReadAhead<R>,
    rates: &[u8],
    imprints: &mut Vec<Imprint>,
) -> Judgment
    requires ready { IsReady (audit_of auditor.old) }
    ensures ready { IsReady (audit_of auditor.new) }
    ensures kept { keeps (audit_of auditor.new) ≡ keeps (audit_of auditor.old) }
    ensures audited { AuditedOf result.verdict (⟦<ReadAhead<S> as Source>⟧.left script.old) (⟦<ReadAhead<S> as Source>⟧.left script.new)
        (⟦<ReadAhead<R> as Source>⟧.left report.old) (⟦<ReadAhead<R> as Source>⟧.left report.new) rates.now
        (audit_of auditor.old) (audit_of auditor.new) imprints.old.items imprints.new.items }
    ensures counted { HasAnswers result.answers (⟦<ReadAhead<R> as Source>⟧.left report.old) (⟦<ReadAhead<R> as Source>⟧.left report.new) result.verdict }
    ensures script_later { ⟦<ReadAhead<S> as Source>⟧.faults script.old ≤ ⟦<ReadAhead<S> as Source>⟧.faults script.new }
    ensures script_failed { FailsSo Input.Script (⟦<ReadAhead<S> as Source>⟧.faults script.old) (⟦<ReadAhead<S> as Source>⟧.faults script.new) result.verdict }
    ensures report_later { ⟦<ReadAhead<R> as Source>⟧.faults report.old ≤ ⟦<ReadAhead<R> as Source>⟧.faults report.new }
    ensures report_failed { FailsSo Input.Report (⟦<ReadAhead<R> as Source>⟧.faults report.old) (⟦<ReadAhead<R> as Source>⟧.faults report.new) result.verdict }
{
    auditor.begin();
    let mut line_buf = [0; 600];
    let mut answer_buf = [0; 600];
    let mut left = rates;
    let mut answers = 0;
    for count in 0..LINES {
        match turn(
            alloc,
            auditor,
            imprints,
            count + 1,
            &mut line_buf,
            &mut answer_buf,
            script,
            report,
            left,
        ) {
            Err(verdict) => return judged(verdict, answers),
            Ok(step) => {
                left = behind(left, step.rates);
                answers += step.answers;
                if step.is_last {
                    return Judgment {
                        verdict: over(missing_at(count + 2), count + 2, report),
                        answers,
                    };
                }
            }
        }
    }
    Judgment {
        verdict: over(Ending::TooLong, LINES + 1, report),
        answers,
    }
}
