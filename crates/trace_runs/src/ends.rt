//! How a script ends, and whether the report ends there too.
ghost use Rattle.std.specs.Prelude.{◌≤◌, []};
ghost use Rattle.line_runs.specs.Ends.{EndsAt};
ghost use Rattle.line_extensions.specs.Scripts.{script_grammar};
ghost use Rattle.trace_runs.specs.Reads.{FailsSo, HasScript, IsRead, OfTexts};
ghost use Rattle.trace_runs.specs.Takes.{EndsAfter};
ghost use Rattle.trace_runs.specs.Turns.{IsOver};
ghost use Rattle.trace_runs.specs.Verdicts.{status_of};
ghost use Rattle.trace_runs.specs.declared.verdict.Input.{Input};

use crate::verdict::{Ending, Input, Verdict};
use bench_base::stream::Source;
use line_runs::lines::{LineRead, read_line};
use text_streams::ReadAhead;

/// The most lines of a script that are looked at.
pub const LINES: u32 = 1_000_000;

// How a script ends that has no line of this number.
pub(crate) fn missing_at(number: u32) -> Ending
    requires { number ≤ 1000001 }
    ensures { EndsAt script_grammar (status_of result) number [] }
{
    if number <= LINES {
        Ending::Script(number)
    } else {
        Ending::TooLong
    }
}

// What is said where the script ends so at the line of this number, by what is left of the report.
pub(crate) fn over<R: Source>(end: Ending, number: u32, report: &mut ReadAhead<R>) -> Verdict
    ensures over { (read : IsRead (⟦<ReadAhead<R> as Source>⟧.left report.old) (⟦<ReadAhead<R> as Source>⟧.left report.new))
        × OfTexts read (λ behind told. IsOver end number behind result) }
    ensures counted { EndsAfter end 0 (⟦<ReadAhead<R> as Source>⟧.left report.old) (⟦<ReadAhead<R> as Source>⟧.left report.new) result }
    ensures later { ⟦<ReadAhead<R> as Source>⟧.faults report.old ≤ ⟦<ReadAhead<R> as Source>⟧.faults report.new }
    ensures failed { FailsSo Input.Report (⟦<ReadAhead<R> as Source>⟧.faults report.old) (⟦<ReadAhead<R> as Source>⟧.faults report.new) result
        × HasScript result }
{
    let mut buf = [0; 600];
    match read_line(report, &mut buf) {
        LineRead::End => Verdict::Lawful(end),
        LineRead::Line(_, _) => Verdict::More(number, end),
        LineRead::Long => Verdict::More(number, end),
        LineRead::Fault => Verdict::Unread(Input::Report, number),
    }
}
