//! Goes over a run that was stopped, and writes the answers that were due from there on.
ghost use Rattle.bench_base.specs.Events.{IsWholeEvent};
ghost use Rattle.trace_bench.specs.Seeing.{IsReady, audit_of};

use crate::hearing::{judged, line_of};
use crate::lines::{LINES, Left, Run, behind, behind_line, line_len};
use audit_journal::BookFault;
use bench::MOST_MESSAGES;
use bench_base::events::{Event, Reply};
use bench_base::stream::Sink;
use script_text::{Line, is_skipped, read_event};
use std::alloc::Global;
use text_streams::put_text;
use trace_bench::{Auditor, Finding, begins, due_to, stop};

/// What was due to an event.
#[derive(Drop)]
enum Due {
    /// This line; how much of the rates it took, in bytes.
    Line(Line, usize),
    /// A failure of a node begins as the report ends: no more can be said.
    Open,
}

// The line of the reply, if it begins so.
fn line_begun(reply: Reply, prefix: &[u8]) -> Option<Line> {
    if begins(&reply, prefix) {
        Some(line_of(reply))
    } else {
        None
    }
}

// The line of the answer that is due to the event without a failure, if the report may end so in it.
fn due_line(
    alloc: Global,
    auditor: &mut Auditor,
    event: &Event,
    rates: &[u8],
    prefix: &[u8],
) -> Result<Option<Line>, BookFault>
    requires whole { IsWholeEvent event.now }
    requires ready { IsReady (audit_of auditor.old) }
    ensures ready { IsReady (audit_of auditor.new) }
{
    // A run that is judged has at most as many lines.
    if auditor.message_count() >= MOST_MESSAGES {
        return Err(BookFault::Memory);
    }
    match due_to(alloc, auditor, event, rates) {
        Ok(due) => Ok(line_begun(due, prefix)),
        Err(_) => Err(BookFault::Memory),
    }
}

// Has the auditor take the event for one that was stopped in this answer, which is not the one that is due without a failure.
fn break_off(
    alloc: Global,
    auditor: &mut Auditor,
    event: &Event,
    rates: &[u8],
    prefix: &[u8],
) -> Result<Due, BookFault>
    requires whole { IsWholeEvent event.now }
    requires ready { IsReady (audit_of auditor.old) }
    ensures ready { IsReady (audit_of auditor.new) }
{
    // A run that is judged has at most as many lines.
    if auditor.message_count() >= MOST_MESSAGES {
        return Err(BookFault::Memory);
    }
    match stop(alloc, auditor, event, rates, prefix) {
        Ok(Some(reply)) => Ok(Due::Line(line_of(reply), 0)),
        Ok(None) => Ok(Due::Open),
        Err(Finding::Memory) => Err(BookFault::Memory),
        Err(Finding::Wrong(_)) => Err(BookFault::Counted),
    }
}

// What was due to the event, where the report ends so in its answer; the auditor takes it so.
fn due_in(
    alloc: Global,
    auditor: &mut Auditor,
    event: &Event,
    rates: &[u8],
    prefix: &[u8],
) -> Result<Due, BookFault>
    requires whole { IsWholeEvent event.now }
    requires ready { IsReady (audit_of auditor.old) }
    ensures ready { IsReady (audit_of auditor.new) }
{
    match due_line(alloc, auditor, event, rates, prefix)? {
        Some(line) => {
            let taken = judged(alloc, auditor, event, rates, line.as_slice())?;
            Ok(Due::Line(line, taken))
        }
        None => break_off(alloc, auditor, event, rates, prefix),
    }
}

// Writes a line.
fn put_line<K: Sink>(sink: &mut K, line: &[u8]) -> Result<(), BookFault> {
    let Ok(()) = put_text(sink, line) else {
        return Err(BookFault::Write);
    };
    match put_text(sink, b"\n") {
        Ok(()) => Ok(()),
        Err(_) => Err(BookFault::Write),
    }
}

// Writes what was due to the event of the first line of what is left: what is left after it. None if that was the end.
fn answer<'a, K: Sink>(
    alloc: Global,
    auditor: &mut Auditor,
    event: &Event,
    left: Left<'a>,
    sink: &mut K,
) -> Result<Option<Left<'a>>, BookFault>
    requires whole { IsWholeEvent event.now }
    requires ready { IsReady (audit_of auditor.old) }
    ensures ready { IsReady (audit_of auditor.new) }
{
    match due_in(alloc, auditor, event, left.rates, left.report)? {
        Due::Open => Ok(None),
        Due::Line(line, taken) => {
            put_line(sink, line.as_slice())?;
            // The answer to the end of a script is a line like it.
            if line.as_slice() == b"end".as_slice() {
                return Ok(None);
            }
            Ok(Some(Left {
                script: behind_line(left.script),
                report: &[],
                rates: behind(left.rates, taken),
            }))
        }
    }
}

// Takes the event of the first line of what is left: what is left after it. None if nothing more is due.
fn take<'a, K: Sink>(
    alloc: Global,
    auditor: &mut Auditor,
    event: &Event,
    left: Left<'a>,
    sink: &mut K,
) -> Result<Option<Left<'a>>, BookFault>
    requires whole { IsWholeEvent event.now }
    requires ready { IsReady (audit_of auditor.old) }
    ensures ready { IsReady (audit_of auditor.new) }
{
    let told = line_len(left.report);
    if told == left.report.len() {
        return answer(alloc, auditor, event, left, sink);
    }
    let taken = judged(alloc, auditor, event, left.rates, &left.report[..told])?;
    Ok(Some(Left {
        script: behind_line(left.script),
        report: &left.report[told + 1..],
        rates: behind(left.rates, taken),
    }))
}

// Goes over the first line of what is left: what is left after it. None if there is no line, or nothing more is due.
fn turn<'a, K: Sink>(
    alloc: Global,
    auditor: &mut Auditor,
    left: Left<'a>,
    sink: &mut K,
) -> Result<Option<Left<'a>>, BookFault>
    requires ready { IsReady (audit_of auditor.old) }
    ensures ready { IsReady (audit_of auditor.new) }
{
    if left.script.is_empty() {
        return Ok(None);
    }
    let line = &left.script[..line_len(left.script)];
    if is_skipped(line) {
        let script = behind_line(left.script);
        return Ok(Some(Left { script, ..left }));
    }
    match &read_event(line) {
        Ok(event) => take(alloc, auditor, event, left, sink),
        Err(_) => Ok(None),
    }
}

/// Goes over a run after what the auditor has, and writes the answers that were due from the line of the stop on, a line each, as the report would
/// have them. It goes up to the script's `end`, a bad line or its last line. If only a node's next `up` says what happened to an event, the event is
/// taken as done without a failure. Nothing is written if the report ends in a failure of a node. BookFault::Counted if a line of the report is no
/// answer to its event, BookFault::Write if the sink failed, BookFault::Memory is lack of memory.
pub fn put_due<K: Sink>(
    alloc: Global,
    auditor: &mut Auditor,
    run: &Run,
    sink: &mut K,
) -> Result<(), BookFault>
    requires ready { IsReady (audit_of auditor.old) }
    ensures ready { IsReady (audit_of auditor.new) }
{
    auditor.begin();
    let mut left = run.whole();
    for _count in 0..LINES {
        match turn(alloc, auditor, left, sink)? {
            Some(next) => left = next,
            None => return Ok(()),
        }
    }
    Ok(())
}
