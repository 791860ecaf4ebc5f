//! What judgements say of lines that were judged before.
ghost use Rattle.bench_base.specs.Events.{IsWholeEvent};
ghost use Rattle.trace_bench.specs.Seeing.{IsReady, audit_of};

use audit_journal::BookFault;
use bench::MOST_MESSAGES;
use bench_base::events::{Event, Reply};
use script_text::{Line, put_reply};
use std::alloc::Global;
use trace_bench::{Auditor, Finding, judge};

// What judgements say of a line that was judged before: how many bytes of the rates it took.
pub(crate) fn judged(
    alloc: Global,
    auditor: &mut Auditor,
    event: &Event,
    rates: &[u8],
    line: &[u8],
) -> Result<usize, BookFault>
    requires whole { IsWholeEvent event.now }
    requires ready { IsReady (audit_of auditor.old) }
    ensures ready { IsReady (audit_of auditor.new) }
{
    // A run that is judged has at most as many lines.
    if auditor.message_count() >= MOST_MESSAGES {
        return Err(BookFault::Memory);
    }
    match judge::<Reply>(alloc, auditor, event, rates, line) {
        Ok(judged) => Ok(judged.taken),
        Err(Finding::Memory) => Err(BookFault::Memory),
        Err(Finding::Wrong(_)) => Err(BookFault::Counted),
    }
}

/// The line of the reply.
pub(crate) fn line_of(reply: Reply) -> Line {
    let mut line = Line::new();
    put_reply(&mut line, &reply);
    line
}
