//! The page for a browser.
ghost use Rattle.trace_bench.specs.Seeing.{IsReady, audit_of};

use crate::faults::{Fault, or_memory, or_write};
use crate::judging::{Judged, Outcome};
use crate::plan::Plan;
use crate::runs::Gathered;
use crate::verdicts::stopped_at;
use audit_book::Book;
use audit_facts::{FindingKind, Found, PageContent, RunFinding, RunState, Standing, line_of};
use audit_html::page_of;
use audit_pages::standing_of;
use audit_recount::{Recount, Run};
use bench_base::numbers::DayNo;
use std::alloc::Global;
use std::io::{self, Write};
use trace_runs::Ending;

/// How many incidents have their lines on the page.
const MOST_SHOWN: usize = 40;

// How a run of which nothing was found ended.
fn state_of(judged: &Judged) -> RunState {
    if let Some(line) = stopped_at(judged) {
        return RunState::Stopped(line);
    }
    match judged.ending {
        Ending::Done => RunState::Lawful,
        Ending::Script(line) => RunState::EndsBadly(line),
        Ending::TooLong => RunState::TooLong,
    }
}

// Keeps the lines of an incident of this run, which is at this line.
fn keep_lines(alloc: Global, book: &mut Book, run: &Run, line: u32) -> Result<(), Fault> {
    let (script, answer) = match line_of(run.script.as_slice(), run.report.as_slice(), line) {
        Some(found) => (found.script, found.answer),
        None => (b"".as_slice(), b"".as_slice()),
    };
    let script = or_memory(Vec::from_slice(alloc, script))?;
    let answer = or_memory(Vec::from_slice(alloc, answer))?;
    or_memory(book.facts.show(script, answer))
}

/// Keeps of a run what the page shows of it: how it ended, and the lines of its incidents.
pub fn keep_run(alloc: Global, book: &mut Book, judged: &Judged, run: &Run) -> Result<(), Fault> {
    let first = book.facts.lines.len();
    let end = book.incidents.as_slice().len().min(MOST_SHOWN);
    for at in first..end {
        if let Some(incident) = book.incidents.as_slice().get(at).copied() {
            keep_lines(alloc, book, run, incident.place.line)?;
        }
    }
    or_memory(book.facts.end(state_of(judged), judged.answers))
}

// What was found in a run, and at which line, if something was.
fn kind_of(judged: &Judged) -> Option<(FindingKind, u32)> {
    match judged.outcome {
        Outcome::Wrong(line) => Some((FindingKind::Wrong, line)),
        Outcome::Forged(line) => Some((FindingKind::Forged, line)),
        Outcome::More(line, _) => Some((FindingKind::More, line)),
        Outcome::Lawful(_)
        | Outcome::Stopped(_)
        | Outcome::StoppedInOwn(_)
        | Outcome::Unkept(_)
        | Outcome::Unread(_)
        | Outcome::Memory => None,
    }
}

/// What was found in the run of this place, if something was. Without memory the answer that was due is left out.
pub fn run_finding(
    alloc: Global,
    judged: &Judged,
    place: usize,
    day: Option<DayNo>,
    run: Run,
) -> Option<RunFinding> {
    let (kind, line) = kind_of(judged)?;
    let due = match Vec::from_slice(alloc, judged.due.as_bytes()) {
        Ok(due) => due,
        Err(_) => Vec::new(alloc),
    };
    let Run {
        script,
        report,
        rates: _,
        lines: _,
        own: _,
    } = run;
    Some(RunFinding {
        kind,
        run: place,
        line,
        day,
        due,
        script,
        report,
    })
}

// Writes the page over what these runs came to.
fn write_page(
    rt: &HostRuntime,
    plan: &Plan,
    book: &Book,
    standing: &Standing,
    gathered: &Gathered,
) -> Result<(), Fault> {
    let content = PageContent {
        names: plan.names.as_slice(),
        facts: &book.facts,
        standing,
        jobs: book.jobs.as_slice(),
        pieces: &book.pieces,
        incidents: book.incidents.as_slice(),
        ungranted: book.ungranted.as_slice(),
        own: &book.own,
        digests: gathered.digests.as_slice(),
    };
    let found = Found {
        finding: gathered.finding.as_ref(),
        prints: gathered.prints.as_ref(),
        seen: plan.seen.as_deref(),
    };
    let page = or_memory(page_of(rt.alloc(), &content, &found))?;
    or_write(io::writer(rt).write_all(page.as_slice()))
}

/// Writes the page for a browser to standard output: of the runs that were gone over, with what was found.
pub fn tell_html(
    rt: &HostRuntime,
    plan: &Plan,
    clerk: &Recount,
    gathered: &Gathered,
) -> Result<(), Fault>
    requires ready { IsReady (audit_of clerk.now.auditor) }
{
    let standing = or_memory(standing_of(rt.alloc(), &clerk.auditor, &clerk.book))?;
    write_page(rt, plan, &clerk.book, &standing, gathered)
}
