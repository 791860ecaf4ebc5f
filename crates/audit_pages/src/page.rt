//! The page below the verdicts: what the runs came to, a fact a line. Amounts are in mills, with dollars beside them.
ghost use Rattle.trace_bench.specs.Seeing.{IsReady, audit_of};

use crate::answered::tell_answered;
use crate::customers::tell_customers;
use crate::devices::tell_devices;
use crate::incidents::{tell_causes, tell_incidents, tell_ungranted};
use crate::jobs::{tell_open_jobs, tell_spoiled, tell_unaccepted};
use crate::money::tell_money;
use crate::own::tell_own;
use crate::saying::say;
use audit_book::Book;
use audit_journal::{BookFault, date_text, money_text, node_text};
use audit_words::shown_text;
use bench_base::numbers::{DayNo, DevNo};
use bench_base::words::Node;
use std::alloc::{AllocError, Global};
use trace_bench::Auditor;

fn days_text(alloc: Global, first: DayNo, last: DayNo) -> Result<String, AllocError> {
    let from = date_text(alloc, first.get())?;
    let to = date_text(alloc, last.get())?;
    format!(in alloc; "days {from} to {to} ({} to {})", first.get(), last.get())
}

// Prints the first day and the last.
fn tell_days(rt: &HostRuntime, book: &Book) -> Result<(), BookFault> {
    match (book.first_day, book.last_day) {
        (Some(first), Some(last)) => say(rt, days_text(rt.alloc(), first, last)),
        _ => Ok(()),
    }
}

fn jobs_text(alloc: Global, auditor: &Auditor, book: &Book) -> Result<String, AllocError> {
    format!(in alloc;
        "jobs ordered {} held {} begun {} printed {} closed {}",
        auditor.last_job(),
        book.held,
        book.begun,
        book.tally.printed,
        book.closed
    )
}

fn marks_text(alloc: Global, book: &Book) -> Result<String, AllocError> {
    let tally = &book.tally;
    format!(in alloc;
        "marks released {} again {} accepted {} again {} duplicates {}",
        tally.released, tally.released_again, tally.accepted, tally.accepted_again, tally.duplicates
    )
}

fn postage_text(alloc: Global, book: &Book) -> Result<String, AllocError> {
    let franked = money_text(alloc, book.franked)?;
    let accepted = money_text(alloc, book.accepted)?;
    format!(in alloc; "postage franked {franked} accepted {accepted}")
}

// Prints how far jobs came, what was reported of marks, and the postage of pieces.
fn tell_counts(rt: &HostRuntime, auditor: &Auditor, book: &Book) -> Result<(), BookFault> {
    say(rt, jobs_text(rt.alloc(), auditor, book))?;
    say(rt, marks_text(rt.alloc(), book))?;
    say(rt, postage_text(rt.alloc(), book))
}

// The number of commits that is to be noted.
fn note_text(
    alloc: Global,
    node: &Node,
    commits: u64,
    is_open: bool,
) -> Result<String, AllocError> {
    let word = node_text(alloc, node)?;
    if is_open {
        let more = commits.saturating_add(1);
        format!(in alloc; "note {word} commits {commits} or {more}")
    } else {
        format!(in alloc; "note {word} commits {commits}")
    }
}

fn tell_note(rt: &HostRuntime, auditor: &Auditor, node: &Node) -> Result<(), BookFault>
    requires ready { IsReady (audit_of auditor.now) }
{
    let commits = auditor.commits_of(node);
    let is_open = auditor.is_open(node);
    say(rt, note_text(rt.alloc(), node, commits, is_open))
}

// Prints the number of commits of the device, if it has one or one is in doubt.
fn tell_device_note(rt: &HostRuntime, auditor: &Auditor, device: DevNo) -> Result<(), BookFault>
    requires ready { IsReady (audit_of auditor.now) }
{
    let node = Node::Device(device);
    if auditor.commits_of(&node) == 0 && !auditor.is_open(&node) {
        return Ok(());
    }
    tell_note(rt, auditor, &node)
}

fn tell_device_notes(rt: &HostRuntime, auditor: &Auditor) -> Result<(), BookFault>
    requires ready { IsReady (audit_of auditor.now) }
{
    for number in 1..9 {
        if let Some(device) = DevNo::new(number) {
            tell_device_note(rt, auditor, device)?;
        }
    }
    Ok(())
}

// Prints the numbers of commits that are to be noted.
fn tell_notes(rt: &HostRuntime, auditor: &Auditor) -> Result<(), BookFault>
    requires ready { IsReady (audit_of auditor.now) }
{
    tell_device_notes(rt, auditor)?;
    tell_note(rt, auditor, &Node::Centre)?;
    tell_note(rt, auditor, &Node::Host)?;
    tell_note(rt, auditor, &Node::Verifier)
}

fn hex_of(alloc: Global, bytes: &[u8]) -> Result<String, AllocError> {
    let mut text = String::new(alloc);
    for byte in bytes.iter() {
        let two = format!(in alloc; "{:02x}", *byte)?;
        text.push_str(two.as_str())?;
    }
    Ok(text)
}

fn digest_text(alloc: Global, name: &str, digest: &[u8; 32]) -> Result<String, AllocError> {
    let hex = hex_of(alloc, digest)?;
    let shown = shown_text(alloc, name)?;
    format!(in alloc; "digest {hex} {shown}")
}

// Prints the digest up to each run.
fn tell_digests(rt: &HostRuntime, names: &[String], digests: &[[u8; 32]]) -> Result<(), BookFault> {
    for (place, digest) in digests.iter().enumerate() {
        if let Some(name) = names.get(place) {
            say(rt, digest_text(rt.alloc(), name.as_str(), digest))?;
        }
    }
    Ok(())
}

// Prints what there is of jobs and pieces.
fn tell_mail(rt: &HostRuntime, book: &Book) -> Result<(), BookFault> {
    tell_open_jobs(rt, book.jobs.as_slice())?;
    tell_spoiled(rt, book)?;
    tell_unaccepted(rt, &book.pieces)
}

// Prints what there is of refusals, and of what went wrong.
fn tell_failures(rt: &HostRuntime, names: &[String], book: &Book) -> Result<(), BookFault> {
    tell_ungranted(rt, names, book.ungranted.as_slice())?;
    tell_causes(rt, names, book.causes.as_slice())?;
    tell_incidents(rt, names, book.incidents.as_slice())
}

// Prints what there is of jobs and pieces, of refusals, and of what went wrong.
fn tell_lists(rt: &HostRuntime, names: &[String], book: &Book) -> Result<(), BookFault> {
    tell_mail(rt, book)?;
    tell_failures(rt, names, book)
}

/// Prints the page of these runs, each with its digest, if this is the last day that was reported. Without one nothing was done in any run,
/// and no device was made. BookFault::Write if standard output takes no more, BookFault::Memory is lack of memory.
pub fn tell_page(
    rt: &HostRuntime,
    names: &[String],
    auditor: &Auditor,
    book: &Book,
    digests: &[[u8; 32]],
    day: Option<DayNo>,
) -> Result<(), BookFault>
    requires ready { IsReady (audit_of auditor.now) }
{
    if let Some(day) = day {
        tell_days(rt, book)?;
        tell_devices(rt, auditor, book, day)?;
    }
    tell_customers(rt, auditor)?;
    tell_money(rt, auditor, book.franked, day)?;
    tell_own(rt, &book.own)?;
    tell_answered(rt, names, book.answered.as_slice())?;
    tell_counts(rt, auditor, book)?;
    tell_lists(rt, names, book)?;
    tell_notes(rt, auditor)?;
    tell_digests(rt, names, digests)
}
