//! Jobs and pieces on a page: those that are open, those that were spoiled, and those that were not accepted. Amounts are in mills.
use crate::saying::say;
use audit_book::Book;
use audit_journal::{BookFault, date_text, money_text};
use audit_tally::{Job, Piece, Pieces};
use bench_base::numbers::{DayNo, DevNo};
use bench_base::words::JobState;
use std::alloc::{AllocError, Global};

fn state_word(state: JobState) -> &'static str {
    match state {
        JobState::Ordered => "ordered",
        JobState::Held => "held",
        JobState::Begun => "begun",
        JobState::Closed => "closed",
    }
}

fn is_closed(job: &Job) -> bool {
    matches!(job.state, JobState::Closed)
}

// On which day a job came so far.
fn since(alloc: Global, day: Option<DayNo>) -> Result<String, AllocError> {
    match day {
        Some(day) => {
            let date = date_text(alloc, day.get())?;
            format!(in alloc; " {date}")
        }
        None => Ok(String::new(alloc)),
    }
}

fn job_text(alloc: Global, number: usize, job: &Job) -> Result<String, AllocError> {
    let postage = money_text(alloc, job.postage)?;
    let state = state_word(job.state);
    let day = since(alloc, job.day)?;
    format!(in alloc;
        "open job {number} d{} {} {postage} {state}{day}",
        job.device.get(),
        job.piece
    )
}

/// Prints the jobs that are not closed. BookFault::Write if standard output takes no more, BookFault::Memory is lack of memory.
pub fn tell_open_jobs(rt: &HostRuntime, jobs: &[Job]) -> Result<(), BookFault> {
    for at in 0..jobs.len() {
        let job = &jobs[at];
        if !is_closed(job) {
            say(rt, job_text(rt.alloc(), at + 1, job))?;
        }
    }
    Ok(())
}

// Whether the piece is one of this job.
fn is_of_job(piece: Option<Piece>, number: usize) -> bool {
    match piece {
        Some(Piece { job: Some(job), .. }) => job as usize == number,
        _ => false,
    }
}

// Whether the job was closed, and its mark is paid and was not printed.
fn is_spoiled(pieces: &Pieces, number: usize, job: &Job) -> bool {
    is_closed(job) && !job.printed && is_of_job(pieces.get(job.device, job.piece), number)
}

/// Jobs that were spoiled, and their postage.
#[derive(Clone, Copy)]
struct Spoiled {
    count: u64,
    postage: u64,
}

fn spoiled_in(pieces: &Pieces, jobs: &[Job]) -> Spoiled {
    let mut spoiled = Spoiled {
        count: 0,
        postage: 0,
    };
    for at in 0..jobs.len() {
        let job = &jobs[at];
        if is_spoiled(pieces, at + 1, job) {
            spoiled.count = spoiled.count.saturating_add(1);
            spoiled.postage = spoiled.postage.saturating_add(job.postage);
        }
    }
    spoiled
}

fn spoiled_text(alloc: Global, spoiled: &Spoiled) -> Result<String, AllocError> {
    let postage = money_text(alloc, spoiled.postage)?;
    format!(in alloc; "spoiled {} postage {postage}", spoiled.count)
}

/// Prints how many jobs were closed with a mark that is paid and was not printed. BookFault::Write if standard output takes no more,
/// BookFault::Memory is lack of memory.
pub fn tell_spoiled(rt: &HostRuntime, book: &Book) -> Result<(), BookFault> {
    let spoiled = spoiled_in(&book.pieces, book.jobs.as_slice());
    say(rt, spoiled_text(rt.alloc(), &spoiled))
}

/// Pieces of a device that follow one another, and their postage.
#[derive(Clone, Copy)]
struct Span {
    first: usize,
    last: usize,
    postage: u64,
}

// The span with the piece of this number, which follows it.
fn grown(span: Option<Span>, number: usize, postage: u64) -> Span {
    match span {
        Some(span) => Span {
            first: span.first,
            last: number,
            postage: span.postage.saturating_add(postage),
        },
        None => Span {
            first: number,
            last: number,
            postage,
        },
    }
}

fn span_text(alloc: Global, device: DevNo, span: &Span) -> Result<String, AllocError> {
    let postage = money_text(alloc, span.postage)?;
    format!(in alloc;
        "not accepted d{} pieces {} to {} postage {postage}",
        device.get(),
        span.first,
        span.last
    )
}

fn tell_span(rt: &HostRuntime, device: DevNo, span: Option<Span>) -> Result<(), BookFault> {
    match span {
        Some(span) => say(rt, span_text(rt.alloc(), device, &span)),
        None => Ok(()),
    }
}

// Prints the pieces of the device that were released and not accepted.
fn tell_unaccepted_of(rt: &HostRuntime, device: DevNo, pieces: &[Piece]) -> Result<(), BookFault> {
    let mut span = None;
    for at in 0..pieces.len() {
        let piece = &pieces[at];
        if piece.released && !piece.accepted {
            span = Some(grown(span, at + 1, piece.postage));
        } else {
            tell_span(rt, device, span)?;
            span = None;
        }
    }
    tell_span(rt, device, span)
}

/// Prints the pieces with marks that were given out and not accepted. BookFault::Write if standard output takes no more, BookFault::Memory is lack
/// of memory.
pub fn tell_unaccepted(rt: &HostRuntime, pieces: &Pieces) -> Result<(), BookFault> {
    for number in 1..9 {
        if let Some(device) = DevNo::new(number) {
            tell_unaccepted_of(rt, device, pieces.of_device(device))?;
        }
    }
    Ok(())
}
