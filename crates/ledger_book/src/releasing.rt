//! The clauses of a lawful ledger that speak of its entries: releases, acceptances and prints.
ghost use Rattle.std.specs.Prelude.{◌≡◌, ◌↔◌, true, false, Some, None, [], ◌∷◌, reverse, IsSome, IsTrue};
ghost use Rattle.bench_base.specs.Rules.{todays_rules};
ghost use Rattle.bench_base.specs.Ledger.{Ledger, counted, IsReleased, IsReleasedAs, IsPrinted};
ghost use Rattle.bench_base.specs.Jobs.{Job, job_of, held_of};
ghost use Rattle.ledger_terms.specs.Devices.{key_of};
ghost use Rattle.ledger_terms.specs.Franking.{marked};
ghost use Rattle.ledger_terms.specs.Lawful.{held_piece, Always, Debits, Releases, AcceptedOnce, PrintedOnce, HeldOnce};

use crate::devices::key_of;
use crate::franking::marked;
use crate::jobs::{accepted, held_of, held_piece, is_begun, named};
use bench_base::ledger::{Commit, Entry};
use bench_base::numbers::DevNo;

fn is_marked(before: &[Commit], device: DevNo, piece: u32, mark: &[u8; 64]) -> bool
    requires { Always (Debits todays_rules) (reverse before.now) }
    ensures { IsTrue result ↔ (marked device piece (reverse before.now) ≡ Some mark.now) }
{
    match marked(before, device, piece) {
        Some(found) => found == *mark,
        None => false,
    }
}

fn is_made(before: &[Commit], device: DevNo) -> bool
    ensures { IsTrue result ↔ IsSome (key_of device (reverse before.now)) }
{
    key_of(before, device).is_some()
}

/// Releases: the device was made, and a mark is released after its debit counts, with the bytes that the debit gives it.
pub(crate) fn releases(entry: &Entry, before: &[Commit]) -> bool
    requires { Always (Debits todays_rules) (reverse before.now) }
    ensures { (H : Ledger) → reverse before.now ≡ counted H → (IsTrue result ↔ Releases (entry.now ∷ H)) }
{
    match *entry {
        Entry::Released {
            device,
            piece,
            mark,
        } => { is_made(before, device) && is_marked(before, device, piece, &mark) }
        _ => true,
    }
}

fn releases_as(entry: &Entry, device: DevNo, piece: u32) -> bool
    ensures { IsTrue result ↔ IsReleasedAs device piece (entry.now ∷ []) }
{
    match *entry {
        Entry::Released {
            device: d,
            piece: p,
            ..
        } => d == device && p == piece,
        _ => false,
    }
}

// Whether a mark of this device and piece was released.
fn is_released_as(book: &[Entry], device: DevNo, piece: u32) -> bool
    ensures { IsTrue result ↔ IsReleasedAs device piece (reverse book.now) }
{
    let mut found = false;
    for entry in book {
        found = releases_as(entry, device, piece) || found;
    }
    found
}

fn releases_mark(entry: &Entry, mark: &[u8; 64]) -> bool
    ensures { IsTrue result ↔ IsReleased mark.now (entry.now ∷ []) }
{
    match *entry {
        Entry::Released { mark: x, .. } => x == *mark,
        _ => false,
    }
}

// Whether this mark was released.
fn is_released(book: &[Entry], mark: &[u8; 64]) -> bool
    ensures { IsTrue result ↔ IsReleased mark.now (reverse book.now) }
{
    let mut found = false;
    for entry in book {
        found = releases_mark(entry, mark) || found;
    }
    found
}

fn prints_job(entry: &Entry, job: u32) -> bool
    ensures { IsTrue result ↔ IsPrinted job (entry.now ∷ []) }
{
    match *entry {
        Entry::Printed { job: j, .. } => j == job,
        _ => false,
    }
}

// Whether the line of the job was printed.
fn is_printed(book: &[Entry], job: u32) -> bool
    ensures { IsTrue result ↔ IsPrinted job (reverse book.now) }
{
    let mut found = false;
    for entry in book {
        found = prints_job(entry, job) || found;
    }
    found
}

fn is_accepted_once(newest: &Commit, before: &[Commit], book: &[Entry]) -> bool
    ensures { IsTrue result ↔ AcceptedOnce (reverse book.now) (newest.now ∷ reverse before.now) }
{
    match *newest {
        Commit::Accepted { device, piece, .. } => {
            accepted(before, device, piece).is_none() && is_released_as(book, device, piece)
        }
        _ => true,
    }
}

/// Acceptances: a piece is accepted once, after a mark of it was released.
#[tactic(auto, using(crate::proofs::Newest::reverse_last))]
pub(crate) fn acceptances(book: &[Entry], commits: &[Commit]) -> bool
    ensures { IsTrue result ↔ AcceptedOnce (reverse book.now) (reverse commits.now) }
{
    match commits.split_last() {
        Some((newest, before)) => is_accepted_once(newest, before, book),
        None => true,
    }
}

/// Prints: a line is printed once, after a Held with the same mark and a Began of its job.
pub(crate) fn printed_once(entry: &Entry, before: &[Entry], commits: &[Commit]) -> bool
    requires { reverse commits.now ≡ counted (reverse before.now) }
    ensures { IsTrue result ↔ PrintedOnce (entry.now ∷ reverse before.now) }
{
    match *entry {
        Entry::Printed { job, mark } => is_held_with(commits, job, &mark)
            && is_begun(commits, job)
            && !is_printed(before, job),
        _ => true,
    }
}

fn is_held_with(commits: &[Commit], job: u32, mark: &[u8; 64]) -> bool
    ensures { IsTrue result ↔ (held_of job (reverse commits.now) ≡ Some mark.now) }
{
    match held_of(commits, job) {
        Some(found) => found == *mark,
        None => false,
    }
}

// Whether there is the job, and no Held names its device and piece.
fn is_first_held(before: &[Commit], job: u32) -> bool
    ensures { IsTrue result ↔ ((found : Job) × (job_of job (reverse before.now) ≡ Some found)
        × (held_piece found.device found.piece (reverse before.now) ≡ false)) }
{
    match named(before, job) {
        Some((device, piece)) => !held_piece(before, device, piece),
        None => false,
    }
}

fn is_held_once(newest: &Commit, before: &[Commit], book: &[Entry]) -> bool
    ensures { IsTrue result ↔ HeldOnce (reverse book.now) (newest.now ∷ reverse before.now) }
{
    match *newest {
        Commit::Held { job, mark } => is_first_held(before, job) && is_released(book, &mark),
        _ => true,
    }
}

/// Prints: no two jobs hold the same piece, and what is held was released.
#[tactic(auto, using(crate::proofs::Newest::reverse_last))]
pub(crate) fn held_once(book: &[Entry], commits: &[Commit]) -> bool
    ensures { IsTrue result ↔ HeldOnce (reverse book.now) (reverse commits.now) }
{
    match commits.split_last() {
        Some((newest, before)) => is_held_once(newest, before, book),
        None => true,
    }
}
