//! The state of a device, over its commits.
ghost use Rattle.std.specs.Prelude.{◌≡◌, ◌||◌, [], ◌∷◌, List, reverse};
ghost use Rattle.bench_base.specs.declared.ledger.Commit.{Commit as ACommit};
ghost use Rattle.ledger_terms.specs.Devices.{key_of, applied_of, pending, unless_applied, frozen, applied_kind, phase, deadline, last_day};

use crate::requests::{request_in, request_of};
use crate::words::{empties, is_dated, is_granted, same_kind};
use bench_base::bytes::Note;
use bench_base::ledger::Commit;
use bench_base::numbers::DevNo;
use bench_base::words::{Key, Kind, Phase, Verdict};

fn key_in(commit: &Commit, device: DevNo) -> Option<Key>
    ensures { result ≡ key_of device (commit.now ∷ []) }
{
    match *commit {
        Commit::Made { device: d, key } if d == device => Some(key),
        _ => None,
    }
}

/// The key that the device was made with.
pub(crate) fn key_of(commits: &[Commit], device: DevNo) -> Option<Key>
    ensures { result ≡ key_of device (reverse commits.now) }
{
    let mut found = None;
    for commit in commits {
        found = key_in(commit, device).or(found);
    }
    found
}

fn applied_in(commit: &Commit, device: DevNo, number: u64) -> Option<Verdict>
    ensures { result ≡ applied_of device number (commit.now ∷ []) }
{
    match *commit {
        Commit::Applied {
            device: d,
            number: n,
            verdict,
        } if d == device && u64::from(n) == number => Some(verdict),
        _ => None,
    }
}

/// The verdict in the first Applied of this number.
pub(crate) fn applied_of(commits: &[Commit], device: DevNo, number: u64) -> Option<Verdict>
    ensures { result ≡ applied_of device number (reverse commits.now) }
{
    let mut found = None;
    for commit in commits {
        found = found.or(applied_in(commit, device, number));
    }
    found
}

fn unless_applied(number: u32, pending: Option<(u32, Note)>) -> Option<(u32, Note)>
    ensures { result ≡ unless_applied number pending }
{
    match pending {
        Some((n, _)) if n == number => None,
        _ => pending,
    }
}

// What is pending after this commit, where `before` was pending.
fn pending_after(commit: &Commit, device: DevNo, before: Option<(u32, Note)>) -> Option<(u32, Note)>
    ensures { (C : List ACommit) → pending device C ≡ before → result ≡ pending device (commit.now ∷ C) }
{
    match *commit {
        Commit::Asked {
            device: d,
            number: n,
            request: note,
        } if d == device => Some((n, note)),
        Commit::Applied {
            device: d,
            number: n,
            ..
        } if d == device => unless_applied(n, before),
        _ => before,
    }
}

/// The number and the note of the last Asked, where no Applied of its number follows it.
pub(crate) fn pending(commits: &[Commit], device: DevNo) -> Option<(u32, Note)>
    ensures { result ≡ pending device (reverse commits.now) }
{
    let mut waiting = None;
    for commit in commits {
        waiting = pending_after(commit, device, waiting);
    }
    waiting
}

/// Whether a refund or withdrawal is pending.
pub(crate) fn is_frozen(commits: &[Commit], device: DevNo) -> bool
    ensures { result ≡ frozen (pending device (reverse commits.now)) }
{
    match pending(commits, device) {
        Some((_, note)) => empties(request_in(&note).kind),
        None => false,
    }
}

// Whether this commit after those before it applies a granted transaction of the kind.
fn applies_kind(commit: &Commit, before: &[Commit], device: DevNo, kind: Kind) -> bool
    ensures { applied_kind kind device (commit.now ∷ reverse before.now) ≡
        (result || applied_kind kind device (reverse before.now)) }
{
    match *commit {
        Commit::Applied {
            device: d,
            number: n,
            verdict,
        } if d == device => {
            is_granted(verdict) && same_kind(request_of(before, device, n).kind, kind)
        }
        _ => false,
    }
}

/// Whether a transaction of this kind was granted and applied.
pub(crate) fn applied_kind(commits: &[Commit], device: DevNo, kind: Kind) -> bool
    ensures { result ≡ applied_kind kind device (reverse commits.now) }
{
    let mut found = false;
    for (i, commit) in commits.iter().enumerate() {
        found = applies_kind(commit, &commits[..i], device, kind) || found;
    }
    found
}

/// The stored phase.
pub(crate) fn phase(commits: &[Commit], device: DevNo) -> Phase
    ensures { result ≡ phase device (reverse commits.now) }
{
    if applied_kind(commits, device, Kind::Withdraw) {
        Phase::Withdrawn
    } else if applied_kind(commits, device, Kind::Audit) {
        Phase::InService
    } else if applied_kind(commits, device, Kind::Enrol) {
        Phase::Authorised
    } else {
        Phase::Manufactured
    }
}

// The deadline after this commit, where `earlier` was the one before it.
fn deadline_after(commit: &Commit, before: &[Commit], device: DevNo, earlier: i32) -> i32
    ensures { deadline device (reverse before.now) ≡ earlier
        → result ≡ deadline device (commit.now ∷ reverse before.now) }
{
    match *commit {
        Commit::Applied {
            device: d,
            number: n,
            verdict,
        } if d == device => {
            let request = request_of(before, device, n);
            if is_dated(verdict, request.kind) {
                request.day.get() + 92
            } else {
                earlier
            }
        }
        _ => earlier,
    }
}

/// The deadline, a day; 0 if there is no deadline.
pub(crate) fn deadline(commits: &[Commit], device: DevNo) -> i32
    ensures { result ≡ deadline device (reverse commits.now) }
{
    let mut day = 0;
    for (i, commit) in commits.iter().enumerate() {
        day = deadline_after(commit, &commits[..i], device, day);
    }
    day
}

// The last day after this commit, where `earlier` was the one before it.
fn last_day_after(commit: &Commit, device: DevNo, earlier: i32) -> i32
    ensures { (C : List ACommit) → last_day device C ≡ earlier → result ≡ last_day device (commit.now ∷ C) }
{
    match *commit {
        Commit::Asked {
            device: d,
            request: note,
            ..
        } if d == device => request_in(&note).day.get(),
        Commit::Debited { device: d, day, .. } if d == device => day.get(),
        _ => earlier,
    }
}

/// The day of the last Debited or Asked; 0 before the first.
pub(crate) fn last_day(commits: &[Commit], device: DevNo) -> i32
    ensures { result ≡ last_day device (reverse commits.now) }
{
    let mut day = 0;
    for commit in commits {
        day = last_day_after(commit, device, day);
    }
    day
}
