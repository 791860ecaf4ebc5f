//! The Request that has a number of a device.
ghost use Rattle.std.specs.Prelude.{◌≡◌, ◌<◌, ◌^◌, [], ◌∷◌, reverse};
ghost use Rattle.ledger_terms.specs.Requests.{request_in, note_of, request_of, no_request};

use bench_base::bytes::Note;
use bench_base::ledger::Commit;
use bench_base::numbers::{DayNo, DevNo};
use bench_base::words::Kind;
use psd_wire::{Message, Request, read_message};

// An audit of nothing, which stands where there is no Request.
fn no_request() -> Request
    ensures { result ≡ no_request }
{
    let Some(day) = DayNo::new(10957) else {
        unreachable!();
    };
    Request {
        version: 1,
        device: 0,
        number: 0,
        kind: Kind::Audit,
        customer: 0,
        amount: 0,
        ascending: 0,
        descending: 0,
        refunded: 0,
        pieces: 0,
        day,
    }
}

#[tactic(auto, unfolding(ledger_terms::specs::Requests::request_in))]
fn request_from(bytes: &[u8]) -> Request
    ensures value { result ≡ request_in bytes.now }
    ensures small { result.amount < 2 ^ 64 }
{
    match read_message(bytes) {
        Ok(Message::Request(request)) => request,
        _ => no_request(),
    }
}

/// The Request that a note reads as.
pub(crate) fn request_in(note: &Note) -> Request
    ensures value { result ≡ request_in note.now }
    ensures small { result.amount < 2 ^ 64 }
{
    request_from(note.as_slice())
}

// The note of this commit, where it asks for the number.
fn asked_in(commit: &Commit, device: DevNo, number: u32) -> Option<Note>
    ensures { result ≡ note_of device number (commit.now ∷ []) }
{
    match *commit {
        Commit::Asked {
            device: d,
            number: n,
            request: note,
        } if d == device && n == number => Some(note),
        _ => None,
    }
}

/// The note in the first Asked of this number.
pub(crate) fn note_of(commits: &[Commit], device: DevNo, number: u32) -> Option<Note>
    ensures { result ≡ note_of device number (reverse commits.now) }
{
    let mut found = None;
    for commit in commits {
        found = found.or(asked_in(commit, device, number));
    }
    found
}

/// The Request of this number: the one in the first Asked of it.
pub(crate) fn request_of(commits: &[Commit], device: DevNo, number: u32) -> Request
    ensures value { result ≡ request_of device number (reverse commits.now) }
    ensures small { result.amount < 2 ^ 64 }
{
    match note_of(commits, device, number) {
        Some(note) => request_in(&note),
        None => no_request(),
    }
}
