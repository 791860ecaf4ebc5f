//! What an auditor notes of a turn.
ghost use Rattle.std.specs.Prelude.{◌≡◌, ◌++◌, [], ◌∷◌, ℕ, List, Option, Some, None};
ghost use Rattle.bench_base.specs.declared.ledger.Commit.{Commit};
ghost use Rattle.node_acts.specs.Plans.{with_commit};
ghost use Rattle.node_acts.specs.Said.{with_given, with_sent};
ghost use Rattle.node_turns.specs.Turns.{in_order, sent_in};
ghost use Rattle.trace_nodes.specs.Released.{released_in};
ghost use Rattle.trace_bench.specs.Noting.{IsNoted};

use bench_base::bytes::Note;
use bench_base::events::Reply;
use bench_base::ledger::{Commit, Entry};
use node_acts::{GivenOut, Said};
use node_turns::Tell;

/// How a turn is reported, with the message that was sent and the mark that was released, if there is one.
#[derive(Drop)]
pub(crate) struct Noted<T> {
    pub told: T,
    pub sent: Option<Note>,
    pub released: Option<[u8; 64]>,
}

// The message of one entry.
fn sent_by(entry: &Entry) -> Option<Note>
    ensures { result ≡ sent_in (Some entry.now ∷ None ∷ None ∷ []) }
{
    match entry {
        Entry::Sent(note) => Some(*note),
        _ => None,
    }
}

// The mark that one entry releases.
fn released_by(entry: &Entry) -> Option<[u8; 64]>
    ensures { result ≡ released_in (Some entry.now ∷ None ∷ None ∷ []) }
{
    match entry {
        Entry::Released { mark, .. } => Some(*mark),
        _ => None,
    }
}

// The mark that is given out so, if it is released.
fn given_mark(given: &Option<GivenOut>) -> Option<[u8; 64]>
    ensures { (sent : Option (List ℕ)) (commit : Option Commit)
        → result ≡ released_in (in_order ((with_sent sent ++ with_given given.now) ++ with_commit commit [])) }
{
    match given {
        Some(GivenOut::Released(released)) => Some(released.mark),
        Some(GivenOut::Printed(_)) | None => None,
    }
}

impl<T: Tell> Tell for Noted<T> {
    ghost IsOf = { λ told turn. IsNoted T.IsOf told turn };

    fn silent(reply: Reply) -> Noted<T> {
        Noted {
            told: T::silent(reply),
            sent: None,
            released: None,
        }
    }

    fn one(reply: Reply, entry: Entry) -> Noted<T> {
        let sent = sent_by(&entry);
        let released = released_by(&entry);
        Noted {
            told: T::one(reply, entry),
            sent,
            released,
        }
    }

    fn done(commit: Option<Commit>, said: &Said) -> Noted<T> {
        Noted {
            told: T::done(commit, said),
            sent: said.sent,
            released: given_mark(&said.given),
        }
    }
}
