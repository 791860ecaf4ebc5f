//! How the turn of a call is reported.
ghost use Rattle.std.specs.Prelude.{◌≡◌};
ghost use Rattle.node_acts.specs.Said.{planned_commit};
ghost use Rattle.node_turns.specs.Printing.{unprinted_turn};
ghost use Rattle.node_turns.specs.Turns.{told_turn};

use bench_base::events::Reply;
use bench_base::ledger::{Commit, Entry};
use bench_base::words::Node;
use node_acts::{Act, Outcome, Said};
use node_turns::Tell;

// The commit that the act makes.
fn commit_in<X>(act: &Act<X, Reply, Said>) -> Option<Commit>
    ensures { result ≡ planned_commit act.now }
{
    match act {
        Act::Refuse(_) | Act::Tell(_) => None,
        Act::Commits(commit, _, _) => Some(*commit),
    }
}

// The turn of a call of this act that came to this.
pub(crate) fn tell<T: Tell, X>(
    node: &Node,
    act: &Act<X, Reply, Said>,
    outcome: &Outcome<Reply, Said>,
) -> T
    ensures { T.IsOf result (told_turn node.now (planned_commit act.now) outcome.now) }
{
    match outcome {
        Outcome::Off => T::silent(Reply::OffNode(*node)),
        Outcome::Refused(reply) => T::silent(*reply),
        Outcome::Done(said) => T::done(commit_in(act), said),
        Outcome::Worn => T::silent(Reply::Worn(*node)),
        Outcome::Power(commit) => T::one(
            Reply::Power(*node),
            Entry::Torn {
                node: *node,
                commit: *commit,
            },
        ),
        Outcome::Fault(commit) => T::one(
            Reply::Fault(*node),
            Entry::Torn {
                node: *node,
                commit: *commit,
            },
        ),
    }
}

// The turn of a call of this act whose print failed.
pub(crate) fn tell_unprinted<T: Tell, X>(act: &Act<X, Reply, Said>, job: u32) -> T
    ensures { T.IsOf result (unprinted_turn (planned_commit act.now) job) }
{
    match commit_in(act) {
        Some(commit) => T::one(Reply::PrinterFault(job), Entry::Commit(commit)),
        None => T::silent(Reply::PrinterFault(job)),
    }
}
