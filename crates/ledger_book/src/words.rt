//! Tests that distinguish kinds and verdicts.
ghost use Rattle.std.specs.Prelude.{◌≡◌};
ghost use Rattle.bench_base.specs.Kinds.{same_kind, empties, is_granted, is_dated};
ghost use Rattle.bench_base.specs.Nodes.{same_node, node_of};

use bench_base::ledger::Commit;
use bench_base::words::{Kind, Node, Verdict};

#[tactic(auto, unfolding(bench_base::specs::Kinds::same_kind))]
pub(crate) fn same_kind(a: Kind, b: Kind) -> bool
    ensures { result ≡ same_kind a b }
{
    a == b
}

/// Whether a transaction of this kind takes all that is left.
pub(crate) fn empties(kind: Kind) -> bool
    ensures { result ≡ empties kind }
{
    same_kind(kind, Kind::Refund) || same_kind(kind, Kind::Withdraw)
}

pub(crate) fn is_granted(verdict: Verdict) -> bool
    ensures { result ≡ is_granted verdict }
{
    matches!(verdict, Verdict::Granted)
}

/// Whether the verdict on a request of this kind sets a new deadline.
pub(crate) fn is_dated(verdict: Verdict, kind: Kind) -> bool
    ensures { result ≡ is_dated verdict kind }
{
    is_granted(verdict) && (same_kind(kind, Kind::Reset) || same_kind(kind, Kind::Audit))
}

pub(crate) fn same_node(a: &Node, b: &Node) -> bool
    ensures { result ≡ same_node a.now b.now }
{
    a == b
}

/// The node whose record the commit changes.
pub(crate) fn node_of(commit: &Commit) -> Node
    ensures { result ≡ node_of commit.now }
{
    match *commit {
        Commit::Made { device: d, .. }
        | Commit::Asked { device: d, .. }
        | Commit::Applied { device: d, .. } => Node::Device(d),
        Commit::Debited { device: d, .. } => Node::Device(d),
        Commit::Registered { .. } | Commit::Opened(_) | Commit::Deposited { .. } => Node::Centre,
        Commit::Flagged { .. } | Commit::Ruled { .. } | Commit::Settled { .. } => Node::Centre,
        Commit::Ordered { .. } | Commit::Held { .. } | Commit::Began(_) | Commit::Closed(_) =>
            Node::Host,
        Commit::Trusted { .. } | Commit::Accepted { .. } => Node::Verifier,
    }
}
