//! The words of the journal.
use crate::entry::CommitKind;
use bench_base::words::{Kind, Node, Verdict};
use std::alloc::{AllocError, Global};

/// The word for what a commit did. The word for a request follows `asked`.
pub fn commit_word(commit: CommitKind) -> &'static str {
    match commit {
        CommitKind::Made => "made",
        CommitKind::Asked => "asked",
        CommitKind::Applied => "applied",
        CommitKind::Debited => "debited",
        CommitKind::Registered => "registered",
        CommitKind::Ruled => "ruled",
        CommitKind::Settled => "settled",
        CommitKind::Opened => "opened",
        CommitKind::Deposited => "deposited",
        CommitKind::Suspended => "suspended",
        CommitKind::Resumed => "resumed",
        CommitKind::Ordered => "ordered",
        CommitKind::Held => "held",
        CommitKind::Begun => "begun",
        CommitKind::Printed => "printed",
        CommitKind::PrinterFault => "printer fault",
        CommitKind::Closed => "closed",
        CommitKind::Trusted => "trusted",
        CommitKind::Accepted => "accepted",
    }
}

/// The word for what a device asks, as in a script.
pub fn kind_word(kind: Kind) -> &'static str {
    match kind {
        Kind::Enrol => "enrol",
        Kind::Reset => "reset",
        Kind::Audit => "audit",
        Kind::Refund => "refund",
        Kind::Withdraw => "withdraw",
    }
}

/// The words for how the centre ruled.
pub fn verdict_word(verdict: Verdict) -> &'static str {
    match verdict {
        Verdict::Granted => "granted",
        Verdict::NotEnrolled => "not enrolled",
        Verdict::EnrolledAlready => "enrolled already",
        Verdict::NoCustomer => "no customer",
        Verdict::Suspended => "suspended",
        Verdict::NoFunds => "no funds",
        Verdict::Imbalance => "imbalance",
    }
}

/// The node's word in a script. AllocError is lack of memory.
pub fn node_text(alloc: Global, node: &Node) -> Result<String, AllocError> {
    match node {
        Node::Device(device) => format!(in alloc; "d{}", device.get()),
        Node::Centre => format!(in alloc; "centre"),
        Node::Host => format!(in alloc; "host"),
        Node::Verifier => format!(in alloc; "verifier"),
    }
}
