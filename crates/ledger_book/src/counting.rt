//! The commits of a ledger that count.
ghost use Rattle.std.specs.Prelude.{◌≡◌, ◌≤◌, [], ◌∷◌, length, reverse, IfOk};
ghost use Rattle.bench_base.specs.Ledger.{Ledger, counted, count_of, torn_of};
ghost use Rattle.ledger_book.specs.Growth.{newest};

use crate::words::{node_of, same_node};
use bench_base::ledger::{Commit, Entry};
use bench_base::words::Node;
use std::alloc::{AllocError, Global};

fn count_in(commit: &Commit, node: &Node) -> u64
    ensures value { result ≡ count_of node.now (commit.now ∷ []) }
    ensures small { result ≤ 1 }
{
    u64::from(same_node(&node_of(commit), node))
}

/// How many of the commits are the node's.
pub(crate) fn count_of(commits: &[Commit], node: &Node) -> u64
    ensures value { result ≡ count_of node.now (reverse commits.now) }
    ensures small { result ≤ length commits.now }
{
    let mut count = 0;
    for commit in commits {
        count += count_in(commit, node);
    }
    count
}

// The open commit of the node after this entry, where `before` was open.
fn torn_after(entry: &Entry, node: &Node, before: Option<Commit>) -> Option<Commit>
    ensures { (H : Ledger) → torn_of node.now H ≡ before → result ≡ torn_of node.now (entry.now ∷ H) }
{
    match *entry {
        Entry::Torn { node: n, commit } if same_node(&n, node) => Some(commit),
        Entry::Up { node: n, .. } if same_node(&n, node) => None,
        _ => before,
    }
}

/// The open commit of the node: its last Torn, until an Up of the node.
pub(crate) fn torn_of(book: &[Entry], node: &Node) -> Option<Commit>
    ensures { result ≡ torn_of node.now (reverse book.now) }
{
    let mut open = None;
    for entry in book {
        open = torn_after(entry, node, open);
    }
    open
}

// The commit that counts by this entry, after the entries before it and the commits that count in them.
fn newest(entry: &Entry, before: &[Entry], commits: &[Commit]) -> Option<Commit>
    ensures { reverse commits.now ≡ counted (reverse before.now) → result ≡ newest (entry.now ∷ reverse before.now) }
{
    match *entry {
        Entry::Commit(commit) => Some(commit),
        Entry::Up {
            node,
            commits: count,
        } if count == count_of(commits, &node) + 1 => torn_of(before, &node),
        _ => None,
    }
}

/// The commits that count, the oldest first as the entries are. A torn commit counts at the next Up of its node if and only if that Up
/// shows one commit more than the node has so far.
pub fn counted(alloc: Global, book: &[Entry]) -> Result<Vec<Commit>, AllocError>
    ensures { IfOk result (λ commits. reverse commits.items ≡ counted (reverse book.now)) }
{
    let mut commits = Vec::new(alloc);
    for (i, entry) in book.iter().enumerate() {
        if let Some(commit) = newest(entry, &book[..i], commits.as_slice()) {
            commits.push(commit)?;
        }
    }
    Ok(commits)
}
