//! Which commits of the centre count.
ghost use Rattle.std.specs.Prelude.{◌≡◌, None};
ghost use Rattle.bench_base.specs.Nodes.{is_centre, node_of};
ghost use Rattle.bench_base.specs.declared.ledger.Entry.TheVariants as entries;
ghost use Rattle.centre_statement.specs.Watching.{counted_by, settled_at, watched};

use bench_base::ledger::{Commit, Entry};
use bench_base::words::Node;

/// What is seen of the centre's commits: how many count, and the one that failed and is open, until the centre comes on again.
#[derive(Clone, Copy)]
pub struct Watch {
    pub commits: u64,
    pub torn: Option<Commit>,
}

fn is_centres(commit: &Commit) -> bool
    ensures { result ≡ is_centre (node_of commit.now) }
{
    match commit {
        Commit::Registered { .. }
        | Commit::Opened(_)
        | Commit::Deposited { .. }
        | Commit::Flagged { .. }
        | Commit::Ruled { .. }
        | Commit::Settled { .. } => true,
        Commit::Made { .. }
        | Commit::Asked { .. }
        | Commit::Applied { .. }
        | Commit::Debited { .. }
        | Commit::Ordered { .. }
        | Commit::Held { .. }
        | Commit::Began(_)
        | Commit::Closed(_)
        | Commit::Trusted { .. }
        | Commit::Accepted { .. } => false,
    }
}

impl Watch {
    // A commit was made whole. Only the centre's are of interest.
    fn made(&mut self, commit: &Commit) -> Option<Commit>
        ensures counted { result ≡ counted_by self.old (entries.Commit commit.now) }
        ensures watched { self.new ≡ watched self.old (entries.Commit commit.now) }
    {
        if !is_centres(commit) {
            return None;
        }
        self.commits = self.commits.saturating_add(1);
        Some(*commit)
    }

    // The centre came on and shows so many commits: the open one counts where they are one more than were seen to count.
    fn came_on(&mut self, commits: u64) -> Option<Commit>
        ensures counted { result ≡ settled_at self.old.torn self.old.commits commits }
        ensures watched { self.new ≡ record { commits = commits; torn = None } }
    {
        let torn = self.torn;
        let counts = self.commits < u64::MAX && commits == self.commits + 1;
        self.commits = commits;
        self.torn = None;
        if counts { torn } else { None }
    }

    /// Sees an entry, and answers the commit of the centre that counts by it.
    pub fn see(&mut self, entry: &Entry) -> Option<Commit>
        ensures counted { result ≡ counted_by self.old entry.now }
        ensures watched { self.new ≡ watched self.old entry.now }
    {
        match entry {
            Entry::Commit(commit) => self.made(commit),
            Entry::Torn {
                node: Node::Centre,
                commit,
            } => {
                self.torn = Some(*commit);
                None
            }
            Entry::Up {
                node: Node::Centre,
                commits,
            } => self.came_on(*commits),
            Entry::Torn {
                node: Node::Device(_) | Node::Host | Node::Verifier,
                ..
            }
            | Entry::Up {
                node: Node::Device(_) | Node::Host | Node::Verifier,
                ..
            }
            | Entry::Begin
            | Entry::Day(_)
            | Entry::Rates(_)
            | Entry::Sent(_)
            | Entry::Released { .. }
            | Entry::Printed { .. }
            | Entry::Down(_) => None,
        }
    }
}
