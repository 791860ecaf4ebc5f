//! A node that runs, and the commit of it that failed.
ghost use Rattle.std.specs.Prelude.{◌≡◌};
ghost use Rattle.node_acts.specs.Results.{answer_of};

use crate::node::Node;
use bench_base::ledger::Commit;
use bench_base::refusals::{Fail, StoreFail};
use node_acts::Act;

/// A node that was on when it was taken, and the commit that failed, after which no other is tried.
#[derive(Drop)]
pub struct Running<K: Node> {
    pub node: K,
    pub torn: Option<Commit>,
}

/// What a call that commits nothing answers.
pub fn answer<X: Copy, F: Copy, A: Copy>(act: Act<X, F, A>) -> Result<A, Fail<F>>
    ensures { result ≡ answer_of act }
{
    match act {
        Act::Refuse(refusal) => Err(Fail::Refused(refusal)),
        Act::Tell(answer) => Ok(answer),
        Act::Commits(_, _, answer) => Ok(answer),
    }
}

impl<K: Node> Running<K> {
    ghost use Rattle.node_storage.specs.Runs.{node_of, torn_of, seen_of, Runs, CanDo, Performs};

    /// Does what a call decided on. A node that failed does nothing, and answers `Failed` before every refusal; the other
    /// failures of storage come after every refusal.
    pub fn perform<F: Copy, A: Copy>(&mut self, act: Act<K::Change, F, A>) -> Result<A, Fail<F>>
        requires runs { Runs K.Node K.Storage.Nv self.old }
        requires fits { CanDo K.Node act self.old }
        ensures runs { Runs K.Node K.Storage.Nv self.new }
        ensures performs { Performs K.Node K.Storage.Nv act self.old self.new result }
    {
        if self.torn.is_some() {
            return Err(Fail::Store(StoreFail::Failed));
        }
        match act {
            Act::Refuse(refusal) => Err(Fail::Refused(refusal)),
            Act::Tell(answer) => Ok(answer),
            Act::Commits(commit, change, answer) => match self.node.commit(&change) {
                Ok(()) => Ok(answer),
                Err(fail) => {
                    if self.node.is_on() {
                        return Err(Fail::Store(fail));
                    }
                    self.torn = Some(commit);
                    Err(Fail::Store(fail))
                }
            },
        }
    }

    /// The number of commits.
    pub fn commits(&self) -> u64
        ensures { result ≡ K.counting.count (seen_of K.Node self.now) }
    {
        self.node.commits()
    }

    /// The commit that a call of this value which answered Power or Fault would have added; None if and only if no call did.
    pub fn torn(&self) -> Option<Commit>
        ensures { result ≡ torn_of self.now }
    {
        self.torn
    }

    /// Gives the node back.
    pub fn into_node(self) -> K
        ensures { result ≡ node_of self }
    {
        let Running { node, torn: _ } = self;
        node
    }
}
