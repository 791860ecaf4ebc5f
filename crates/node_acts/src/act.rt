//! What a call of a node does, and what it came to.
use bench_base::ledger::Commit;

/// What a call does where its storage does not fail: it refuses; it answers and commits nothing; or it commits a change
/// of its record, and then answers.
#[derive(Clone, Copy)]
pub enum Act<X, F, A> {
    Refuse(F),
    Tell(A),
    Commits(Commit, X, A),
}

/// What a call of a node came to.
#[derive(Clone, Copy)]
pub enum Outcome<F, A> {
    /// The node is off. Nothing was done.
    Off,
    /// The node refused. Nothing was changed.
    Refused(F),
    /// The node did it.
    Done(A),
    /// The cell has 4,294,967,295 commits. Nothing was changed.
    Worn,
    /// Power was cut in this commit, which was made or was not. The node is off.
    Power(Commit),
    /// The storage failed in this commit, which was made or was not. The node is off.
    Fault(Commit),
}

/// What switching a node on came to.
#[derive(Clone, Copy, Debug, PartialEq, Eq)]
pub enum Started {
    /// It was on.
    Already,
    /// It is on, with this many commits.
    Up(u64),
    /// Power was cut. It is off.
    Power,
    /// The storage failed. It is off.
    Fault,
    /// Its storage is not a valid storage of this node. The node is off.
    Damaged,
}
