//! What holds of all lists of commits and all rows, as contracts of functions that do nothing.
ghost use Rattle.verifier.specs.ActLaws.{ActsLeaveSound, ActsFollow, ActsArePlanned};
ghost use Rattle.verifier.specs.PayloadLaws.{PayloadLaws};

/// What the verifier's calls do by its rows:
///
/// - `sound`. If a call commits, it is a commit of the verifier, and the rows with its change are sound, also together.
/// - `follows`. After the rows of some commits come those of these commits and that one. The rows of commits are sound, and
///   have as many commits as the verifier.
/// - `planned`. What a call does by the rows of some commits is what it does by these, and the ledger's plan is read off these.
pub fn acts_follow_the_commits()
    ensures sound { ActsLeaveSound }
    ensures follows { ActsFollow }
    ensures planned { ActsArePlanned }
{}

/// The payload of a cell reads as one row at most; what is written for a row reads as that row; and what reads as a row
/// has 2,056 bytes.
pub fn one_row()
    ensures { PayloadLaws }
{}
