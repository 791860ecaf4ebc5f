//! What holds of all lists of commits and all rows, as contracts of functions that do nothing.
ghost use Rattle.host_jobs.specs.ActLaws.{ActsLeaveSound, ActsFollow, ActsArePlanned};
ghost use Rattle.host_jobs.specs.PayloadLaws.{PayloadLaws};
ghost use Rattle.host_jobs.specs.SeenLaws.{SeenLaws};

/// What the host's calls do by its rows:
///
/// - `sound`. If a call commits a row, it is a commit of the host in the row's cell. The rows with that one are sound, also
///   together.
/// - `follows`. If the rows are those of the commits before, they are then those of the commits and that one.
/// - `planned`. What a call does by these rows is what it does by the commits, and the ledger's plan is read off these.
pub fn acts_follow_the_commits()
    ensures sound { ActsLeaveSound }
    ensures follows { ActsFollow }
    ensures planned { ActsArePlanned }
{}

/// What the commits show of the host's cells: the rows of the commits, how many commits lie in each cell, and that one commit
/// more puts its row into its cell and leaves all others.
pub fn cells_follow_the_commits()
    ensures { SeenLaws }
{}

/// No payload reads as two jobs; what is written for a job reads as that job; and what reads as a job has 115 bytes.
pub fn one_job()
    ensures { PayloadLaws }
{}
