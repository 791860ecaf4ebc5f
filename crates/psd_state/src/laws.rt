//! What holds of all lists of commits and all records, as contracts of functions that do nothing.
ghost use Rattle.psd_state.specs.Laws.{MakingStarts, AskingKeeps, DebitingKeeps, ApplyingKeeps, OthersKeep, ResendingRepeats, OnePayload, OneReading};

/// The record of a device follows from the commits: after each commit of its own it is the record of the commits and
/// that one, which come in order; and the commits of others leave it.
pub fn record_follows_the_commits()
    ensures made { MakingStarts }
    ensures asked { AskingKeeps }
    ensures debited { DebitingKeeps }
    ensures applied { ApplyingKeeps }
    ensures others { OthersKeep }
    ensures resent { ResendingRepeats }
{}

/// No two records have one spelling in a version, and no payload reads as two records, whatever its version: what is
/// written and read back is the same record.
pub fn one_payload()
    ensures one_spelling { OnePayload }
    ensures one_reading { OneReading }
{}
