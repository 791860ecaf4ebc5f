//! The law of several runs of all words, and that each stop has its reach, as contracts of calls that do nothing.
ghost use Rattle.std.specs.Prelude.{List};
ghost use Rattle.trace_bench.specs.Seeing.{Audit};
ghost use Rattle.trace_extensions.specs.Runs.{AreAudited, AreExact, AuditedRun, HasReach};
ghost use Rattle.trace_extensions.specs.Words.{Beside, Word};

use ledger_laws::laws::histories;
use script_text::laws::{one_line, one_reply};

/// SEVERAL RUNS OF ALL WORDS. An auditor judges them one after the other: runs of events alone, and runs under `claims`, `departments`, `manifest` or
/// `statement`, beside the claims, quotas and jobs that are kept from run to run. If the verdicts find nothing, some executions give these reports, each
/// run over what the one before it left. And if some do, the verdicts find nothing. Each run may have come to its end, or may have been stopped.
///
/// It assumes a history that the auditor saw before the first run, by a tariff of texts; a new auditor sees the empty one. The second half assumes that
/// each verdict decides whether its run fits as it does there. If a run was stopped at an own line, it has to have come as far as the reach says, if one
/// is given, and a verdict that calls it in doubt for want of a reach decides nothing.
pub fn runs_of_all_words_are_exact()
    ensures { (start : Audit) (beside : Beside) (audits : List AuditedRun) → AreAudited start beside audits → AreExact start beside audits }
{
    histories();
    one_reply();
    one_line();
}

/// A RUN THAT WAS STOPPED AT AN OWN LINE CAME TO SOME REACH: nothing of the line was begun, or so many of its steps were done. No other run may have been
/// stopped there, so an audit that tries these reaches one after the other misses none.
pub fn stops_have_reaches()
    ensures { (word : Word) → HasReach word }
{}
