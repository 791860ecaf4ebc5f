//! Verdicts as they are printed.
use crate::judging::{Judged, Outcome};
use std::alloc::{AllocError, Global};
use trace_runs::Ending;

/// The exit status of a finding: what can't be so, what is forged, or a report that goes on.
pub const FINDING: u8 = 1;

/// Whether the verdict is a finding.
pub fn is_finding(judged: &Judged) -> bool {
    found_at(judged).is_some()
}

/// Whether it is in doubt what the run did for a line of its own at which it was stopped.
pub fn is_own_doubt(judged: &Judged) -> bool {
    matches!(judged.outcome, Outcome::StoppedInOwn(_))
}

/// Whether a run without a finding leaves something undecided: its script has no end, or its report has nothing.
pub fn is_undecided(judged: &Judged) -> bool {
    match judged.ending {
        Ending::Script(_) | Ending::TooLong => true,
        Ending::Done => judged.is_empty,
    }
}

/// The line of the script at which something was found in the run, if something was.
pub fn found_at(judged: &Judged) -> Option<u32> {
    match judged.outcome {
        Outcome::Wrong(line) | Outcome::Forged(line) | Outcome::More(line, _) => Some(line),
        Outcome::Lawful(_)
        | Outcome::Stopped(_)
        | Outcome::StoppedInOwn(_)
        | Outcome::Unkept(_)
        | Outcome::Unread(_)
        | Outcome::Memory => None,
    }
}

/// The line of the script with the missing answer, if the run was stopped.
pub fn stopped_at(judged: &Judged) -> Option<u32> {
    match judged.outcome {
        Outcome::Stopped(line) | Outcome::StoppedInOwn(line) => Some(line),
        Outcome::Lawful(_)
        | Outcome::Wrong(_)
        | Outcome::Forged(_)
        | Outcome::Unkept(_)
        | Outcome::More(_, _)
        | Outcome::Unread(_)
        | Outcome::Memory => None,
    }
}

// The text of a verdict that finds nothing, on a run that was not stopped.
fn lawful_text(alloc: Global, name: &str, judged: &Judged) -> Result<String, AllocError> {
    let answers = judged.answers;
    match judged.ending {
        Ending::Done => format!(in alloc; "lawful {name}, {answers} answers"),
        Ending::Script(line) => {
            format!(in alloc;
                "lawful {name}, {answers} answers, whose script ends badly at line {line}"
            )
        }
        Ending::TooLong => {
            format!(in alloc; "lawful {name}, {answers} answers, whose script is too long")
        }
    }
}

// The text on a report that goes on.
fn more_text(
    alloc: Global,
    name: &str,
    line: u32,
    ending: Ending,
    judged: &Judged,
) -> Result<String, AllocError> {
    let found = judged.found.as_str();
    let end = match ending {
        Ending::Done => "ends",
        Ending::Script(_) => "ends badly",
        Ending::TooLong => "is too long",
    };
    format!(in alloc;
        "more {name}: the report goes on behind line {line}, where the script {end}\nfound {found}"
    )
}

/// The text of the verdict on the run of this name, as it is shown.
pub fn verdict_text(alloc: Global, name: &str, judged: &Judged) -> Result<String, AllocError> {
    let script = judged.script.as_str();
    let due = judged.due.as_str();
    let found = judged.found.as_str();
    match judged.outcome {
        Outcome::Lawful(_) => lawful_text(alloc, name, judged),
        Outcome::Stopped(line) => {
            format!(in alloc; "stopped {name} before the answer to line {line}")
        }
        Outcome::StoppedInOwn(line) => {
            format!(in alloc; "stopped {name} before the answer to line {line}, a line of its own")
        }
        Outcome::Wrong(line) => {
            format!(in alloc; "wrong {name} line {line}\nscript {script}\ndue {due}\nfound {found}")
        }
        Outcome::Forged(line) => {
            format!(in alloc; "forged {name} line {line}\nscript {script}\nfound {found}")
        }
        Outcome::More(line, ending) => more_text(alloc, name, line, ending, judged),
        Outcome::Unkept(_) | Outcome::Unread(_) | Outcome::Memory => {
            format!(in alloc; "{name} was not judged")
        }
    }
}
