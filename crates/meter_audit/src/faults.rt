//! Why nothing more is judged.
use audit_journal::BookFault;
use thiserror::Error;

/// Why nothing more is judged: what is printed on standard error. Names of files are given as they are shown.
#[derive(Debug, Drop, Error)]
pub enum Fault {
    #[error("usage: meter_audit [OPTION ..] [--runs DIR] NAME ..\n       meter_audit --check SCRIPT")]
    Words,
    #[error("--from goes with no --page, --html, --csv, --json, --ledger and --seen: these count from blank storages")]
    Start,
    #[error("cannot use {0}")]
    File(String),
    #[error("cannot use {0}: it is no regular file")]
    Pipe(String),
    #[error("cannot use {0}: it has more than 1048592 bytes")]
    Rates(String),
    #[error("cannot use {0}: it has no run")]
    Folder(String),
    #[error("cannot use {0}: another program uses it")]
    InUse(String),
    #[error("cannot use {0}: it changed while it was read")]
    Changed(String),
    #[error("cannot judge {0}: its event has bytes, and what was sent before the storages of --from is not known")]
    Unknown(String),
    #[error("cannot judge {0}: runs of {1} are not judged")]
    Unjudged(String, String),
    #[error("cannot judge {0}: its word is {1}, which is no word of a run")]
    NoWord(String, String),
    #[error("cannot judge {0}: --word names it, and no such run is given")]
    NoRun(String),
    #[error("cannot judge {0}: --due is for a last run of replay alone")]
    ReplayAlone(String),
    #[error("cannot go on behind {0}: it was stopped at a line of its own, and what was done for that is not known")]
    OwnStop(String),
    #[error("cannot go on behind {0}: what was done for lines of their own at which runs were stopped leaves too many cases open")]
    Cases(String),
    #[error("{0} was not stopped, so no answer is due")]
    Unstopped(String),
    #[error("cannot write standard output")]
    Write,
    #[error("counted otherwise than judged")]
    Counted,
    #[error("no memory")]
    Memory,
}

/// The exit status of a fault.
pub fn code_of(fault: &Fault) -> u8 {
    match fault {
        Fault::Words
        | Fault::Start
        | Fault::File(_)
        | Fault::Pipe(_)
        | Fault::Rates(_)
        | Fault::Folder(_)
        | Fault::InUse(_)
        | Fault::Changed(_)
        | Fault::Unknown(_)
        | Fault::Unjudged(_, _)
        | Fault::NoWord(_, _)
        | Fault::NoRun(_)
        | Fault::ReplayAlone(_)
        | Fault::OwnStop(_)
        | Fault::Cases(_)
        | Fault::Unstopped(_)
        | Fault::Write
        | Fault::Counted => 2,
        Fault::Memory => 3,
    }
}

/// What was made, or lack of memory.
pub fn or_memory<T, E: Drop>(made: Result<T, E>) -> Result<T, Fault> {
    match made {
        Ok(made) => Ok(made),
        Err(_) => Err(Fault::Memory),
    }
}

/// What was written, or that it can't be.
pub fn or_write<E: Drop>(written: Result<(), E>) -> Result<(), Fault> {
    match written {
        Ok(()) => Ok(()),
        Err(_) => Err(Fault::Write),
    }
}

/// What was counted, or why it was not.
pub fn or_book(counted: Result<(), BookFault>) -> Result<(), Fault> {
    match counted {
        Ok(()) => Ok(()),
        Err(BookFault::Write) => Err(Fault::Write),
        Err(BookFault::Counted) => Err(Fault::Counted),
        Err(BookFault::Memory) => Err(Fault::Memory),
    }
}
