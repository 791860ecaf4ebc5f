//! How the program ends: its exit status, and its line on standard error.
ghost use Rattle.std.specs.Prelude.{◌≡◌};
ghost use Rattle.program_calls.specs.Exits.{exit_of, line_of};

use line_runs::status::{SideStatus, Status};
use thiserror::Error;

/// Why nothing was run.
#[derive(Clone, Copy, Debug, Drop, PartialEq, Eq)]
pub enum OpenFault {
    /// There is no memory for the bench.
    Memory,
    /// The file of this name can't be used.
    File(&'static str),
}

/// The line that the program prints on standard error.
#[derive(Clone, Copy, Debug, Drop, Error)]
pub enum Fault {
    #[error("usage: meter_run replay | meter_run generate SEED COUNT")]
    Words,
    #[error("script: line {0}")]
    Script(u32),
    #[error("read fault")]
    Read,
    #[error("write fault")]
    Write,
    #[error("no memory")]
    Memory,
    #[error("script too long")]
    TooLong,
    #[error("cannot use {0}")]
    File(&'static str),
    #[error("stopped")]
    Stopped,
}

/// What the program ends with.
#[derive(Clone, Copy, Debug, Drop)]
pub struct Exit {
    pub status: u8,
    pub line: Option<Fault>,
}

/// The exit status if a file can't be used.
const UNUSABLE: u8 = 7;

/// The line of a run that ended so. None if it did its script.
fn line_of(ended: SideStatus) -> Option<Fault>
    ensures { result ≡ line_of ended }
{
    match ended {
        SideStatus::Run(Status::Done) => None,
        SideStatus::Run(Status::Words) => Some(Fault::Words),
        SideStatus::Run(Status::Script(line)) => Some(Fault::Script(line)),
        SideStatus::Run(Status::ReadFault) => Some(Fault::Read),
        SideStatus::Run(Status::WriteFault) => Some(Fault::Write),
        SideStatus::Run(Status::Memory) => Some(Fault::Memory),
        SideStatus::Run(Status::TooLong) => Some(Fault::TooLong),
        SideStatus::Stopped => Some(Fault::Stopped),
    }
}

/// The exit status and the line of a run that ended so, or that was not begun.
pub fn exit_of(ended: Result<SideStatus, OpenFault>) -> Exit
    ensures { result ≡ exit_of ended }
{
    match ended {
        Ok(ended) => Exit {
            status: ended.code(),
            line: line_of(ended),
        },
        Err(OpenFault::Memory) => Exit {
            status: Status::Memory.code(),
            line: Some(Fault::Memory),
        },
        Err(OpenFault::File(name)) => Exit {
            status: UNUSABLE,
            line: Some(Fault::File(name)),
        },
    }
}
