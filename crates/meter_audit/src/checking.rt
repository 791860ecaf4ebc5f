//! What is wrong with the lines of a script.
use crate::faults::{Fault, or_memory, or_write};
use crate::files::{open_file, unusable};
use crate::verdicts::FINDING;
use audit_words::shown_text;
use bench_base::stream::{IoSink, IoSource};
use script_check::{CheckFail, check_script};
use std::io;
use text_streams::ReadAhead;

/// How much of a script is read at once, in bytes.
const AHEAD: usize = 65_536;

/// Prints what is wrong with the script in this file, a fault a line, or that nothing is: the exit status.
pub fn check(rt: &HostRuntime, file: &str) -> Result<u8, Fault> {
    let opened = open_file(rt, file)?;
    let Ok(ahead) = vec![in rt.alloc(); 0; AHEAD] else {
        return Err(Fault::Memory);
    };
    let mut script = ReadAhead::new(IoSource::new(opened), ahead);
    let mut faults = IoSink::new(io::writer(rt));
    match check_script(rt.alloc(), &mut script, &mut faults) {
        Ok(checked) if checked.is_well_formed => {
            let lines = checked.lines;
            let name = or_memory(shown_text(rt.alloc(), file))?;
            or_write(println!(rt; "{name} is well-formed, {lines} lines"))?;
            Ok(0)
        }
        Ok(_) => Ok(FINDING),
        Err(CheckFail::Read) => Err(unusable(rt, file)),
        Err(CheckFail::Write) => Err(Fault::Write),
        Err(CheckFail::Memory) => Err(Fault::Memory),
    }
}
