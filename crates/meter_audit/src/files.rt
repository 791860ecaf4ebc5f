//! The files of runs: NAME.script, NAME.report, NAME.rates, which is empty where it is missing, as the meter takes it, and NAME.word.
use crate::faults::{Fault, or_memory};
use audit_recount::Run;
use audit_words::shown_text;
use std::fs::{self, File};
use std::io::{self, Read, Seek, SeekFrom};

/// The most bytes that a file of rates may have: as many as 16 `rates` of a run can take, 65,537 each.
const MOST_RATES: u64 = 1_048_592;

/// How many bytes of a file with the word of a run are read: more than any word has.
const MOST_WORD: u64 = 64;

// The text with another after it.
fn joined(rt: &HostRuntime, prefix: &str, back: &str) -> Result<String, Fault> {
    let mut text = or_memory(String::from_str(rt.alloc(), prefix))?;
    or_memory(text.push_str(back))?;
    Ok(text)
}

/// What is said of a file that can't be used.
pub fn unusable(rt: &HostRuntime, file: &str) -> Fault {
    match shown_text(rt.alloc(), file) {
        Ok(text) => Fault::File(text),
        Err(_) => Fault::Memory,
    }
}

/// What is said of the file of a run that has this ending, if it can't be used.
pub fn unusable_of(rt: &HostRuntime, name: &str, ending: &str) -> Fault {
    match joined(rt, name, ending) {
        Ok(file) => unusable(rt, file.as_str()),
        Err(fault) => fault,
    }
}

/// What is said of the script of a run that has bytes, which it had not when it was looked through.
pub fn changed(rt: &HostRuntime, name: &str) -> Fault {
    let Ok(file) = joined(rt, name, ".script") else {
        return Fault::Memory;
    };
    match shown_text(rt.alloc(), file.as_str()) {
        Ok(text) => Fault::Changed(text),
        Err(_) => Fault::Memory,
    }
}

/// What is said of the event of this line of a run, if its bytes may have been sent before a start.
pub fn unknown(rt: &HostRuntime, name: &str, line: u32) -> Fault {
    let Ok(shown) = shown_text(rt.alloc(), name) else {
        return Fault::Memory;
    };
    match format!(in rt.alloc(); "{shown} line {line}") {
        Ok(text) => Fault::Unknown(text),
        Err(_) => Fault::Memory,
    }
}

// What is said of a file that is no regular one.
fn irregular(rt: &HostRuntime, file: &str) -> Fault {
    match shown_text(rt.alloc(), file) {
        Ok(text) => Fault::Pipe(text),
        Err(_) => Fault::Memory,
    }
}

// What is said of a file that failed so.
fn fault_at(rt: &HostRuntime, file: &str, error: &io::Error) -> Fault {
    match error.kind() {
        io::ErrorKind::OutOfMemory => Fault::Memory,
        _ => unusable(rt, file),
    }
}

/// Refuses a file that is no regular one: such as a pipe, which can be read once alone, and may never end.
pub fn want_regular(rt: &HostRuntime, file: &str) -> Result<(), Fault> {
    match fs::metadata(rt, file) {
        Ok(found) if found.is_file() => Ok(()),
        Ok(_) => Err(irregular(rt, file)),
        Err(_) => Err(unusable(rt, file)),
    }
}

/// Refuses the file of a run that has this ending if it is no regular one.
pub fn want_regular_of(rt: &HostRuntime, name: &str, ending: &str) -> Result<(), Fault> {
    let file = joined(rt, name, ending)?;
    want_regular(rt, file.as_str())
}

// Whether what was opened is a folder, which can't be read.
fn is_folder(opened: &File) -> bool {
    match opened.metadata() {
        Ok(found) => found.is_dir(),
        Err(_) => false,
    }
}

/// Opens a file.
pub fn open_file(rt: &HostRuntime, file: &str) -> Result<File, Fault> {
    match File::open(rt, file) {
        Ok(opened) if !is_folder(&opened) => Ok(opened),
        Ok(_) | Err(_) => Err(unusable(rt, file)),
    }
}

/// Opens the file of a run that has this ending.
pub fn open_of(rt: &HostRuntime, name: &str, ending: &str) -> Result<File, Fault> {
    let file = joined(rt, name, ending)?;
    open_file(rt, file.as_str())
}

// The first bytes of an open file.
fn prefix_of(rt: &HostRuntime, opened: File, most: u64) -> io::Result<Vec<u8>> {
    let mut bytes = Vec::new(rt.alloc());
    opened.take(most).read_to_end(&mut bytes)?;
    Ok(bytes)
}

/// The first bytes of an open file, at most so many.
pub fn first_bytes(
    rt: &HostRuntime,
    file: &str,
    opened: File,
    most: u64,
) -> Result<Vec<u8>, Fault> {
    match prefix_of(rt, opened, most) {
        Ok(bytes) => Ok(bytes),
        Err(error) => Err(fault_at(rt, file, &error)),
    }
}

// What is said of a file of rates that has too many bytes.
fn too_long(rt: &HostRuntime, file: &str) -> Fault {
    match shown_text(rt.alloc(), file) {
        Ok(text) => Fault::Rates(text),
        Err(_) => Fault::Memory,
    }
}

// The rates in this open file. A longer one is refused: a run with more than 16 `rates` could take more of it than is read, and a lawful
// report would be called wrong.
fn all_rates(rt: &HostRuntime, file: &str, opened: File) -> Result<Vec<u8>, Fault> {
    let rates = first_bytes(rt, file, opened, MOST_RATES + 1)?;
    if rates.len() as u64 > MOST_RATES {
        return Err(too_long(rt, file));
    }
    Ok(rates)
}

/// The rates in this file, which are those of every run.
pub fn rates_in(rt: &HostRuntime, file: &str) -> Result<Vec<u8>, Fault> {
    let opened = open_file(rt, file)?;
    all_rates(rt, file, opened)
}

// The rates of a run by its own file; None if that is missing.
fn own_rates(rt: &HostRuntime, name: &str) -> Result<Option<Vec<u8>>, Fault> {
    let file = joined(rt, name, ".rates")?;
    match File::open(rt, file.as_str()) {
        Ok(opened) => Ok(Some(all_rates(rt, file.as_str(), opened)?)),
        Err(error) if error.kind() == io::ErrorKind::NotFound => Ok(None),
        Err(error) => Err(fault_at(rt, file.as_str(), &error)),
    }
}

/// The rates of a run, without a word on a missing file: those of every run, if there are such.
pub fn rates_again(
    rt: &HostRuntime,
    name: &str,
    shared: &Option<Vec<u8>>,
) -> Result<Option<Vec<u8>>, Fault> {
    match shared {
        Some(rates) => Ok(Some(or_memory(rates.clone())?)),
        None => own_rates(rt, name),
    }
}

/// The rates of a run: those of every run, if there are such. A missing file is mentioned on standard error, which may take no line.
pub fn rates_of(rt: &HostRuntime, name: &str, shared: &Option<Vec<u8>>) -> Result<Vec<u8>, Fault> {
    if let Some(rates) = rates_again(rt, name, shared)? {
        return Ok(rates);
    }
    let missing = or_memory(shown_text(rt.alloc(), joined(rt, name, ".rates")?.as_str()))?;
    let _ = eprintln!(rt; "no {missing}: taken as empty");
    Ok(Vec::new(rt.alloc()))
}

// Whether the file of a run that has this ending is a regular one, or missing.
fn is_no_pipe(rt: &HostRuntime, name: &str, ending: &str) -> Result<bool, Fault> {
    let file = joined(rt, name, ending)?;
    match fs::metadata(rt, file.as_str()) {
        Ok(found) => Ok(found.is_file()),
        Err(_) => Ok(true),
    }
}

/// Whether the files of a run can be read more than once.
pub fn can_be_read_again(rt: &HostRuntime, name: &str) -> Result<bool, Fault> {
    Ok(
        is_no_pipe(rt, name, ".script")?
            && is_no_pipe(rt, name, ".report")?
            && is_no_pipe(rt, name, ".rates")?,
    )
}

// The last bytes of an open file, at most so many.
fn last_bytes(rt: &HostRuntime, opened: File, most: u64) -> io::Result<Vec<u8>> {
    let mut opened = opened;
    let len = opened.metadata()?.len();
    opened.seek(SeekFrom::Start(len.saturating_sub(most)))?;
    prefix_of(rt, opened, most)
}

/// Whether the report of a run ends with an answer to `end`. Not, if it can't be read.
pub fn has_end(rt: &HostRuntime, name: &str) -> bool {
    let Ok(opened) = open_of(rt, name, ".report") else {
        return false;
    };
    match last_bytes(rt, opened, 5) {
        Ok(bytes) => matches!(bytes.as_slice(), b"\nend\n" | b"end\n"),
        Err(_) => false,
    }
}

/// The first bytes of NAME.word; None if there is no such file.
pub fn word_bytes(rt: &HostRuntime, name: &str) -> Result<Option<Vec<u8>>, Fault> {
    let file = joined(rt, name, ".word")?;
    match File::open(rt, file.as_str()) {
        Ok(opened) => Ok(Some(first_bytes(rt, file.as_str(), opened, MOST_WORD)?)),
        Err(error) if error.kind() == io::ErrorKind::NotFound => Ok(None),
        Err(error) => Err(fault_at(rt, file.as_str(), &error)),
    }
}

// The whole file of a run that has this ending, which is a regular one.
fn bytes_of(rt: &HostRuntime, name: &str, ending: &str) -> Result<Vec<u8>, Fault> {
    let file = joined(rt, name, ending)?;
    want_regular(rt, file.as_str())?;
    match fs::read(rt, file.as_str()) {
        Ok(bytes) => Ok(bytes),
        Err(error) => Err(fault_at(rt, file.as_str(), &error)),
    }
}

/// A run, whole in memory, so that what is counted is what was judged. Its rates are those of every run, if there are such.
pub fn whole_run(rt: &HostRuntime, name: &str, shared: &Option<Vec<u8>>) -> Result<Run, Fault> {
    let script = bytes_of(rt, name, ".script")?;
    let report = bytes_of(rt, name, ".report")?;
    let rates = rates_of(rt, name, shared)?;
    Ok(Run {
        script,
        report,
        rates,
        lines: None,
        own: Vec::new(rt.alloc()),
    })
}
