//! What is said of a file of marks: the lines that are not debited, and the counts. The name of the file is given as it is shown.
use crate::counts::Counts;
use crate::reading::NoMark;
use indicium::read_indicium;
use std::alloc::{AllocError, Global};

// The device and the piece that a mark names, whether there is such a device or not.
fn named(alloc: Global, mark: &[u8; 64]) -> Result<String, AllocError> {
    let Ok((mark, _)) = read_indicium(mark) else {
        return Ok(String::new(alloc));
    };
    let device = mark.device;
    let piece = mark.piece;
    if 1 <= device && device <= 8 {
        format!(in alloc; "d{device} piece {piece}")
    } else {
        format!(in alloc; "device {device} piece {piece}")
    }
}

// Why a line is no mark.
fn why_text(alloc: Global, why: NoMark) -> Result<String, AllocError> {
    match why {
        NoMark::Long => String::from_str(alloc, "more than 600 bytes"),
        NoMark::Return => String::from_str(alloc, "it ends with a carriage return, byte 13"),
        NoMark::Length(1) => String::from_str(alloc, "1 byte in place of 128 digits"),
        NoMark::Length(length) => format!(in alloc; "{length} bytes in place of 128 digits"),
        NoMark::Digits => String::from_str(alloc, "a byte is no hexadecimal digit"),
        NoMark::Version(version) => format!(in alloc; "version {version}"),
        NoMark::Algorithm(algorithm) => format!(in alloc; "algorithm {algorithm}"),
    }
}

/// What is said of a line that is no mark. AllocError is lack of memory.
pub fn no_mark_text(
    alloc: Global,
    file: &str,
    line: u64,
    why: NoMark,
) -> Result<String, AllocError> {
    let why = why_text(alloc, why)?;
    let why = why.as_str();
    format!(in alloc; "seen {file} line {line}: no mark, {why}")
}

/// What is said of a line with the mark of an earlier line. AllocError is lack of memory.
pub fn twice_text(
    alloc: Global,
    file: &str,
    line: u64,
    first: u64,
    mark: &[u8; 64],
) -> Result<String, AllocError> {
    let named = named(alloc, mark)?;
    let named = named.as_str();
    format!(in alloc; "seen {file} line {line}: seen twice, first in line {first}, {named}")
}

/// What is said of a line with a mark that was not debited, by whether the device that it names was made. AllocError is lack of memory.
pub fn missing_text(
    alloc: Global,
    file: &str,
    line: u64,
    is_made: bool,
    mark: &[u8; 64],
) -> Result<String, AllocError> {
    let named = named(alloc, mark)?;
    let named = named.as_str();
    if is_made {
        format!(in alloc; "seen {file} line {line}: never debited here, {named}")
    } else {
        format!(in alloc; "seen {file} line {line}: unknown device, {named}")
    }
}

/// How many lines have each word. AllocError is lack of memory.
pub fn counts_text(alloc: Global, file: &str, counts: &Counts) -> Result<String, AllocError> {
    let debited = counts.debited;
    let never = counts.never;
    let twice = counts.twice;
    let unknown = counts.unknown;
    let no_mark = counts.no_mark;
    format!(in alloc;
        "seen {file}: {debited} debited, {never} never debited here, {twice} seen twice, {unknown} unknown device, {no_mark} no mark"
    )
}
