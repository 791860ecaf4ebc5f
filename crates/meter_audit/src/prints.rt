//! Whether a file has the prints of all runs, and what is said of it.
use crate::faults::{Fault, or_memory};
use crate::files::first_bytes;
use audit_facts::{PrintsFinding, PrintsState};
use audit_words::{shown, shown_text};
use memchr::memchr;
use std::alloc::{AllocError, Global};
use std::fs::File;
use text_streams::put_digits;
use trace_runs::{Imprint, Match, match_prints};

/// The digits of a mark.
const DIGITS: usize = 128;

/// The bytes of the line of a mark, with its line end.
const LINE: usize = DIGITS + 1;

/// The most bytes of a line that are shown.
const SHOWN: usize = 600;

/// A file of prints that was opened.
#[derive(Drop)]
pub struct PrintsFile {
    pub file: String,
    pub opened: File,
}

/// What is said of prints.
#[derive(Drop)]
pub struct Said {
    pub text: String,
    pub is_finding: bool,
    /// The same for a page.
    pub page: PrintsFinding,
}

/// The line of a print: the name of its run, as it is shown, and its number there.
#[derive(Drop)]
struct Place {
    run: String,
    line: u32,
}

// How many bytes of a file of prints are looked at: those of the lines of so many marks, and one line after them.
fn most_bytes(count: usize) -> u64 {
    (count as u64)
        .saturating_mul(LINE as u64)
        .saturating_add(SHOWN as u64)
}

// The number of the line in which so many bytes end, counted from 1, and the place at which it begins.
fn line_in(prints: &[u8], at: usize) -> (usize, usize) {
    let mut number: usize = 1;
    let mut start = 0;
    for place in 0..at.min(prints.len()) {
        if prints[place] == b'\n' {
            number = number.saturating_add(1);
            start = place + 1;
        }
    }
    (number, start)
}

// The line that begins at this place, as it is shown.
fn line_at(alloc: Global, prints: &[u8], start: usize) -> Result<String, AllocError> {
    let rest = &prints[start.min(prints.len())..];
    let end = memchr(b'\n', rest).unwrap_or(rest.len());
    shown(alloc, &rest[..end.min(SHOWN)])
}

// The digits of a mark.
fn mark_text(alloc: Global, mark: &[u8; 64]) -> Result<String, AllocError> {
    let mut digits = [0; DIGITS];
    put_digits(mark.as_slice(), &mut digits);
    shown(alloc, &digits)
}

// The run that has this imprint, where the runs have so many up to each.
fn run_at(ends: &[usize], place: usize) -> usize {
    for run in 0..ends.len() {
        if place < ends[run] {
            return run;
        }
    }
    ends.len()
}

// The name of the run that has this imprint, where the runs have so many up to each.
fn run_of<'a>(names: &'a [String], ends: &[usize], place: usize) -> &'a str {
    match names.get(run_at(ends, place)) {
        Some(name) => name.as_str(),
        None => "",
    }
}

// How many lines these are.
fn lines_in(prints: &[u8]) -> u64 {
    let mut lines = 0u64;
    for byte in prints.iter() {
        lines = lines.saturating_add(u64::from(*byte == b'\n'));
    }
    lines
}

// What a page says of prints by what was found.
fn page_of(
    file: String,
    ends: &[usize],
    imprints: &[Imprint],
    prints: &[u8],
    found: Match,
) -> PrintsFinding {
    let (place, bytes) = match found {
        Match::Fit => (imprints.len(), prints.len()),
        Match::Differ(place, bytes) => (place, bytes),
    };
    let imprint = imprints.get(place);
    let state = match (found, imprint) {
        (Match::Fit, _) => PrintsState::Fit,
        (Match::Differ(_, _), Some(_)) => PrintsState::Differ,
        (Match::Differ(_, _), None) => PrintsState::GoOn,
    };
    let (number, _) = line_in(prints, bytes);
    PrintsFinding {
        state,
        file,
        run: run_at(ends, place),
        line: line_of(imprint),
        number: number as u64,
        marks: imprints.len() as u64,
        lines: lines_in(prints),
    }
}

// The line of the print.
fn line_of(imprint: Option<&Imprint>) -> u32 {
    match imprint {
        Some(imprint) => imprint.line,
        None => 0,
    }
}

// What is said where the prints differ from those of this imprint, in the place that is shown.
fn differ_text(
    alloc: Global,
    file: &str,
    at: &Place,
    imprint: &Imprint,
    number: usize,
    found: &str,
) -> Result<String, AllocError> {
    let run = at.run.as_str();
    let line = at.line;
    let due = mark_text(alloc, &imprint.given.mark)?;
    format!(in alloc;
        "prints {file} differ at {run} line {line}, line {number} of {file}\ndue {due}\nfound {found}"
    )
}

// What is said of prints by what was found. Names of runs and files are given as they are.
fn text_of(
    alloc: Global,
    file: &str,
    names: &[String],
    ends: &[usize],
    imprints: &[Imprint],
    prints: &[u8],
    found: Match,
) -> Result<String, AllocError> {
    let shown_file = shown_text(alloc, file)?;
    let file = shown_file.as_str();
    let Match::Differ(place, bytes) = found else {
        return format!(in alloc; "prints {file} fit");
    };
    let (number, start) = line_in(prints, bytes);
    let found_line = line_at(alloc, prints, start)?;
    let line = found_line.as_str();
    let Some(imprint) = imprints.get(place) else {
        return format!(in alloc;
            "prints {file} go on behind the last, line {number} of {file}\nfound {line}"
        );
    };
    let at = Place {
        run: shown_text(alloc, run_of(names, ends, place))?,
        line: imprint.line,
    };
    differ_text(alloc, file, &at, imprint, number, line)
}

/// Judges the prints of these runs, which have so many imprints up to each.
pub fn judge_prints(
    rt: &HostRuntime,
    printed: PrintsFile,
    names: &[String],
    ends: &[usize],
    imprints: &[Imprint],
) -> Result<Said, Fault> {
    let PrintsFile { file, opened } = printed;
    let most = most_bytes(imprints.len());
    let prints = first_bytes(rt, file.as_str(), opened, most)?;
    let found = or_memory(match_prints(rt.alloc(), imprints, prints.as_slice()))?;
    let text = or_memory(text_of(
        rt.alloc(),
        file.as_str(),
        names,
        ends,
        imprints,
        prints.as_slice(),
        found,
    ))?;
    let is_finding = match found {
        Match::Fit => false,
        Match::Differ(_, _) => true,
    };
    Ok(Said {
        text,
        is_finding,
        page: page_of(file, ends, imprints, prints.as_slice(), found),
    })
}
