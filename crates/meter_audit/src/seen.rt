//! Marks that were read off real mail, a line each: which of them these runs debited, and what is said of the others.
ghost use Rattle.trace_bench.specs.Seeing.{IsReady, audit_of};

use crate::faults::{Fault, or_memory};
use crate::files::{open_file, unusable};
use crate::runs::{say, say_finding};
use audit_seen::{
    Counts, NoMark, Word, counts_text, missing_text, no_mark_text, read_mark, twice_text, word_of,
};
use audit_words::{Asked, shown_text};
use bench_base::numbers::DevNo;
use bench_base::stream::IoSource;
use indicium::read_indicium;
use line_runs::lines::{LineRead, read_line};
use std::fs::File;
use text_streams::ReadAhead;
use trace_bench::Auditor;
use trace_seen::Missing;

/// How much of the file is read at once, in bytes.
const AHEAD: usize = 65_536;

/// The lines of a file that is read ahead.
type Lines = ReadAhead<IoSource<File>>;

/// A file of marks that was read: its name as it is shown, and how many of its lines have each word.
#[derive(Drop)]
pub struct SeenFile {
    name: String,
    counts: Counts,
}

// The lines of the file, which is opened.
fn lines_of(rt: &HostRuntime, file: &str) -> Result<Lines, Fault> {
    let opened = open_file(rt, file)?;
    let Ok(ahead) = vec![in rt.alloc(); 0; AHEAD] else {
        return Err(Fault::Memory);
    };
    Ok(ReadAhead::new(IoSource::new(opened), ahead))
}

// Reads the rest of a line that is longer than the buffer. False if the file can't be read.
fn skip_rest(lines: &mut Lines, buf: &mut [u8; 600]) -> bool {
    for _ in 0..u64::MAX {
        match read_line(lines, buf) {
            LineRead::Long => {}
            LineRead::Line(_, _) | LineRead::End => return true,
            LineRead::Fault => return false,
        }
    }
    false
}

impl SeenFile {
    // Says what a line has that is no mark.
    fn tell_no_mark(
        &mut self,
        rt: &HostRuntime,
        asked: Asked,
        line: u64,
        why: NoMark,
    ) -> Result<(), Fault> {
        self.counts.add(Word::NoMark, 1);
        let text = or_memory(no_mark_text(rt.alloc(), self.name.as_str(), line, why))?;
        say_finding(rt, asked, text.as_str());
        Ok(())
    }

    // Says that the mark of a line is that of an earlier one.
    fn tell_twice(
        &mut self,
        rt: &HostRuntime,
        asked: Asked,
        line: u64,
        first: u64,
        mark: &[u8; 64],
    ) -> Result<(), Fault> {
        self.counts.add(Word::Twice, 1);
        let text = or_memory(twice_text(rt.alloc(), self.name.as_str(), line, first, mark))?;
        say_finding(rt, asked, text.as_str());
        Ok(())
    }

    // Takes a line: its mark is added to those that were seen, if it has one that no earlier line has.
    fn take(
        &mut self,
        rt: &HostRuntime,
        auditor: &mut Auditor,
        asked: Asked,
        number: u64,
        line: &[u8],
    ) -> Result<(), Fault>
        requires ready { IsReady (audit_of auditor.old) }
        ensures ready { IsReady (audit_of auditor.new) }
    {
        match &read_mark(line) {
            Err(why) => self.tell_no_mark(rt, asked, number, *why),
            Ok(mark) => match or_memory(auditor.see(mark, number))? {
                None => Ok(()),
                Some(first) => self.tell_twice(rt, asked, number, first, mark),
            },
        }
    }

    // Says the word on the mark of a line that was not debited.
    fn tell_missing(
        &mut self,
        rt: &HostRuntime,
        asked: Asked,
        missing: &Missing,
        is_made: bool,
    ) -> Result<(), Fault> {
        self.counts.add(word_of(false, is_made), 1);
        let name = self.name.as_str();
        let text = or_memory(missing_text(rt.alloc(), name, missing.line, is_made, &missing.mark))?;
        say_finding(rt, asked, text.as_str());
        Ok(())
    }
}

/// Reads the marks in this file; the auditor has seen each from then on. A line that is no mark, or has that of an earlier line, is reported as it
/// is read. One record is kept for the mark of each other line.
pub fn read_seen(
    rt: &HostRuntime,
    auditor: &mut Auditor,
    asked: Asked,
    file: &str,
) -> Result<SeenFile, Fault>
    requires ready { IsReady (audit_of auditor.old) }
    ensures ready { IsReady (audit_of auditor.new) }
{
    let mut lines = lines_of(rt, file)?;
    let mut seen = SeenFile {
        name: or_memory(shown_text(rt.alloc(), file))?,
        counts: Counts::new(),
    };
    let mut buf = [0; 600];
    for number in 1..u64::MAX {
        match read_line(&mut lines, &mut buf) {
            LineRead::Line(len, _) => {
                seen.take(rt, auditor, asked, number, &buf[..len as usize])?;
            }
            LineRead::Long if skip_rest(&mut lines, &mut buf) => {
                seen.tell_no_mark(rt, asked, number, NoMark::Long)?;
            }
            LineRead::Long | LineRead::Fault => return Err(unusable(rt, file)),
            LineRead::End => break,
        }
    }
    Ok(seen)
}

// Whether the device that a mark names was made.
fn is_made(auditor: &Auditor, mark: &[u8; 64]) -> bool
    requires ready { IsReady (audit_of auditor.now) }
{
    let Ok((mark, _)) = read_indicium(mark) else {
        return false;
    };
    match DevNo::new(mark.device) {
        Some(device) => auditor.is_made(device),
        None => false,
    }
}

/// Says the word on each mark that these runs did not debit, in the order of the lines, and how many lines of the file have each word: the exit status.
pub fn tell_seen(
    rt: &HostRuntime,
    auditor: &Auditor,
    asked: Asked,
    file: SeenFile,
) -> Result<u8, Fault>
    requires ready { IsReady (audit_of auditor.now) }
{
    let mut file = file;
    let marks = auditor.seen();
    let missing = or_memory(marks.missing(rt.alloc()))?;
    let debited = marks.len().saturating_sub(missing.len());
    file.counts.add(Word::Debited, debited as u64);
    for place in 0..missing.len() {
        let it = &missing[place];
        file.tell_missing(rt, asked, it, is_made(auditor, &it.mark))?;
    }
    let text = or_memory(counts_text(rt.alloc(), file.name.as_str(), &file.counts))?;
    if file.counts.has_others() {
        return Ok(say_finding(rt, asked, text.as_str()));
    }
    say(rt, asked, text.as_str())?;
    Ok(0)
}
