//! What the bench did in a run with lines of its own, written as a run of events alone.
use bench_base::events::Event;
use line_extensions::Extension;
use script_text::Line;
use std::alloc::{AllocError, Global};
use text_streams::put_digits;

/// A line of a run's own that was answered.
#[derive(Drop)]
pub struct OwnAnswer {
    /// The line of the real script, counted from 1.
    pub number: u32,
    /// How many lines of the transcript's script come before the answer.
    pub place: usize,
    pub line: Vec<u8>,
    /// The last text of the answer, without its line end.
    pub text: Vec<u8>,
}

/// A script and a report of the events that an auditor took in a run: those of plain lines, and the steps of own lines, in the order in which they were
/// done. A line of its own without a step leaves nothing.
#[derive(Drop)]
pub struct Transcript {
    /// Whether it is written at all.
    pub is_kept: bool,
    /// Whether there was no memory for all of it.
    pub has_failed: bool,
    /// The line of the real script that is judged, and its number, counted from 1.
    pub line: Vec<u8>,
    pub number: u32,
    pub script: Vec<u8>,
    pub report: Vec<u8>,
    /// For each line of this script, the line of the real script that it was done for.
    pub lines: Vec<u32>,
    /// The lines of its own that were answered, in their order.
    pub own: Vec<OwnAnswer>,
}

// Adds a line.
fn add_line(bytes: &mut Vec<u8>, line: &[u8]) -> Result<(), AllocError> {
    bytes.extend_from_slice(line)?;
    bytes.push(b'\n')?;
    Ok(())
}

// Adds the line of a scan of bytes.
fn add_scan(script: &mut Vec<u8>, scan: u32, bytes: &[u8]) -> Result<(), AllocError> {
    let mut front = Line::new();
    front.put(b"scan");
    front.number(scan);
    front.put(b" hex ");
    script.extend_from_slice(front.as_slice())?;
    let mut digits = [0; 512];
    let len = bytes.len().min(256);
    let text = &mut digits[..2 * len];
    put_digits(&bytes[..len], text);
    add_line(script, text)
}

// Adds the line of the message of a job.
fn add_send(script: &mut Vec<u8>, job: u32) -> Result<(), AllocError> {
    let mut line = Line::new();
    line.put(b"send");
    line.number(job);
    add_line(script, line.as_slice())
}

// Adds the line of a balance. Extensions ask for no other event but the scan of bytes and the message of a job.
fn add_balance(script: &mut Vec<u8>, event: &Event) -> Result<(), AllocError> {
    let Event::Balance(customer) = event else {
        return Err(AllocError);
    };
    let mut line = Line::new();
    line.put(b"balance");
    line.number(customer.get());
    add_line(script, line.as_slice())
}

// Adds the line of a step that is no message of a job.
fn add_asked(script: &mut Vec<u8>, event: &Event) -> Result<(), AllocError> {
    let Event::ScanHex { scan, bytes } = event else {
        return add_balance(script, event);
    };
    add_scan(script, *scan, bytes.as_slice())
}

// Adds the line of a step that an extension asked for.
fn add_event(script: &mut Vec<u8>, event: &Event) -> Result<(), AllocError> {
    let Event::Send(job) = event else {
        return add_asked(script, event);
    };
    add_send(script, *job)
}

impl Transcript {
    /// Of no event yet. It stays empty unless it is to be kept.
    pub fn new(alloc: Global, is_kept: bool) -> Transcript {
        Transcript {
            is_kept,
            has_failed: false,
            line: Vec::new(alloc),
            number: 0,
            script: Vec::new(alloc),
            report: Vec::new(alloc),
            lines: Vec::new(alloc),
            own: Vec::new(alloc),
        }
    }

    // Begins this line of the real script, of this number.
    pub(crate) fn begin(&mut self, number: u32, line: &[u8]) {
        self.number = number;
        if self.is_kept {
            self.line.clear();
            let written = self.line.extend_from_slice(line);
            self.keep(written);
        }
    }

    // Keeps that a part of it was written, or that there was no memory.
    fn keep(&mut self, written: Result<(), AllocError>) {
        if written.is_err() {
            self.has_failed = true;
        }
    }

    // Writes the line of an event.
    fn write_event(&mut self, line: &[u8]) -> Result<(), AllocError> {
        add_line(&mut self.script, line)?;
        self.lines.push(self.number)?;
        Ok(())
    }

    // Writes the line of a step, and that of its reply.
    fn write_step(&mut self, event: &Event, reply: &[u8]) -> Result<(), AllocError> {
        add_event(&mut self.script, event)?;
        self.lines.push(self.number)?;
        add_line(&mut self.report, reply)
    }

    // Writes the line of a step, and a prefix of that of its reply.
    fn write_begun(&mut self, event: &Event, prefix: &[u8]) -> Result<(), AllocError> {
        add_event(&mut self.script, event)?;
        self.lines.push(self.number)?;
        self.report.extend_from_slice(prefix)
    }

    // Writes a line of the script that is an event.
    pub(crate) fn event(&mut self, line: &[u8]) {
        if self.is_kept {
            let written = self.write_event(line);
            self.keep(written);
        }
    }

    // Writes the line of its reply.
    pub(crate) fn reply(&mut self, line: &[u8]) {
        if self.is_kept {
            let written = add_line(&mut self.report, line);
            self.keep(written);
        }
    }

    // Writes what the report has of a reply that it ends in.
    pub(crate) fn break_off(&mut self, prefix: &[u8]) {
        if self.is_kept {
            let written = self.report.extend_from_slice(prefix);
            self.keep(written);
        }
    }

    // Writes a step of an own line, with what the report that ends in its reply has of it.
    pub(crate) fn step_begun(&mut self, event: &Event, prefix: &[u8]) {
        if self.is_kept {
            let written = self.write_begun(event, prefix);
            self.keep(written);
        }
    }

    // Writes a step of an own line, with its reply.
    pub(crate) fn step(&mut self, event: &Event, reply: &Line) {
        if self.is_kept {
            let written = self.write_step(event, reply.as_slice());
            self.keep(written);
        }
    }

    // Writes what the extension answers the line.
    fn write_answer<D: Extension>(&mut self, alloc: Global, desk: &D) -> Result<(), AllocError> {
        let count = desk.count();
        if count == 0 {
            return Ok(());
        }
        let mut last = Line::new();
        desk.put(count - 1, &mut last);
        let mut text = Vec::new(alloc);
        text.extend_from_slice(last.as_slice())?;
        let line = self.line.clone()?;
        self.own.push(OwnAnswer {
            number: self.number,
            place: self.lines.len(),
            line,
            text,
        })?;
        Ok(())
    }

    // Writes what the extension answers the line, which is one of its own.
    pub(crate) fn answered<D: Extension>(&mut self, alloc: Global, desk: &D) {
        if self.is_kept {
            let written = self.write_answer(alloc, desk);
            self.keep(written);
        }
    }
}
