//! A script beside its report, line by line. Empty lines and comments have no answer.

use memchr::memchr;

/// The most lines of a script that are looked at.
pub const LINES: u32 = 1_000_000;

/// A line of a script and its answer, which is empty if there is none.
#[derive(Clone, Copy)]
pub struct Line<'a> {
    pub number: u32,
    pub script: &'a [u8],
    pub answer: &'a [u8],
}

/// What is left of a script and its report after some lines.
#[derive(Clone, Copy)]
pub struct Left<'a> {
    script: &'a [u8],
    report: &'a [u8],
    number: u32,
    is_over: bool,
}

// The first line, and what is after it; None if no line end is left.
fn split_line(bytes: &[u8]) -> Option<(&[u8], &[u8])> {
    match memchr(b'\n', bytes) {
        Some(at) if at < bytes.len() => Some((&bytes[..at], &bytes[at + 1..])),
        _ => None,
    }
}

// The first line, which may be the last one, and what is after it.
fn first_line(bytes: &[u8]) -> (&[u8], &[u8]) {
    match split_line(bytes) {
        Some(split) => split,
        None => (bytes, &[]),
    }
}

/// Both from their first line on.
pub fn whole<'a>(script: &'a [u8], report: &'a [u8]) -> Left<'a> {
    Left {
        script,
        report,
        number: 0,
        is_over: false,
    }
}

impl<'a> Left<'a> {
    /// Whether nothing is left.
    pub fn is_over(&self) -> bool {
        self.is_over || self.script.is_empty()
    }

    // The answer to the next line, what is left of the report, and whether it was whole.
    fn answer(&self) -> (&'a [u8], &'a [u8], bool) {
        match split_line(self.report) {
            Some((answer, report)) => (answer, report, true),
            None => (self.report, &[], false),
        }
    }

    /// The next line, if it has an answer, and what is left after it.
    pub fn turn(&self) -> (Option<Line<'a>>, Left<'a>) {
        let (script, rest) = first_line(self.script);
        let number = self.number.saturating_add(1);
        if script.is_empty() || script[0] == b'#' {
            let left = Left {
                script: rest,
                number,
                ..*self
            };
            return (None, left);
        }
        let (answer, report, is_whole) = self.answer();
        let line = Line {
            number,
            script,
            answer,
        };
        let left = Left {
            script: rest,
            report,
            number,
            is_over: !is_whole || script == b"end".as_slice(),
        };
        (Some(line), left)
    }
}

/// The line of this number.
pub fn line_of<'a>(script: &'a [u8], report: &'a [u8], number: u32) -> Option<Line<'a>> {
    let mut left = whole(script, report);
    for _ in 0..LINES {
        if left.is_over() {
            return None;
        }
        let (line, next) = left.turn();
        left = next;
        if let Some(line) = line {
            if line.number == number {
                return Some(line);
            }
        }
    }
    None
}
