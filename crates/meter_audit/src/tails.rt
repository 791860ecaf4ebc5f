//! Readers that keep what they gave last: the line of a finding is one of those that were judged, and no file is read again.
use bench_base::stream::{IoSource, Source};
use memchr::memrchr;
use std::alloc::{AllocError, Global};
use std::cell::RefCell;
use std::io::{self, BufReader, Read};
use text_streams::ReadAhead;

/// How much is read at once, in bytes.
const BLOCK: usize = 65_536;

/// How much of that is given at once, in bytes: the tail keeps a copy of it.
const AHEAD: usize = 2_048;

/// The most bytes that are taken of a line: its 600, and one more.
const LINE: usize = 601;

/// How many bytes are kept: what is given at once, a line before that, and one to move.
const KEPT: usize = AHEAD + 2 * LINE;

/// The bytes that a reader gave last.
#[derive(Drop)]
pub struct Tail {
    kept: Vec<u8>,
    len: usize,
    is_closed: bool,
}

/// A reader over another that keeps in a tail what it gives. Once that is closed it gives nothing more.
#[derive(Drop)]
pub struct Watched<'a, R: Read> {
    inner: R,
    tail: &'a RefCell<Tail>,
}

/// A reader that is read in blocks and watched, line by line.
pub type Lines<'a, R> = ReadAhead<IoSource<Watched<'a, BufReader<R>>>>;

// The bytes without the line end after them.
fn without_line_end(bytes: &[u8]) -> &[u8] {
    if !bytes.is_empty() && bytes[bytes.len() - 1] == b'\n' {
        &bytes[..bytes.len() - 1]
    } else {
        bytes
    }
}

// The last line of these, which may have its line end.
fn last_line_of(bytes: &[u8]) -> &[u8] {
    let line = without_line_end(bytes);
    match memrchr(b'\n', line) {
        Some(at) => &line[at + 1..],
        None => line,
    }
}

impl Tail {
    /// The tail of a reader that gave nothing. AllocError is lack of memory.
    pub fn new(alloc: Global) -> Result<Tail, AllocError> {
        let kept = vec![in alloc; 0; KEPT]?;
        Ok(Tail {
            kept,
            len: 0,
            is_closed: false,
        })
    }

    /// Whether the reader gave nothing.
    pub fn is_empty(&self) -> bool {
        self.len == 0
    }

    // Moves the last line to the prefix, if so many bytes find no room.
    fn make_room(&mut self, count: usize) {
        let len = self.len.min(self.kept.len());
        if count <= self.kept.len() - len {
            return;
        }
        let start = len.saturating_sub(LINE);
        let (prefix, back) = self.kept.as_mut_slice().split_at_mut(start);
        let moved = prefix.len().min(back.len()).min(LINE);
        prefix[..moved].copy_from_slice(&back[..moved]);
        self.len = moved;
    }

    // Keeps what the reader gave.
    fn keep(&mut self, bytes: &[u8]) {
        self.make_room(bytes.len());
        let start = self.len.min(self.kept.len());
        let room = &mut self.kept.as_mut_slice()[start..];
        let count = bytes.len().min(room.len());
        room[..count].copy_from_slice(&bytes[..count]);
        self.len = start + count;
    }

    // The line that was taken last, where so many bytes of what was given were not taken: at most its first 600 bytes.
    fn last_line(&self, untaken: usize) -> &[u8] {
        let given = self.kept.as_slice();
        let end = self.len.min(given.len()).saturating_sub(untaken);
        let line = last_line_of(&given[..end]);
        &line[..line.len().min(LINE - 1)]
    }
}

impl<'a, R: Read> Read for Watched<'a, R> {
    ghost remaining = { λ s. R.remaining s.inner };

    fn read(&mut self, buf: &mut [u8]) -> io::Result<usize> {
        let Ok(mut tail) = self.tail.try_borrow_mut() else {
            return Err(io::Error::from(io::ErrorKind::Other));
        };
        if tail.is_closed {
            return Err(io::Error::from(io::ErrorKind::Other));
        }
        let count = self.inner.read(buf)?;
        tail.keep(&buf[..count]);
        Ok(count)
    }
}

/// The lines of a reader, which keeps in the tail what it gives. AllocError is lack of memory.
pub fn lines_over<'a, R: Read + Drop>(
    alloc: Global,
    inner: R,
    tail: &'a RefCell<Tail>,
) -> Result<Lines<'a, R>, AllocError> {
    let Ok(inner) = BufReader::with_capacity(alloc, BLOCK, inner) else {
        return Err(AllocError);
    };
    let ahead = vec![in alloc; 0; AHEAD]?;
    Ok(ReadAhead::new(IoSource::new(Watched { inner, tail }), ahead))
}

// Closes the reader: how many bytes it gave that were not taken.
fn close<R: Read>(lines: &mut Lines<'_, R>, tail: &RefCell<Tail>) -> usize {
    if let Ok(mut tail) = tail.try_borrow_mut() {
        tail.is_closed = true;
    }
    let mut rest = [0; 4096];
    let mut untaken = 0usize;
    for _ in 0..KEPT {
        match lines.read(&mut rest) {
            Ok(0) | Err(_) => break,
            Ok(count) => untaken = untaken.saturating_add(count),
        }
    }
    untaken
}

/// Closes the reader, and gives the line of it that was taken last, of a longer one its first 600 bytes. AllocError is lack of memory.
pub fn last_taken<R: Read>(
    alloc: Global,
    lines: &mut Lines<'_, R>,
    tail: &RefCell<Tail>,
) -> Result<Vec<u8>, AllocError> {
    let untaken = close(lines, tail);
    match tail.try_borrow() {
        Ok(tail) => Vec::from_slice(alloc, tail.last_line(untaken)),
        Err(_) => Ok(Vec::new(alloc)),
    }
}
