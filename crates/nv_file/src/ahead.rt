//! A part of a file that was read at once, to answer smaller reads.
ghost use Rattle.std.specs.Prelude.{◌≡◌, ◌≤◌, None, IfOk, true, false};

use std::alloc::{AllocError, Global};
use std::fs::File;
use std::os::unix::fs::FileExt;

/// The most bytes that are read at once.
const PIECE: u32 = 65_536;

/// How many bytes before the place that is asked for are read too: a whole cell of the widest table, since its payload may
/// lie before the last of its gates.
const BEHIND: u32 = 4_128;

/// A part of a file in memory, as it was read at once.
#[derive(Drop)]
pub struct Ahead {
    pub(crate) bytes: Vec<u8>,
    /// The place of the first of the bytes, and the place after the last; None if nothing was read.
    pub(crate) window: Option<(u32, u32)>,
    /// Whether anything is read ahead.
    reads: bool,
    /// Whether the last read asked the system.
    pub(crate) asked: bool,
}

/// Asks the system for a range of a file, and notes that.
fn ask(asked: &mut bool, file: &File, at: u32, buf: &mut [u8]) -> bool
    ensures { asked.new ≡ true }
{
    *asked = true;
    file.read_exact_at(buf, u64::from(at)).is_ok()
}

impl Ahead {
    ghost use Rattle.nv_file.specs.Aheads.{window_of, has_asked, Has};

    /// Takes the memory for reads of a file of so many bytes. AllocError is lack of memory.
    pub fn new(alloc: Global, size: u32) -> Result<Ahead, AllocError>
        ensures { IfOk result (λ ahead. window_of ahead ≡ None) }
    {
        Ok(Ahead {
            bytes: vec![in alloc; 0; size.min(PIECE) as usize]?,
            window: None,
            reads: false,
            asked: false,
        })
    }

    /// Forgets what was read, and reads nothing ahead.
    pub fn forget(&mut self)
        ensures { window_of self.new ≡ None }
    {
        self.window = None;
        self.reads = false;
    }

    /// Reads ahead from now on.
    pub fn begin(&mut self)
        ensures { window_of self.new ≡ window_of self.old }
    {
        self.reads = true;
    }

    /// Reads a range of a file from the system, and keeps nothing of it. Answers whether that went well.
    pub fn read(&mut self, file: &File, at: u32, buf: &mut [u8]) -> bool
        ensures asked { has_asked self.new ≡ true }
        ensures none { window_of self.new ≡ None }
    {
        self.window = None;
        ask(&mut self.asked, file, at, buf)
    }

    /// Reads the bytes about a place of a file of this size. False if that fails, or nothing is read ahead; nothing is kept then.
    pub fn fill(&mut self, file: &File, at: u32, size: u32) -> bool
        requires inside { at ≤ size }
        ensures asked { result ≡ true → has_asked self.new ≡ true }
        ensures failed { result ≡ false → window_of self.new ≡ None }
    {
        self.window = None;
        if !self.reads {
            return false;
        }
        let from = at.saturating_sub(BEHIND);
        let len = (size - from).min(PIECE);
        if self.bytes.len() < len as usize {
            return false;
        }
        let piece = &mut self.bytes[..len as usize];
        let went = ask(&mut self.asked, file, from, piece);
        if went {
            self.window = Some((from, from + len));
        }
        went
    }

    /// Copies the bytes from a place on, where they were read; otherwise nothing.
    pub fn copy(&self, at: u32, buf: &mut [u8]) -> bool
        ensures { Has self.now at buf.old buf.new result }
    {
        let Some((from, end)) = self.window else {
            return false;
        };
        if at < from || u64::from(end) < u64::from(at) + buf.len() as u64 {
            return false;
        }
        let first = (at - from) as usize;
        let behind = first + buf.len();
        if self.bytes.len() < behind {
            return false;
        }
        buf.copy_from_slice(&self.bytes[first..behind]);
        true
    }
}
