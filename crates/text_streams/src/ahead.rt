//! A source that reads ahead of another, so that a read of one byte is a look into a buffer.
ghost use Rattle.std.specs.Prelude.{◌≡◌, ◌≢◌, ◌-◌, ◌≤◌, ◌<◌, min, length, take, drop, get_or, vec_len, [], false, All, IfOk, OnOk, OnErr};
ghost use Rattle.std.specs.Io.KnownBytes.{prepend_known, Consumes, Keeps, IsAtEnd};
ghost use Rattle.bench_base.specs.Causes.{HasCause};
ghost use Rattle.text_streams.specs.Pieces.{GivesPiece, with_end};

use bench_base::stream::{ReadFail, Source};
use memchr::memchr;

/// A source that takes from another as much as its buffer holds, and gives that in pieces of any size. What was read ahead is
/// taken from the other source, and still left here.
#[derive(Drop)]
pub struct ReadAhead<S: Source> {
    inner: S,
    buffer: Vec<u8>,
    at: usize,
    end: usize,
    ghost room: { 0 < vec_len buffer },
    ghost ahead: { at ≤ end },
    ghost inside: { end ≤ vec_len buffer },
}

/// What was given up to a byte of some value.
#[derive(Clone, Copy)]
pub struct Piece {
    /// How many bytes.
    pub len: usize,
    /// Whether that byte was reached, and taken after them.
    pub is_ended: bool,
}

/// A source that gives bytes up to a byte of some value at once.
pub trait BufSource: Source {
    ghost use Rattle.std.specs.Prelude.{[], IfOk, OnErr};
    ghost use Rattle.std.specs.Io.KnownBytes.{Consumes};
    ghost use Rattle.bench_base.specs.Causes.{HasCause};
    ghost use Rattle.text_streams.specs.Pieces.{GivesPiece};

    /// Gives bytes up to the first of this value, as many of them as are ready and there is room for. If that byte is
    /// reached, it is taken after them, and not given. It may give fewer bytes than there are before that byte. The
    /// source has ended if nothing is given and that byte is not reached, although there is room.
    fn read_until(&mut self, value: u8, buf: &mut [u8]) -> Result<Piece, ReadFail>
        ensures gives { IfOk result (λ piece. GivesPiece value (Self.left self.old) (Self.left self.new) piece buf.old buf.new) }
        ensures fails { OnErr result (Consumes (Self.left self.old) (Self.left self.new) []) }
        ensures cause { HasCause (Self.faults self.old) (Self.faults self.new) result };
}

// How many bytes are before the first of this value; all of them, if no byte has this value.
fn count_before(bytes: &[u8], value: u8) -> usize
    ensures inside { result ≤ length bytes.now }
    ensures before { All (λ b. b ≢ value) (take result bytes.now) }
    ensures found { result < length bytes.now → get_or bytes.now result 0 ≡ value }
{
    match memchr(value, bytes) {
        Some(at) => at,
        None => bytes.len(),
    }
}

// Copies as much of the prefix as there is room for. One byte is moved without a call.
fn copy_prefix(prefix: &[u8], buf: &mut [u8]) -> usize
    ensures count { result ≡ min (length prefix.now) (length buf.old) }
    ensures copied { take result buf.new ≡ take result prefix.now }
    ensures long { length buf.new ≡ length buf.old }
{
    let count = prefix.len().min(buf.len());
    if count == 1 {
        buf[0] = prefix[0];
    } else {
        buf[..count].copy_from_slice(&prefix[..count]);
    }
    count
}

impl<S: Source> ReadAhead<S> {
    /// Reads ahead over a source, with a buffer that isn't empty. Nothing is read yet.
    pub fn new(inner: S, buffer: Vec<u8>) -> Self
        requires room { 0 < vec_len buffer }
        ensures left { ⟦<ReadAhead<S> as Source>⟧.left result ≡ S.left inner }
        ensures faults { ⟦<ReadAhead<S> as Source>⟧.faults result ≡ S.faults inner }
    {
        ReadAhead {
            inner,
            buffer,
            at: 0,
            end: 0,
        }
    }

    // Reads ahead if nothing is left of what was read. If nothing is there afterwards, the source has ended.
    fn refill(&mut self) -> Result<(), ReadFail>
        ensures keeps { Keeps (⟦<ReadAhead<S> as Source>⟧.left self.old) (⟦<ReadAhead<S> as Source>⟧.left self.new) }
        ensures ended { OnOk result (self.new.at ≡ self.new.end → IsAtEnd (S.left self.new.inner)) }
        ensures cause { HasCause (S.faults self.old.inner) (S.faults self.new.inner) result }
    {
        if self.at < self.end {
            return Ok(());
        }
        self.at = 0;
        self.end = 0;
        self.end = self.inner.read(self.buffer.as_mut_slice())?;
        Ok(())
    }

    // What was read ahead.
    fn ahead(&self) -> &[u8]
        ensures { result.now ≡ take (self.now.end - self.now.at) (drop self.now.at self.now.buffer.items) }
    {
        &self.buffer.as_slice()[self.at..self.end]
    }

    // Takes so many bytes of what was read ahead.
    fn pass(&mut self, count: usize)
        requires inside { count ≤ self.old.end - self.old.at }
        ensures taken { Consumes (⟦<ReadAhead<S> as Source>⟧.left self.old) (⟦<ReadAhead<S> as Source>⟧.left self.new)
            (take count (take (self.old.end - self.old.at) (drop self.old.at self.old.buffer.items))) }
        ensures rest { take (self.new.end - self.new.at) (drop self.new.at self.new.buffer.items)
            ≡ drop count (take (self.old.end - self.old.at) (drop self.old.at self.old.buffer.items)) }
        ensures inner { self.new.inner ≡ self.old.inner }
    {
        self.at = self.at + count;
    }

    // Takes the next byte, where it was read ahead and has this value; whether it did.
    fn pass_one(&mut self, value: u8) -> bool
        ensures taken { Consumes (⟦<ReadAhead<S> as Source>⟧.left self.old) (⟦<ReadAhead<S> as Source>⟧.left self.new) (with_end value result) }
        ensures rests { result ≡ false → (self.new ≡ self.old) × (0 < self.old.end - self.old.at
            → get_or (take (self.old.end - self.old.at) (drop self.old.at self.old.buffer.items)) 0 0 ≢ value) }
        ensures inner { self.new.inner ≡ self.old.inner }
    {
        let ahead = self.ahead();
        if ahead.is_empty() || ahead[0] != value {
            return false;
        }
        self.pass(1);
        true
    }
}

impl<S: Source> Source for ReadAhead<S> {
    ghost left = { λ s. prepend_known (take (s.end - s.at) (drop s.at s.buffer.items)) (S.left s.inner) };

    ghost faults = { λ s. S.faults s.inner };

    fn read(&mut self, buf: &mut [u8]) -> Result<usize, ReadFail> {
        self.refill()?;
        let count = copy_prefix(&self.buffer.as_slice()[self.at..self.end], buf);
        self.at += count;
        Ok(count)
    }
}

impl<S: Source> BufSource for ReadAhead<S> {
    fn read_until(&mut self, value: u8, buf: &mut [u8]) -> Result<Piece, ReadFail> {
        self.refill()?;
        let ahead = self.ahead();
        let prefix = &ahead[..ahead.len().min(buf.len())];
        let len = count_before(prefix, value);
        buf[..len].copy_from_slice(&prefix[..len]);
        self.pass(len);
        let is_ended = self.pass_one(value);
        Ok(Piece { len, is_ended })
    }
}
