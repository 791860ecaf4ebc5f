//! Streams of bytes that may fail, with a count of their faults.
ghost use Rattle.std.specs.Prelude.{◌≡◌, ℕ, List, Option};
ghost use Rattle.std.specs.Io.{ReadsAtMost, WritesAtMost};
ghost use Rattle.std.specs.Io.KnownBytes.{ReadConsumes, WriteAppends};
ghost use Rattle.bench_base.specs.Causes.{HasCause, HasWriteCause};

use std::io::{Read, Write};

/// A read failed.
#[derive(Clone, Copy, Debug, PartialEq, Eq)]
pub struct ReadFail;

/// A write failed.
#[derive(Clone, Copy, Debug, PartialEq, Eq)]
pub struct WriteFail;

/// Bytes that are read from the front on. The answer 0 to a buffer that isn't empty is the end.
pub trait Source {
    /// The bytes that are left, if the source exposes them.
    ghost left: { Self → Option (List ℕ) };

    /// The count of faults, which never falls.
    ghost faults: { Self → ℕ };

    fn read(&mut self, buf: &mut [u8]) -> Result<usize, ReadFail>
        ensures bound { ReadsAtMost result buf.new }
        ensures bytes { ReadConsumes (left self.old) (left self.new) result buf.new }
        ensures cause { HasCause (faults self.old) (faults self.new) result };
}

/// A taker of bytes. It may take a part of what it is given; that it takes none of some is a fault.
pub trait Sink {
    /// The bytes that were taken, if the sink exposes them.
    ghost taken: { Self → Option (List ℕ) };

    /// The count of faults, which never falls.
    ghost faults: { Self → ℕ };

    fn write(&mut self, bytes: &[u8]) -> Result<usize, WriteFail>
        ensures bound { WritesAtMost result bytes.now }
        ensures bytes { WriteAppends (taken self.old) (taken self.new) result bytes.now }
        ensures cause { HasWriteCause (faults self.old) (faults self.new) result bytes.now };
}

/// A source over a reader of std, with a count of its failures.
#[derive(Drop)]
pub struct IoSource<T: Read> {
    inner: T,
    faults: u64,
}

impl<T: Read> IoSource<T> {
    /// The source over a reader; no fault is counted yet.
    pub fn new(inner: T) -> Self
        ensures left { ⟦<IoSource<T> as Source>⟧.left result ≡ T.remaining inner }
        ensures faults { ⟦<IoSource<T> as Source>⟧.faults result ≡ 0 }
    {
        IoSource { inner, faults: 0 }
    }
}

impl<T: Read> Source for IoSource<T> {
    ghost left = { λ s. T.remaining s.inner };

    ghost faults = { λ s. s.faults };

    fn read(&mut self, buf: &mut [u8]) -> Result<usize, ReadFail> {
        match self.inner.read(buf) {
            Ok(count) => Ok(count),
            Err(_) => {
                self.faults = self.faults.saturating_add(1);
                Err(ReadFail)
            }
        }
    }
}

/// A sink over a writer of std, with a count of its failures.
#[derive(Drop)]
pub struct IoSink<T: Write> {
    inner: T,
    faults: u64,
}

impl<T: Write> IoSink<T> {
    /// The sink over a writer; no fault is counted yet.
    pub fn new(inner: T) -> Self
        ensures taken { ⟦<IoSink<T> as Sink>⟧.taken result ≡ T.contents inner }
        ensures faults { ⟦<IoSink<T> as Sink>⟧.faults result ≡ 0 }
    {
        IoSink { inner, faults: 0 }
    }
}

impl<T: Write> Sink for IoSink<T> {
    ghost taken = { λ s. T.contents s.inner };

    ghost faults = { λ s. s.faults };

    fn write(&mut self, bytes: &[u8]) -> Result<usize, WriteFail> {
        match self.inner.write(bytes) {
            Ok(count) => {
                if count == 0 && !bytes.is_empty() {
                    self.faults = self.faults.saturating_add(1);
                }
                Ok(count)
            }
            Err(_) => {
                self.faults = self.faults.saturating_add(1);
                Err(WriteFail)
            }
        }
    }
}
