//! A source and a sink over vectors, with lists of the calls that fail.
ghost use Rattle.std.specs.Prelude.{◌≡◌, ◌+◌, ◌-◌, ◌^◌, ◌≤◌, ◌↔◌, min, length, [], Contains, IsErr, IfOk, Some};
ghost use Rattle.std.specs.Io.{ReadsAtMost};
ghost use Rattle.std.specs.Io.KnownBytes.{ReadConsumes};
ghost use Rattle.bench_base.specs.Causes.{HasCause};

use crate::stream::{ReadFail, Sink, Source, WriteFail};
use std::marker::Model;

/// A source that gives its bytes in pieces. Reads are numbered from 0, and those with a listed number fail.
#[derive(Drop)]
pub struct MemSource {
    bytes: Vec<u8>,
    at: usize,
    piece: u32,
    fails: Vec<u64>,
    reads: u64,
    faults: u64,
}

impl Model for MemSource {
    ghost use Rattle.std.specs.Prelude.{◌≤◌, drop, vec_len};
    ghost use Rattle.bench_base.specs.Memory.{Supply};

    ghost Value = { Supply };

    ghost view = { λ s. record {
      left = drop s.at s.bytes.items;
      piece = s.piece;
      fails = s.fails.items;
      reads = s.reads;
      faults = s.faults;
    } };

    ghost invariant = { λ s. (s.at ≤ vec_len s.bytes) × (1 ≤ s.piece) };
}

impl MemSource {
    /// No read gives more than `piece` bytes.
    pub fn new(bytes: Vec<u8>, piece: u32, fails: Vec<u64>) -> Self
        requires { 1 ≤ piece }
        ensures { result ≡ record { left = bytes.items; piece = piece; fails = fails.items; reads = 0; faults = 0 } }
    {
        MemSource {
            bytes,
            at: 0,
            piece,
            fails,
            reads: 0,
            faults: 0,
        }
    }
}

impl Source for MemSource {
    ghost left = { λ s. Some s.left };

    ghost faults = { λ s. s.faults };

    fn read(&mut self, buf: &mut [u8]) -> Result<usize, ReadFail>
        ensures bound { ReadsAtMost result buf.new }
        ensures bytes { ReadConsumes (Some self.old.left) (Some self.new.left) result buf.new }
        ensures cause { HasCause self.old.faults self.new.faults result }
        ensures fails { IsErr result ↔ Contains self.old.fails self.old.reads }
        ensures exact { IfOk result (λ n. n ≡ min (min (length buf.old) self.old.piece) (length self.old.left)) }
        ensures count { self.new.reads ≡ min (self.old.reads + 1) (2 ^ 64 - 1) }
        ensures lists { (self.new.fails ≡ self.old.fails) × (self.new.piece ≡ self.old.piece) }
    {
        let number = self.reads;
        self.reads = self.reads.saturating_add(1);
        if self.fails.contains(&number) {
            self.faults = self.faults.saturating_add(1);
            return Err(ReadFail);
        }
        let count = buf
            .len()
            .min(self.piece as usize)
            .min(self.bytes.len() - self.at);
        buf[..count].copy_from_slice(&self.bytes.as_slice()[self.at..self.at + count]);
        self.at += count;
        Ok(count)
    }
}

/// A sink that lays what it takes over a buffer. Writes are numbered from 0: those in `fails` fail, those in `zeros` take nothing.
#[derive(Drop)]
pub struct MemSink {
    buffer: Vec<u8>,
    at: usize,
    fails: Vec<u64>,
    zeros: Vec<u64>,
    writes: u64,
    faults: u64,
}

impl Model for MemSink {
    ghost use Rattle.std.specs.Prelude.{◌≤◌, ◌-◌, take, vec_len};
    ghost use Rattle.bench_base.specs.Memory.{Shelf};

    ghost Value = { Shelf };

    ghost view = { λ s. record {
      taken = take s.at s.buffer.items;
      room = vec_len s.buffer - s.at;
      fails = s.fails.items;
      zeros = s.zeros.items;
      writes = s.writes;
      faults = s.faults;
    } };

    ghost invariant = { λ s. s.at ≤ vec_len s.buffer };
}

impl MemSink {
    /// The buffer is all the room that there is.
    pub fn new(buffer: Vec<u8>, fails: Vec<u64>, zeros: Vec<u64>) -> Self
        ensures { result ≡ record { taken = []; room = length buffer.items; fails = fails.items; zeros = zeros.items; writes = 0; faults = 0 } }
    {
        MemSink {
            buffer,
            at: 0,
            fails,
            zeros,
            writes: 0,
            faults: 0,
        }
    }

    /// The bytes that were taken so far.
    pub fn taken(&self) -> &[u8]
        ensures { result.now ≡ self.now.taken }
    {
        &self.buffer.as_slice()[..self.at]
    }
}

impl Sink for MemSink {
    ghost use Rattle.bench_base.specs.Memory.{LaysOnShelf};

    ghost taken = { λ s. Some s.taken };

    ghost faults = { λ s. s.faults };

    fn write(&mut self, bytes: &[u8]) -> Result<usize, WriteFail>
        ensures { LaysOnShelf self.old self.new bytes.now result }
    {
        let number = self.writes;
        self.writes = self.writes.saturating_add(1);
        let room = self.buffer.len() - self.at;
        if self.fails.contains(&number) {
            self.faults = self.faults.saturating_add(1);
            return Err(WriteFail);
        }
        if self.zeros.contains(&number) {
            self.faults = self.faults.saturating_add(1);
            return Ok(0);
        }
        if room == 0 && !bytes.is_empty() {
            self.faults = self.faults.saturating_add(1);
            return Err(WriteFail);
        }
        let count = bytes.len().min(room);
        self.buffer.as_mut_slice()[self.at..self.at + count].copy_from_slice(&bytes[..count]);
        self.at += count;
        Ok(count)
    }
}
