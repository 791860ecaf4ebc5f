//! Storage that cuts power after a stated number of calls.
ghost use Rattle.std.specs.Prelude.{◌≡◌, ◌+◌, ◌≤◌, ◌<◌, ◌^◌, ℕ, Option, Some, None, true, false};
ghost use Rattle.nv_model.specs.Meters.{fuse_after, burns};
ghost use Rattle.nv_model.specs.Moments.{RangeWritten};

use crate::nv::{Nv, NvFail};
use crate::tear::{tear_last, tear_write};

/// Storage that cuts power after a stated number of further calls of write and sync, and otherwise passes each call on.
#[derive(Drop)]
pub struct Fused<N: Nv> {
    nv: N,
    lost: bool,
    /// How many calls pass before an armed fuse burns.
    fuse: Option<u32>,
    /// What a tear keeps of its range, in bytes.
    keep: u32,
    /// What a tear fills the rest with.
    byte: u8,
    /// The place and length of the last write that succeeded since the last sync or restart that succeeded.
    last: Option<(u32, u32)>,
    ghost small: { N.size nv < 2 ^ 32 },
    ghost powered: { lost ≡ false → (N.meters nv).lost ≡ false },
    ghost unfused: { (N.meters nv).fuse ≡ None },
    ghost last_is: { (r : ℕ × ℕ) → N.tells → lost ≡ false → last ≡ Some r → RangeWritten r.0 r.1 (N.written nv) },
    ghost inside: { (r : ℕ × ℕ) → last ≡ Some r → r.0 + r.1 ≤ N.size nv },
}

/// Counts a call: whether it burns the fuse.
fn count_call(fuse: &mut Option<u32>) -> bool
    ensures burns { result ≡ burns fuse.old }
    ensures used { fuse.new ≡ fuse_after false fuse.old }
{
    match *fuse {
        None => false,
        Some(0) => {
            *fuse = None;
            true
        }
        Some(left) => {
            *fuse = Some(left - 1);
            false
        }
    }
}

impl<N: Nv> Nv for Fused<N> {
    ghost tells = { N.tells };

    ghost size = { λ s. N.size s.nv };

    ghost content = { λ s. N.content s.nv };

    ghost base = { λ s. N.base s.nv };

    ghost written = { λ s. N.written s.nv };

    ghost times = { λ s. N.times s.nv };

    ghost meters = { λ s. record { cuts = (N.meters s.nv).cuts; faults = (N.meters s.nv).faults; lost = s.lost; fuse = s.fuse } };

    ghost use Rattle.nv_model.specs.Fuses.{ReadIs, WriteIs, SyncIs, RestartIs};

    ghost read_is = { λ old new result. ReadIs old new result };

    ghost write_is = { λ old new at bytes result. WriteIs old new at bytes result };

    ghost sync_is = { λ old new result. SyncIs old new result };

    ghost restart_is = { λ old new result. RestartIs old new result };

    ghost content_is = { λ s. N.content_is s.nv };

    ghost image_is = { λ s. N.image_is s.nv };

    ghost image_all = { λ s c tells on. N.image_all s.nv c tells (s.powered on) };

    ghost sized = { λ s. N.sized s.nv };

    ghost nested = { λ s. N.nested s.nv };

    fn size(&self) -> u32 {
        self.nv.size()
    }

    fn read(&mut self, at: u32, buf: &mut [u8]) -> Result<(), NvFail> {
        if self.lost {
            return Err(NvFail::Power);
        }
        let result = self.nv.read(at, buf);
        if matches!(result, Err(NvFail::Power)) {
            self.lost = true;
        }
        result
    }

    fn write(&mut self, at: u32, bytes: &[u8]) -> Result<(), NvFail> {
        if self.lost {
            return Err(NvFail::Power);
        }
        if count_call(&mut self.fuse) {
            tear_write(&mut self.nv, at, bytes, self.keep, self.byte);
            self.lost = true;
            return Err(NvFail::Power);
        }
        let result = self.nv.write(at, bytes);
        match result {
            Ok(()) => self.last = Some((at, bytes.len() as u32)),
            Err(NvFail::Power) => self.lost = true,
            Err(NvFail::Fault) => {}
        }
        result
    }

    fn sync(&mut self) -> Result<(), NvFail> {
        if self.lost {
            return Err(NvFail::Power);
        }
        if count_call(&mut self.fuse) {
            tear_last(&mut self.nv, self.last, self.keep, self.byte);
            self.lost = true;
            return Err(NvFail::Power);
        }
        let result = self.nv.sync();
        match result {
            Ok(()) => self.last = None,
            Err(NvFail::Power) => self.lost = true,
            Err(NvFail::Fault) => {}
        }
        result
    }

    fn restart(&mut self) -> Result<(), NvFail> {
        let result = self.nv.restart();
        match result {
            Ok(()) => {
                self.lost = false;
                self.last = None;
            }
            Err(NvFail::Power) => self.lost = true,
            Err(NvFail::Fault) => {}
        }
        result
    }
}

impl<N: Nv> Fused<N> {
    ghost use Rattle.nv_model.specs.Fuses.{inside, state_of};

    /// Wraps a storage, with no fuse armed.
    pub fn new(nv: N) -> Fused<N>
        requires powered { (N.meters nv).lost ≡ false }
        requires unfused { (N.meters nv).fuse ≡ None }
        ensures inside { inside result ≡ nv }
        ensures unarmed { state_of result ≡ record { lost = false; fuse = None; keep = 0; byte = 0; last = None } }
    {
        // Its answer is what says that the number of bytes fits 32 bits.
        let _size = nv.size();
        Fused {
            nv,
            lost: false,
            fuse: None,
            keep: 0,
            byte: 0,
            last: None,
        }
    }

    /// The storage inside.
    pub fn into_inner(self) -> N
        ensures { result ≡ inside self }
    {
        let Fused {
            nv,
            lost: _,
            fuse: _,
            keep: _,
            byte: _,
            last: _,
        } = self;
        nv
    }

    /// Sets the fuse, in place of an earlier one: `calls` calls of write and sync pass, and the next one burns it. A
    /// burning call leaves the first `keep` bytes of its range and fills the rest with `byte`.
    pub fn arm(&mut self, calls: u32, keep: u32, byte: u8)
        ensures inside { inside self.new ≡ inside self.old }
        ensures armed { state_of self.new ≡ record (state_of self.old) { fuse = Some calls; keep = keep; byte = byte } }
    {
        self.fuse = Some(calls);
        self.keep = keep;
        self.byte = byte;
    }
}
