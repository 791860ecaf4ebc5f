//! Storage in memory, with a plan of calls that fail.
ghost use Rattle.std.specs.Prelude.{◌≡◌, ◌+◌, ◌*◌, ◌≤◌, ◌<◌, ◌^◌, ℕ, Option, Result, Some, None, false, true, length, get_or, vec_len, vec_capacity, IfOk};
ghost use Rattle.nv_model.specs.Moments.{RangeWritten, Only};
ghost use Rattle.nv_model.specs.Replay.{replay, at_first};

use crate::lay::take_from;
use crate::medium::Medium;
use crate::nv::{Nv, NvFail};
use crate::plan::{Failure, find};
use crate::tally::Tally;
use std::alloc::{AllocError, Global};

/// Storage in memory, with a plan of calls that fail and a record of its writes, syncs and restarts, which has room for a
/// fixed number of calls and written bytes. From the first call on that doesn't fit, the record is full for good, and each
/// write, sync and restart that begins with power answers Fault.
#[derive(Drop)]
pub struct MemNv {
    medium: Medium,
    plan: Vec<Failure>,
    /// The number of the next call of read, write or sync.
    number: u64,
    /// The calls that the record holds.
    used: u32,
    /// The room of the record, in calls and in written bytes.
    calls: u32,
    bytes: u32,
    full: bool,
    /// The place and length of the last write that succeeded since the last sync or restart that succeeded.
    last: Option<(u32, u32)>,
    tally: Tally,
    ghost steps: { vec_len medium.steps ≤ 2 * used },
    ghost within: { used ≤ calls },
    ghost room: { 2 * calls ≤ vec_capacity medium.steps },
    ghost room_bytes: { bytes ≤ vec_capacity medium.bytes },
    ghost small: { bytes < 2 ^ 32 },
    ghost marks: { full ≡ false → (i : ℕ) → get_or medium.marks.items i false ≡ false },
    ghost inside: { (r : ℕ × ℕ) → last ≡ Some r → r.0 + r.1 ≤ length medium.content.items },
    ghost last_is: { (r : ℕ × ℕ) → last ≡ Some r → RangeWritten r.0 r.1 (replay medium.bytes.items medium.steps.items (at_first medium.start.items)).written },
}

impl Nv for MemNv {
    ghost use Rattle.nv_model.specs.Media.{stand_of, written_of, times_of};
    ghost use Rattle.nv_model.specs.Memories.{memory_of, ReadIs, WriteIs, SyncIs, RestartIs};
    ghost use Rattle.nv_model.specs.Tallies.{meters_of};
    ghost use Rattle.nv_model.specs.Laws.{content_image, image_now, now_image, since_sized, since_nested};

    ghost tells = { Unit {0} };

    ghost size = { λ s. length s.medium.content.items };

    ghost content = { λ s. s.medium.content.items };

    ghost base = { λ s. (stand_of s.medium).base };

    ghost written = { λ s. written_of s.medium };

    ghost times = { λ s. times_of s.medium };

    ghost meters = { λ s. meters_of s.tally };

    ghost read_is = { λ old new result. ReadIs (memory_of old) (memory_of new) result };

    ghost write_is = { λ old new at bytes result. WriteIs (memory_of old) (memory_of new) at bytes result };

    ghost sync_is = { λ old new result. SyncIs (memory_of old) (memory_of new) result };

    ghost restart_is = { λ old new result. RestartIs (memory_of old) (memory_of new) result };

    ghost content_is = { λ s tells. content_image s.medium.bytes.items s.medium.steps.items s.medium.start.items
        s.medium.marks.items s.medium.content.items s.medium.image };

    ghost image_is = { λ s c tells now. image_now s.medium.bytes.items s.medium.steps.items s.medium.start.items s.medium.marks.items c now };

    ghost image_all = { λ s c tells on image. now_image s.medium.bytes.items s.medium.steps.items s.medium.start.items s.medium.marks.items c image };

    ghost sized = { λ s t c tells now. since_sized s.medium.bytes.items s.medium.steps.items s.medium.start.items
        (length s.medium.content.items) s.medium.marks.items t c s.medium.based now };

    ghost nested = { λ s tells. since_nested s.medium.bytes.items s.medium.steps.items s.medium.start.items s.medium.marks.items };

    fn size(&self) -> u32 {
        self.medium.content.len() as u32
    }

    fn read(&mut self, at: u32, buf: &mut [u8]) -> Result<(), NvFail> {
        let failure = find(&self.plan, self.number);
        self.number = self.number.saturating_add(1);
        if self.tally.lost {
            return Err(NvFail::Power);
        }
        match failure {
            None => {
                take_from(&self.medium.content, at, buf);
                Ok(())
            }
            Some(failure) => self.tally.fail(failure.kind),
        }
    }

    fn write(&mut self, at: u32, bytes: &[u8]) -> Result<(), NvFail> {
        let failure = find(&self.plan, self.number);
        self.number = self.number.saturating_add(1);
        if self.tally.lost {
            return Err(NvFail::Power);
        }
        let count = bytes.len() as u32;
        if !self.fits(count) {
            self.full = true;
            self.medium.mark(at, count);
            return self.tally.fail(NvFail::Fault);
        }
        self.used += 1;
        match failure {
            None => {
                self.medium.write(at, bytes);
                self.last = Some((at, count));
                Ok(())
            }
            Some(failure) => {
                self.medium
                    .write_torn(at, bytes, failure.keep, failure.byte);
                self.tally.fail(failure.kind)
            }
        }
    }

    fn sync(&mut self) -> Result<(), NvFail> {
        let failure = find(&self.plan, self.number);
        self.number = self.number.saturating_add(1);
        if self.tally.lost {
            return Err(NvFail::Power);
        }
        if !self.fits(0) {
            self.full = true;
            return self.tally.fail(NvFail::Fault);
        }
        self.used += 1;
        match failure {
            None => {
                self.medium.settle();
                self.last = None;
                Ok(())
            }
            Some(failure) => {
                self.medium.tear_last(self.last, failure.keep, failure.byte);
                self.tally.fail(failure.kind)
            }
        }
    }

    fn restart(&mut self) -> Result<(), NvFail> {
        if !self.fits(0) {
            self.full = true;
            return self.tally.fail(NvFail::Fault);
        }
        self.used += 1;
        self.medium.settle();
        self.last = None;
        self.tally.lost = false;
        Ok(())
    }
}

impl MemNv {
    ghost use Rattle.nv_model.specs.Memories.{memory_of, new_memory, fits};

    /// A storage with this content and plan, and a record that has room for so many calls and so many written bytes. The
    /// content has at most 4,294,967,295 bytes. All memory is taken here, and no later call takes any.
    pub fn new(
        alloc: Global,
        content: Vec<u8>,
        plan: Vec<Failure>,
        calls: u32,
        bytes: u32,
    ) -> Result<MemNv, AllocError>
        requires { length content.items < 2 ^ 32 }
        ensures starts { IfOk result (λ nv. memory_of nv ≡ new_memory content.items plan.items calls bytes) }
        ensures tells { ⟦<MemNv as Nv>⟧.tells }
        ensures only { IfOk result (λ nv. Only (⟦<MemNv as Nv>⟧.times nv) content.items) }
    {
        let medium = Medium::new(alloc, content, calls, bytes)?;
        Ok(MemNv {
            medium,
            plan,
            number: 0,
            used: 0,
            calls,
            bytes,
            full: false,
            last: None,
            tally: Tally {
                cuts: 0,
                faults: 0,
                lost: false,
            },
        })
    }

    /// Whether the record has room for a call of so many bytes.
    fn fits(&self, count: u32) -> bool
        ensures { result ≡ fits (memory_of self.now) count }
    {
        !self.full
            && (self.used < self.calls
                && self.medium.bytes.len() + count as usize <= self.bytes as usize)
    }
}
