//! A content with the record of what was done to it, from which every image since each moment is known.
ghost use Rattle.std.specs.Prelude.{◌≡◌, ◌+◌, ◌≤◌, ◌<◌, ◌^◌, [], ℕ, false, true, length, get_or, replicate, ◌||◌, vec_len, vec_capacity, ◌*◌, IfOk, Some};
ghost use Rattle.nv_model.specs.Bytes.{SameOutside, laid};
ghost use Rattle.nv_model.specs.Moments.{Elapses, Tears, Stays, Only, Unwritten, Writes, IsImage, RangeWritten};
ghost use Rattle.nv_model.specs.Plans.{torn, filled, last_filled};
ghost use Rattle.nv_model.specs.Replay.{replay, stood, at_first, fits_all, within};

use crate::lay::{lay, lay_run, mark_range};
use crate::step::Step;
use std::alloc::{AllocError, Global};

/// A content with the record of what was done to it.
#[derive(Drop)]
pub struct Medium {
    /// What a read gives.
    pub content: Vec<u8>,
    /// The content at first.
    pub start: Vec<u8>,
    /// The written bytes of the record's writes, one after the other.
    pub bytes: Vec<u8>,
    /// The record.
    pub steps: Vec<Step>,
    /// The places of writes that the record has no room for.
    pub marks: Vec<bool>,
    ghost small: { length content.items < 2 ^ 32 },
    ghost short: { length bytes.items < 2 ^ 32 },
    ghost size: { length start.items ≡ length content.items },
    ghost replayed: { (replay bytes.items steps.items (at_first start.items)).content ≡ content.items },
    ghost based: { (k : ℕ) → length (stood bytes.items steps.items start.items k).base ≡ length content.items },
    ghost image: { IsImage (replay bytes.items steps.items (at_first start.items)).base
        (replay bytes.items steps.items (at_first start.items)).written content.items },
    ghost marks_size: { length marks.items ≡ length content.items },
    ghost fits: { fits_all (length bytes.items) steps.items ≡ true },
}

impl Medium {
    ghost use Rattle.nv_model.specs.Media.{stand_of, written_of, times_of, KeepsRoom, StaysWritten};

    /// A content, with room in its record for so many calls, each of them torn, and so many written bytes.
    pub fn new(
        alloc: Global,
        content: Vec<u8>,
        calls: u32,
        bytes: u32,
    ) -> Result<Medium, AllocError>
        requires { length content.items < 2 ^ 32 }
        ensures content { IfOk result (λ medium. medium.content.items ≡ content.items) }
        ensures empty { IfOk result (λ medium. (medium.bytes.items ≡ []) × (medium.steps.items ≡ [])) }
        ensures steps { IfOk result (λ medium. 2 * calls ≤ vec_capacity medium.steps) }
        ensures bytes { IfOk result (λ medium. bytes ≤ vec_capacity medium.bytes) }
        ensures marks { IfOk result (λ medium. (i : ℕ) → get_or medium.marks.items i false ≡ false) }
    {
        let mut start = Vec::with_capacity(alloc, content.len())?;
        start.extend_from_slice(&content)?;
        let mut marks = Vec::new(alloc);
        marks.resize(content.len(), false)?;
        let bytes = Vec::with_capacity(alloc, bytes as usize)?;
        let steps = Vec::with_capacity(alloc, 2 * calls as usize)?;
        Ok(Medium {
            content,
            start,
            bytes,
            steps,
            marks,
        })
    }

    /// Writes bytes. The record has room for them.
    pub fn write(&mut self, at: u32, piece: &[u8])
        requires inside { at + length piece.now ≤ length self.old.content.items }
        requires calls { vec_len self.old.steps < vec_capacity self.old.steps }
        requires bytes { vec_len self.old.bytes + length piece.now ≤ vec_capacity self.old.bytes }
        requires short { vec_len self.old.bytes + length piece.now < 2 ^ 32 }
        requires marks { (i : ℕ) → get_or self.old.marks.items i false ≡ false }
        ensures content { self.new.content.items ≡ laid self.old.content.items at piece.now }
        ensures steps { vec_len self.new.steps ≡ vec_len self.old.steps + 1 }
        ensures bytes { vec_len self.new.bytes ≡ vec_len self.old.bytes + length piece.now }
        ensures base { (stand_of self.new).base ≡ (stand_of self.old).base }
        ensures places { Writes at (length piece.now) (written_of self.old) (written_of self.new) }
        ensures time { Elapses (times_of self.old) (times_of self.new) }
        ensures images { Tears at (length piece.now) (times_of self.old) (times_of self.new) }
        ensures stand { (stand_of self.new).written ≡ (λ i. (stand_of self.old).written i || within at (length piece.now) i) }
        ensures marks { self.new.marks.items ≡ self.old.marks.items }
        ensures stays_written { StaysWritten self.old self.new }
        ensures range { RangeWritten at (length piece.now) (stand_of self.new).written }
        ensures room { KeepsRoom self.old self.new }
    {
        let first = self.bytes.len() as u32;
        let _ = self.bytes.extend_from_slice(piece);
        let _ = self
            .steps
            .push(Step::Written(at, piece.len() as u32, first));
        lay(&mut self.content, at, piece);
    }

    /// Makes sure of the content: it is the only image.
    pub fn settle(&mut self)
        requires calls { vec_len self.old.steps < vec_capacity self.old.steps }
        requires marks { (i : ℕ) → get_or self.old.marks.items i false ≡ false }
        ensures content { self.new.content.items ≡ self.old.content.items }
        ensures base { (stand_of self.new).base ≡ self.old.content.items }
        ensures places { Unwritten (written_of self.new) }
        ensures time { Elapses (times_of self.old) (times_of self.new) }
        ensures images { Stays (times_of self.old) (times_of self.new) }
        ensures durable { Only (times_of self.new) self.old.content.items }
        ensures marks { self.new.marks.items ≡ self.old.marks.items }
        ensures steps { vec_len self.new.steps ≡ vec_len self.old.steps + 1 }
        ensures bytes { vec_len self.new.bytes ≡ vec_len self.old.bytes }
        ensures room { KeepsRoom self.old self.new }
    {
        let _ = self.steps.push(Step::Synced);
    }

    /// Fills a range with a byte. The range was written since the last sync, so no image is new.
    pub fn tear(&mut self, at: u32, count: u32, byte: u8)
        requires inside { at + count ≤ length self.old.content.items }
        requires calls { vec_len self.old.steps < vec_capacity self.old.steps }
        requires marks { (i : ℕ) → get_or self.old.marks.items i false ≡ false }
        requires written { RangeWritten at count (stand_of self.old).written }
        ensures content { self.new.content.items ≡ laid self.old.content.items at (replicate count byte) }
        ensures base { (stand_of self.new).base ≡ (stand_of self.old).base }
        ensures stand { (stand_of self.new).written ≡ (stand_of self.old).written }
        ensures time { Elapses (times_of self.old) (times_of self.new) }
        ensures images { Stays (times_of self.old) (times_of self.new) }
        ensures marks { self.new.marks.items ≡ self.old.marks.items }
        ensures steps { vec_len self.new.steps ≡ vec_len self.old.steps + 1 }
        ensures bytes { vec_len self.new.bytes ≡ vec_len self.old.bytes }
        ensures stays_written { StaysWritten self.old self.new }
        ensures long { length self.new.content.items ≡ length self.old.content.items }
        ensures room { KeepsRoom self.old self.new }
    {
        let _ = self.steps.push(Step::Torn(at, count, byte));
        lay_run(&mut self.content, at, count, byte);
    }

    /// Fills all but the first bytes of a range that was written with a byte.
    pub fn tear_behind(&mut self, at: u32, count: u32, keep: u32, byte: u8)
        requires inside { at + count ≤ length self.old.content.items }
        requires calls { vec_len self.old.steps < vec_capacity self.old.steps }
        requires marks { (i : ℕ) → get_or self.old.marks.items i false ≡ false }
        requires written { RangeWritten at count (stand_of self.old).written }
        ensures content { self.new.content.items ≡ filled self.old.content.items at count keep byte }
        ensures base { (stand_of self.new).base ≡ (stand_of self.old).base }
        ensures stand { (stand_of self.new).written ≡ (stand_of self.old).written }
        ensures time { Elapses (times_of self.old) (times_of self.new) }
        ensures images { Stays (times_of self.old) (times_of self.new) }
        ensures marks { self.new.marks.items ≡ self.old.marks.items }
        ensures steps { vec_len self.new.steps ≡ vec_len self.old.steps + 1 }
        ensures bytes { vec_len self.new.bytes ≡ vec_len self.old.bytes }
        ensures stays_written { StaysWritten self.old self.new }
        ensures long { length self.new.content.items ≡ length self.old.content.items }
        ensures room { KeepsRoom self.old self.new }
    {
        let kept = keep.min(count);
        self.tear(at + kept, count - kept, byte);
    }

    /// Fills all but the first bytes of the range that was written last, if there is one.
    pub fn tear_last(&mut self, last: Option<(u32, u32)>, keep: u32, byte: u8)
        requires inside { (r : ℕ × ℕ) → last ≡ Some r → r.0 + r.1 ≤ length self.old.content.items }
        requires calls { vec_len self.old.steps < vec_capacity self.old.steps }
        requires marks { (i : ℕ) → get_or self.old.marks.items i false ≡ false }
        requires written { (r : ℕ × ℕ) → last ≡ Some r → RangeWritten r.0 r.1 (stand_of self.old).written }
        ensures content { self.new.content.items ≡ last_filled last self.old.content.items keep byte }
        ensures base { (stand_of self.new).base ≡ (stand_of self.old).base }
        ensures stand { (stand_of self.new).written ≡ (stand_of self.old).written }
        ensures time { Elapses (times_of self.old) (times_of self.new) }
        ensures images { Stays (times_of self.old) (times_of self.new) }
        ensures marks { self.new.marks.items ≡ self.old.marks.items }
        ensures steps { vec_len self.new.steps ≤ vec_len self.old.steps + 1 }
        ensures bytes { vec_len self.new.bytes ≡ vec_len self.old.bytes }
        ensures stays_written { StaysWritten self.old self.new }
        ensures long { length self.new.content.items ≡ length self.old.content.items }
        ensures room { KeepsRoom self.old self.new }
    {
        match last {
            None => {}
            Some((at, count)) => self.tear_behind(at, count, keep, byte),
        }
    }

    /// Writes bytes and fills all but the first of them with a byte.
    pub fn write_torn(&mut self, at: u32, piece: &[u8], keep: u32, byte: u8)
        requires inside { at + length piece.now ≤ length self.old.content.items }
        requires calls { vec_len self.old.steps + 1 < vec_capacity self.old.steps }
        requires bytes { vec_len self.old.bytes + length piece.now ≤ vec_capacity self.old.bytes }
        requires short { vec_len self.old.bytes + length piece.now < 2 ^ 32 }
        requires marks { (i : ℕ) → get_or self.old.marks.items i false ≡ false }
        ensures content { self.new.content.items ≡ torn self.old.content.items at piece.now keep byte }
        ensures base { (stand_of self.new).base ≡ (stand_of self.old).base }
        ensures places { Writes at (length piece.now) (written_of self.old) (written_of self.new) }
        ensures time { Elapses (times_of self.old) (times_of self.new) }
        ensures images { Tears at (length piece.now) (times_of self.old) (times_of self.new) }
        ensures stand { (stand_of self.new).written ≡ (λ i. (stand_of self.old).written i || within at (length piece.now) i) }
        ensures marks { self.new.marks.items ≡ self.old.marks.items }
        ensures steps { vec_len self.new.steps ≡ vec_len self.old.steps + 2 }
        ensures bytes { vec_len self.new.bytes ≡ vec_len self.old.bytes + length piece.now }
        ensures stays_written { StaysWritten self.old self.new }
        ensures outside { SameOutside at (length piece.now) self.old.content.items self.new.content.items }
        ensures room { KeepsRoom self.old self.new }
    {
        self.write(at, piece);
        self.tear_behind(at, piece.len() as u32, keep, byte);
    }

    /// Marks the places of a write that the record has no room for.
    pub fn mark(&mut self, at: u32, count: u32)
        requires inside { at + count ≤ length self.old.content.items }
        ensures content { self.new.content.items ≡ self.old.content.items }
        ensures base { (stand_of self.new).base ≡ (stand_of self.old).base }
        ensures stand { (stand_of self.new).written ≡ (stand_of self.old).written }
        ensures places { Writes at count (written_of self.old) (written_of self.new) }
        ensures time { Elapses (times_of self.old) (times_of self.new) }
        ensures images { Tears at count (times_of self.old) (times_of self.new) }
        ensures steps { vec_len self.new.steps ≡ vec_len self.old.steps }
        ensures bytes { vec_len self.new.bytes ≡ vec_len self.old.bytes }
        ensures stays_written { StaysWritten self.old self.new }
        ensures room { KeepsRoom self.old self.new }
    {
        mark_range(&mut self.marks, at, count);
    }
}
