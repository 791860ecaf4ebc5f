//! Tears: what a cut of power leaves of a range, written through the storage itself.
ghost use Rattle.std.specs.Prelude.{◌≡◌, ◌+◌, ◌≤◌, ◌<◌, ◌^◌, ℕ, ◌⊎◌, length, replicate, Some, IsSome, true, false};
ghost use Rattle.nv_model.specs.Bytes.{laid};
ghost use Rattle.nv_model.specs.Meters.{Counts, Works, Failing};
ghost use Rattle.nv_model.specs.Plans.{torn, filled, last_filled};
ghost use Rattle.nv_model.specs.Moments.{Part, Stays, Elapses, RangeWritten, Only};

use crate::nv::Nv;

/// How many bytes are written at once.
const PIECE: u32 = 512;

/// Writes a byte over a short range, and answers whether the write succeeded.
fn write_run<N: Nv>(nv: &mut N, at: u32, count: u32, byte: u8) -> bool
    requires short { count ≤ PIECE }
    requires room { at + count ≤ N.size nv.old }
    requires works { Works (N.meters nv.old) }
    ensures done { result ≡ true → N.tells → N.content nv.new ≡ laid (N.content nv.old) at (replicate count byte) }
    ensures works { result ≡ true → Works (N.meters nv.new) }
    ensures failing { result ≡ false → Failing (N.meters nv.old) (N.meters nv.new) }
    ensures part { N.tells → Part at count (N.times nv.old) (N.times nv.new) }
    ensures counts { Counts (N.meters nv.old) (N.meters nv.new) }
    ensures size { N.size nv.new ≡ N.size nv.old }
{
    let piece = [byte; PIECE as usize];
    nv.write(at, &piece[..count as usize]).is_ok()
}

/// Fills a range with a byte, and stops where a write fails. Answers whether none did.
fn fill<N: Nv>(nv: &mut N, at: u32, count: u32, byte: u8) -> bool
    requires room { at + count ≤ N.size nv.old }
    requires fits { at + count < 2 ^ 32 }
    requires works { Works (N.meters nv.old) }
    ensures done { result ≡ true → N.tells → N.content nv.new ≡ laid (N.content nv.old) at (replicate count byte) }
    ensures works { result ≡ true → Works (N.meters nv.new) }
    ensures failing { result ≡ false → Failing (N.meters nv.old) (N.meters nv.new) }
    ensures part { N.tells → Part at count (N.times nv.old) (N.times nv.new) }
    ensures counts { Counts (N.meters nv.old) (N.meters nv.new) }
    ensures size { N.size nv.new ≡ N.size nv.old }
{
    let mut done = 0;
    while done < count {
        let len = (count - done).min(PIECE);
        if !write_run(nv, at + done, len, byte) {
            return false;
        }
        done += len;
    }
    true
}

/// Fills a range with a byte, and makes sure of it.
fn fill_and_sync<N: Nv>(nv: &mut N, at: u32, count: u32, byte: u8)
    requires room { at + count ≤ N.size nv.old }
    requires fits { at + count < 2 ^ 32 }
    requires works { Works (N.meters nv.old) }
    ensures exact { N.tells → (N.content nv.new ≡ laid (N.content nv.old) at (replicate count byte)) ⊎ Failing (N.meters nv.old) (N.meters nv.new) }
    ensures durable { N.tells → Only (N.times nv.new) (N.content nv.new) ⊎ Failing (N.meters nv.old) (N.meters nv.new) }
    ensures part { N.tells → Part at count (N.times nv.old) (N.times nv.new) }
    ensures counts { Counts (N.meters nv.old) (N.meters nv.new) }
    ensures size { N.size nv.new ≡ N.size nv.old }
{
    if fill(nv, at, count, byte) {
        let _ = nv.sync();
    }
}

/// Tears a write: its range holds the first `keep` bytes, and `byte` at all others.
pub fn tear_write<N: Nv>(nv: &mut N, at: u32, bytes: &[u8], keep: u32, byte: u8)
    requires room { at + length bytes.now ≤ N.size nv.old }
    requires fits { at + length bytes.now < 2 ^ 32 }
    requires works { Works (N.meters nv.old) }
    ensures exact { N.tells → (N.content nv.new ≡ torn (N.content nv.old) at bytes.now keep byte) ⊎ Failing (N.meters nv.old) (N.meters nv.new) }
    ensures durable { N.tells → Only (N.times nv.new) (N.content nv.new) ⊎ Failing (N.meters nv.old) (N.meters nv.new) }
    ensures part { N.tells → Part at (length bytes.now) (N.times nv.old) (N.times nv.new) }
    ensures counts { Counts (N.meters nv.old) (N.meters nv.new) }
    ensures size { N.size nv.new ≡ N.size nv.old }
{
    let count = bytes.len() as u32;
    let kept = keep.min(count);
    if nv.write(at, &bytes[..kept as usize]).is_ok() {
        fill_and_sync(nv, at + kept, count - kept, byte);
    }
}

/// Tears a range that was written: it keeps its first `keep` bytes.
pub fn tear_range<N: Nv>(nv: &mut N, at: u32, count: u32, keep: u32, byte: u8)
    requires room { at + count ≤ N.size nv.old }
    requires fits { at + count < 2 ^ 32 }
    requires works { Works (N.meters nv.old) }
    ensures exact { N.tells → (N.content nv.new ≡ filled (N.content nv.old) at count keep byte) ⊎ Failing (N.meters nv.old) (N.meters nv.new) }
    ensures durable { N.tells → Only (N.times nv.new) (N.content nv.new) ⊎ Failing (N.meters nv.old) (N.meters nv.new) }
    ensures part { N.tells → Part at count (N.times nv.old) (N.times nv.new) }
    ensures counts { Counts (N.meters nv.old) (N.meters nv.new) }
    ensures size { N.size nv.new ≡ N.size nv.old }
{
    let kept = keep.min(count);
    fill_and_sync(nv, at + kept, count - kept, byte);
}

/// Tears the range that was written last, if there is one: what it leaves is one of the images.
pub fn tear_last<N: Nv>(nv: &mut N, last: Option<(u32, u32)>, keep: u32, byte: u8)
    requires small { N.size nv.old < 2 ^ 32 }
    requires inside { (r : ℕ × ℕ) → last ≡ Some r → r.0 + r.1 ≤ N.size nv.old }
    requires works { Works (N.meters nv.old) }
    requires last_is { (r : ℕ × ℕ) → N.tells → last ≡ Some r → RangeWritten r.0 r.1 (N.written nv.old) }
    ensures exact { N.tells → (N.content nv.new ≡ last_filled last (N.content nv.old) keep byte) ⊎ Failing (N.meters nv.old) (N.meters nv.new) }
    ensures durable { N.tells → IsSome last → Only (N.times nv.new) (N.content nv.new) ⊎ Failing (N.meters nv.old) (N.meters nv.new) }
    ensures images { N.tells → Stays (N.times nv.old) (N.times nv.new) }
    ensures time { N.tells → Elapses (N.times nv.old) (N.times nv.new) }
    ensures counts { Counts (N.meters nv.old) (N.meters nv.new) }
    ensures size { N.size nv.new ≡ N.size nv.old }
{
    match last {
        None => {}
        Some((at, count)) => tear_range(nv, at, count, keep, byte),
    }
}
