//! Marks out of bytes, and whether a mark is genuine.
ghost use Rattle.std.specs.Prelude.{◌≡◌, ◌≢◌, ◌≤◌, ◌↔◌, ℕ, List, length, slice_index, IfOk, IsErrOf, IsTrue, Ok};
ghost use Rattle.bench_base.specs.declared.refusals.MarkFault.TheVariants.{Length, Version, Algorithm};
ghost use Rattle.bench_base.specs.Rules.{IsVersion};
ghost use Rattle.indicium.specs.Marks.{mark_at, read_mark, IsSpelled, ReadsAs};
ghost use Rattle.indicium.specs.declared.Mark.{Mark as TheMark};

use crate::Mark;
use bench_base::fields::{i32_at, u16_at, u32_at, u40_at};
use bench_base::numbers::is_known_version;
use bench_base::refusals::MarkFault;
use bench_base::words::Key;
use hmac_core::ReadyKey;

/// The bytes of an indicium.
const LENGTH: usize = 64;

/// The mark that the bytes spell and the code after it, which is not checked. The first fault is answered:
///
/// 1. `Length` if there are not 64 bytes.
/// 2. `Version` if byte 0 is neither 1 nor 2.
/// 3. `Algorithm` if byte 1 is not 1.
pub fn read_indicium(bytes: &[u8]) -> Result<(Mark, [u8; 32]), MarkFault>
    ensures exact { result ≡ read_mark bytes.now }
    ensures found { IfOk result (λ (mark, code). ReadsAs bytes.now mark code) }
    ensures long { IfOk result (λ _. length bytes.now ≡ 64) }
    ensures only { (mark : TheMark) (code : List ℕ) → ReadsAs bytes.now mark code → result ≡ Ok (mark, code) }
    ensures length { IsErrOf result (Length (length bytes.now)) ↔ (length bytes.now ≢ 64) }
    ensures version { IsErrOf result (Version (slice_index bytes.now 0))
        ↔ ((length bytes.now ≡ 64) × (slice_index bytes.now 0 ≢ 1) × (slice_index bytes.now 0 ≢ 2)) }
    ensures algorithm { IsErrOf result (Algorithm (slice_index bytes.now 1))
        ↔ ((length bytes.now ≡ 64) × IsVersion (slice_index bytes.now 0) × (slice_index bytes.now 1 ≢ 1)) }
{
    fields_and_code(bytes)
}

#[tactic(auto, unfolding(crate::specs::Marks::read_mark))]
fn fields_and_code(bytes: &[u8]) -> Result<(Mark, [u8; 32]), MarkFault>
    ensures exact { result ≡ read_mark bytes.now }
{
    if bytes.len() != LENGTH {
        return Err(MarkFault::Length(bytes.len()));
    }
    if !is_known_version(bytes[0]) {
        return Err(MarkFault::Version(bytes[0]));
    }
    if bytes[1] != 1 {
        return Err(MarkFault::Algorithm(bytes[1]));
    }
    let mut code = [0; 32];
    code.copy_from_slice(&bytes[32..]);
    let mark = mark_of(bytes);
    Ok((mark, code))
}

// The fields of a mark, which come first in its bytes.
fn mark_of(bytes: &[u8]) -> Mark
    requires long { 32 ≤ length bytes.now }
    requires version { IsVersion (slice_index bytes.now 0) }
    ensures { result ≡ mark_at bytes.now }
{
    if bytes[0] == 1 {
        first_mark(bytes)
    } else {
        second_mark(bytes)
    }
}

// The fields in version 1.
#[tactic(auto, unfolding(crate::specs::Marks::mark_at, bench_base::specs::Table::number))]
fn first_mark(bytes: &[u8]) -> Mark
    requires long { 32 ≤ length bytes.now }
    requires version { slice_index bytes.now 0 ≡ 1 }
    ensures { result ≡ mark_at bytes.now }
{
    Mark {
        version: bytes[0],
        device: u32_at(bytes, 2),
        piece: u32_at(bytes, 6),
        postage: u32_at(bytes, 10),
        ascending: u64::from(u32_at(bytes, 14)),
        descending: u64::from(u32_at(bytes, 18)),
        day: i32_at(bytes, 22),
        origin: u32_at(bytes, 26),
        class: u16_at(bytes, 30),
    }
}

// The fields in version 2.
#[tactic(auto, unfolding(crate::specs::Marks::mark_at, bench_base::specs::Table::number))]
fn second_mark(bytes: &[u8]) -> Mark
    requires long { 32 ≤ length bytes.now }
    requires version { slice_index bytes.now 0 ≡ 2 }
    ensures { result ≡ mark_at bytes.now }
{
    Mark {
        version: bytes[0],
        device: u32::from(u16_at(bytes, 2)),
        piece: u32_at(bytes, 4),
        postage: u32_at(bytes, 8),
        ascending: u40_at(bytes, 12),
        descending: u40_at(bytes, 17),
        day: i32_at(bytes, 22),
        origin: u32_at(bytes, 26),
        class: u16_at(bytes, 30),
    }
}

/// Whether the bytes are a mark's spelling under the key: they read as a mark, and their code is right.
pub fn verify_mark(bytes: &[u8], key: &Key) -> bool
    ensures { IsTrue result ↔ IsSpelled bytes.now key.now }
{
    verify_mark_by(bytes, &ReadyKey::new(key))
}

/// As `verify_mark`, under a key that was made ready.
pub fn verify_mark_by(bytes: &[u8], key: &ReadyKey) -> bool
    ensures { IsTrue result ↔ IsSpelled bytes.now key.now }
{
    match read_indicium(bytes) {
        Ok(_) => key.matches(&bytes[..32], &bytes[32..]),
        Err(_) => false,
    }
}
