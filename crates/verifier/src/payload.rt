//! The verifier's rows as the 2,056 bytes that are kept in storage.
ghost use Rattle.std.specs.Prelude.{◌≡◌, ℕ, ◌<◌, ◌↔◌, List, MatchOption, MatchBool, IsTrue, length, get_or, set, replicate};
ghost use Rattle.std.specs.Option.{option_copied};
ghost use Rattle.verifier.specs.Rows.{TrustRow, BlockRow};
ghost use Rattle.verifier.specs.Payload.{RowReadsAs, block_bytes, scans_of, scans_before, key_of, word_at};
ghost use Rattle.verifier.specs.Seen.{scan_shown};

use bench_base::fields::{put_u32, u32_at};
use bench_base::numbers::DevNo;
use bench_base::sizes::{BLOCK_BYTES, BLOCK_PIECES, LAST_BLOCK};
use bench_base::words::Key;

fn is_zero(bytes: &[u8]) -> bool
    ensures { IsTrue result ↔ (replicate (length bytes.now) 0 ≡ bytes.now) }
{
    bytes.iter().all(|byte| *byte == 0)
}

/// The spelling of the key of a trusted device.
pub fn trust_payload(device: DevNo, key: &Key) -> [u8; BLOCK_BYTES]
    ensures { RowReadsAs (TrustRow device key.now) result }
{
    let mut bytes = no_payload();
    put_u32(&mut bytes, 0, device.get());
    bytes[4..36].copy_from_slice(key);
    bytes
}

/// The key in the payload of a trusted device.
pub fn key_in(payload: &[u8; BLOCK_BYTES]) -> Key
    ensures { result ≡ key_of payload.now }
{
    let mut key = [0; 32];
    key.copy_from_slice(&payload[4..36]);
    key
}

/// Whether the payload reads as the key of this device.
pub fn read_trust(device: DevNo, payload: &[u8; BLOCK_BYTES]) -> bool
    ensures { MatchBool result (RowReadsAs (TrustRow device (key_of payload.now)) payload.now)
        ((key : List ℕ) → RowReadsAs (TrustRow device key) payload.now → ⊥) }
{
    u32_at(payload, 0) == device.get() && is_zero(&payload[36..])
}

/// Device and number of the block that the payload reads as; None if and only if it reads as none.
pub fn read_block(payload: &[u8; BLOCK_BYTES]) -> Option<(u32, u32)>
    ensures { MatchOption result ((d b : ℕ) (scans : List ℕ) → RowReadsAs (BlockRow d b scans) payload.now → ⊥)
        (λ x. RowReadsAs (BlockRow x.0 x.1 (scans_of payload.now)) payload.now) }
{
    let device = u32_at(payload, 0);
    let number = u32_at(payload, 4);
    if number > LAST_BLOCK || is_zero(&payload[8..]) {
        return None;
    }
    Some((device, number))
}

/// Device and number in the payload of a block.
#[tactic(auto, unfolding(crate::specs::Payload::word_at, bench_base::specs::Table::number))]
pub fn block_in(payload: &[u8; BLOCK_BYTES]) -> (u32, u32)
    ensures device { result.0 ≡ word_at 0 payload.now }
    ensures number { result.1 ≡ word_at 1 payload.now }
{
    (u32_at(payload, 0), u32_at(payload, 4))
}

/// The scan under which the piece at this place of a block was accepted.
pub fn scan_in(payload: &[u8; BLOCK_BYTES], place: u32) -> Option<u32>
    requires { place < BLOCK_PIECES }
    ensures { result ≡ scan_shown (get_or (scans_of payload.now) place 0) }
{
    let scan = u32_at(payload, 8 + 4 * place as usize);
    if scan == 0 { None } else { Some(scan) }
}

fn no_payload() -> [u8; BLOCK_BYTES]
    ensures { result ≡ replicate BLOCK_BYTES 0 }
{
    [0; BLOCK_BYTES]
}

// The payload of a block before, or zeros where it has none.
fn payload_before(before: Option<&[u8; BLOCK_BYTES]>) -> [u8; BLOCK_BYTES]
    ensures { scans_of result ≡ scans_before (option_copied before.entry) }
{
    match before {
        Some(payload) => *payload,
        None => no_payload(),
    }
}

/// The spelling of a block once the piece at this place is accepted, by its payload before, where it has one.
pub fn accept_payload(
    before: Option<&[u8; BLOCK_BYTES]>,
    device: DevNo,
    block: u32,
    place: u32,
    scan: u32,
) -> [u8; BLOCK_BYTES]
    requires { place < BLOCK_PIECES }
    ensures { result ≡ block_bytes device block (set (scans_before (option_copied before.entry)) place scan) }
{
    let mut bytes = payload_before(before);
    put_u32(&mut bytes, 0, device.get());
    put_u32(&mut bytes, 4, block);
    put_u32(&mut bytes, 8 + 4 * place as usize, scan);
    bytes
}
