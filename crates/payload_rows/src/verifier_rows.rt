//! The verifier's rows in a payload.
ghost use Rattle.std.specs.Prelude.{◌≡◌, ◌≢◌, ◌<◌, true, false, get_or};
ghost use Rattle.verifier.specs.Rows.{TrustRow, BlockRow};
ghost use Rattle.verifier.specs.Seen.{scan_shown};
ghost use Rattle.verifier.specs.Payload.{RowReadsAs, key_of, scans_of};

use bench_base::numbers::DevNo;
use bench_base::sizes::{BLOCK_BYTES, BLOCK_PIECES};
use bench_base::words::Key;
use verifier::{key_in, read_block, read_trust, scan_in};

/// The scan of each piece of a block, or 0.
pub type Scans = [u32; BLOCK_PIECES as usize];

// A scan as it is looked up: 0 is none.
fn shown(scan: u32) -> Option<u32>
    ensures { result ≡ scan_shown scan }
{
    if scan == 0 { None } else { Some(scan) }
}

// Whether the piece at this place of the block in a payload has this scan.
fn has_scan(payload: &[u8; BLOCK_BYTES], place: u32, scan: u32) -> bool
    requires { place < 512 }
    ensures yes { result ≡ true → get_or (scans_of payload.now) place 0 ≡ scan }
    ensures no { result ≡ false → get_or (scans_of payload.now) place 0 ≢ scan }
{
    scan_in(payload, place) == shown(scan)
}

// Whether the block in a payload has these scans.
fn has_scans(payload: &[u8; BLOCK_BYTES], scans: &Scans) -> bool
    ensures yes { result ≡ true → scans_of payload.now ≡ scans.now }
    ensures no { result ≡ false → scans_of payload.now ≢ scans.now }
{
    for place in 0..BLOCK_PIECES {
        if !has_scan(payload, place, scans[place as usize]) {
            return false;
        }
    }
    true
}

// Whether the payload has this key.
fn has_key(payload: &[u8; BLOCK_BYTES], key: &Key) -> bool
    ensures yes { result ≡ true → key_of payload.now ≡ key.now }
    ensures no { result ≡ false → key_of payload.now ≢ key.now }
{
    key_in(payload) == *key
}

/// Whether a payload reads as the key of this device.
pub fn reads_as_trust(payload: &[u8; BLOCK_BYTES], device: DevNo, key: &Key) -> bool
    ensures yes { result ≡ true → RowReadsAs (TrustRow device key.now) payload.now }
    ensures no { result ≡ false → RowReadsAs (TrustRow device key.now) payload.now → ⊥ }
{
    let _number = device.get();
    if !read_trust(device, payload) {
        return false;
    }
    has_key(payload, key)
}

fn is_same(one: (u32, u32), other: (u32, u32)) -> bool
    ensures yes { result ≡ true → one ≡ other }
    ensures no { result ≡ false → one ≢ other }
{
    one.0 == other.0 && one.1 == other.1
}

/// Whether a payload reads as this block.
pub fn reads_as_block(payload: &[u8; BLOCK_BYTES], device: u32, block: u32, scans: &Scans) -> bool
    ensures yes { result ≡ true → RowReadsAs (BlockRow device block scans.now) payload.now }
    ensures no { result ≡ false → RowReadsAs (BlockRow device block scans.now) payload.now → ⊥ }
{
    let Some(found) = read_block(payload) else {
        return false;
    };
    if !is_same(found, (device, block)) {
        return false;
    }
    has_scans(payload, scans)
}
