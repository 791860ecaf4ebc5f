//! The verifier's rows in the bytes of a cell.
ghost use Rattle.std.specs.Prelude.{◌≡◌, ◌+◌, ◌<◌, None, Some, true, false, length, IfSome, IfNone};
ghost use Rattle.bench_base.specs.declared.sizes.TheConstants.{FIRST_BLOCK};
ghost use Rattle.verifier.specs.Rows.{TrustRow, BlockRow};
ghost use Rattle.verifier.specs.Payload.{IsPayloadOf};
ghost use Rattle.node_images.specs.Cells.{ShowsCell};

use bench_base::numbers::DevNo;
use bench_base::sizes::{BLOCK_BYTES, FIRST_BLOCK};
use bench_base::words::Key;
use nv_bytes::{copy_newest, is_blank};
use payload_rows::{Scans, reads_as_block, reads_as_trust};

/// Whether the bytes of a cell of the verifier show no commit.
pub fn shows_no_block(cell: &[u8], place: usize) -> bool
    requires long { length cell.now ≡ 4122 }
    ensures yes { result ≡ true → ShowsCell 2056 (IsPayloadOf place) None cell.now }
    ensures no { result ≡ false → ShowsCell 2056 (IsPayloadOf place) None cell.now → ⊥ }
{
    is_blank(cell, 2, BLOCK_BYTES)
}

// The device of this number, if its key lies in the cell at this place.
fn device_in(place: usize, device: u32) -> Option<DevNo>
    ensures some { IfSome result (λ d. (d ≡ device) × (device ≡ place + 1) × (place < FIRST_BLOCK)) }
    ensures none { IfNone result ((device ≡ place + 1) × (place < FIRST_BLOCK) → ⊥) }
{
    if place >= FIRST_BLOCK as usize {
        return None;
    }
    let Some(number) = DevNo::new(device) else {
        return None;
    };
    if device as usize != place + 1 {
        return None;
    }
    Some(number)
}

/// Whether the bytes of the cell at this place show so many commits and the key of this device.
pub fn shows_trust(cell: &[u8], place: usize, count: u32, device: u32, key: &Key) -> bool
    requires long { length cell.now ≡ 4122 }
    ensures yes { result ≡ true → ShowsCell 2056 (IsPayloadOf place) (Some (count, TrustRow device key.now)) cell.now }
    ensures no { result ≡ false → ShowsCell 2056 (IsPayloadOf place) (Some (count, TrustRow device key.now)) cell.now → ⊥ }
{
    let Some(number) = device_in(place, device) else {
        return false;
    };
    let mut payload = [0; BLOCK_BYTES];
    if !copy_newest(cell, 2, BLOCK_BYTES, count, &mut payload) {
        return false;
    }
    reads_as_trust(&payload, number, key)
}

/// Whether the bytes of the cell at this place show so many commits and this block.
pub fn shows_block(
    cell: &[u8],
    place: usize,
    count: u32,
    device: u32,
    block: u32,
    scans: &Scans,
) -> bool
    requires long { length cell.now ≡ 4122 }
    ensures yes { result ≡ true → ShowsCell 2056 (IsPayloadOf place) (Some (count, BlockRow device block scans.now)) cell.now }
    ensures no { result ≡ false → ShowsCell 2056 (IsPayloadOf place) (Some (count, BlockRow device block scans.now)) cell.now → ⊥ }
{
    if place < FIRST_BLOCK as usize {
        return false;
    }
    let mut payload = [0; BLOCK_BYTES];
    if !copy_newest(cell, 2, BLOCK_BYTES, count, &mut payload) {
        return false;
    }
    reads_as_block(&payload, device, block, scans)
}
