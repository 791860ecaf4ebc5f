//! The verifier's record out of an image of its storage.
ghost use Rattle.std.specs.Prelude.{◌≡◌, ◌-◌, ◌<◌, ◌≤◌, ℕ, Option, IfOk, IfErr, IfSome, IfNone, get_or, length};
ghost use Rattle.bench_base.specs.declared.sizes.TheConstants.{VERIFIER_CELLS, FIRST_BLOCK};
ghost use Rattle.verifier.specs.Payload.{IsPayloadOf};
ghost use Rattle.verifier.specs.Payload as payload_of;
ghost use Rattle.verifier.specs.Rows.{Row};
ghost use Rattle.verifier.specs.Seen.{Seen, IsKnown};
ghost use Rattle.row_node.specs.Shows.{ShowsRows};
ghost use Rattle.node_images.specs.Cells.{ShowsCell};
ghost use Rattle.trace_verifier.specs.Cells.{cells_of};
ghost use Rattle.trace_verifier.specs.Helds.{row_held, seen_by, seen_cell};
ghost use Rattle.trace_images.specs.VerifierRows.{RowsShown};

use crate::slots::{Newest, cell_bytes, read_newest};
use bench_base::numbers::DevNo;
use bench_base::sizes::{BLOCK_BYTES, BLOCK_PIECES, VERIFIER_CELLS};
use hmac_core::ReadyKey;
use payload_rows::Scans;
use std::alloc::{AllocError, Global};
use trace_verifier::{Held, ScanRecord};
use verifier::{key_in, read_block, read_trust, scan_in};

// The scan of the piece at this place of the block in a payload, or 0.
fn scan_at(payload: &[u8; BLOCK_BYTES], place: u32) -> u32
    requires { place < 512 }
    ensures { result ≡ get_or (payload_of.scans_of payload.now) place 0 }
{
    scan_in(payload, place).unwrap_or(0)
}

// The scan of each piece of the block in a payload, or 0.
fn scans_of(payload: &[u8; BLOCK_BYTES]) -> Scans
    ensures { result ≡ payload_of.scans_of payload.now }
{
    let mut scans = [0; BLOCK_PIECES as usize];
    for place in 0..BLOCK_PIECES {
        scans[place as usize] = scan_at(payload, place);
    }
    scans
}

// The key of the device that a payload reads as.
fn trust_of(payload: &[u8; BLOCK_BYTES], device: DevNo) -> Option<Held>
    ensures found { IfSome result (λ h. IsPayloadOf (device - 1) (row_held h) payload.now) }
    ensures none { IfNone result ((x : Row) → IsPayloadOf (device - 1) x payload.now → ⊥) }
{
    if !read_trust(device, payload) {
        return None;
    }
    Some(Held::Trust(device.get(), ReadyKey::new(&key_in(payload))))
}

// The block that a payload reads as.
fn block_of(payload: &[u8; BLOCK_BYTES]) -> Option<Held>
    ensures found { IfSome result (λ h. (k : ℕ) → FIRST_BLOCK ≤ k → IsPayloadOf k (row_held h) payload.now) }
    ensures none { IfNone result ((k : ℕ) (x : Row) → FIRST_BLOCK ≤ k → IsPayloadOf k x payload.now → ⊥) }
{
    let (device, number) = read_block(payload)?;
    Some(Held::Block(device, number, scans_of(payload)))
}

// The row of the cell at this place that a payload reads as.
fn row_of(payload: &[u8; BLOCK_BYTES], place: u32) -> Option<Held>
    requires { place < VERIFIER_CELLS }
    ensures found { IfSome result (λ h. IsPayloadOf place (row_held h) payload.now) }
    ensures none { IfNone result ((x : Row) → IsPayloadOf place x payload.now → ⊥) }
{
    match DevNo::new(place + 1) {
        Some(device) => trust_of(payload, device),
        None => block_of(payload),
    }
}

// What the bytes of the cell at this place show. Err if that is nothing that a cell of the verifier can show.
fn row_in(cell: &[u8], place: u32) -> Result<Option<(u32, Held)>, ()>
    requires long { length cell.now ≡ 4122 }
    requires inside { place < VERIFIER_CELLS }
    ensures shows { IfOk result (λ seen. ShowsCell 2056 (IsPayloadOf place) (seen_cell seen) cell.now) }
    ensures none { IfErr result (λ x. (seen : Option (ℕ × Row)) → ShowsCell 2056 (IsPayloadOf place) seen cell.now → ⊥) }
{
    let mut payload = [0; BLOCK_BYTES];
    match read_newest(cell, 2, BLOCK_BYTES, &mut payload) {
        Newest::Mixed => Err(()),
        Newest::Blank => Ok(None),
        Newest::Commits(count) => match row_of(&payload, place) {
            Some(held) => Ok(Some((count, held))),
            None => Err(()),
        },
    }
}

// The rows of all cells. None if a cell shows none.
fn read_rows(alloc: Global, image: &[u8]) -> Result<Option<Vec<Option<(u32, Held)>>>, AllocError>
    requires long { length image.now ≡ 4253904 }
    ensures some { IfOk result (λ found. IfSome found (λ cells. RowsShown VERIFIER_CELLS (seen_by cells.items) image.now)) }
    ensures none { IfOk result (λ found. IfNone found ((s : Seen) → ShowsRows 2056 1032 IsPayloadOf s image.now → ⊥)) }
{
    let mut cells = Vec::with_capacity(alloc, VERIFIER_CELLS as usize)?;
    for place in 0..VERIFIER_CELLS {
        let Ok(seen) = row_in(cell_bytes(image, BLOCK_BYTES, place), place) else {
            return Ok(None);
        };
        cells.push(seen)?;
    }
    Ok(Some(cells))
}

/// The verifier's record that an image of its storage shows, as a boot reads it. None if and only if the image shows none: a cell is mixed, a payload is no row
/// of its cell, or the rows break a condition together. AllocError is lack of memory for the record.
pub fn verifier_record(alloc: Global, image: &[u8]) -> Result<Option<ScanRecord>, AllocError>
    requires long { length image.now ≡ 4253904 }
    ensures some { IfOk result (λ found. IfSome found (λ r. IsKnown (cells_of r) × ShowsRows 2056 1032 IsPayloadOf (cells_of r) image.now)) }
    ensures none { IfOk result (λ found. IfNone found ((s : Seen) → IsKnown s → ShowsRows 2056 1032 IsPayloadOf s image.now → ⊥)) }
{
    let Some(cells) = read_rows(alloc, image)? else {
        return Ok(None);
    };
    Ok(ScanRecord::of(cells))
}
