//! The centre's record out of an image of its storage.
ghost use Rattle.std.specs.Prelude.{◌≡◌, ◌<◌, ◌≤◌, ℕ, Option, IfOk, IfErr, IfSome, IfNone, length};
ghost use Rattle.centre_ledger.specs.declared.rows.Row.{Row as TheRow};
ghost use Rattle.centre_ledger.specs.Payload.{RowReadsAs};
ghost use Rattle.centre_ledger.specs.Seen.{Seen};
ghost use Rattle.centre_protocol.specs.Payloads.{IsIn, IsPayloadOf};
ghost use Rattle.centre_protocol.specs.Sound.{IsSound};
ghost use Rattle.row_node.specs.Shows.{ShowsRows};
ghost use Rattle.node_images.specs.Cells.{ShowsCell};
ghost use Rattle.trace_centre.specs.Cells.{cells_of};
ghost use Rattle.trace_centre.specs.Records.{IsRowOf};
ghost use Rattle.trace_images.specs.Centre.{RowShown, RowsShown};

use crate::slots::{Newest, cell_bytes, read_newest};
use bench_base::numbers::{Customer, DevNo};
use bench_base::sizes::{CENTRE_CELLS, ROW_BYTES};
use centre_ledger::{CustomerRow, DeviceRow, Row};
use trace_centre::CentreRecord;

// The row of the device whose cell is at this place; None if the payload reads as none.
fn device_row(place: u32, payload: &[u8; ROW_BYTES]) -> Option<Row>
    requires inside { place < 8 }
    ensures some { IfSome result (λ x. IsRowOf place x × RowReadsAs x payload.now) }
    ensures none { IfNone result ((x : TheRow) → IsIn place x → RowReadsAs x payload.now → ⊥) }
{
    let Some(device) = DevNo::new(place + 1) else {
        unreachable!();
    };
    match DeviceRow::read_payload(device, payload) {
        Some(row) => Some(Row::Device(row)),
        None => None,
    }
}

// The same of a customer. The customers' cells follow those of the devices.
fn customer_row(place: u32, payload: &[u8; ROW_BYTES]) -> Option<Row>
    requires above { 8 ≤ place }
    requires inside { place < 72 }
    ensures some { IfSome result (λ x. IsRowOf place x × RowReadsAs x payload.now) }
    ensures none { IfNone result ((x : TheRow) → IsIn place x → RowReadsAs x payload.now → ⊥) }
{
    let Some(customer) = Customer::new(place - 7) else {
        unreachable!();
    };
    match CustomerRow::read_payload(customer, payload) {
        Some(row) => Some(Row::Customer(row)),
        None => None,
    }
}

// The row of the cell at this place; None if the payload reads as none.
fn row_of(place: u32, payload: &[u8; ROW_BYTES]) -> Option<Row>
    requires inside { place < 72 }
    ensures some { IfSome result (λ x. IsRowOf place x × RowReadsAs x payload.now) }
    ensures none { IfNone result ((x : TheRow) → IsIn place x → RowReadsAs x payload.now → ⊥) }
{
    if place < 8 {
        device_row(place, payload)
    } else {
        customer_row(place, payload)
    }
}

// What the bytes of the cell at this place show. Err if that is nothing that a cell of the centre can show.
fn row_in(cell: &[u8], place: u32) -> Result<Option<(u32, Row)>, ()>
    requires long { length cell.now ≡ 394 }
    requires inside { place < 72 }
    ensures shows { IfOk result (λ seen. RowShown place seen cell.now) }
    ensures none { IfErr result (λ x. (seen : Option (ℕ × TheRow)) → ShowsCell 192 (IsPayloadOf place) seen cell.now → ⊥) }
{
    let mut payload = [0; ROW_BYTES];
    match read_newest(cell, 2, ROW_BYTES, &mut payload) {
        Newest::Mixed => Err(()),
        Newest::Blank => Ok(None),
        Newest::Commits(count) => match row_of(place, &payload) {
            Some(row) => Ok(Some((count, row))),
            None => Err(()),
        },
    }
}

// The rows of all cells. None if a cell shows none.
fn read_rows(image: &[u8]) -> Option<[Option<(u32, Row)>; 72]>
    requires long { length image.now ≡ 28368 }
    ensures some { IfSome result (λ cells. RowsShown 72 cells image.now) }
    ensures none { IfNone result ((s : Seen) → ShowsRows 192 72 IsPayloadOf s image.now → ⊥) }
{
    let mut cells = [None; 72];
    for place in 0..CENTRE_CELLS {
        match row_in(cell_bytes(image, ROW_BYTES, place), place) {
            Ok(seen) => cells[place as usize] = seen,
            Err(()) => return None,
        }
    }
    Some(cells)
}

/// The centre's record that an image of its storage shows, as a boot reads it. None if and only if the image shows none: a cell is mixed, a payload is no row
/// of its cell, or the rows do not agree.
pub fn centre_record(image: &[u8]) -> Option<CentreRecord>
    requires long { length image.now ≡ 28368 }
    ensures some { IfSome result (λ r. IsSound (cells_of r) × ShowsRows 192 72 IsPayloadOf (cells_of r) image.now) }
    ensures none { IfNone result ((s : Seen) → IsSound s → ShowsRows 192 72 IsPayloadOf s image.now → ⊥) }
{
    let Some(cells) = read_rows(image) else {
        return None;
    };
    CentreRecord::of(cells)
}
