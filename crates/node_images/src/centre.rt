//! The centre's rows in the bytes of a cell.
ghost use Rattle.std.specs.Prelude.{◌≡◌, ◌+◌, ◌<◌, ◌≤◌, None, Some, true, false, length, IfSome};
ghost use Rattle.centre_ledger.specs.declared.rows.Row.TheVariants as row;
ghost use Rattle.bench_base.specs.declared.sizes.TheConstants.{MOST_COMMITS};
ghost use Rattle.node_acts.specs.RowList.{commits_at};
ghost use Rattle.node_images.specs.Cells.{ShowsCell, ShowsOpen, CellIs};
ghost use Rattle.centre_protocol.specs.Payloads.{IsPayloadOf};

use crate::cell::CellShows;
use bench_base::sizes::ROW_BYTES;
use centre_ledger::{CustomerRow, DeviceRow, Row};
use nv_bytes::{copy_newest, is_blank};
use payload_rows::{reads_as_customer, reads_as_device};

// Whether the bytes of a cell of the centre show no commit.
fn shows_no_row(cell: &[u8], place: usize) -> bool
    requires long { length cell.now ≡ 394 }
    ensures yes { result ≡ true → ShowsCell 192 (IsPayloadOf place) None cell.now }
    ensures no { result ≡ false → ShowsCell 192 (IsPayloadOf place) None cell.now → ⊥ }
{
    is_blank(cell, 2, ROW_BYTES)
}

// Whether the row of this device lies in the cell at this place.
fn is_device_in(place: usize, due: &DeviceRow) -> bool
    ensures yes { result ≡ true → (due.now.device ≡ place + 1) × (place < 8) }
    ensures no { result ≡ false → (due.now.device ≡ place + 1) × (place < 8) → ⊥ }
{
    place < 8 && due.device.get() as usize == place + 1
}

// The same of a customer.
fn is_customer_in(place: usize, due: &CustomerRow) -> bool
    ensures yes { result ≡ true → (due.now.customer + 7 ≡ place) × (8 ≤ place) }
    ensures no { result ≡ false → (due.now.customer + 7 ≡ place) × (8 ≤ place) → ⊥ }
{
    place >= 8 && due.customer.get() as usize + 7 == place
}

// Whether the bytes of the cell at this place show so many commits and this row of a device, in either version.
fn shows_device_row(cell: &[u8], place: usize, count: u32, due: &DeviceRow) -> bool
    requires long { length cell.now ≡ 394 }
    ensures yes { result ≡ true → ShowsCell 192 (IsPayloadOf place) (Some (count, row.Device due.now)) cell.now }
    ensures no { result ≡ false → ShowsCell 192 (IsPayloadOf place) (Some (count, row.Device due.now)) cell.now → ⊥ }
{
    if !is_device_in(place, due) {
        return false;
    }
    let mut payload = [0; ROW_BYTES];
    if !copy_newest(cell, 2, ROW_BYTES, count, &mut payload) {
        return false;
    }
    reads_as_device(&payload, due)
}

// Whether the bytes of the cell at this place show so many commits and this row of a customer.
fn shows_customer(cell: &[u8], place: usize, count: u32, due: &CustomerRow) -> bool
    requires long { length cell.now ≡ 394 }
    ensures yes { result ≡ true → ShowsCell 192 (IsPayloadOf place) (Some (count, row.Customer due.now)) cell.now }
    ensures no { result ≡ false → ShowsCell 192 (IsPayloadOf place) (Some (count, row.Customer due.now)) cell.now → ⊥ }
{
    if !is_customer_in(place, due) {
        return false;
    }
    let mut payload = [0; ROW_BYTES];
    if !copy_newest(cell, 2, ROW_BYTES, count, &mut payload) {
        return false;
    }
    reads_as_customer(&payload, due)
}

// Whether the cell at this place shows this.
fn shows_seen(cell: &[u8], place: usize, seen: &Option<(u32, Row)>) -> bool
    requires long { length cell.now ≡ 394 }
    ensures yes { result ≡ true → ShowsCell 192 (IsPayloadOf place) seen.now cell.now }
    ensures no { result ≡ false → ShowsCell 192 (IsPayloadOf place) seen.now cell.now → ⊥ }
{
    match seen {
        None => shows_no_row(cell, place),
        Some((count, Row::Device(row))) => shows_device_row(cell, place, *count, row),
        Some((count, Row::Customer(row))) => shows_customer(cell, place, *count, row),
    }
}

fn count_of(seen: &Option<(u32, Row)>) -> u32
    ensures { result ≡ commits_at seen.now }
{
    match seen {
        None => 0,
        Some((count, _)) => *count,
    }
}

// Whether the cell shows what was counted, with the row that is in doubt, if there is one.
fn shows_changed(
    cell: &[u8],
    place: usize,
    seen: &Option<(u32, Row)>,
    changed: &Option<Row>,
) -> bool
    requires long { length cell.now ≡ 394 }
    requires fresh { IfSome changed.now (λ x. commits_at seen.now < MOST_COMMITS) }
    ensures yes { result ≡ true → ShowsOpen 192 (IsPayloadOf place) seen.now changed.now cell.now }
    ensures no { result ≡ false → ShowsOpen 192 (IsPayloadOf place) seen.now changed.now cell.now → ⊥ }
{
    match changed {
        None => false,
        Some(row) => shows_seen(cell, place, &Some((count_of(seen) + 1, *row))),
    }
}

/// What the bytes of the centre's cell at this place show, by its commits and its row, and by the row in doubt of this cell, if there is one.
pub fn centre_cell(
    cell: &[u8],
    place: usize,
    seen: &Option<(u32, Row)>,
    changed: &Option<Row>,
) -> CellShows
    requires long { length cell.now ≡ 394 }
    requires fresh { IfSome changed.now (λ x. commits_at seen.now < MOST_COMMITS) }
    ensures { CellIs 192 (IsPayloadOf place) seen.now changed.now cell.now result }
{
    if shows_seen(cell, place, seen) {
        return CellShows::Counted;
    }
    if shows_changed(cell, place, seen, changed) {
        CellShows::Open
    } else {
        CellShows::Other
    }
}
