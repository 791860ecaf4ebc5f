//! What lies in the cells: the rows as they are read, and all commits.
ghost use Rattle.std.specs.Prelude.{◌≡◌, ℕ, ◌≤◌};
ghost use Rattle.bench_base.specs.declared.sizes.TheConstants.{MOST_COMMITS};
ghost use Rattle.node_acts.specs.RowList.{row_at, commits_at, commits_in};
ghost use Rattle.centre_ledger.specs.Seen as centre;

use crate::record::{CELLS, count_of};
use centre_ledger::{CustomerRow, ReadyRow, Row};

// The row of the device in a cell, with its key made ready; None if there is none.
fn device_in(cell: &Option<(u32, Row)>) -> Option<ReadyRow>
    ensures { result ≡ centre.device_in cell.now }
{
    match cell {
        Some((_, Row::Device(row))) => Some(ReadyRow::new(row)),
        Some((_, Row::Customer(_))) | None => None,
    }
}

// The row of the customer in a cell; None if there is none.
fn customer_in(cell: &Option<(u32, Row)>) -> Option<CustomerRow>
    ensures { result ≡ centre.customer_in cell.now }
{
    match cell {
        Some((_, Row::Customer(row))) => Some(*row),
        Some((_, Row::Device(_))) | None => None,
    }
}

/// The rows of the devices, each in its place.
pub fn devices_in(cells: &[Option<(u32, Row)>; CELLS]) -> [Option<ReadyRow>; 8]
    ensures { result ≡ (centre.books_in cells.now).devices }
{
    let mut rows = [None, None, None, None, None, None, None, None];
    for place in 0..8 {
        rows[place] = device_in(&cells[place]);
    }
    rows
}

/// The rows of the customers, each in its place.
pub fn customers_in(cells: &[Option<(u32, Row)>; CELLS]) -> [Option<CustomerRow>; 64]
    ensures { result ≡ (centre.books_in cells.now).customers }
{
    let mut rows = [None; 64];
    for place in 0..64 {
        rows[place] = customer_in(&cells[place + 8]);
    }
    rows
}

/// The commits of all cells.
pub fn commits_in(cells: &[Option<(u32, Row)>; CELLS]) -> u64
    ensures total { result ≡ commits_in cells.now }
    ensures few { (k : ℕ) → commits_at (row_at cells.now k) ≤ MOST_COMMITS }
{
    let mut total = 0;
    for place in 0..CELLS {
        total += u64::from(count_of(&cells[place]));
    }
    total
}
