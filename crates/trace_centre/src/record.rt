//! The record of the centre, with the count of each of its cells.
ghost use Rattle.std.specs.Prelude.{◌≡◌, ◌<◌, ℕ, [], false, IfSome, IfNone};
ghost use Rattle.node_acts.specs.RowList.{row_at, row_of, commits_at, is_worn, put};
ghost use Rattle.centre_ledger.specs.Seen as centre;
ghost use Rattle.centre_protocol.specs.Cells.{HasCell};
ghost use Rattle.bench_abstraction.specs.Centre.{seen_in};
ghost use Rattle.trace_centre.specs.Records.{AreKept, IsFit, IsRowOf};
ghost use Rattle.trace_centre.specs.Unique.{kept_prop};

use crate::rows::{commits_in, customers_in, devices_in};
use bench_base::sizes::MOST_COMMITS;
use centre_ledger::{Accounts, BooksOf, Row};
use node_acts::Holds;
use trace_nodes::Record;

/// How many cells the centre has.
pub(crate) const CELLS: usize = 72;

/// The rows of the centre in their cells, with the commits of each; and the rows as they are read, beside them.
#[derive(Drop)]
pub struct CentreRecord {
    pub(crate) cells: [Option<(u32, Row)>; CELLS],
    pub(crate) accounts: Accounts,
    pub(crate) total: u64,
    ghost kept: { AreKept cells accounts total } by { kept_prop cells accounts total },
}

/// The cell of a row: device d in cell d - 1, and customer w in cell w + 7.
pub fn cell_of(row: &Row) -> usize
    ensures value { result ≡ centre.cell_of row.now }
    ensures inside { result < 72 }
    ensures has { HasCell row.now }
{
    match row {
        Row::Device(row) => row.device.get() as usize - 1,
        Row::Customer(row) => row.customer.get() as usize + 7,
    }
}

pub(crate) fn count_of(cell: &Option<(u32, Row)>) -> u32
    ensures { result ≡ commits_at cell.now }
{
    match cell {
        Some((count, _)) => *count,
        None => 0,
    }
}

// Puts the row into its cell, and beside.
fn put_in(
    cells: &mut [Option<(u32, Row)>; CELLS],
    accounts: &mut Accounts,
    total: &mut u64,
    row: &Row,
)
    requires kept { AreKept cells.old accounts.old total.old }
    requires fits { IsFit cells.old row.now }
    requires room { is_worn cells.old (centre.cell_of row.now) ≡ false }
    ensures put { cells.new ≡ put cells.old (centre.cell_of row.now) row.now }
    ensures kept { AreKept cells.new accounts.new total.new }
{
    let cell = cell_of(row);
    let count = count_of(&cells[cell]);
    cells[cell] = Some((count + 1, *row));
    accounts.put(row);
    *total += 1;
}

impl CentreRecord {
    ghost use Rattle.trace_centre.specs.Cells.{cells_of};

    /// A centre without a row: as it is seen before the first commit.
    pub fn blank() -> CentreRecord
        ensures { cells_of result ≡ seen_in [] }
    {
        CentreRecord {
            cells: [None; CELLS],
            accounts: Accounts::empty(),
            total: 0,
        }
    }

    /// The record of these cells: None of a blank one, otherwise its commits and its row, which is sound and lies in its own cell. None if and
    /// only if the rows do not agree: the customer of a device is not open, or a customer has less than 0.
    pub fn of(cells: [Option<(u32, Row)>; CELLS]) -> Option<CentreRecord>
        requires rows { (k : ℕ) → IfSome (row_of (row_at cells k)) (IsRowOf k) }
        ensures some { IfSome result (λ r. (cells_of r ≡ cells) × centre.IsKnown cells) }
        ensures none { IfNone result (centre.IsKnown cells → ⊥) }
    {
        let total = commits_in(&cells);
        match Accounts::of(devices_in(&cells), customers_in(&cells)) {
            Some(accounts) => Some(CentreRecord {
                cells,
                accounts,
                total,
            }),
            None => None,
        }
    }

    /// The cells: None of a blank one, otherwise its commits and its row.
    pub fn cells(&self) -> &[Option<(u32, Row)>; CELLS]
        ensures { result.now ≡ cells_of self.now }
    {
        &self.cells
    }

    /// The rows.
    pub fn accounts(&self) -> &Accounts
        ensures rows { result.now ≡ centre.books_in (cells_of self.now) }
    {
        &self.accounts
    }
}

impl Holds for CentreRecord {
    type By = CentreRecord;
}

impl BooksOf<CentreRecord> for CentreRecord {
    ghost use Rattle.trace_centre.specs.Cells.{cells_of};

    ghost books = { λ r. centre.books_in (cells_of r) };

    fn books(&self) -> &Accounts {
        // Its answer is what says that the rows are sound.
        let _first = self.accounts.device(1);
        &self.accounts
    }
}

impl Record<Row> for CentreRecord {
    ghost Seen = { centre.Seen };

    ghost counting = { centre.counting };

    ghost IsFit = { λ s x. IsFit s x };

    ghost seen = { λ r. r.cells };

    fn commits(&self) -> u64 {
        self.total
    }

    fn is_worn(&self, change: &Row) -> bool {
        count_of(&self.cells[cell_of(change)]) == MOST_COMMITS
    }

    fn put(&mut self, change: &Row) {
        put_in(&mut self.cells, &mut self.accounts, &mut self.total, change);
    }
}
