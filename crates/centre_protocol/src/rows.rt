//! The rows of the centre, as its node keeps them, and the node.
ghost use Rattle.centre_protocol.specs.Places.{HasPlaces};
ghost use Rattle.std.specs.Prelude.{◌≡◌};
ghost use Rattle.centre_ledger.specs.Payload.{RowReadsAs, row_bytes};
ghost use Rattle.centre_ledger.specs.Seen.{cell_of};
ghost use Rattle.centre_protocol.specs.Cells.{HasCell, IsSoundRow};

use crate::boot::{customers_in, devices_in};
use bench_base::sizes::{CENTRE_CELLS, ROW_BYTES};
use centre_ledger::{Accounts, Row};
use nv_store::Room;
use row_node::{RowNode, RowRoom, Rows};
use std::alloc::{AllocError, Global};

/// The rows that the cells hold, with what each customer has left.
#[derive(Drop)]
pub struct CentreRows {
    pub(crate) accounts: Accounts,
    ghost places: { HasPlaces accounts },
}

/// Memory for the 72 cells of the centre, and for its rows.
pub type CentreRoom = RowRoom<CentreRows>;

/// The centre over storage of 28,368 bytes: a cell of two slots for each device and each customer, with its row as payload.
/// While it is off, what it knew of its storage counts for nothing.
pub type CentreNode<N> = RowNode<N, CentreRows>;

impl CentreRows {
    /// No rows.
    pub(crate) fn none() -> CentreRows {
        CentreRows {
            accounts: Accounts::empty(),
        }
    }
}

// The cell that the row lies in: device d in cell d - 1, and customer w in cell w + 7.
fn cell_of(row: &Row) -> u32
    ensures value { result ≡ cell_of row.now }
    ensures has { HasCell row.now }
{
    match row {
        Row::Device(row) => row.device.get() - 1,
        Row::Customer(row) => row.customer.get() + 7,
    }
}

// The spelling of the row, which is sound.
fn payload_of(row: &Row) -> [u8; ROW_BYTES]
    requires sound { IsSoundRow row.now }
    ensures value { result ≡ row_bytes row.now }
    ensures reads { RowReadsAs row.now result }
{
    match row {
        Row::Device(row) => row.write_payload(),
        Row::Customer(row) => row.write_payload(),
    }
}

impl Rows for CentreRows {
    ghost use Rattle.centre_protocol.specs.Table.{centre_table, centre_laws};

    type Change = Row;

    type Memory = Room<ROW_BYTES>;

    ghost table = { centre_table };

    ghost laws = { centre_laws };

    fn cells() -> u32 {
        CENTRE_CELLS
    }

    fn new(_alloc: Global) -> Result<CentreRows, AllocError> {
        Ok(CentreRows::none())
    }

    fn clear(&mut self) {
        self.accounts = Accounts::empty();
    }

    fn cell_of(row: &Row) -> u32 {
        cell_of(row)
    }

    fn payload_with(&self, _cells: &Room<ROW_BYTES>, row: &Row) -> [u8; ROW_BYTES] {
        payload_of(row)
    }

    fn take(&mut self, _cells: &Room<ROW_BYTES>, row: &Row, _blank: bool) {
        self.accounts.put(row);
    }

    fn read(&mut self, cells: &Room<ROW_BYTES>) -> bool {
        let Ok(devices) = devices_in(cells) else {
            return false;
        };
        let Ok(customers) = customers_in(cells) else {
            return false;
        };
        match Accounts::of(devices, customers) {
            Some(accounts) => {
                self.accounts = accounts;
                true
            }
            None => false,
        }
    }
}
