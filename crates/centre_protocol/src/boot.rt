//! The rows of the centre out of its cells.
ghost use Rattle.std.specs.Prelude.{◌≡◌, ◌+◌, ◌<◌, IfOk, IfErr, length};
ghost use Rattle.bench_base.specs.declared.sizes.TheConstants.{CENTRE_CELLS};
ghost use Rattle.nv_store.specs.RoomView.{cells_of, kept_in};
ghost use Rattle.row_node.specs.Kept.{HoldsForeign};
ghost use Rattle.centre_protocol.specs.Payloads.{IsPayloadOf};
ghost use Rattle.centre_protocol.specs.Boots.{DeviceRead, DevicesRead, CustomerRead, CustomersRead};

use bench_base::numbers::{Customer, DevNo};
use bench_base::sizes::{CENTRE_CELLS, ROW_BYTES};
use centre_ledger::{CustomerRow, ReadyRow};
use nv_store::{Room, get_room};

// The row of a device that its cell holds: None where it is blank, and Err where the payload reads as none.
fn device_in(room: &Room<ROW_BYTES>, place: u32) -> Result<Option<ReadyRow>, ()>
    requires cells { cells_of room.now ≡ CENTRE_CELLS }
    requires inside { place < 8 }
    ensures read { IfOk result (DeviceRead (kept_in room.now) place) }
    ensures foreign { IfErr result (λ x. HoldsForeign CENTRE_CELLS IsPayloadOf (kept_in room.now)) }
{
    let Some(payload) = get_room(room, place) else {
        return Ok(None);
    };
    let Some(device) = DevNo::new(place + 1) else {
        unreachable!();
    };
    match ReadyRow::read_payload(device, payload) {
        Some(row) => Ok(Some(row)),
        None => Err(()),
    }
}

// The same for a customer. The customers' cells follow those of the devices.
fn customer_in(room: &Room<ROW_BYTES>, place: u32) -> Result<Option<CustomerRow>, ()>
    requires cells { cells_of room.now ≡ CENTRE_CELLS }
    requires inside { place < 64 }
    ensures read { IfOk result (CustomerRead (kept_in room.now) place) }
    ensures foreign { IfErr result (λ x. HoldsForeign CENTRE_CELLS IsPayloadOf (kept_in room.now)) }
{
    let Some(payload) = get_room(room, place + 8) else {
        return Ok(None);
    };
    let Some(customer) = Customer::new(place + 1) else {
        unreachable!();
    };
    match CustomerRow::read_payload(customer, payload) {
        Some(row) => Ok(Some(row)),
        None => Err(()),
    }
}

/// The rows of all devices.
pub fn devices_in(room: &Room<ROW_BYTES>) -> Result<[Option<ReadyRow>; 8], ()>
    requires cells { cells_of room.now ≡ CENTRE_CELLS }
    ensures read { IfOk result (DevicesRead (kept_in room.now) 8) }
    ensures long { IfOk result (λ rows. length rows ≡ 8) }
    ensures foreign { IfErr result (λ x. HoldsForeign CENTRE_CELLS IsPayloadOf (kept_in room.now)) }
{
    let mut rows = [None, None, None, None, None, None, None, None];
    for place in 0..8 {
        rows[place] = device_in(room, place as u32)?;
    }
    Ok(rows)
}

/// The rows of all customers.
pub fn customers_in(room: &Room<ROW_BYTES>) -> Result<[Option<CustomerRow>; 64], ()>
    requires cells { cells_of room.now ≡ CENTRE_CELLS }
    ensures read { IfOk result (CustomersRead (kept_in room.now) 64) }
    ensures long { IfOk result (λ rows. length rows ≡ 64) }
    ensures foreign { IfErr result (λ x. HoldsForeign CENTRE_CELLS IsPayloadOf (kept_in room.now)) }
{
    let mut rows = [None; 64];
    for place in 0..64 {
        rows[place] = customer_in(room, place as u32)?;
    }
    Ok(rows)
}
