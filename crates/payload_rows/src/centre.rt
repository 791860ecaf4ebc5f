//! The centre's rows in a payload.
ghost use Rattle.std.specs.Prelude.{◌≡◌, ◌≢◌, true, false};
ghost use Rattle.centre_ledger.specs.Payload.{DeviceReadsAs, CustomerReadsAs, state_number};

use bench_base::sizes::ROW_BYTES;
use centre_ledger::{CustomerRow, DeviceRow, Enrolment};

// 1 registered, 2 enrolled, 3 withdrawn.
fn state_of(enrolment: &Enrolment) -> u8
    ensures { result ≡ state_number enrolment.now }
{
    match enrolment {
        Enrolment::Registered => 1,
        Enrolment::Enrolled(_) => 2,
        Enrolment::Withdrawn(_) => 3,
    }
}

fn same_enrolment(one: &Enrolment, other: &Enrolment) -> bool
    ensures yes { result ≡ true → one.now ≡ other.now }
    ensures no { result ≡ false → one.now ≢ other.now }
{
    if state_of(one) != state_of(other) {
        return false;
    }
    one.customer_number() == other.customer_number()
}

// Whether the device, its numbers and its key are the same.
fn same_head(one: &DeviceRow, other: &DeviceRow) -> bool
    ensures yes { result ≡ true → (one.now.device ≡ other.now.device) × (one.now.enrolment ≡ other.now.enrolment) × (one.now.origin ≡ other.now.origin)
        × (one.now.key ≡ other.now.key) }
    ensures no { result ≡ false → one.now ≢ other.now }
{
    one.device.get() == other.device.get()
        && same_enrolment(&one.enrolment, &other.enrolment)
        && one.origin == other.origin
        && one.key == other.key
}

// Whether what was ruled is the same.
fn same_rulings(one: &DeviceRow, other: &DeviceRow) -> bool
    ensures yes { result ≡ true → (one.now.ruled ≡ other.now.ruled) × (one.now.settled ≡ other.now.settled) × (one.now.buys ≡ other.now.buys)
        × (one.now.returns ≡ other.now.returns) × (one.now.request ≡ other.now.request) × (one.now.reply ≡ other.now.reply) }
    ensures no { result ≡ false → one.now ≢ other.now }
{
    one.ruled == other.ruled
        && one.settled == other.settled
        && one.buys == other.buys
        && one.returns == other.returns
        && one.request.as_slice() == other.request.as_slice()
        && one.reply.as_slice() == other.reply.as_slice()
}

fn same_device(one: &DeviceRow, other: &DeviceRow) -> bool
    ensures yes { result ≡ true → one.now ≡ other.now }
    ensures no { result ≡ false → one.now ≢ other.now }
{
    same_head(one, other) && same_rulings(one, other)
}

fn same_customer(one: &CustomerRow, other: &CustomerRow) -> bool
    ensures yes { result ≡ true → one.now ≡ other.now }
    ensures no { result ≡ false → one.now ≢ other.now }
{
    one.customer.get() == other.customer.get()
        && one.suspended == other.suspended
        && one.deposits == other.deposits
        && one.receipt == other.receipt
        && one.amount == other.amount
}

/// Whether a payload reads as this row of a device.
pub fn reads_as_device(payload: &[u8; ROW_BYTES], due: &DeviceRow) -> bool
    ensures yes { result ≡ true → DeviceReadsAs payload.now due.now }
    ensures no { result ≡ false → DeviceReadsAs payload.now due.now → ⊥ }
{
    match DeviceRow::read_payload(due.device, payload) {
        Some(found) => same_device(&found, due),
        None => false,
    }
}

/// Whether a payload reads as this row of a customer.
pub fn reads_as_customer(payload: &[u8; ROW_BYTES], due: &CustomerRow) -> bool
    ensures yes { result ≡ true → CustomerReadsAs payload.now due.now }
    ensures no { result ≡ false → CustomerReadsAs payload.now due.now → ⊥ }
{
    match CustomerRow::read_payload(due.customer, payload) {
        Some(found) => same_customer(&found, due),
        None => false,
    }
}
