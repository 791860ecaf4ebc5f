//! The rows that the centre keeps: one of each device, and one of each customer. Amounts are in mills.
ghost use Rattle.std.specs.Prelude.{◌≡◌};
ghost use Rattle.ledger_terms.specs.Centres.{is_some_at};
ghost use Rattle.centre_ledger.specs.Rows as of_rows;

use bench_base::bytes::Note;
use bench_base::numbers::{Customer, DevNo};
use bench_base::words::Key;

/// What became of a device that is registered.
#[derive(Clone, Copy)]
pub enum Enrolment {
    /// It was never enrolled.
    Registered,
    /// It is enrolled under this customer.
    Enrolled(Customer),
    /// It was enrolled under this customer, and its withdrawal was granted.
    Withdrawn(Customer),
}

impl Enrolment {
    /// The customer of a device that was ever enrolled.
    pub fn customer(&self) -> Option<Customer>
        ensures { result ≡ of_rows.customer_of self.now }
    {
        match self {
            Enrolment::Registered => None,
            Enrolment::Enrolled(customer) | Enrolment::Withdrawn(customer) => Some(*customer),
        }
    }

    /// The number of that customer, or 0 if there is no customer.
    pub fn customer_number(&self) -> u32
        ensures { result ≡ of_rows.customer_number self.now }
    {
        match self.customer() {
            Some(customer) => customer.get(),
            None => 0,
        }
    }

    /// Whether the device was ever enrolled under the customer of this number.
    pub fn is_under(&self, customer: u32) -> bool
        ensures { result ≡ is_some_at (of_rows.customer_of self.now) customer }
    {
        match self.customer() {
            Some(own) => own.get() == customer,
            None => false,
        }
    }
}

/// What the centre keeps of a device.
#[derive(Clone, Copy)]
pub struct DeviceRow {
    pub device: DevNo,
    pub enrolment: Enrolment,
    pub origin: u32,
    pub key: Key,
    /// The greatest number that was ruled on.
    pub ruled: u32,
    /// The greatest number that is settled: `ruled`, or one less.
    pub settled: u32,
    /// The sum of the granted resets.
    pub buys: u64,
    /// The sum of the granted refunds and withdrawals.
    pub returns: u64,
    /// The last request that was ruled on, and the reply to it; without bytes where `ruled` is 0.
    pub request: Note,
    pub reply: Note,
}

/// What the centre keeps of a customer.
#[derive(Clone, Copy)]
pub struct CustomerRow {
    pub customer: Customer,
    pub suspended: bool,
    /// The sum of the deposits, at most 10^15.
    pub deposits: u64,
    /// The last receipt and its amount; 0 until the first deposit.
    pub receipt: u32,
    pub amount: u32,
}

/// A row of the centre, of a device or of a customer.
#[derive(Clone, Copy)]
pub enum Row {
    Device(DeviceRow),
    Customer(CustomerRow),
}
