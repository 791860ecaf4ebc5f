//! What a customer has left, in mills.
ghost use Rattle.std.specs.Prelude.{◌≡◌, ◌+◌, ◌-◌, ◌*◌, ◌^◌, ◌<◌, ◌≤◌, ◌↔◌, All, IfSome, IsSome, MatchOption, length, replicate, set, sum_by};
ghost use Rattle.centre_ledger.specs.Books as books;
ghost use Rattle.centre_ledger.specs.Books.{IsCovered, balances_by, kept_at};
ghost use Rattle.centre_ledger.specs.Rows.{buys_in, returns_in};
ghost use Rattle.centre_ledger.specs.Soundness.{IsSoundDevice, IsSoundCustomer};

use crate::rows::{CustomerRow, DeviceRow};
use bench_base::numbers::Customer;
use std::marker::Model;

/// What each customer has left, in mills, so that no call adds up rows.
#[derive(Drop)]
pub struct Balances {
    left: [u64; 64],
}

impl Model for Balances {
    ghost use Rattle.std.specs.Prelude.{ℕ, List};

    ghost Value = { List ℕ };

    ghost view = { λ b. b.left };
}

// What the devices of a customer bought and gave back.
fn sums_of(devices: &[Option<DeviceRow>], customer: u32) -> (u128, u128)
    requires count { length devices.now ≤ 8 }
    requires sound { All (λ o. IfSome o IsSoundDevice) devices.now }
    ensures bought { result.0 ≡ sum_by (buys_in customer) devices.now }
    ensures returned { result.1 ≡ sum_by (returns_in customer) devices.now }
    ensures small { result.0 ≤ 8 * (2 ^ 64 - 1) }
    ensures covered { result.1 ≤ result.0 }
{
    let mut bought = 0;
    let mut returned = 0;
    for slot in devices {
        if let Some(row) = slot {
            if row.enrolment.is_under(customer) {
                bought += u128::from(row.buys);
                returned += u128::from(row.returns);
            }
        }
    }
    (bought, returned)
}

/// The balance of the customer over its devices, also over those that are withdrawn: deposits less buys plus
/// returns. None if and only if that is below 0. There are at most eight devices.
pub fn balance_of(devices: &[Option<DeviceRow>], row: &CustomerRow) -> Option<u64>
    requires count { length devices.now ≤ 8 }
    requires devices { All (λ o. IfSome o IsSoundDevice) devices.now }
    requires sound { IsSoundCustomer row.now }
    ensures exact { MatchOption result
        (row.now.deposits + sum_by (returns_in row.now.customer) devices.now < sum_by (buys_in row.now.customer) devices.now)
        (λ balance. balance + sum_by (buys_in row.now.customer) devices.now ≡ row.now.deposits + sum_by (returns_in row.now.customer) devices.now) }
{
    let (bought, returned) = sums_of(devices, row.customer.get());
    let balance = (u128::from(row.deposits) + returned).checked_sub(bought)?;
    Some(balance as u64)
}

// What the customer of this row has left, or 0 if there is no row; None if and only if that is below 0.
fn left_of(devices: &[Option<DeviceRow>], slot: &Option<CustomerRow>) -> Option<u64>
    requires count { length devices.now ≤ 8 }
    requires devices { All (λ o. IfSome o IsSoundDevice) devices.now }
    requires sound { IfSome slot.now IsSoundCustomer }
    ensures covered { IsSome result ↔ IfSome slot.now (IsCovered devices.now) }
    ensures value { IfSome result (λ left. left ≡ books.left_of devices.now slot.now) }
{
    match slot {
        Some(row) => balance_of(devices, row),
        None => Some(0),
    }
}

impl Balances {
    /// No customer has anything.
    pub fn none() -> Balances
        ensures { result ≡ replicate 64 0 }
    {
        Balances { left: [0; 64] }
    }

    /// The balances by the rows of all devices and customers, each row of a customer in its place. None if and only if
    /// a customer that is there has less than 0.
    pub fn of(devices: &[Option<DeviceRow>], customers: &[Option<CustomerRow>]) -> Option<Balances>
        requires device_count { length devices.now ≡ 8 }
        requires customer_count { length customers.now ≡ 64 }
        requires sound_devices { All (λ o. IfSome o IsSoundDevice) devices.now }
        requires sound_customers { All (λ o. IfSome o IsSoundCustomer) customers.now }
        ensures covered { IsSome result ↔ All (λ o. IfSome o (IsCovered devices.now)) customers.now }
        ensures value { IfSome result (λ balances. balances ≡ balances_by devices.now customers.now) }
    {
        let mut left = [0; 64];
        for (place, slot) in customers.iter().enumerate() {
            left[place] = left_of(devices, slot)?;
        }
        Some(Balances { left })
    }

    /// What the customer has left, and 0 where there is no such customer.
    pub fn get(&self, customer: Customer) -> u64
        ensures { result ≡ kept_at self.now customer }
    {
        self.left[customer.get() as usize - 1]
    }

    /// Adds to what the customer has left. The sum fits.
    pub fn add(&mut self, customer: Customer, amount: u64)
        requires { kept_at self.old customer + amount < 2 ^ 64 }
        ensures { self.new ≡ set self.old (customer - 1) (kept_at self.old customer + amount) }
    {
        self.left[customer.get() as usize - 1] += amount;
    }

    /// Takes from what the customer has left, which is no less.
    pub fn take(&mut self, customer: Customer, amount: u64)
        requires { amount ≤ kept_at self.old customer }
        ensures { self.new ≡ set self.old (customer - 1) (kept_at self.old customer - amount) }
    {
        self.left[customer.get() as usize - 1] -= amount;
    }
}
