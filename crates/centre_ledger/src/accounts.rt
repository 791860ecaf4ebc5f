//! The rows of the centre with the balances of its customers, which are kept beside the rows that they follow from.
ghost use Rattle.std.specs.Prelude.{◌≡◌, ℕ, ◌+◌, ◌^◌, ◌<◌, ◌≤◌, ◌↔◌, All, IfSome, IsSome, IsTrue, length};
ghost use Rattle.std.specs.Option.{option_copied};
ghost use Rattle.bench_base.specs.Ranges.{IsCustomer};
ghost use Rattle.centre_ledger.specs.declared.rows.Row.TheVariants as row_of;
ghost use Rattle.centre_ledger.specs.Soundness.{IsSoundDevice};
ghost use Rattle.centre_ledger.specs.Books as books;
ghost use Rattle.centre_ledger.specs.Books.{no_rows, device_at, customer_at, left_in, put_row, kept_at, balances_by, spent_in, IsOwned, ArePlaced, AreJoined, AreSound};

use crate::balances::Balances;
use crate::ready_row::{ReadyRow, keep, plain};
use crate::rows::{CustomerRow, DeviceRow, Row};
use bench_base::numbers::Customer;
use std::marker::Model;

/// All rows, each in the place of its device or customer, and what each customer has left, in mills.
///
/// The rows are sound, also together: the customer of a device is open, and no customer has less than 0.
#[derive(Drop)]
pub struct Accounts {
    devices: [Option<ReadyRow>; 8],
    customers: [Option<CustomerRow>; 64],
    balances: Balances,
}

impl Model for Accounts {
    ghost use Rattle.centre_ledger.specs.Books.{Books, IsDerived};

    ghost Value = { Books };

    ghost view = { λ a. record { devices = a.devices; customers = a.customers } };

    ghost invariant = { λ a. IsDerived (record { devices = a.devices; customers = a.customers }) a.balances };
}

fn is_owned(row: &DeviceRow, customers: &[Option<CustomerRow>; 64]) -> bool
    requires { IsSoundDevice row.now }
    ensures { IsTrue result ↔ IsOwned customers.now row.now }
{
    match row.enrolment.customer() {
        Some(customer) => customers[customer.get() as usize - 1].is_some(),
        None => true,
    }
}

fn are_owned(devices: &[Option<DeviceRow>; 8], customers: &[Option<CustomerRow>; 64]) -> bool
    requires { All (λ o. IfSome o IsSoundDevice) devices.now }
    ensures { IsTrue result ↔ All (λ o. IfSome o (IsOwned customers.now)) devices.now }
{
    for slot in devices {
        if let Some(row) = slot {
            if !is_owned(row, customers) {
                return false;
            }
        }
    }
    true
}

// What the device bought and did not give back goes back to its customer, where it has one.
fn give_back(balances: &mut Balances, slot: &Option<DeviceRow>)
    requires sound { IfSome slot.now IsSoundDevice }
    requires size { length balances.old ≡ 64 }
    requires fits { (w : ℕ) → IsCustomer w → kept_at balances.old w + spent_in w slot.now < 2 ^ 64 }
    ensures size { length balances.new ≡ length balances.old }
    ensures given { (w : ℕ) → IsCustomer w → kept_at balances.new w ≡ kept_at balances.old w + spent_in w slot.now }
{
    if let Some(row) = slot {
        if let Some(customer) = row.enrolment.customer() {
            balances.add(customer, row.buys - row.returns);
        }
    }
}

// What the device bought and did not give back is taken from its customer, where it has one.
fn charge(balances: &mut Balances, row: &DeviceRow)
    requires sound { IsSoundDevice row.now }
    requires covered { (w : ℕ) → IsCustomer w → spent_in w (Some row.now) ≤ kept_at balances.old w }
    ensures size { length balances.new ≡ length balances.old }
    ensures taken { (w : ℕ) → IsCustomer w → kept_at balances.new w + spent_in w (Some row.now) ≡ kept_at balances.old w }
{
    if let Some(customer) = row.enrolment.customer() {
        balances.take(customer, row.buys - row.returns);
    }
}

// The rows alone.
fn plain_rows(devices: &[Option<ReadyRow>; 8]) -> [Option<DeviceRow>; 8]
    ensures { result ≡ devices.now }
{
    let mut rows = [None; 8];
    for place in 0..8 {
        rows[place] = plain(&devices[place]);
    }
    rows
}

fn deposits_in(slot: &Option<CustomerRow>) -> u64
    ensures { result ≡ books.deposits_in slot.now }
{
    match slot {
        Some(row) => row.deposits,
        None => 0,
    }
}

impl Accounts {
    /// No row.
    pub fn empty() -> Accounts
        ensures value { result ≡ no_rows }
        ensures sound { AreSound result }
    {
        Accounts {
            devices: [None, None, None, None, None, None, None, None],
            customers: [None; 64],
            balances: Balances::none(),
        }
    }

    /// These rows, each sound and in its own place. None if and only if they do not agree: the customer of a device is not
    /// open, or a customer has less than 0.
    pub fn of(
        devices: [Option<ReadyRow>; 8],
        customers: [Option<CustomerRow>; 64],
    ) -> Option<Accounts>
        requires placed { ArePlaced (record { devices = devices; customers = customers }) }
        ensures joined { IsSome result ↔ AreJoined (record { devices = devices; customers = customers }) }
        ensures value { IfSome result (λ accounts. accounts ≡ record { devices = devices; customers = customers }) }
    {
        let rows = plain_rows(&devices);
        if !are_owned(&rows, &customers) {
            return None;
        }
        let balances = Balances::of(&rows, &customers)?;
        Some(Accounts {
            devices,
            customers,
            balances,
        })
    }

    /// The row of the device; None if and only if it is not registered.
    pub fn device(&self, device: u32) -> Option<&DeviceRow>
        ensures found { option_copied result ≡ device_at self.now device }
        ensures sound { AreSound self.now }
    {
        Some(self.ready(device)?.row())
    }

    /// The row of the device with its key made ready; None if and only if it is not registered.
    pub fn ready(&self, device: u32) -> Option<&ReadyRow>
        ensures found { option_copied result ≡ device_at self.now device }
        ensures sound { AreSound self.now }
    {
        let slots = &self.devices;
        let place = (device as usize).checked_sub(1)?;
        slots.get(place)?.as_ref()
    }

    /// The row of the customer; None if and only if it is not open.
    pub fn customer(&self, customer: u32) -> Option<&CustomerRow>
        ensures found { option_copied result ≡ customer_at self.now customer }
        ensures sound { AreSound self.now }
    {
        let slots = &self.customers;
        let place = (customer as usize).checked_sub(1)?;
        slots.get(place)?.as_ref()
    }

    /// What the customer has left, in mills, and 0 where there is no such customer.
    pub fn left(&self, customer: u32) -> u64
        ensures { result ≡ left_in self.now customer }
    {
        match Customer::new(customer) {
            Some(customer) => self.balances.get(customer),
            None => 0,
        }
    }

    /// What each customer has left.
    pub fn kept(&self) -> &Balances
        ensures { result.now ≡ balances_by self.now.devices self.now.customers }
    {
        &self.balances
    }

    /// Puts the row in its place. The rows are sound with it.
    pub fn put(&mut self, row: &Row)
        requires { AreSound (put_row self.old row.now) }
        ensures { self.new ≡ put_row self.old row.now }
    {
        match row {
            Row::Device(row) => self.put_device(row),
            Row::Customer(row) => self.put_customer(row),
        }
    }

    fn put_device(&mut self, row: &DeviceRow)
        requires { AreSound (put_row self.old (row_of.Device row.now)) }
        ensures { self.new ≡ put_row self.old (row_of.Device row.now) }
    {
        let place = row.device.get() as usize - 1;
        let before = plain(&self.devices[place]);
        give_back(&mut self.balances, &before);
        charge(&mut self.balances, row);
        keep(&mut self.devices[place], row);
    }

    fn put_customer(&mut self, row: &CustomerRow)
        requires { AreSound (put_row self.old (row_of.Customer row.now)) }
        ensures { self.new ≡ put_row self.old (row_of.Customer row.now) }
    {
        let place = row.customer.get() as usize - 1;
        let before = deposits_in(&self.customers[place]);
        self.balances.add(row.customer, row.deposits);
        self.balances.take(row.customer, before);
        self.customers[place] = Some(*row);
    }
}
