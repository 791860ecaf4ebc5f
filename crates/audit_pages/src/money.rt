//! The places of all money: with customers, on the way to a device, on devices, or franked. Amounts are in mills.
ghost use Rattle.trace_bench.specs.Seeing.{IsReady, audit_of};

use crate::rulings::ruling_of;
use crate::saying::say;
use audit_book::Ruling;
use audit_journal::{BookFault, money_text};
use bench_base::events::DevView;
use bench_base::numbers::{Customer, DayNo, DevNo};
use bench_base::words::{Kind, Verdict};
use std::alloc::{AllocError, Global};
use trace_bench::Auditor;

/// The sums of all customers and devices.
#[derive(Clone, Copy)]
struct Sums {
    deposits: u64,
    customers: u64,
    way: u64,
    devices: u64,
}

// The last ruling on the device, if it was granted and the device has not applied it.
fn granted_on_the_way(auditor: &Auditor, device: DevNo, view: &DevView) -> Option<Ruling> {
    let ruling = ruling_of(auditor, device)?;
    if ruling.number > view.number && matches!(ruling.verdict, Verdict::Granted) {
        Some(ruling)
    } else {
        None
    }
}

// Adds what the device has. A reset that it has not applied is on the way; a refund that it has not applied is with the customer already.
fn add_device(auditor: &Auditor, sums: &mut Sums, device: DevNo, view: &DevView) {
    let mut left = view.descending;
    if let Some(ruling) = granted_on_the_way(auditor, device, view) {
        match ruling.kind {
            Kind::Reset => sums.way = sums.way.saturating_add(ruling.asked),
            Kind::Refund | Kind::Withdraw => left = left.saturating_sub(ruling.asked),
            Kind::Enrol | Kind::Audit => {}
        }
    }
    sums.devices = sums.devices.saturating_add(left);
}

// Adds what the device of this number has, if it was made.
fn add_number(auditor: &Auditor, sums: &mut Sums, number: u32, day: DayNo)
    requires ready { IsReady (audit_of auditor.now) }
{
    let Some(device) = DevNo::new(number) else {
        return;
    };
    if let Some(view) = auditor.shown_of(device, day) {
        add_device(auditor, sums, device, &view);
    }
}

fn add_devices(auditor: &Auditor, sums: &mut Sums, day: DayNo)
    requires ready { IsReady (audit_of auditor.now) }
{
    for number in 1..9 {
        add_number(auditor, sums, number, day);
    }
}

// Adds what the customer paid in and has left, if it is open.
fn add_customer(auditor: &Auditor, sums: &mut Sums, customer: Customer) {
    if let Some(row) = auditor.customer_row(customer) {
        sums.deposits = sums.deposits.saturating_add(row.deposits);
        sums.customers = sums.customers.saturating_add(auditor.left_of(customer));
    }
}

fn add_customers(auditor: &Auditor, sums: &mut Sums) {
    for number in 1..65 {
        if let Some(customer) = Customer::new(number) {
            add_customer(auditor, sums, customer);
        }
    }
}

// What customers paid in and have left.
fn paid_text(alloc: Global, sums: &Sums) -> Result<String, AllocError> {
    let deposits = money_text(alloc, sums.deposits)?;
    let customers = money_text(alloc, sums.customers)?;
    format!(in alloc; "deposits {deposits} customers {customers}")
}

// What is on the way to devices and on them.
fn loaded_text(alloc: Global, sums: &Sums) -> Result<String, AllocError> {
    let way = money_text(alloc, sums.way)?;
    let devices = money_text(alloc, sums.devices)?;
    format!(in alloc; "way {way} devices {devices}")
}

fn sums_text(alloc: Global, sums: &Sums, franked: u64) -> Result<String, AllocError> {
    let paid = paid_text(alloc, sums)?;
    let loaded = loaded_text(alloc, sums)?;
    let franked = money_text(alloc, franked)?;
    format!(in alloc; "money {paid} {loaded} franked {franked}")
}

/// Prints where the money is: the deposits are the sum of the others. BookFault::Write if standard output takes no more, BookFault::Memory is lack of memory.
pub fn tell_money(
    rt: &HostRuntime,
    auditor: &Auditor,
    franked: u64,
    day: Option<DayNo>,
) -> Result<(), BookFault>
    requires ready { IsReady (audit_of auditor.now) }
{
    let mut sums = Sums {
        deposits: 0,
        customers: 0,
        way: 0,
        devices: 0,
    };
    add_customers(auditor, &mut sums);
    if let Some(day) = day {
        add_devices(auditor, &mut sums, day);
    }
    say(rt, sums_text(rt.alloc(), &sums, franked))
}
