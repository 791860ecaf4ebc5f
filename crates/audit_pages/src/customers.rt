//! The customers on a page. Amounts are in mills.
use crate::saying::say;
use audit_journal::{BookFault, money_text};
use bench_base::numbers::{Customer, DevNo};
use std::alloc::{AllocError, Global};
use trace_bench::Auditor;

/// What a customer's devices bought and gave back.
#[derive(Clone, Copy)]
pub(crate) struct Trade {
    pub bought: u64,
    pub returned: u64,
}

// Adds what the device bought and gave back, if it is the customer's. All sums of a centre fit.
fn add_device(auditor: &Auditor, trade: &mut Trade, device: DevNo, customer: Customer) {
    let Some(row) = auditor.device_row(device) else {
        return;
    };
    if row.enrolment.is_under(customer.get()) {
        trade.bought = trade.bought.saturating_add(row.buys);
        trade.returned = trade.returned.saturating_add(row.returns);
    }
}

/// What the customer's devices bought and gave back.
pub(crate) fn trade_of(auditor: &Auditor, customer: Customer) -> Trade {
    let mut trade = Trade {
        bought: 0,
        returned: 0,
    };
    for number in 1..9 {
        if let Some(device) = DevNo::new(number) {
            add_device(auditor, &mut trade, device, customer);
        }
    }
    trade
}

// What a customer bought and got back.
fn trade_text(alloc: Global, trade: &Trade) -> Result<String, AllocError> {
    let bought = money_text(alloc, trade.bought)?;
    let returned = money_text(alloc, trade.returned)?;
    format!(in alloc; "bought {bought} returned {returned}")
}

// What a customer paid in, bought, got back and has left.
fn account_text(
    alloc: Global,
    deposits: u64,
    trade: &Trade,
    left: u64,
) -> Result<String, AllocError> {
    let deposits = money_text(alloc, deposits)?;
    let traded = trade_text(alloc, trade)?;
    let left = money_text(alloc, left)?;
    format!(in alloc; "deposits {deposits} {traded} balance {left}")
}

fn customer_text(
    alloc: Global,
    auditor: &Auditor,
    customer: Customer,
    deposits: u64,
    is_suspended: bool,
) -> Result<String, AllocError> {
    let trade = trade_of(auditor, customer);
    let account = account_text(alloc, deposits, &trade, auditor.left_of(customer))?;
    let standing = if is_suspended { " suspended" } else { "" };
    format!(in alloc; "customer {} {account}{standing}", customer.get())
}

// Prints what there is of a customer that is open.
fn tell_customer(rt: &HostRuntime, auditor: &Auditor, customer: Customer) -> Result<(), BookFault> {
    let Some(row) = auditor.customer_row(customer) else {
        return Ok(());
    };
    let (deposits, is_suspended) = (row.deposits, row.suspended);
    say(
        rt,
        customer_text(rt.alloc(), auditor, customer, deposits, is_suspended),
    )
}

/// Prints what there is of each customer that is open. BookFault::Write if standard output takes no more, BookFault::Memory is lack of memory.
pub fn tell_customers(rt: &HostRuntime, auditor: &Auditor) -> Result<(), BookFault> {
    for number in 1..65 {
        if let Some(customer) = Customer::new(number) {
            tell_customer(rt, auditor, customer)?;
        }
    }
    Ok(())
}
