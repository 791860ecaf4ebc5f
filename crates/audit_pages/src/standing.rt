//! What devices, customers and nodes have after the runs, for the page of an audit. Amounts are in mills.
ghost use Rattle.trace_bench.specs.Seeing.{IsReady, audit_of};

use crate::customers::trade_of;
use audit_book::Book;
use audit_facts::{Counts, CustomerStanding, DeviceStanding, NodeStanding, Standing};
use bench_base::events::{DevView, Reply};
use bench_base::numbers::{Customer, DayNo, DevNo};
use bench_base::words::{Kind, Node};
use std::alloc::{AllocError, Global};
use trace_bench::Auditor;

/// How a device and the centre compare.
#[derive(Clone, Copy)]
struct Compared {
    held: u64,
    centre: Option<u64>,
    flight: Option<Kind>,
    amount: u64,
}

// How the device, which holds so much, and the centre compare.
fn between(auditor: &Auditor, device: DevNo, view: &DevView) -> Compared
    requires ready { IsReady (audit_of auditor.now) }
{
    let alone = Compared {
        held: view.ascending.saturating_add(view.descending),
        centre: None,
        flight: None,
        amount: 0,
    };
    let Reply::Reconciled {
        held,
        centre,
        in_flight,
        ..
    } = auditor.reconcile_of(device)
    else {
        return alone;
    };
    let (flight, amount) = match in_flight {
        Some((kind, amount)) => (Some(kind), amount),
        None => (None, 0),
    };
    Compared {
        held,
        centre: Some(centre),
        flight,
        amount,
    }
}

// The customer of the device, if it was ever enrolled.
fn owner_of(auditor: &Auditor, device: DevNo) -> Option<Customer> {
    auditor.device_row(device)?.enrolment.customer()
}

// On which day the device asked for what it has out.
fn asked_on(book: &Book, device: DevNo) -> Option<DayNo> {
    book.ask_of(device)?.day
}

// What there is of a device of this customer, if it was made.
fn device_at(
    auditor: &Auditor,
    book: &Book,
    device: DevNo,
    customer: Option<Customer>,
    day: DayNo,
) -> Option<DeviceStanding>
    requires ready { IsReady (audit_of auditor.now) }
{
    let view = auditor.shown_of(device, day)?;
    let pair = between(auditor, device, &view);
    Some(DeviceStanding {
        device,
        customer,
        phase: view.phase,
        ascending: view.ascending,
        descending: view.descending,
        refunded: view.refunded,
        pieces: view.pieces,
        deadline: view.deadline,
        pending: view.pending,
        asked: asked_on(book, device),
        held: pair.held,
        centre: pair.centre,
        flight: pair.flight,
        amount: pair.amount,
    })
}

fn devices_of(
    alloc: Global,
    auditor: &Auditor,
    book: &Book,
) -> Result<Vec<DeviceStanding>, AllocError>
    requires ready { IsReady (audit_of auditor.now) }
{
    let mut devices = Vec::new(alloc);
    let Some(day) = book.last_day else {
        return Ok(devices);
    };
    for number in 1..9 {
        if let Some(device) = DevNo::new(number) {
            let customer = owner_of(auditor, device);
            if let Some(standing) = device_at(auditor, book, device, customer, day) {
                devices.push(standing)?;
            }
        }
    }
    Ok(devices)
}

// What there is of a customer, if it is open.
fn customer_at(auditor: &Auditor, customer: Customer) -> Option<CustomerStanding> {
    let row = auditor.customer_row(customer)?;
    let trade = trade_of(auditor, customer);
    Some(CustomerStanding {
        customer,
        deposits: row.deposits,
        bought: trade.bought,
        returned: trade.returned,
        balance: auditor.left_of(customer),
        is_suspended: row.suspended,
    })
}

fn customers_of(alloc: Global, auditor: &Auditor) -> Result<Vec<CustomerStanding>, AllocError> {
    let mut customers = Vec::new(alloc);
    for number in 1..65 {
        if let Some(customer) = Customer::new(number) {
            if let Some(standing) = customer_at(auditor, customer) {
                customers.push(standing)?;
            }
        }
    }
    Ok(customers)
}

fn node_at(number: u32) -> Node {
    match DevNo::new(number) {
        Some(device) => Node::Device(device),
        None => match number {
            9 => Node::Centre,
            10 => Node::Host,
            _ => Node::Verifier,
        },
    }
}

// The commits of each node: of a device, if it has one or one is in doubt.
fn nodes_of(alloc: Global, auditor: &Auditor) -> Result<Vec<NodeStanding>, AllocError>
    requires ready { IsReady (audit_of auditor.now) }
{
    let mut nodes = Vec::new(alloc);
    for number in 1..12 {
        let node = node_at(number);
        let commits = auditor.commits_of(&node);
        let is_open = auditor.is_open(&node);
        if number > 8 || commits > 0 || is_open {
            nodes.push(NodeStanding {
                node,
                commits,
                is_open,
            })?;
        }
    }
    Ok(nodes)
}

fn counts_of(auditor: &Auditor, book: &Book) -> Counts {
    Counts {
        ordered: auditor.last_job() as u64,
        held: book.held,
        begun: book.begun,
        printed: book.tally.printed,
        closed: book.closed,
        released: book.tally.released,
        released_again: book.tally.released_again,
        accepted: book.tally.accepted,
        accepted_again: book.tally.accepted_again,
        duplicates: book.tally.duplicates,
    }
}

// The first day and the last.
fn days_of(book: &Book) -> Option<(DayNo, DayNo)> {
    Some((book.first_day?, book.last_day?))
}

/// What devices, customers and nodes have after the runs that the auditor and the book went over. AllocError is lack of memory.
pub fn standing_of(alloc: Global, auditor: &Auditor, book: &Book) -> Result<Standing, AllocError>
    requires ready { IsReady (audit_of auditor.now) }
{
    let devices = devices_of(alloc, auditor, book)?;
    let customers = customers_of(alloc, auditor)?;
    let nodes = nodes_of(alloc, auditor)?;
    Ok(Standing {
        devices,
        customers,
        nodes,
        counts: counts_of(auditor, book),
        days: days_of(book),
    })
}
