//! The events that each run begins with.
ghost use Rattle.std.specs.Prelude.{◌≡◌, ◌-◌, pos, slice_get};
ghost use Rattle.generator.specs.Opening.{opening, first_debits};

use bench_base::events::Event;
use bench_base::numbers::{Customer, DayNo, DevNo};
use bench_base::words::{Key, Kind, Node};

const FIRST_KEY: Key = [1; 32];

// 2026-03-01.
fn first_day() -> DayNo
    ensures { result ≡ pos 20513 }
{
    match DayNo::new(20_513) {
        Some(day) => day,
        None => unreachable!(),
    }
}

/// Device 1, with which each generated event deals.
pub fn first_device() -> DevNo
    ensures { result ≡ 1 }
{
    match DevNo::new(1) {
        Some(device) => device,
        None => unreachable!(),
    }
}

fn first_customer() -> Customer
    ensures { result ≡ 1 }
{
    match Customer::new(1) {
        Some(customer) => customer,
        None => unreachable!(),
    }
}

// The debit in this place after all other events, one mill in class 1; None after that of piece 10.
fn debit_event(place: u32) -> Option<Event>
    ensures value { result ≡ slice_get first_debits place }
{
    if place > 9 {
        return None;
    }
    Some(Event::Debit {
        device: first_device(),
        piece: place + 1,
        postage: 1,
        class: 1,
    })
}

/// The event in this place of the opening, counted from 0; None after the last of its 28 events.
pub fn opening_event(place: u32) -> Option<Event>
    ensures value { result ≡ slice_get opening place }
{
    let device = first_device();
    let customer = first_customer();
    match place {
        0 => Some(Event::Day(first_day())),
        1 => Some(Event::On(Node::Centre)),
        2 => Some(Event::On(Node::Verifier)),
        3 => Some(Event::On(Node::Device(device))),
        4 => Some(Event::Make {
            device,
            key: FIRST_KEY,
        }),
        5 => Some(Event::Register {
            device,
            origin: 94_105,
            key: FIRST_KEY,
        }),
        6 => Some(Event::Trust {
            device,
            key: FIRST_KEY,
        }),
        7 => Some(Event::OpenCustomer(customer)),
        8 => Some(Event::Deposit {
            customer,
            receipt: 1,
            amount: 1_000_000_000,
        }),
        9 => Some(Event::Ask {
            device,
            kind: Kind::Enrol,
            customer: 1,
            amount: 0,
        }),
        10 => Some(Event::Deliver(0)),
        11 => Some(Event::Deliver(1)),
        12 => Some(Event::Ask {
            device,
            kind: Kind::Audit,
            customer: 0,
            amount: 0,
        }),
        13 => Some(Event::Deliver(2)),
        14 => Some(Event::Deliver(3)),
        15 => Some(Event::Ask {
            device,
            kind: Kind::Reset,
            customer: 0,
            amount: 1_000_000,
        }),
        16 => Some(Event::Deliver(4)),
        17 => Some(Event::Deliver(5)),
        _ => debit_event(place - 18),
    }
}
