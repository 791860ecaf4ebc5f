//! The entries of the ordinary path: device 1 is made, registered, enrolled, inspected and filled, and one piece is franked, printed and accepted.
use crate::messages::{
    AUDIT, DEBIT, DONE, ENROL, ENROLLED, FILLED, FIRST_MARK, INSPECTED, RELEASE, RESET,
};
use crate::today;
use bench_base::bytes::Note;
use bench_base::ledger::{Commit, Entry, Text};
use bench_base::numbers::{Customer, DayNo, DevNo};
use bench_base::words::{Node, Verdict};
use std::alloc::Global;

/// How many entries the path has.
pub const LENGTH: usize = 39;

/// Device 1.
pub fn device() -> DevNo {
    let Some(device) = DevNo::new(1) else {
        unreachable!();
    };
    device
}

/// Customer 1.
pub fn customer() -> Customer {
    let Some(customer) = Customer::new(1) else {
        unreachable!();
    };
    customer
}

/// The first of March 2026.
pub fn first_day() -> DayNo {
    let Some(day) = DayNo::new(20513) else {
        unreachable!();
    };
    day
}

/// In which version requests, replies and marks of the path are.
#[derive(Clone, Copy)]
pub enum Version {
    First,
    Today,
}

fn number_of(version: Version) -> u8 {
    match version {
        Version::First => 1,
        Version::Today => 2,
    }
}

fn request_of(version: Version, number: u32) -> Note {
    match (version, number) {
        (Version::First, 1) => Note::of(&ENROL),
        (Version::First, 2) => Note::of(&AUDIT),
        (Version::First, _) => Note::of(&RESET),
        (Version::Today, 1) => Note::of(&today::ENROL),
        (Version::Today, 2) => Note::of(&today::AUDIT),
        (Version::Today, _) => Note::of(&today::RESET),
    }
}

fn reply_of(version: Version, number: u32) -> Note {
    match (version, number) {
        (Version::First, 1) => Note::of(&ENROLLED),
        (Version::First, 2) => Note::of(&INSPECTED),
        (Version::First, _) => Note::of(&FILLED),
        (Version::Today, 1) => Note::of(&today::ENROLLED),
        (Version::Today, 2) => Note::of(&today::INSPECTED),
        (Version::Today, _) => Note::of(&today::FILLED),
    }
}

/// The mark of piece 1.
pub fn mark_of(version: Version) -> [u8; 64] {
    match version {
        Version::First => FIRST_MARK,
        Version::Today => today::FIRST_MARK,
    }
}

fn release_of(version: Version) -> Note {
    match version {
        Version::First => Note::of(&RELEASE),
        Version::Today => Note::of(&today::RELEASE),
    }
}

fn commit(version: Version, at: usize) -> Option<Commit> {
    let d = device();
    let granted = Verdict::Granted;
    let made = match at {
        7 => Commit::Made {
            device: d,
            key: [1; 32],
        },
        8 => Commit::Registered {
            device: d,
            origin: 94105,
            key: [1; 32],
        },
        9 => Commit::Trusted {
            device: d,
            key: [1; 32],
        },
        10 => Commit::Opened(customer()),
        11 => Commit::Deposited {
            customer: customer(),
            receipt: 1,
            amount: 100000,
        },
        12 => Commit::Asked {
            device: d,
            number: 1,
            request: request_of(version, 1),
        },
        14 => Commit::Ruled {
            device: d,
            number: 1,
            verdict: granted,
            request: request_of(version, 1),
        },
        16 => Commit::Applied {
            device: d,
            number: 1,
            verdict: granted,
        },
        17 => Commit::Asked {
            device: d,
            number: 2,
            request: request_of(version, 2),
        },
        19 => Commit::Ruled {
            device: d,
            number: 2,
            verdict: granted,
            request: request_of(version, 2),
        },
        21 => Commit::Applied {
            device: d,
            number: 2,
            verdict: granted,
        },
        22 => Commit::Asked {
            device: d,
            number: 3,
            request: request_of(version, 3),
        },
        24 => Commit::Ruled {
            device: d,
            number: 3,
            verdict: granted,
            request: request_of(version, 3),
        },
        26 => Commit::Applied {
            device: d,
            number: 3,
            verdict: granted,
        },
        28 => Commit::Settled {
            device: d,
            number: 3,
        },
        29 => Commit::Ordered {
            job: 1,
            device: d,
            piece: 1,
            postage: 550,
            class: 1,
        },
        31 => Commit::Debited {
            device: d,
            piece: 1,
            postage: 550,
            class: 1,
            day: first_day(),
            version: number_of(version),
        },
        34 => Commit::Held {
            job: 1,
            mark: mark_of(version),
        },
        35 => Commit::Began(1),
        37 => Commit::Closed(1),
        38 => Commit::Accepted {
            device: d,
            piece: 1,
            scan: 1,
        },
        _ => return None,
    };
    Some(made)
}

fn message(version: Version, at: usize) -> Option<Note> {
    let sent = match at {
        13 => request_of(version, 1),
        15 => reply_of(version, 1),
        18 => request_of(version, 2),
        20 => reply_of(version, 2),
        23 => request_of(version, 3),
        25 => reply_of(version, 3),
        27 => Note::of(&DONE),
        30 => Note::of(&DEBIT),
        33 => release_of(version),
        _ => return None,
    };
    Some(sent)
}

/// The entry at this place. The text of the rates is left empty: no clause speaks of it.
pub fn entry(alloc: Global, version: Version, at: usize) -> Option<Entry> {
    if let Some(commit) = commit(version, at) {
        return Some(Entry::Commit(commit));
    }
    if let Some(note) = message(version, at) {
        return Some(Entry::Sent(note));
    }
    let other = match at {
        0 => Entry::Begin,
        1 => Entry::Day(first_day()),
        2 => Entry::Rates(Text::new(Vec::new(alloc))),
        3 => Entry::Up {
            node: Node::Centre,
            commits: 0,
        },
        4 => Entry::Up {
            node: Node::Host,
            commits: 0,
        },
        5 => Entry::Up {
            node: Node::Verifier,
            commits: 0,
        },
        6 => Entry::Up {
            node: Node::Device(device()),
            commits: 0,
        },
        32 => Entry::Released {
            device: device(),
            piece: 1,
            mark: mark_of(version),
        },
        36 => Entry::Printed {
            job: 1,
            mark: mark_of(version),
        },
        _ => return None,
    };
    Some(other)
}
