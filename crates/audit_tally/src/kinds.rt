//! What is counted of an event, and the commit that its reply reports.
use audit_journal::{Amount, CommitKind, JournalEntry};
use bench_base::events::{Event, Reply};
use bench_base::numbers::{Customer, DevNo};
use bench_base::words::{Kind, Node, Verdict};
use psd_wire::{DebitMsg, Message, read_message};

/// What is counted of an event.
#[derive(Clone, Copy)]
pub enum Doing {
    On(Node),
    /// A node is switched off.
    Off,
    /// What a device asks, and the amount of a reset, in mills.
    Ask {
        kind: Kind,
        amount: u32,
    },
    /// The class of the piece that is to be debited.
    Debit(u16),
    Order {
        device: DevNo,
        piece: u32,
        class: u16,
    },
    /// The job with the mark to be printed.
    Print(u32),
    /// The number of the message that is delivered.
    Deliver(u32),
    /// The Debit that is given from outside.
    Give(DebitMsg),
    Other,
}

// What is counted of bytes that are given from outside.
fn given(bytes: &[u8]) -> Doing {
    match read_message(bytes) {
        Ok(Message::Debit(debit)) => Doing::Give(debit),
        _ => Doing::Other,
    }
}

/// What is counted of the event.
pub fn doing_of(event: &Event) -> Doing {
    match event {
        Event::On(node) => Doing::On(*node),
        Event::Off(_) => Doing::Off,
        Event::Ask { kind, amount, .. } => Doing::Ask {
            kind: *kind,
            amount: *amount,
        },
        Event::Debit { class, .. } => Doing::Debit(*class),
        Event::Order {
            device,
            piece,
            class,
            ..
        } => Doing::Order {
            device: *device,
            piece: *piece,
            class: *class,
        },
        Event::Print(job) => Doing::Print(*job),
        Event::Deliver(message) => Doing::Deliver(*message),
        Event::Give { bytes, .. } => given(bytes.as_slice()),
        Event::Day(_)
        | Event::Rates
        | Event::Make { .. }
        | Event::Cut { .. }
        | Event::Resend(_)
        | Event::Ack(_)
        | Event::Status(_)
        | Event::Register { .. }
        | Event::OpenCustomer(_)
        | Event::Deposit { .. }
        | Event::Flag { .. }
        | Event::Balance(_)
        | Event::Send(_)
        | Event::Close(_)
        | Event::Trust { .. }
        | Event::ScanMsg { .. }
        | Event::ScanHex { .. }
        | Event::Reconcile(_)
        | Event::End => Doing::Other,
    }
}

fn of_device(device: DevNo, commit: CommitKind, number: u32) -> Option<JournalEntry> {
    Some(JournalEntry {
        device: Some(device),
        number,
        ..JournalEntry::new(Node::Device(device), commit)
    })
}

fn of_centre(device: DevNo, commit: CommitKind, number: u32) -> Option<JournalEntry> {
    Some(JournalEntry {
        device: Some(device),
        number,
        ..JournalEntry::new(Node::Centre, commit)
    })
}

fn of_customer(customer: Customer, commit: CommitKind, number: u32) -> Option<JournalEntry> {
    Some(JournalEntry {
        customer: Some(customer),
        number,
        ..JournalEntry::new(Node::Centre, commit)
    })
}

fn of_job(commit: CommitKind, job: u32) -> Option<JournalEntry> {
    Some(JournalEntry {
        number: job,
        job: Some(job),
        ..JournalEntry::new(Node::Host, commit)
    })
}

fn trusted(device: DevNo) -> Option<JournalEntry> {
    Some(JournalEntry {
        device: Some(device),
        ..JournalEntry::new(Node::Verifier, CommitKind::Trusted)
    })
}

fn accepted(device: DevNo, piece: u32) -> Option<JournalEntry> {
    Some(JournalEntry {
        device: Some(device),
        number: piece,
        piece: Some(piece),
        ..JournalEntry::new(Node::Verifier, CommitKind::Accepted)
    })
}

// What a reset asks for. The other amounts are the device's.
fn amount_asked(kind: Kind, amount: u32) -> Option<u64> {
    match kind {
        Kind::Reset => Some(amount as u64),
        Kind::Enrol | Kind::Audit | Kind::Refund | Kind::Withdraw => None,
    }
}

fn asked(doing: &Doing, device: DevNo, number: u32) -> Option<JournalEntry> {
    let entry = of_device(device, CommitKind::Asked, number)?;
    match doing {
        Doing::Ask { kind, amount } => Some(JournalEntry {
            request: Some(*kind),
            asked: amount_asked(*kind, *amount),
            ..entry
        }),
        _ => Some(entry),
    }
}

fn applied(device: DevNo, number: u32, verdict: Verdict) -> Option<JournalEntry> {
    let entry = of_device(device, CommitKind::Applied, number)?;
    Some(JournalEntry {
        verdict: Some(verdict),
        ..entry
    })
}

// The class of the piece, if the event names one.
fn class_in(doing: &Doing) -> Option<u16> {
    match doing {
        Doing::Debit(class) => Some(*class),
        Doing::Give(debit) => Some(debit.class),
        _ => None,
    }
}

fn debited(doing: &Doing, device: DevNo, piece: u32) -> Option<JournalEntry> {
    let entry = of_device(device, CommitKind::Debited, piece)?;
    Some(JournalEntry {
        piece: Some(piece),
        class: class_in(doing),
        ..entry
    })
}

fn ordered(doing: &Doing, job: u32, postage: u32) -> Option<JournalEntry> {
    let entry = of_job(CommitKind::Ordered, job)?;
    let amount = Some(Amount {
        minus: false,
        size: postage as u64,
    });
    match doing {
        Doing::Order {
            device,
            piece,
            class,
        } => Some(JournalEntry {
            device: Some(*device),
            piece: Some(*piece),
            class: Some(*class),
            amount,
            ..entry
        }),
        _ => Some(JournalEntry { amount, ..entry }),
    }
}

fn flagged(customer: Customer, suspended: bool) -> Option<JournalEntry> {
    let commit = if suspended {
        CommitKind::Suspended
    } else {
        CommitKind::Resumed
    };
    of_customer(customer, commit, 0)
}

/// The commit that the event makes if this is the answer that is due and the node's storage takes it. None if the answer is of none.
pub fn entry_of(doing: &Doing, due: &Reply) -> Option<JournalEntry> {
    match due {
        Reply::Made(device) => of_device(*device, CommitKind::Made, 0),
        Reply::SentRequest { device, number, .. } => asked(doing, *device, *number),
        Reply::Applied {
            device,
            number,
            verdict,
        } => applied(*device, *number, *verdict),
        Reply::Marked { device, piece, .. } | Reply::Released { device, piece, .. } => {
            debited(doing, *device, *piece)
        }
        Reply::Registered(device) => of_centre(*device, CommitKind::Registered, 0),
        Reply::Ruled { device, number, .. } => of_centre(*device, CommitKind::Ruled, *number),
        Reply::Settled { device, number, .. } => of_centre(*device, CommitKind::Settled, *number),
        Reply::Opened(customer) => of_customer(*customer, CommitKind::Opened, 0),
        Reply::Deposited {
            customer,
            receipt,
            ..
        } => of_customer(*customer, CommitKind::Deposited, *receipt),
        Reply::Flagged {
            customer,
            suspended,
        } => flagged(*customer, *suspended),
        Reply::Ordered { job, postage } => ordered(doing, *job, *postage),
        Reply::Held(job) => of_job(CommitKind::Held, *job),
        Reply::Printed(job) | Reply::PrinterFault(job) => of_job(CommitKind::Begun, *job),
        Reply::Closed(job) => of_job(CommitKind::Closed, *job),
        Reply::Trusted(device) => trusted(*device),
        Reply::Accepted { device, piece, .. } => accepted(*device, *piece),
        Reply::Day(_)
        | Reply::Rates { .. }
        | Reply::RatesFault
        | Reply::RatesLength
        | Reply::RatesToml
        | Reply::RatesForm
        | Reply::Up { .. }
        | Reply::Down(_)
        | Reply::CutSet(_)
        | Reply::SentDone { .. }
        | Reply::Status { .. }
        | Reply::Balance { .. }
        | Reply::SentDebit { .. }
        | Reply::Reconciled { .. }
        | Reply::End
        | Reply::NoDay
        | Reply::NoMessage(_)
        | Reply::OffNode(_)
        | Reply::OnAlready(_)
        | Reply::Power(_)
        | Reply::Fault(_)
        | Reply::Worn(_)
        | Reply::Damaged(_)
        | Reply::DevRefused { .. }
        | Reply::CentreRefused(_)
        | Reply::HostRefused(_)
        | Reply::ScanRefused(_) => None,
    }
}
