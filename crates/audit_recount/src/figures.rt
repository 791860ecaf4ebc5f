//! What the auditor knows of a node before or after a line. Amounts are in mills.
ghost use Rattle.trace_bench.specs.Seeing.{IsReady, audit_of};

use audit_book::{Figures, Ruling, Seen, last_ruling};
use audit_journal::{CommitKind, JournalEntry};
use bench_base::numbers::{Customer, DevNo};
use bench_base::words::Node;
use trace_bench::Auditor;

// The descending register of the device.
fn descending(auditor: &Auditor, device: DevNo) -> Option<u64>
    requires ready { IsReady (audit_of auditor.now) }
{
    Some(auditor.shown_of(device, auditor.day()?)?.descending)
}

// The customer of the device, if it was ever enrolled.
fn customer_of(auditor: &Auditor, device: DevNo) -> Option<Customer> {
    auditor.device_row(device)?.enrolment.customer()
}

/// The customer that the entry is of, by itself or by its device.
pub fn owner_of(auditor: &Auditor, entry: &JournalEntry) -> Option<Customer> {
    if let Some(customer) = entry.customer {
        return Some(customer);
    }
    customer_of(auditor, entry.device?)
}

// The balance of the customer that the commit is of.
fn balance(auditor: &Auditor, entry: &JournalEntry) -> Option<u64> {
    Some(auditor.left_of(owner_of(auditor, entry)?))
}

/// What is known of the node of the commit.
pub fn figures_of(auditor: &Auditor, entry: &JournalEntry) -> Figures
    requires ready { IsReady (audit_of auditor.now) }
{
    let balance = match entry.node {
        Node::Device(device) => descending(auditor, device),
        Node::Centre => balance(auditor, entry),
        Node::Host | Node::Verifier => None,
    };
    Figures {
        commits: auditor.commits_of(&entry.node),
        is_open: auditor.is_open(&entry.node),
        balance,
    }
}

// The last ruling on the device of the entry, if the commit is one of the centre on a request.
fn ruling_for(auditor: &Auditor, entry: &JournalEntry) -> Option<Ruling> {
    match entry.commit {
        CommitKind::Ruled | CommitKind::Settled => last_ruling(auditor.device_row(entry.device?)?),
        CommitKind::Made
        | CommitKind::Asked
        | CommitKind::Applied
        | CommitKind::Debited
        | CommitKind::Registered
        | CommitKind::Opened
        | CommitKind::Deposited
        | CommitKind::Suspended
        | CommitKind::Resumed
        | CommitKind::Ordered
        | CommitKind::Held
        | CommitKind::Begun
        | CommitKind::Printed
        | CommitKind::PrinterFault
        | CommitKind::Closed
        | CommitKind::Trusted
        | CommitKind::Accepted => None,
    }
}

/// What is known of the node of the commit after a line, beside what was known before.
pub fn seen_by(auditor: &Auditor, entry: &JournalEntry, before: Figures) -> Seen
    requires ready { IsReady (audit_of auditor.now) }
{
    Seen {
        before,
        after: figures_of(auditor, entry),
        customer: owner_of(auditor, entry),
        ruling: ruling_for(auditor, entry),
    }
}
