//! What is recorded: the commits of the nodes, and the entries of the ledger. Money is in mills.
ghost use Rattle.std.specs.Prelude.{◌≡◌};

use crate::bytes::Note;
use crate::numbers::{Customer, DayNo, DevNo};
use crate::words::{Key, Node, Verdict};
use std::marker::Model;

/// A change of one node's record, made whole or not at all.
#[derive(Clone, Copy)]
pub enum Commit {
    Made {
        device: DevNo,
        key: Key,
    },
    /// The request, as it was sent.
    Asked {
        device: DevNo,
        number: u32,
        request: Note,
    },
    Applied {
        device: DevNo,
        number: u32,
        verdict: Verdict,
    },
    /// The version is that of the mark.
    Debited {
        device: DevNo,
        piece: u32,
        postage: u32,
        class: u16,
        day: DayNo,
        version: u8,
    },
    Registered {
        device: DevNo,
        origin: u32,
        key: Key,
    },
    Opened(Customer),
    Deposited {
        customer: Customer,
        receipt: u32,
        amount: u32,
    },
    Flagged {
        customer: Customer,
        suspended: bool,
    },
    /// The ruling on the request of this number, and that request.
    Ruled {
        device: DevNo,
        number: u32,
        verdict: Verdict,
        request: Note,
    },
    Settled {
        device: DevNo,
        number: u32,
    },
    Ordered {
        job: u32,
        device: DevNo,
        piece: u32,
        postage: u32,
        class: u16,
    },
    Held {
        job: u32,
        mark: [u8; 64],
    },
    /// The number of a job, as in the next.
    Began(u32),
    Closed(u32),
    Trusted {
        device: DevNo,
        key: Key,
    },
    Accepted {
        device: DevNo,
        piece: u32,
        scan: u32,
    },
}

/// One entry of the ledger: what happened on the bench, as far as anyone may rely on it.
#[derive(Drop)]
pub enum Entry {
    Commit(Commit),
    /// A commit of a node that failed: it may count or not.
    Torn {
        node: Node,
        commit: Commit,
    },
    Begin,
    Day(DayNo),
    /// The text that the rates were read from.
    Rates(Text),
    Sent(Note),
    Released {
        device: DevNo,
        piece: u32,
        mark: [u8; 64],
    },
    Printed {
        job: u32,
        mark: [u8; 64],
    },
    /// A node came on with this many commits.
    Up {
        node: Node,
        commits: u64,
    },
    Down(Node),
}

/// Bytes of any length; contracts see them as a list.
#[derive(Drop)]
pub struct Text {
    bytes: Vec<u8>,
}

impl Model for Text {
    ghost use Rattle.std.specs.Prelude.{List, ℕ};

    ghost Value = { List ℕ };

    ghost view = { λ t. t.bytes.items };
}

impl Text {
    pub fn new(bytes: Vec<u8>) -> Text
        ensures { result ≡ bytes.items }
    {
        Text { bytes }
    }

    pub fn as_slice(&self) -> &[u8]
        ensures { result.now ≡ self.now }
    {
        self.bytes.as_slice()
    }
}
