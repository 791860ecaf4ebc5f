//! What a node did at a line of a script, as the journal shows it. Amounts are in mills.
ghost use Rattle.std.specs.Prelude.{◌<◌};

use bench_base::numbers::{Customer, DayNo, DevNo};
use bench_base::words::{Kind, Node, Verdict};

/// What a commit did; `Printed` and `PrinterFault` are what became of a print, which is no commit of its own.
#[derive(Clone, Copy)]
pub enum CommitKind {
    Made,
    Asked,
    Applied,
    Debited,
    Registered,
    Ruled,
    Settled,
    Opened,
    Deposited,
    Suspended,
    Resumed,
    Ordered,
    Held,
    Begun,
    Printed,
    PrinterFault,
    Closed,
    Trusted,
    Accepted,
}

/// Whose balance an entry has: the descending register of a device, or what a customer has left.
#[derive(Clone, Copy)]
pub enum Account {
    Device(DevNo),
    Customer(Customer),
}

/// An amount that may be below 0, in mills.
#[derive(Clone, Copy)]
pub struct Amount {
    pub minus: bool,
    pub size: u64,
}

/// What a node did. What is not known, or not there, is None.
#[derive(Clone, Copy)]
pub struct JournalEntry {
    pub node: Node,
    pub commit: CommitKind,
    pub day: Option<DayNo>,
    /// What a device asked for, of the four kinds of a request.
    pub request: Option<Kind>,
    /// How the centre ruled on the request.
    pub verdict: Option<Verdict>,
    pub device: Option<DevNo>,
    /// The customer of a call of the centre, or of the device that is enrolled.
    pub customer: Option<Customer>,
    /// The number of a request, a piece, a receipt or a job; 0 if there is no number.
    pub number: u32,
    pub piece: Option<u32>,
    pub job: Option<u32>,
    pub class: Option<u16>,
    /// What a reset, a refund or a withdrawal asks for, in mills.
    pub asked: Option<u64>,
    /// What was added to the balance, or the postage of an order or an acceptance, in mills.
    pub amount: Option<Amount>,
    pub account: Option<Account>,
    /// The balance of the account after the commit, in mills.
    pub balance: Option<u64>,
}

impl JournalEntry {
    /// An entry with only the node and the kind of commit known.
    pub fn new(node: Node, commit: CommitKind) -> JournalEntry {
        JournalEntry {
            node,
            commit,
            day: None,
            request: None,
            verdict: None,
            device: None,
            customer: None,
            number: 0,
            piece: None,
            job: None,
            class: None,
            asked: None,
            amount: None,
            account: None,
            balance: None,
        }
    }
}

/// A line of the script of a run, counted from 1.
#[derive(Clone, Copy)]
pub struct At<'a> {
    pub run: &'a str,
    pub line: u32,
}

/// A row of the journal.
#[derive(Clone, Copy)]
pub struct Row<'a> {
    /// The line of the event that made the commit.
    pub at: At<'a>,
    pub entry: JournalEntry,
    /// The `up` that made a commit count that was in doubt.
    pub counted: Option<At<'a>>,
}

/// The place of the node among all, counted from 0: the devices, the centre, the host, the verifier.
pub fn place_of(node: &Node) -> usize
    ensures { result < 11 }
{
    match node {
        Node::Device(device) => device.get() as usize - 1,
        Node::Centre => 8,
        Node::Host => 9,
        Node::Verifier => 10,
    }
}
