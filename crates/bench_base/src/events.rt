//! What the bench is asked, and what it answers. Money is in mills.
use crate::bytes::Given;
use crate::numbers::{Customer, DayNo, DevNo};
use crate::refusals::{CentreRefusal, DevRefusal, HostRefusal, ScanRefusal};
use crate::words::{Key, Kind, Node, Phase, Verdict};

/// One line of a script: at most one change of one node.
#[derive(Clone, Copy)]
pub enum Event {
    Day(DayNo),
    /// Reads the rates to come, as text.
    Rates,
    Make {
        device: DevNo,
        key: Key,
    },
    On(Node),
    Off(Node),
    /// After `calls` more calls of its storage the node loses power; of the write in hand `keep`
    /// bytes are kept, and the others hold the byte.
    Cut {
        node: Node,
        calls: u32,
        keep: u32,
        byte: u8,
    },
    Debit {
        device: DevNo,
        piece: u32,
        postage: u32,
        class: u16,
    },
    /// The customer is that of an enrolment, otherwise 0; the amount that of a reset, otherwise 0.
    Ask {
        device: DevNo,
        kind: Kind,
        customer: u32,
        amount: u32,
    },
    Resend(DevNo),
    Ack(DevNo),
    Status(DevNo),
    Register {
        device: DevNo,
        origin: u32,
        key: Key,
    },
    OpenCustomer(Customer),
    Deposit {
        customer: Customer,
        receipt: u32,
        amount: u32,
    },
    /// The customer is suspended from now on, or no more.
    Flag {
        customer: Customer,
        suspended: bool,
    },
    Balance(Customer),
    /// Hands the message of this number to the node that it is for.
    Deliver(u32),
    /// Hands bytes from outside to a node.
    Give {
        node: Node,
        bytes: Given,
    },
    Order {
        device: DevNo,
        piece: u32,
        class: u16,
        grams: u32,
        zone: u32,
    },
    /// The number of a job, as in the next two.
    Send(u32),
    Print(u32),
    Close(u32),
    Trust {
        device: DevNo,
        key: Key,
    },
    /// Scans the mark of the message, under this scan number.
    ScanMsg {
        scan: u32,
        message: u32,
    },
    /// Scans these bytes, under this scan number.
    ScanHex {
        scan: u32,
        bytes: Given,
    },
    Reconcile(DevNo),
    End,
}

/// What a device shows of its record on a day. Sums are in mills.
#[derive(Clone, Copy)]
pub struct DevView {
    pub phase: Phase,
    pub ascending: u64,
    pub descending: u64,
    pub refunded: u64,
    pub pieces: u32,
    /// The number of the last transaction that was applied.
    pub number: u32,
    /// The last day before the device is locked, in days since 1970-01-01; 0 without one.
    pub deadline: i32,
    /// The kind of what is outstanding.
    pub pending: Option<Kind>,
}

/// The answer to one event, and one line of the report.
#[derive(Clone, Copy)]
pub enum Reply {
    Day(DayNo),
    /// How many classes and zones the rates have.
    Rates {
        classes: u32,
        zones: u32,
    },
    RatesFault,
    RatesLength,
    RatesToml,
    RatesForm,
    Made(DevNo),
    /// The node is on, with this many commits.
    Up {
        node: Node,
        commits: u64,
    },
    Down(Node),
    CutSet(Node),
    /// `again` says, here and below, that the same was done before.
    Marked {
        device: DevNo,
        piece: u32,
        again: bool,
        mark: [u8; 64],
    },
    /// `number` is here and below that of the device's transaction, `message` that of the message which was sent.
    SentRequest {
        device: DevNo,
        number: u32,
        message: u32,
    },
    SentDone {
        device: DevNo,
        number: u32,
        message: u32,
    },
    Status {
        device: DevNo,
        view: DevView,
    },
    Registered(DevNo),
    Opened(Customer),
    /// `total` is what the customer has deposited so far.
    Deposited {
        customer: Customer,
        receipt: u32,
        again: bool,
        total: u64,
    },
    Flagged {
        customer: Customer,
        suspended: bool,
    },
    Balance {
        customer: Customer,
        left: u64,
    },
    Ruled {
        device: DevNo,
        number: u32,
        verdict: Verdict,
        again: bool,
        message: u32,
    },
    Settled {
        device: DevNo,
        number: u32,
        again: bool,
    },
    Applied {
        device: DevNo,
        number: u32,
        verdict: Verdict,
    },
    Released {
        device: DevNo,
        piece: u32,
        again: bool,
        message: u32,
    },
    Held(u32),
    Ordered {
        job: u32,
        postage: u32,
    },
    SentDebit {
        job: u32,
        message: u32,
    },
    Printed(u32),
    PrinterFault(u32),
    Closed(u32),
    Trusted(DevNo),
    Accepted {
        device: DevNo,
        piece: u32,
        scan: u32,
        again: bool,
    },
    /// The control total that the device holds, that of the centre, and the transaction in flight.
    Reconciled {
        device: DevNo,
        held: u64,
        centre: u64,
        in_flight: Option<(Kind, u64)>,
    },
    End,
    NoDay,
    NoMessage(u32),
    OffNode(Node),
    OnAlready(Node),
    Power(Node),
    Fault(Node),
    Worn(Node),
    Damaged(Node),
    DevRefused {
        device: DevNo,
        refusal: DevRefusal,
    },
    CentreRefused(CentreRefusal),
    HostRefused(HostRefusal),
    ScanRefused(ScanRefusal),
}
