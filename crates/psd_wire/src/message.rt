//! The five messages between device, centre and host. Money is in mills, and a day counts from 1970-01-01.
use bench_base::numbers::DayNo;
use bench_base::words::{Kind, Verdict};

/// What a device asks of the centre, with its registers as they stood.
#[derive(Clone, Copy)]
pub struct Request {
    /// The version of the layout: 1 or 2. In version 1 the amount and the registers are below 2^32.
    pub version: u8,
    pub device: u32,
    /// The number of the transaction, counted by the device from 1.
    pub number: u32,
    pub kind: Kind,
    pub customer: u32,
    pub amount: u64,
    pub ascending: u64,
    pub descending: u64,
    pub refunded: u64,
    pub pieces: u32,
    pub day: DayNo,
}

/// How the centre ruled on a request, and what the device may do by it.
#[derive(Clone, Copy)]
pub struct ReplyMsg {
    /// The version of the layout, that of the request. In version 1 the amount is below 2^32.
    pub version: u8,
    pub device: u32,
    /// The number of the request.
    pub number: u32,
    pub kind: Kind,
    pub verdict: Verdict,
    pub amount: u64,
    /// The last day that the device may debit, if the reply sets one; otherwise 0.
    pub deadline: i32,
    /// The postal code of the place where the device is registered.
    pub origin: u32,
}

/// A device reports to the centre that it applied the reply of this number.
#[derive(Clone, Copy)]
pub struct DoneMsg {
    pub device: u32,
    pub number: u32,
}

/// The host asks a device for the mark of a piece.
#[derive(Clone, Copy)]
pub struct DebitMsg {
    pub device: u32,
    pub piece: u32,
    pub postage: u32,
    pub class: u16,
}

/// Any of the five.
#[derive(Clone, Copy)]
pub enum Message {
    Request(Request),
    Reply(ReplyMsg),
    Done(DoneMsg),
    Debit(DebitMsg),
    /// A device hands the indicium of a piece to the host.
    Release([u8; 64]),
}
