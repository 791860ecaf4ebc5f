//! What the nodes are asked to do: a struct for each call, and an enum of the calls of each kind of node. Amounts and postage are in mills. A call
//! that sends something names the number that its message gets.
ghost use Rattle.std.specs.Prelude.{◌≡◌};

use bench_base::numbers::{Customer, DevNo};
use bench_base::refusals::RateRefusal;
use bench_base::words::{Key, Kind};
use std::marker::Model;

/// Bytes that are handed to a node, where they lie.
#[derive(Drop)]
pub struct Handed<'a> {
    bytes: &'a [u8],
}

impl<'a> Model for Handed<'a> {
    ghost use Rattle.std.specs.Prelude.{List, ℕ};

    ghost Value = { List ℕ };

    ghost view = { λ h. h.bytes.now };
}

impl<'a> Handed<'a> {
    pub fn new(bytes: &'a [u8]) -> Handed<'a>
        ensures { result ≡ bytes.now }
    {
        Handed { bytes }
    }

    pub fn as_slice(&self) -> &[u8]
        ensures { result.now ≡ self.now }
    {
        self.bytes
    }
}

/// A device is made under a key.
#[derive(Drop)]
pub struct MakeCall {
    pub key: Key,
}

/// A piece is marked.
#[derive(Drop)]
pub struct DebitCall {
    pub piece: u32,
    pub postage: u32,
    pub class: u16,
}

/// A transaction is asked for. The customer counts for an enrolment, and the amount for a reset.
#[derive(Drop)]
pub struct AskCall {
    pub kind: Kind,
    pub customer: u32,
    pub amount: u32,
    pub message: u32,
}

/// The request that is outstanding is sent once more.
#[derive(Drop)]
pub struct ResendCall {
    pub message: u32,
}

/// The message that the last transaction was applied is sent.
#[derive(Drop)]
pub struct AckCall {
    pub message: u32,
}

/// A device takes a Reply or a Debit.
#[derive(Drop)]
pub struct TakeReplyCall<'a> {
    pub bytes: Handed<'a>,
    pub message: u32,
}

/// A call of a device.
#[derive(Drop)]
pub enum DeviceCall<'a> {
    Make(MakeCall),
    Debit(DebitCall),
    Ask(AskCall),
    Resend(ResendCall),
    Ack(AckCall),
    Status,
    Take(TakeReplyCall<'a>),
}

/// A device is registered under a key.
#[derive(Drop)]
pub struct RegisterCall {
    pub device: DevNo,
    pub origin: u32,
    pub key: Key,
}

/// A customer is opened.
#[derive(Drop)]
pub struct OpenCall {
    pub customer: Customer,
}

/// A customer deposits an amount, under the number of its receipt.
#[derive(Drop)]
pub struct DepositCall {
    pub customer: Customer,
    pub receipt: u32,
    pub amount: u32,
}

/// A customer is suspended, or may buy again.
#[derive(Drop)]
pub struct FlagCall {
    pub customer: Customer,
    pub suspended: bool,
}

/// What a customer has left.
#[derive(Drop)]
pub struct BalanceCall {
    pub customer: Customer,
}

/// The centre takes a Request or a Done.
#[derive(Drop)]
pub struct TakeRequestCall<'a> {
    pub bytes: Handed<'a>,
    pub message: u32,
}

/// A call of the centre.
#[derive(Drop)]
pub enum CentreCall<'a> {
    Register(RegisterCall),
    Open(OpenCall),
    Deposit(DepositCall),
    Flag(FlagCall),
    Balance(BalanceCall),
    Take(TakeRequestCall<'a>),
}

/// A piece of a device is ordered in a class, with its weight in grams. The price is the postage by the rates of the run, or why they give none; there is
/// none without rates.
#[derive(Drop)]
pub struct OrderCall {
    pub device: DevNo,
    pub piece: u32,
    pub class: u16,
    pub grams: u32,
    pub zone: u32,
    pub price: Option<Result<u32, RateRefusal>>,
}

/// The message that asks the device of a job for its mark is sent.
#[derive(Drop)]
pub struct SendCall {
    pub job: u32,
    pub message: u32,
}

/// The print of a job is begun.
#[derive(Drop)]
pub struct PrintCall {
    pub job: u32,
}

/// A job is closed.
#[derive(Drop)]
pub struct CloseCall {
    pub job: u32,
}

/// The host takes a Release.
#[derive(Drop)]
pub struct TakeReleaseCall<'a> {
    pub bytes: Handed<'a>,
}

/// A call of the host.
#[derive(Drop)]
pub enum HostCall<'a> {
    Order(OrderCall),
    Send(SendCall),
    Print(PrintCall),
    Close(CloseCall),
    Take(TakeReleaseCall<'a>),
}

/// Marks of a device are trusted under a key.
#[derive(Drop)]
pub struct TrustCall {
    pub device: DevNo,
    pub key: Key,
}

/// Bytes are scanned under a number, which is at least 1.
#[derive(Drop)]
pub struct ScanCall<'a> {
    pub number: u32,
    pub bytes: Handed<'a>,
}

/// A call of the verifier.
#[derive(Drop)]
pub enum VerifierCall<'a> {
    Trust(TrustCall),
    Scan(ScanCall<'a>),
}
