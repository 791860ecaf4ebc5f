//! The words that name what the bench deals in.
use crate::numbers::DevNo;

/// A secret key of 32 bytes, shared by a device with the centre and the verifier.
pub type Key = [u8; 32];

/// What a device may ask its centre for.
#[derive(Clone, Copy, Debug, PartialEq, Eq)]
pub enum Kind {
    Enrol,
    Reset,
    Audit,
    Refund,
    Withdraw,
}

/// How the centre rules on a request.
#[derive(Clone, Copy, Debug, PartialEq, Eq)]
pub enum Verdict {
    Granted,
    NotEnrolled,
    EnrolledAlready,
    NoCustomer,
    Suspended,
    NoFunds,
    Imbalance,
}

/// How far a device has come. `Blank` and `Locked` are shown and never stored.
#[derive(Clone, Copy, Debug, PartialEq, Eq)]
pub enum Phase {
    Blank,
    Manufactured,
    Authorised,
    InService,
    Locked,
    Withdrawn,
}

/// How far a job of the host has come.
#[derive(Clone, Copy, Debug, PartialEq, Eq)]
pub enum JobState {
    Ordered,
    Held,
    Begun,
    Closed,
}

/// One of the parts on the bench that keep storage of their own.
#[derive(Clone, Copy, Debug, PartialEq, Eq)]
pub enum Node {
    Device(DevNo),
    Centre,
    Host,
    Verifier,
}
