//! Why a part of the bench refuses what it is asked.
use crate::numbers::Customer;
use crate::words::{JobState, Kind, Phase};

/// Why bytes are no message, in the order of the checks.
#[derive(Clone, Copy, Debug, PartialEq, Eq)]
pub enum Unread {
    Length,
    Version,
    Tag,
    Kind,
    Verdict,
    Day,
    Mark,
}

/// Why bytes are no mark: their length, or the byte in place of a 1.
#[derive(Clone, Copy, Debug, PartialEq, Eq)]
pub enum MarkFault {
    Length(usize),
    Version(u8),
    Algorithm(u8),
}

/// Why a device refuses. A number is the one that the caller has to know to go on.
#[derive(Clone, Copy)]
pub enum DevRefusal {
    Blank,
    Made,
    /// The other device that was named.
    WrongDevice(u32),
    /// The postage, in mills, and the class of the last piece.
    Conflict(u32, u16),
    /// The pieces so far; the next piece is one more.
    WrongPiece(u32),
    Phase(Phase),
    Frozen(Kind),
    /// The last day.
    ClockBack(i32),
    /// The deadline, a day.
    Due(i32),
    /// The amount, in mills.
    BadAmount(u32),
    /// The descending register, in mills.
    NoFunds(u64),
    Busy(Kind),
    /// The sum of all registers, in mills.
    TotalFull(u64),
    NumberFull,
    NothingPending,
    /// The number of the pending request.
    Stale(u32),
    Stray(Kind),
    NothingDone,
    BadCode,
    Unread(Unread),
}

/// Why the centre refuses.
#[derive(Clone, Copy)]
pub enum CentreRefusal {
    Unread(Unread),
    /// The device that isn't registered.
    UnknownDevice(u32),
    UnknownCustomer(Customer),
    BadCode,
    /// The greatest number that was ruled on; so in `Ahead` and `Changed`.
    Old(u32),
    Ahead(u32),
    Changed(u32),
    Known,
    /// The last receipt.
    WrongReceipt(u32),
    /// The amount that was deposited under the receipt, in mills.
    Conflict(u32),
    /// The amount, in mills.
    BadAmount(u32),
    /// The deposits so far, in mills.
    DepositsFull(u64),
}

/// Why there is no price.
#[derive(Clone, Copy, Debug, PartialEq, Eq)]
pub enum RateRefusal {
    NoClass,
    /// How many zones there are.
    NoZone(u32),
    /// The greatest weight of the class, in grams.
    TooHeavy(u32),
}

/// Why the host refuses.
#[derive(Clone, Copy)]
pub enum HostRefusal {
    NoRates,
    Rate(RateRefusal),
    /// The device's job that is ordered and neither held nor closed.
    OpenJob(u32),
    /// The greatest piece of the device that was ever held.
    Used(u32),
    /// The job in the way, which isn't closed.
    JobsFull(u32),
    NumberFull,
    NoJob,
    State(JobState),
    Unread(Unread),
    /// The job's piece.
    OtherPiece(u32),
    /// The job's postage, in mills.
    OtherPostage(u32),
    /// The job's class.
    OtherClass(u16),
}

/// Why the verifier refuses.
#[derive(Clone, Copy)]
pub enum ScanRefusal {
    Unread(MarkFault),
    /// The device that isn't trusted.
    Unknown(u32),
    BadCode,
    /// The scan under which the piece was accepted.
    Duplicate(u32),
    /// The mark's day.
    Future(i32),
    /// The mark's day.
    TooOld(i32),
    BlocksFull,
    Known,
}

/// Why a commit to storage failed.
#[derive(Clone, Copy, Debug, PartialEq, Eq)]
pub enum StoreFail {
    /// Power was cut: the commit was made, or it was not.
    Power,
    /// The storage failed: the commit was made, or it was not.
    Fault,
    /// The cell has 4,294,967,295 commits. Nothing was changed.
    Worn,
    /// An earlier commit answered Power or Fault. Nothing was changed.
    Failed,
}

/// Why a node could not start from its storage.
#[derive(Clone, Copy, Debug, PartialEq, Eq)]
pub enum BootFail {
    /// Power was cut.
    Power,
    /// The storage failed.
    Fault,
    /// The storage has another size, or does not show the records of this node.
    Damaged,
}

/// Why a node on storage did not do what it was asked.
#[derive(Clone, Copy)]
pub enum Fail<F> {
    /// The node refuses. Nothing was changed.
    Refused(F),
    /// The commit failed.
    Store(StoreFail),
}

pub type DevFail = Fail<DevRefusal>;

pub type CentreFail = Fail<CentreRefusal>;

pub type HostFail = Fail<HostRefusal>;

pub type ScanFail = Fail<ScanRefusal>;
