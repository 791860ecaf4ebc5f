//! The days of a device: when it has to be inspected again, and how a date is read.
#![tactic(auto)]

ghost use lib.Signed.{lt_z};
ghost use Rattle.std.specs.Prelude.{◌≡◌, ◌+ℤ◌, pos};
ghost use Rattle.psd_audit.specs.Grace as grace;

mod dates;

use bench_base::numbers::DayNo;
pub use dates::{digits, read_date};

/// For how many days a device franks after an audit or a reset.
const DAYS_TO_AUDIT: i32 = 92;

/// For how many days past its deadline a device still franks small postage.
const DAYS_OF_GRACE: i64 = 7;

/// The most postage that is small, in mills.
const SMALL_POSTAGE: u32 = 1_000;

/// The last day that a device franks after an audit or a reset on that day: 92 days later.
pub fn deadline_after(day: DayNo) -> i32
    ensures { result ≡ day +ℤ pos 92 }
{
    day.get() + DAYS_TO_AUDIT
}

/// Whether the day is later than the deadline. A deadline may be any number.
pub fn is_due(day: DayNo, deadline: i32) -> bool
    ensures { result ≡ lt_z deadline day }
{
    day.get() > deadline
}

/// Whether a piece of this postage is no longer franked on the day: more than seven days after the deadline, and from
/// the first day after it where the postage is above 1,000 mills. A deadline may be any number.
pub fn is_overdue(day: DayNo, deadline: i32, postage: u32) -> bool
    ensures { result ≡ grace.is_overdue day deadline postage }
{
    i64::from(day.get()) > i64::from(deadline) + DAYS_OF_GRACE
        || (is_due(day, deadline) && postage > SMALL_POSTAGE)
}

/// Whether the day is earlier than the last day that was used, which may be any number.
pub fn clock_back(day: DayNo, last: i32) -> bool
    ensures { result ≡ lt_z day last }
{
    day.get() < last
}
