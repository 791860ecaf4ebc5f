//! Days as dates, and mills as dollars.
use crate::entry::Amount;
use jiff_core::civil::Date;
use std::alloc::{AllocError, Global};

/// The date of the day of this number, counted from 1970-01-01, such as `2026-03-02`. AllocError is lack of memory.
pub fn date_text(alloc: Global, day: i32) -> Result<String, AllocError> {
    match Date::from_unix_epoch_day(day as i64) {
        Ok(date) => format!(in alloc; "{:04}-{:02}-{:02}", date.year, date.month, date.day),
        Err(_) => format!(in alloc; "day {day}"),
    }
}

/// The mills in dollars, with three decimals, such as `$0.550`. AllocError is lack of memory.
pub fn dollars(alloc: Global, mills: u64) -> Result<String, AllocError> {
    format!(in alloc; "${}.{:03}", mills / 1000, mills % 1000)
}

/// The amount in dollars, with a minus after the sign if it is below 0, such as `$-0.550`. AllocError is lack of memory.
pub fn signed_dollars(alloc: Global, amount: Amount) -> Result<String, AllocError> {
    if amount.minus {
        format!(in alloc; "$-{}.{:03}", amount.size / 1000, amount.size % 1000)
    } else {
        dollars(alloc, amount.size)
    }
}

/// The mills, and beside them the dollars, such as `550 ($0.550)`. AllocError is lack of memory.
pub fn money_text(alloc: Global, mills: u64) -> Result<String, AllocError> {
    let beside = dollars(alloc, mills)?;
    format!(in alloc; "{mills} ({beside})")
}
