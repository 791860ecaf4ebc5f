//! The indicium: the mark of one debit, signed under the device's key.
#![tactic(auto)]

mod laws;
mod reading;
mod writing;

pub use laws::{one_spelling, round_trip};
pub use reading::{read_indicium, verify_mark, verify_mark_by};
pub use writing::{code_by, code_of, write_coded, write_indicium, write_indicium_by};

/// What an indicium says of a debit. Money is in mills, and a day counts from 1970-01-01.
#[derive(Clone, Copy)]
pub struct Mark {
    /// The version of the layout: 1 or 2.
    pub version: u8,
    /// In version 2 it is below 2^16.
    pub device: u32,
    /// The number of the piece, counted by the device from 1.
    pub piece: u32,
    pub postage: u32,
    /// The registers after the debit; each is below 2^32 in version 1, and below 2^40 in version 2.
    pub ascending: u64,
    pub descending: u64,
    /// The day of the debit.
    pub day: i32,
    /// The postal code of the place where the device is registered.
    pub origin: u32,
    pub class: u16,
}
