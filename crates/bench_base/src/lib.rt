//! The small types that every crate shares, the fields of their formats, and the streams of the bench.
#![tactic(auto)]

pub mod bytes;
pub mod events;
pub mod fields;
pub mod ledger;
pub mod memory;
pub mod numbers;
pub mod questions;
pub mod refusals;
pub mod sizes;
pub mod stream;
pub mod words;
