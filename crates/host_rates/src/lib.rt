//! The host's rates: read from a TOML text, and what a piece costs by them.
#![tactic(auto)]

pub mod laws;
mod parts;
mod rates;
mod reading;

pub use rates::Rates;
pub use reading::{RatesFail, read_rates};
