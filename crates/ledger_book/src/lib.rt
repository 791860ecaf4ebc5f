//! The reference implementation: what the definitions say of a ledger, by plain filters and sums over slices, the oldest element first.
#![tactic(auto)]

mod centres;
mod clauses;
mod counting;
mod devices;
mod flight;
mod franking;
mod jobs;
mod lawfulness;
pub mod laws;
pub mod registers;
mod releasing;
mod requests;
mod totals;
mod words;

pub use centres::balance_in;
pub use counting::counted;
pub use lawfulness::lawful;
pub use totals::sums;
