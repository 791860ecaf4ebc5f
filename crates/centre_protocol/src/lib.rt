//! The centre on storage: each call that changes a row commits it before it answers.
#![tactic(auto)]

mod boot;
mod calls;
mod centre;
mod lending;
mod rows;

pub use centre::Centre;
pub use centre_ledger::{CentreAnswer, Deposit, Standing};
pub use rows::{CentreNode, CentreRoom, CentreRows};
