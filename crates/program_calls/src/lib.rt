//! The edges of the program that are no files: what its words call for, and its exit status and line for each ending.
#![tactic(auto)]

mod call;
mod exit;

pub use call::{Call, Uses, read_call};
pub use exit::{Exit, Fault, OpenFault, exit_of};
