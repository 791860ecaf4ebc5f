//! The verifier on storage: each call that changes a row commits it before it answers.
#![tactic(auto)]

mod boot;
mod calls;
mod cells;
mod lending;
mod lookups;
mod rows;
mod running;

pub use rows::{VerifierNode, VerifierRoom, VerifierRows};
pub use running::Verifier;
pub use verifier::Accepted;
