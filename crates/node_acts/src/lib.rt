//! What a call of a node does, as a value: an act. What it came to in storage, what is seen of the node, and what the
//! ledger plans are each read off the act, whatever the kind of the node.
#![tactic(auto)]

mod act;
mod asked;
mod call;
mod holds;
mod said;

pub use act::{Act, Outcome, Started};
pub use asked::Asked;
pub use call::{Call, Callee};
pub use holds::Holds;
pub use said::{GivenOut, Printed, Released, Said};
