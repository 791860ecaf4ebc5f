//! A node on the bench, whatever its kind: its record over its storage, one commit at a time. It stays in its place,
//! whether it is on or off.
#![tactic(auto)]

mod node;
mod running;
mod storage;

pub use node::{Arms, Node};
pub use running::{Running, answer};
pub use storage::{arm, perform, start, stop};
