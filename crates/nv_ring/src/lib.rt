//! A cell of sixteen slots, which its commits fill in turn, so that all wear alike.
#![tactic(auto)]

mod ring;
mod wear;

pub use ring::Ring;
pub use wear::Wear;
