//! Runs that are made from a number: the same seed gives the same events.
#![tactic(auto)]

mod draws;
mod generated;
pub mod laws;
mod opening;
mod parts;
mod turns;

pub use generated::Generator;
