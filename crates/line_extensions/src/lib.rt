//! An extension of a bench: it has lines of its own in a script, and does them by steps that it asks for.
#![tactic(auto)]

mod extension;
mod hear;
mod replying;
mod side;
mod stepper;

pub use extension::{Extension, Next};
pub use hear::Hear;
pub use replying::{ended_by, put_line};
pub use side::AtBench;
pub use stepper::Stepper;
