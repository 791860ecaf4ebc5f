//! Marks that were seen on mail: each once, with the first line that contains it, and whether it is recorded as debited.
#![tactic(auto)]

pub mod marks;

pub use marks::{Missing, Seen, SeenMarks};
