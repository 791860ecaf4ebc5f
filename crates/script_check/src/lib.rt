//! What is wrong with the lines of a script: for a line that is no event, which word of it is the first that no event has there.
#![tactic(auto)]

mod fault;
mod forms;
mod line;
mod script;
mod shown;
mod slots;

pub use fault::{Fault, Hint, Wanted, WordFault};
pub use line::check_line;
pub use script::{CheckFail, Checked, check_script};
pub use slots::Slot;
