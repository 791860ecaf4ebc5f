//! The words of the auditor's program, and how it shows bytes that may be no text.
#![tactic(auto)]

mod reading;
mod showing;
mod usage;

pub use reading::{Asked, Call, NamedWord, Words, WordsFault, read_call};
pub use showing::{shown, shown_text};
pub use usage::{HELP, VERSION};
