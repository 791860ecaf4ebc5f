//! Storage in a file: the trusted edge, which exposes nothing of its content to contracts.
#![tactic(auto)]

mod ahead;
mod clean;
mod file;
mod starting;
mod whole;

pub use clean::{CLEAN, recall, remember};
pub use file::{FileNv, StartFault};
pub use starting::{Starting, StoreFile, remove_part};
pub use whole::PART;
