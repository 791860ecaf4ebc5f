//! Whole texts into sinks and out of sources, which take and give their bytes in pieces of any size; a source that reads ahead of another; hexadecimal digits.
#![tactic(auto)]

mod ahead;
mod digits;
mod reading;
mod writing;

pub use ahead::{BufSource, Piece, ReadAhead};
pub use digits::put_digits;
pub use reading::{TakeFail, fill, take_text};
pub use writing::{print_mark, put_text};
