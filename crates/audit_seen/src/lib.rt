//! What is said of marks that were read off real mail: whether a line of their file is a mark, the word on each line, and how many lines have each word.
#![tactic(auto)]

mod counts;
mod lines;
mod reading;

pub use counts::{Counts, Word, word_of};
pub use lines::{counts_text, missing_text, no_mark_text, twice_text};
pub use reading::{NoMark, read_mark};
