//! The words of a line: how numbers, bytes and names are read out of one, and written into one.
#![tactic(auto)]

pub mod digits;
pub mod line;
pub mod values;
pub mod wide;
pub mod word;

pub use line::Line;
pub use word::{LineFault, Word, after, five, four, is_word, one, split_word, three, two};
