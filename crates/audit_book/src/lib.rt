//! What is counted over the lines of runs that were judged: each commit that counts, in a journal, and the rest for a page.
#![tactic(auto)]

mod book;
mod seen;
mod settling;

pub use book::{Answered, Book, Made};
pub use seen::{Figures, Ruling, Seen, last_ruling};
