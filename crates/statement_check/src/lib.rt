//! Statements of a customer's money: their lines, and whether each balance follows from the lines before it.
#![tactic(auto)]

mod judge;
mod line;
mod place;
mod read;
mod run;
mod verdict;
mod words;
mod write;

pub use line::{Cause, Movement, StatementLine};
pub use place::Place;
pub use run::run_recompute;
pub use verdict::Verdict;
pub use write::put_statement_line;
