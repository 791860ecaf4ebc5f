//! Statements: each movement of one customer's money while a statement is open, with the balance after it.
#![tactic(auto)]

mod answer;
mod change;
mod courses;
mod desk;
pub mod laws;
mod lines;
mod own;
mod run;
mod seeing;
mod watch;

pub use answer::Answer;
pub use change::Change;
pub use desk::{MOST_MOVEMENTS, StatementDesk};
pub use lines::OwnLine;
pub use run::{run_fresh_statement, run_statement};
pub use watch::Watch;
