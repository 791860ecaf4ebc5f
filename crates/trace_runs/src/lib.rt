//! What an audit says of a script, its report, the rates and the prints together; the audit of one run, and of several; and what follows of it.
#![tactic(auto)]

mod answers;
pub mod audit;
mod ends;
pub mod imprint;
pub mod laws;
mod parts;
mod places;
pub mod prints;
pub mod runs;
mod stopping;
mod untold;
pub mod verdict;

pub use audit::{audit_run, behind};
pub use ends::LINES;
pub use imprint::{Given, Imprint, Printed};
pub use line_runs::lines::read_line;
pub use prints::{Match, match_prints};
pub use runs::judge_next;
pub use verdict::{Ending, Input, Judgment, Verdict};
