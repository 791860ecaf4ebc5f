//! Goes over runs that were judged once more: what they come to, in a book, and what was due after a stop.
#![tactic(auto)]

mod figures;
mod hearing;
mod lines;
mod owing;
mod own;
mod recount;

pub use lines::Run;
pub use owing::put_due;
pub use own::OwnLine;
pub use recount::Recount;
