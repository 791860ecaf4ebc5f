//! An auditor of a whole bench: whether the line of the report can be the reply to an event of a script, by what was judged before.
#![tactic(auto)]

pub mod auditor;
pub mod comparing;
pub mod forging;
pub mod judging;
pub mod known;
mod noting;
pub mod printed;
pub mod rates;
pub mod starting;
pub mod stopping;
mod telling;
mod ticking;
pub mod traced;

pub use auditor::Auditor;
pub use forging::{index, is_forged};
pub use judging::{Finding, Judged, judge};
pub use printed::mark_due;
pub use stopping::{begins, due_to, stop};
