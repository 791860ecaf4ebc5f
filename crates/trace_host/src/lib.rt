//! The host as the report describes it: whether a line of the report can be the reply to an event of the host.
#![tactic(auto)]

mod acts;
mod judge;
mod of_cells;
mod printed;
mod record;

pub use acts::host_act;
pub use judge::judge_host;
pub use printed::mark_due;
pub use record::HostRecord;
