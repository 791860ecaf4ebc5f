//! A node as the report describes it, without storage: its record, the change that is open, and whether it is on; and whether a line of the report
//! can be the reply to an event of the node.
#![tactic(auto)]

mod judge;
mod record;
mod said;
mod switch;
mod told;
mod traced;

pub use judge::{is_told, judge_call};
pub use record::Record;
pub use said::said_act;
pub use switch::{judge_cut, judge_off, judge_on};
pub use traced::Traced;
