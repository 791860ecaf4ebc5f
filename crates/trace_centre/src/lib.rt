//! The centre as the report describes it: whether a line of the report can be the reply to an event of the centre.
#![tactic(auto)]

mod acts;
mod judge;
mod record;
mod rows;

pub use acts::centre_act;
pub use judge::{is_known, is_sound, judge_centre};
pub use record::{CentreRecord, cell_of};
