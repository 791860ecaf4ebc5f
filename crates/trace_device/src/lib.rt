//! A device as the report describes it: whether a line of the report can be the reply to an event of the device.
#![tactic(auto)]

mod acts;
mod judge;
mod record;

pub use acts::device_act;
pub use judge::{is_known, judge_device};
pub use record::DeviceRecord;
