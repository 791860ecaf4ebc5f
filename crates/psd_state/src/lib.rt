//! A device as a record and pure rules over it: each call answers, and gives the record to be kept.
#![tactic(auto)]

pub mod acts;
mod applying;
mod asking;
mod debiting;
mod laws;
mod page;
mod parts;
mod payload;
mod ready_record;
mod record;
mod state_of;
mod words;

pub use acts::{DeviceAct, Franked, Taken};
pub use bench_base::events::DevView as DevStatus;
pub use debiting::{Debited, last_mark};
pub use laws::{one_payload, record_follows_the_commits};
pub use ready_record::{ReadyRecord, keep, ready};
pub use record::DevRec;
pub use state_of::{DeviceState, StateOf};
