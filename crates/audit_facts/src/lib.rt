//! What the page of an audit shows beside what its auditor knows: by day, device and customer, by request, refusal and run.
#![tactic(auto)]

mod causes;
mod cells;
mod facts;
mod lines;
mod page;
mod places;
mod refusals;
mod runs;
mod standing;

pub use causes::{cause_words, is_alarm, is_of_device, meaning_of, remedy_for};
pub use cells::{Applied, Cell, Cells};
pub use facts::Facts;
pub use lines::{LINES, Left, Line, line_of, whole};
pub use page::{FindingKind, Found, PageContent, PrintsFinding, PrintsState, RunFinding};
pub use places::{ACCEPTED, customer_slot, device_slot};
pub use refusals::{Refusals, Refused};
pub use runs::{Lines, Printed, RunFact, RunState};
pub use standing::{Counts, CustomerStanding, DeviceStanding, NodeStanding, Standing};
