//! What is printed below the verdicts of an audit: the page of what the runs came to, and the table of what the auditor has after them.
#![tactic(auto)]

mod answered;
mod customers;
mod devices;
mod incidents;
mod jobs;
mod money;
mod own;
mod page;
mod rulings;
mod saying;
mod standing;
mod table;

pub use page::tell_page;
pub use standing::standing_of;
pub use table::tell_table;
