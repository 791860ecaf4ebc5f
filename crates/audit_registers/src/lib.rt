//! The panels of devices and of customers: their registers and balances over time.
#![tactic(auto)]

mod customers;
mod devices;
mod inspections;
mod marks;
mod strips;
mod tracks;

pub use customers::put_customers;
pub use devices::put_devices;
pub use tracks::{Months, Span, month_sum, months_of, put_month_head, span_of};
