//! Whether a payload reads as a row: exact both ways, in each version of the row.
#![tactic(auto)]

mod centre;
mod device;
mod host;
mod verifier_rows;

pub use centre::{reads_as_customer, reads_as_device};
pub use device::{is_own, reads_as_record};
pub use host::reads_as_job;
pub use verifier_rows::{Scans, reads_as_block, reads_as_trust};
