//! The calls of a device, of the centre, of the host and of the verifier: what each does by the record that it is asked of, wherever that
//! lies, and what the node says of it.
#![tactic(auto)]

mod centre_calls;
mod comparing;
mod device_calls;
mod host_calls;
mod verifier_calls;

pub use centre_calls::{CentreCallee, hands_bytes};
pub use comparing::compared;
pub use device_calls::{DeviceCallee, Numbered, StatusCall};
pub use host_calls::HostCallee;
pub use verifier_calls::{VerifierCallee, scans_bytes};
