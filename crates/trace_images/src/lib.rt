//! The auditor's records of the nodes out of images of their storages, as a boot reads them.
#![tactic(auto)]

mod centre;
mod device;
mod host;
mod slots;
mod verifier_rows;

pub use centre::centre_record;
pub use device::device_record;
pub use host::host_record;
pub use trace_centre::CentreRecord;
pub use trace_device::DeviceRecord;
pub use trace_host::HostRecord;
pub use trace_verifier::ScanRecord;
pub use verifier_rows::verifier_record;
