//! The host on storage: each call that changes a job commits it before it answers.
#![tactic(auto)]

mod boot;
mod calls;
mod host;
mod lending;
mod rows;

pub use host::Host;
pub use host_jobs::Ordered;
pub use rows::{HostNode, HostRoom, HostRows};
