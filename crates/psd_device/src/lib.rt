//! A device on storage: each call that changes its record commits it before it answers.
#![tactic(auto)]

mod boot;
mod calls;
mod device;
mod kind;
mod lending;
mod node;

pub use device::Device;
pub use node::DeviceNode;
pub use psd_state::{Franked, Taken};
