//! Storage that may lose power at any write.
#![tactic(auto)]

mod fuse;
mod fused;
mod lay;
mod medium;
mod memory;
mod nv;
mod plan;
mod step;
mod tally;
mod tear;

pub use fuse::Fuse;
pub use fused::Fused;
pub use memory::MemNv;
pub use nv::{Nv, NvFail};
pub use plan::Failure;
