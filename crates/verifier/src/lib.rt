//! The verifier's rows and rules, without storage: which marks are accepted, each piece once.
#![tactic(auto)]

mod acts;
mod index;
mod keys;
mod laws;
mod payload;
mod rows_of;
mod scans;

pub use acts::{Accepted, Change, ScanAct, Spot, scan_act, trust_act};
pub use index::{BlockIndex, Entry};
pub use keys::ReadyKeys;
pub use laws::{acts_follow_the_commits, one_row};
pub use payload::{
    accept_payload, block_in, key_in, read_block, read_trust, scan_in, trust_payload,
};
pub use rows_of::RowsOf;
pub use scans::scan;
