//! The bench: eight devices, the centre, the host and the verifier on their storages, and the events that change them.
#![tactic(auto)]

mod benches;
mod centre_turns;
mod comparing;
mod device_turns;
mod event;
mod host_turns;
mod node_turn;
mod places;
mod rates;
mod stores;
mod verifier_turns;

pub use benches::{Bench, BenchOver, HasNodes, MOST_MESSAGES};
pub use event::{react, step};
pub use node_turns::{Tell, Turn};
pub use stores::Stores;
