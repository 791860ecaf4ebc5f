//! The messages between device, centre and host, and their bytes.
#![tactic(auto)]

mod laws;
pub mod message;
mod reading;
mod writing;

pub use laws::{one_spelling, round_trip};
pub use message::{DebitMsg, DoneMsg, Message, ReplyMsg, Request};
pub use reading::{
    code_matches, code_matches_by, is_own_code, read_body, read_message, read_under, read_under_by,
};
pub use writing::{write_body, write_message, write_message_by};
