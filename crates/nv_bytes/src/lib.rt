//! What the bytes of a cell show, without a start: the newest slot that counts, with its count and its payload, and whether the cell is clear.
#![tactic(auto)]

mod cell;

pub use cell::{Newest, copy_newest, count_at, find_newest, is_blank, is_clear, payload_at};
