//! Scans: which events accept pieces, and what an acceptance says of the ledger after it.
#![tactic(auto)]

pub mod laws;
