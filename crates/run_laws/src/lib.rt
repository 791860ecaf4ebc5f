//! What the steps of a run do to a ledger: one part of them after another, and what their scans leave.
#![tactic(auto)]

pub mod laws;
