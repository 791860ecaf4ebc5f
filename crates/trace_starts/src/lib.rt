//! A start of an audit from storages that stand: what the auditor then has is what each history shows that these represent.
#![tactic(auto)]

pub mod laws;
