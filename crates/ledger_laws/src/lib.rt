//! Every history is lawful: laws over the definitions, without code.
#![tactic(auto)]

pub mod laws;
