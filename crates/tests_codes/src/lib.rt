//! Codes against public vectors
#![tactic(auto)]

#[cfg(test)]
mod codes;
