//! Golden tests of the definitions, to the byte. They are computed; no other crate rests on them.
#![tactic(auto)]

pub mod rows;
