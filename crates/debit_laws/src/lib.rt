//! Debits by their marks: what each event adds to the marks that were debited.
#![tactic(auto)]

pub mod laws;
