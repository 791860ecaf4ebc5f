//! What an event may do to the ledger, and which ledgers are histories. Definitions alone.
#![tactic(auto)]
