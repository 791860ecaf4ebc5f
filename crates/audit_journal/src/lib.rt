//! The journal of an audit: a row for each commit that counts, as comma-separated values, as JSON, or as a ledger in plain text.
#![tactic(auto)]

mod cells;
mod entry;
mod fault;
mod ledger;
mod objects;
mod own;
mod postings;
mod records;
mod texts;
mod words;
mod writing;

pub use entry::{Account, Amount, At, CommitKind, JournalEntry, Row, place_of};
pub use fault::BookFault;
pub use own::{OwnAccount, OwnEntry, OwnKind};
pub use texts::{date_text, dollars, money_text, signed_dollars};
pub use words::{commit_word, kind_word, node_text, verdict_word};
pub use writing::{Form, Journal};
