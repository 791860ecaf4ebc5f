//! The lines of a script and the lines of a report: what events and replies are written as.
#![tactic(auto)]

mod column;
mod events;
mod forms;
mod keyword;
pub mod laws;
mod program;
mod refusals;
mod replies;
mod summary;

pub use events::{is_skipped, read_event};
pub use keyword::{Keyword, read_keyword};
pub use program::{Words, is_word, read_words};
pub use replies::{put_reply, write_reply};
pub use script_words::{Line, LineFault};
pub use summary::{Summary, write_summary};
