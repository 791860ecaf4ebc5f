//! The page of an audit: one file that shows by itself, without a script and without anything that is loaded from elsewhere.
#![tactic(auto)]

mod incidents;
mod mail;
mod months;
mod own;
mod page;
mod refusals;
mod runs;
mod style;

pub use page::page_of;
