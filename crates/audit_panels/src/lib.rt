//! The first panels of a page: the verdict, the finding, what to do, and the deposits.
#![tactic(auto)]

mod finding;
mod money;
mod todo;
mod verdict;

pub use finding::{put_cut, put_finding};
pub use money::put_money;
pub use todo::{kind_name, put_node, put_todo};
pub use verdict::{put_days, put_title, put_verdict};
