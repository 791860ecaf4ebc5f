//! The page of an audit on its way: bytes that are printable ASCII or line ends, which come in by four calls and no other.
#![tactic(auto)]

mod grouping;
mod sheet;

pub use grouping::put_grouped;
pub use sheet::Sheet;
