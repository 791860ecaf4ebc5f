//! The centre's rows and rules, without storage.
#![tactic(auto)]

mod accounts;
mod acts;
mod balances;
mod books_of;
mod customers;
mod laws;
mod messages;
mod page;
mod payload;
mod ready_row;
mod replies;
mod rows;
mod rulings;
mod settling;
mod soundness;
mod standing;
mod taking;

pub use accounts::Accounts;
pub use acts::{
    CentreAct, Deposit, balance_act, deposit_act, flag_act, open_act, register_act, standing_act,
};
pub use balances::{Balances, balance_of};
pub use books_of::BooksOf;
pub use laws::{acts_follow_the_commits, one_row, rows_follow_the_commits};
pub use ready_row::ReadyRow;
pub use replies::ruled;
pub use rows::{CustomerRow, DeviceRow, Enrolment, Row};
pub use rulings::verdict;
pub use settling::{deposited, is_repeat, settled};
pub use standing::Standing;
pub use taking::{CentreAnswer, take_act};
