//! What the panels of a page are made of: amounts, dates, names, cells of tables, symbols.
#![tactic(auto)]

mod amounts;
mod dates;
mod secrets;
mod shares;
mod symbols;
mod tables;

pub use amounts::{
    many, put_amount, put_count, put_counted, put_digest, put_place, put_tenths, put_whole,
};
pub use dates::{
    Civil, civil_of, month_name, month_of, month_start, put_date, put_date_words, put_month,
    put_time,
};
pub use secrets::{put_code, put_name, put_texts};
pub use shares::{part, share};
pub use symbols::{begin_picture, begin_plot, end_symbol, put_hundredths, put_key, put_symbol};
pub use tables::{
    MOST_ROWS, begin_table, end_table, put_amount_cell, put_count_cell, put_head, put_more,
    put_number_head,
};
