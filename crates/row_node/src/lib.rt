//! A node of rows in its storage, for rows of any kind: each cell of a table holds one row.
#![tactic(auto)]

mod boot;
mod cells;
mod kind;
mod node;
mod room;
mod rows;
mod running;

pub use cells::Cells;
pub use node::RowNode;
pub use room::RowRoom;
pub use rows::Rows;
pub use running::RunningRows;
