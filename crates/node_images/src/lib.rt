//! What the bytes of a cell of a node's storage show, by what was counted of the cell and by the commit in doubt: exact both ways, in each version of a row,
//! and without a start.
#![tactic(auto)]

mod cell;
mod centre;
mod device;
mod host;
mod laws;
mod verifier_rows;

pub use cell::CellShows;
pub use centre::centre_cell;
pub use device::device_image;
pub use host::host_cell;
pub use laws::cells_show_rows;
pub use verifier_rows::{shows_block, shows_no_block, shows_trust};
