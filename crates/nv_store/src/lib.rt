//! Cells in storage: each shows the old payload or the new one, whenever power is cut.
#![tactic(auto)]

mod causes;
mod cells;
mod commit;
mod head;
mod lent;
mod one;
mod room;
mod rooms;
mod scan;
mod steps;
mod store;
mod table;

/// The most bytes of a payload, so that it fits a fixed buffer with its count and both are written in one call.
pub const MOST_BYTES: usize = 2056;

pub use causes::MountCause;
pub use head::Head;
pub use lent::{commit_lent, mount_lent};
pub use one::Cell;
pub use room::Room;
pub use rooms::{clear_room, commit_room, count_room, get_room, is_room_worn, mount_room};
pub use store::Store;
pub use table::{MountFail, Table};
