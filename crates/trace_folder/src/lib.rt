//! Whether the storage of a node shows what the reports describe.
#![tactic(auto)]

mod device;
mod due;
mod filling;
mod rows;
mod shows;
mod sound;
mod verifier_cells;
mod walk;

pub use device::{device_cell, device_due, device_shows};
pub use due::{Due, Found, found_in};
pub use node_images::CellShows;
pub use rows::{centre_cell, centre_due, centre_shows, host_cell, host_due, host_shows};
pub use shows::{MOST_CELL, Shows};
pub use sound::{centre_is_sound, devices_are_sound, host_is_sound, verifier_is_sound};
pub use verifier_cells::{verifier_cell, verifier_due, verifier_shows};
