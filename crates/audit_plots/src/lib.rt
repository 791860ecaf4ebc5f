//! Curves over days: axes, ticks, stairs. All of it is integers.
#![tactic(auto)]

mod axis;
mod curves;
mod grids;
mod parts;

pub use axis::Axis;
pub use curves::{NONE, filled, put_band, put_bars, put_levels, put_stair};
pub use grids::{Unit, put_grid};
pub use parts::{Ticks, greatest, level, ticks_for};
