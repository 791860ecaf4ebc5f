//! The host's jobs: what is ordered, held, printed and closed, without storage.
#![tactic(auto)]

mod acts;
mod jobs_of;
mod joined;
mod kept;
mod laws;
mod orders;
mod payload;
mod rows;
mod sizes;
mod soundness;
mod states;

pub use acts::{
    HostAct, Ordered, begin_print_act, close_act, debit_message_act, order_act, take_act,
};
pub use jobs_of::JobsOf;
pub use kept::{JobRows, Kept, cell_of, put};
pub use laws::{acts_follow_the_commits, cells_follow_the_commits, one_job};
pub use orders::{Shelf, hold, order};
pub use rows::JobRow;
pub use sizes::{HOST_BYTES, HOST_CELLS, JOB_BYTES};
pub use states::{refuses_close, refuses_print, refuses_send};
