//! The desk: the statement that is open, and what is seen of the centre's commits.
ghost use Rattle.std.specs.Prelude.{◌≤◌, length};
ghost use Rattle.std.specs.Vec.{vec_capacity};
ghost use Rattle.centre_statement.specs.Room.{HasRoom, room_prop};

use crate::answer::Answer;
use crate::watch::Watch;
use bench_base::numbers::Customer;
use statement_check::Movement;

/// The most movements of a statement.
pub const MOST_MOVEMENTS: usize = 10_000;

/// Who writes statements. It keeps the movements of one statement at a time, in memory that is taken as it is opened.
#[derive(Drop)]
pub struct StatementDesk {
    pub(crate) watch: Watch,
    /// Whose statement is open.
    pub(crate) current: Option<Customer>,
    /// The balance after the movements so far, in mills.
    pub(crate) balance: u64,
    /// Whether there were more movements than there is room for.
    pub(crate) is_full: bool,
    pub(crate) movements: Vec<Movement>,
    pub(crate) said: Answer,
    ghost few: { length movements.items ≤ 10000 },
    ghost room: { HasRoom current said (vec_capacity movements) } by { room_prop current said (vec_capacity movements) },
}
