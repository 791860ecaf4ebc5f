//! What an image of a storage shows, by what was counted and by the commit in doubt.

/// The most bytes of a cell: those of the verifier's.
pub const MOST_CELL: usize = 4_122;

/// What an image of a storage shows.
#[derive(Clone, Copy, Debug, PartialEq, Eq)]
pub enum Shows {
    /// What was counted.
    Counted,
    /// That, and the commit in doubt.
    Open,
    /// What no history allows that the auditor has: this is the first cell that shows it.
    Other(u32),
}
