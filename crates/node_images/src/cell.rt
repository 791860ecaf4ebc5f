//! What the bytes of a cell show.

/// What the bytes of a cell show.
#[derive(Clone, Copy, Debug, PartialEq, Eq)]
pub enum CellShows {
    /// What was counted.
    Counted,
    /// That, and the commit in doubt.
    Open,
    /// Neither.
    Other,
}
