//! A node in its place, as the report describes it.

/// A node, as the report describes it: its record after the commits that count, the change of its open commit, and whether it is on.
#[derive(Drop)]
pub struct Traced<R, X> {
    pub record: R,
    pub open: Option<X>,
    pub on: bool,
}
