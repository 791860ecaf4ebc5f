//! What the commits record of a device's registers.
/// The registers of a device as the commits record them, in mills, and its debits.
#[derive(Clone, Copy, Debug, PartialEq, Eq)]
pub struct Sums {
    /// What was spent.
    pub ascending: i128,
    /// What is left; below 0 where more was spent and refunded than loaded.
    pub descending: i128,
    /// What was refunded or withdrawn.
    pub refunded: i128,
    /// How many debits.
    pub pieces: i128,
}
