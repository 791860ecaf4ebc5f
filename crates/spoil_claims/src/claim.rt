//! Claims, and the lines about them.
use bench_base::numbers::Customer;

/// The most claims that are kept, one a cell.
pub const CLAIM_CELLS: u32 = 1024;

/// The size of their storage, in bytes: each cell has two slots of 78.
pub const CLAIM_BYTES: u32 = 159_744;

/// A claim that is kept.
#[derive(Clone, Copy)]
pub struct ClaimRow {
    /// Its number, from 1.
    pub claim: u32,
    pub customer: Customer,
    /// Whether it was credited; until then it is open.
    pub credited: bool,
    /// The mark of the spoiled piece.
    pub mark: [u8; 64],
}

/// A line of the desk's own.
#[derive(Clone, Copy)]
pub enum ClaimLine {
    /// Claim, customer and mark.
    Claim(u32, Customer, [u8; 64]),
    Credits(Customer),
    /// A scan under a number that is a claim's.
    Reserved,
}
