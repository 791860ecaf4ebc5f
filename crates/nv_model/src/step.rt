//! What the record of a storage in memory holds.

/// A call of the record.
#[derive(Clone, Copy)]
pub enum Step {
    /// A write: its place, its length, and where its bytes stand among the written bytes of the record.
    Written(u32, u32, u32),
    /// A tear that filled a range with a byte: its place, its length, and the byte.
    Torn(u32, u32, u8),
    /// A sync or a restart that succeeded.
    Synced,
}
