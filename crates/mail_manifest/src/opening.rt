//! What a manifest is opened with, and the lines about it.
use bench_base::words::Key;

/// The most pieces that a manifest lists.
pub const MOST_PIECES: u16 = 512;

/// What a manifest is opened with.
#[derive(Clone, Copy)]
pub struct Opening {
    /// The number under which its first piece is scanned, from 1. The others follow it.
    pub first: u32,
    /// How many pieces it is to have, from 1 to 512.
    pub count: u16,
    /// The postage of all its pieces, in mills.
    pub total: u64,
    /// The key of its code, which the mailer names.
    pub key: Key,
}

/// A line about the manifest.
#[derive(Clone, Copy)]
pub enum ManifestLine {
    Open(Opening),
    /// A mark of 64 bytes, which need not read as one.
    Piece([u8; 64]),
    Code,
    /// The code that it is to have.
    Check([u8; 32]),
}
