//! Why runs that were judged could not be counted.

/// Why nothing more is counted.
#[derive(Clone, Copy)]
pub enum BookFault {
    /// Standard output took no more.
    Write,
    /// A line is counted otherwise than it was judged.
    Counted,
    /// There was no memory.
    Memory,
}
