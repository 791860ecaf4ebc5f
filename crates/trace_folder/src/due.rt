//! What a cell should hold, and what it holds, as far as it is reported.
ghost use Rattle.std.specs.Prelude.{◌≡◌, ◌≤◌, ◌+◌, ◌*◌, length};

use nv_bytes::{find_newest, is_clear};

/// How many commits a cell should have, and whether one more of it is in doubt.
#[derive(Clone, Copy, Debug, PartialEq, Eq)]
pub struct Due {
    pub count: u32,
    pub is_open: bool,
}

/// What the bytes of a cell hold.
#[derive(Clone, Copy, Debug, PartialEq, Eq)]
pub enum Found {
    /// Slots that no commit leaves: one of count 0, or two of one count.
    Mixed,
    Blank,
    /// So many commits.
    Count(u32),
}

/// What a cell of this count should hold, if the open change is one of that cell.
pub(crate) fn due_by(count: u32, changed: Option<usize>, place: usize) -> Due {
    Due {
        count,
        is_open: changed == Some(place),
    }
}

/// What the bytes of a cell of so many slots hold, with payloads of `size` bytes.
pub fn found_in(cell: &[u8], slots: usize, size: usize) -> Found
    requires small { size ≤ 2056 }
    requires few { slots ≤ 16 }
    requires long { length cell.now ≡ slots * (5 + size) }
{
    if !is_clear(cell, slots, size) {
        return Found::Mixed;
    }
    match find_newest(cell, slots, size) {
        Some(newest) => Found::Count(newest.count),
        None => Found::Blank,
    }
}
