//! The newest slot of a cell, and the bytes of a cell in an image.
ghost use Rattle.std.specs.Prelude.{◌≡◌, ◌+◌, ◌*◌, ◌<◌, ◌≤◌, length};
ghost use Rattle.nv_store.specs.Slot.{slots_at};
ghost use Rattle.node_images.specs.Joined.{bytes_of};
ghost use Rattle.trace_images.specs.Newest.{ShowsNewest};

use nv_bytes::{find_newest, is_clear, payload_at};

/// What the newest slot of a cell shows.
#[derive(Clone, Copy)]
pub(crate) enum Newest {
    /// Nothing, since the cell is not clear: no commits leave such slots.
    Mixed,
    Blank,
    /// So many commits, with a payload.
    Commits(u32),
}

/// The newest slot of a cell of so many slots, with payloads of `size` bytes, and a copy of its payload.
pub(crate) fn read_newest(cell: &[u8], slots: usize, size: usize, payload: &mut [u8]) -> Newest
    requires small { size ≤ 2056 }
    requires few { slots ≤ 16 }
    requires long { length cell.now ≡ slots * (5 + size) }
    requires room { length payload.old ≡ size }
    ensures shows { ShowsNewest slots (slots_at size 0 cell.now) payload.new result }
    ensures room { length payload.new ≡ size }
{
    if !is_clear(cell, slots, size) {
        return Newest::Mixed;
    }
    let Some(newest) = find_newest(cell, slots, size) else {
        return Newest::Blank;
    };
    payload.copy_from_slice(payload_at(cell, size, newest.place));
    Newest::Commits(newest.count)
}

/// The bytes of the cell of two slots at this place of an image.
pub(crate) fn cell_bytes(image: &[u8], size: usize, place: u32) -> &[u8]
    requires small { size ≤ 2056 }
    requires few { place < 2048 }
    requires inside { place * (2 * (5 + size)) + 2 * (5 + size) ≤ length image.now }
    ensures value { result.now ≡ bytes_of size place image.now }
    ensures long { length result.now ≡ 2 * (5 + size) }
{
    let start = place as usize * (2 * (5 + size));
    &image[start..start + 2 * (5 + size)]
}
