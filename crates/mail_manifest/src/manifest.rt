//! A manifest that was opened, and its pieces so far.
ghost use Rattle.std.specs.Prelude.{◌≡◌, ◌≤◌, ◌+◌, ◌*◌, length, take, vec_capacity};
ghost use Rattle.mail_manifest.specs.Listings.{IsOpening, head_part};

use crate::opening::Opening;

/// A manifest that was opened, and its pieces so far. All its memory is taken as it is opened.
#[derive(Drop)]
pub struct Manifest {
    pub(crate) opening: Opening,
    // What its code is over.
    pub(crate) text: Vec<u8>,
    pub(crate) pieces: u16,
    ghost range: { IsOpening opening },
    ghost few: { pieces ≤ opening.count },
    ghost long: { length text.items ≡ 14 + 64 * pieces },
    ghost head: { take 14 text.items ≡ head_part opening },
    ghost room: { 14 + 64 * opening.count ≤ vec_capacity text },
}
