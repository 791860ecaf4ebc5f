//! How often each slot of a ring was filled.
ghost use Rattle.std.specs.Prelude.{◌≡◌, ◌+◌, ◌<◌, sum, slice_index, slice_set, replicate};
ghost use Rattle.nv_store.specs.Cells.{next_of};
ghost use Rattle.nv_store.specs.declared.head.Head.{Head};

use nv_store::Head;

/// How often each slot of a ring was filled since it was mounted.
#[derive(Clone, Copy)]
pub struct Wear {
    /// The number of commits at the mount.
    pub first: u32,
    /// The current slot at the mount, 15 where the ring was blank.
    pub start: u32,
    /// For each slot the commits since the mount that filled it.
    pub fills: [u32; 16],
}

impl Wear {
    ghost use Rattle.nv_ring.specs.Turns.{start_of, IsWearOf};

    /// The wear at a mount that found this head: no slot was filled yet.
    pub fn new(head: &Head) -> Wear
        requires { 0 < head.now.count → head.now.place < 16 }
        ensures new { result ≡ record { first = head.now.count; start = start_of head.now; fills = replicate 16 0 } }
        ensures wear { IsWearOf result head.now }
    {
        Wear {
            first: head.count,
            start: if head.count == 0 { 15 } else { head.place },
            fills: [0; 16],
        }
    }

    /// Counts the commit that led to this head.
    pub fn count(&mut self, head: &Head)
        requires inside { head.now.place < 16 }
        requires room { sum self.old.fills < 4294967295 }
        ensures counted { self.new ≡ record self.old { fills = slice_set self.old.fills head.now.place (slice_index self.old.fills head.now.place + 1) } }
        ensures wear { (before : Head) → IsWearOf self.old before → head.now.count ≡ before.count + 1
            → head.now.place ≡ next_of before.count before.place 16 → IsWearOf self.new head.now }
    {
        self.fills[head.place as usize] += 1;
    }
}
