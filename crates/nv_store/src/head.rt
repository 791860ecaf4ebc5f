//! What a running value keeps of a cell beside its payload.
ghost use Rattle.std.specs.Prelude.{◌≡◌, ◌≢◌, ◌≤◌, ◌<◌, false, replicate};
ghost use Rattle.nv_store.specs.Cells.{next_of};

/// What a running value knows of a cell's slots.
#[derive(Clone, Copy)]
pub struct Head {
    /// The number of commits, 0 where the cell is blank.
    pub count: u32,
    /// The current slot, where the cell is not blank.
    pub place: u32,
    /// The slots with an open gate.
    pub gates: [bool; 16],
}

impl Head {
    /// The head of a cell with no open slot.
    pub fn blank() -> Head
        ensures { result ≡ record { count = 0; place = 0; gates = replicate 16 false } }
    {
        Head {
            count: 0,
            place: 0,
            gates: [false; 16],
        }
    }

    /// The slot that the next commit goes to: the one after the current slot, slot 0 of a blank cell.
    pub fn next_place(&self, slots: u32) -> u32
        requires many { (2 ≤ slots) × (slots ≤ 16) }
        requires inside { 0 < self.now.count → self.now.place < slots }
        ensures place { result ≡ next_of self.now.count self.now.place slots }
        ensures inside { result < slots }
        ensures other { 0 < self.now.count → result ≢ self.now.place }
    {
        if self.count == 0 {
            0
        } else {
            (self.place + 1) % slots
        }
    }
}
