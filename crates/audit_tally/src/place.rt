//! The place at which something was reported.
ghost use Rattle.std.specs.Prelude.{◌≡◌, ◌↔◌, IsTrue};

/// A line of a script: of the run of this place among all, counted from 0, and its number, counted from 1.
#[derive(Clone, Copy)]
pub struct Place {
    pub run: usize,
    pub line: u32,
}

impl Place {
    /// Whether it is the same line of the same run.
    pub fn is_at(&self, other: &Place) -> bool
        ensures { IsTrue result ↔ ((self.now.run ≡ other.now.run) × (self.now.line ≡ other.now.line)) }
    {
        self.run == other.run && self.line == other.line
    }
}
