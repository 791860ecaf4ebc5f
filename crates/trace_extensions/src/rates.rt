//! The rates of a run, and how much of them was taken.
ghost use Rattle.std.specs.Prelude.{◌≡◌, ◌≤◌, drop, length, vec_len};

use trace_runs::behind;

/// The bytes that `rates` events of a run take, one after the other.
#[derive(Drop)]
pub struct RatesLeft {
    bytes: Vec<u8>,
    taken: usize,
    ghost inside: { taken ≤ vec_len bytes },
}

impl RatesLeft {
    ghost use Rattle.trace_extensions.specs.Rates.{left_of};

    /// All of them are left.
    pub fn new(bytes: Vec<u8>) -> RatesLeft
        ensures { left_of result ≡ bytes.items }
    {
        RatesLeft { bytes, taken: 0 }
    }

    /// What is left.
    pub fn left(&self) -> &[u8]
        ensures { result.now ≡ left_of self.now }
    {
        behind(self.bytes.as_slice(), self.taken)
    }

    /// Takes so many of them.
    pub fn pass(&mut self, count: usize)
        requires inside { count ≤ length (left_of self.old) }
        ensures { left_of self.new ≡ drop count (left_of self.old) }
    {
        self.taken += count;
    }
}
