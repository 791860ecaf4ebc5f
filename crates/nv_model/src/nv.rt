//! What storage promises: the trait Nv.
ghost use Rattle.std.specs.Prelude.{◌≡◌, ◌+◌, ◌≤◌, List, ℕ, Bool, false, length, Result};
ghost use Rattle.nv_model.specs.Calls.{DidRead, DidWrite, DidSync, DidRestart};
ghost use Rattle.nv_model.specs.Meters.{Meters};
ghost use Rattle.nv_model.specs.Moments.{Times, Image, Nested, IsImage};

/// How a call of a storage fails. `Power`: power was cut, and every call but a restart fails so until one succeeds.
/// `Fault`: this call failed, and the next may succeed.
#[derive(Clone, Copy, Debug, PartialEq, Eq)]
pub enum NvFail {
    Power,
    Fault,
}

/// Storage of a fixed number of bytes, which may lose power at any write.
pub trait Nv {
    /// Whether storage of this type exposes its content and its images.
    ghost tells: { Type 0 };

    /// The number of bytes.
    ghost size: { Self → ℕ };

    /// What a read gives.
    ghost content: { Self → List ℕ };

    /// The content after the last sync or restart that succeeded.
    ghost base: { Self → List ℕ };

    /// The places that were written since.
    ghost written: { Self → ℕ → Bool };

    /// The moment, a number that never falls, and the images since each moment.
    ghost times: { Self → Times };

    /// The counts, whether power is lost, and the fuse.
    ghost meters: { Self → Meters };

    ghost use Rattle.nv_model.specs.declared.nv.NvFail.{NvFail};

    /// What more a storage of this type says of its calls: exactly what they answer and leave. Nothing, unless it says so.
    ghost read_is: { Self → Self → Result (Unit {0}) NvFail → Type 0 } = { λ old new result. Unit {0} };

    ghost write_is: { Self → Self → ℕ → List ℕ → Result (Unit {0}) NvFail → Type 0 } = { λ old new at bytes result. Unit {0} };

    ghost sync_is: { Self → Self → Result (Unit {0}) NvFail → Type 0 } = { λ old new result. Unit {0} };

    ghost restart_is: { Self → Self → Result (Unit {0}) NvFail → Type 0 } = { λ old new result. Unit {0} };

    /// The number of bytes. It never changes.
    fn size(&self) -> u32
        ensures { result ≡ size self.now };

    /// Reads the bytes of a range, which is as long as `buf`. A read that fails may leave anything in `buf`.
    fn read(&mut self, at: u32, buf: &mut [u8]) -> Result<(), NvFail>
        requires { at + length buf.old ≤ size self.old }
        ensures exact { read_is self.old self.new result }
        ensures did { DidRead tells size content base written times meters self.old self.new at buf.new result };

    /// Writes bytes from `at` on. Until the next sync or restart that succeeds, a cut of power may leave any bytes in this
    /// range, also where the write fails. After a Fault a read gives the bytes outside the range as before.
    fn write(&mut self, at: u32, bytes: &[u8]) -> Result<(), NvFail>
        requires { at + length bytes.now ≤ size self.old }
        ensures exact { write_is self.old self.new at bytes.now result }
        ensures did { DidWrite tells size content base written times meters self.old self.new at bytes.now result };

    /// Makes sure of what was written: where it succeeds, a cut of power leaves what a read gives now. After a Fault what
    /// was written may still be lost.
    fn sync(&mut self) -> Result<(), NvFail>
        ensures exact { sync_is self.old self.new result }
        ensures did { DidSync tells size content base written times meters self.old self.new result };

    /// Begins again, also after a cut of power. The content is then one of the images of this moment, and the only one.
    fn restart(&mut self) -> Result<(), NvFail>
        ensures exact { restart_is self.old self.new result }
        ensures did { DidRestart tells size content base written times meters self.old self.new result };

    /// What a read gives is an image.
    ghost content_is: { (s : Self) → tells → Image (times s) (content s) };

    /// An image has the bytes of the base at each place that was not written.
    ghost image_is: { (s : Self) (c : List ℕ) → tells → Image (times s) c → IsImage (base s) (written s) c };

    /// While power is not lost, each content with the bytes of the base at those places is an image.
    ghost image_all: { (s : Self) (c : List ℕ) → tells → (meters s).lost ≡ false → IsImage (base s) (written s) c → Image (times s) c };

    /// An image has the storage's number of bytes.
    ghost sized: { (s : Self) (t : ℕ) (c : List ℕ) → tells → (times s).since t c → length c ≡ size s };

    /// The images since a later moment are among those since an earlier one.
    ghost nested: { (s : Self) → tells → Nested (times s) };
}
