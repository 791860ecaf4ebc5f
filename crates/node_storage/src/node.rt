//! What a node of the bench promises: a record over its storage, one commit at a time.
ghost use Rattle.std.specs.Prelude.{◌≡◌, ◌+◌, List, Bool, ℕ, OnOk, IsErrOf, true, false, is_ok};
ghost use Rattle.nv_model.specs.Moments.{Image};
ghost use Rattle.nv_model.specs.Still.{SameTimes, armed, with_fuse};
ghost use Rattle.nv_store.specs.Fills.{Fill};
ghost use Rattle.node_acts.specs.Views.{Counting};
ghost use Rattle.node_storage.specs.Does.{Reads, RestartIs, Spends, SyncsOnce, Commits, Leaves, Stores, Writes};
ghost use Rattle.node_storage.specs.Ends.{begins, end_of_boot, end_of_commit, leaves_running};

use bench_base::refusals::{BootFail, StoreFail};
use nv_model::{Nv, NvFail};

/// A node in its storage, on or off: what its record is, and how a change of it is committed. While it is off, what it
/// knew of its storage counts for nothing.
pub trait Node: Sized {
    type Storage: Nv;
    /// Which node of its kind it is.
    type Name: Copy;
    /// What a commit changes of the record.
    type Change: Copy;
    /// The memory that it runs in.
    type Spare;

    /// The record as callers see it, with the count of each of its cells.
    ghost Seen: { Type 0 };

    /// The size of its storage in bytes.
    ghost bytes: { ℕ };

    /// What its record counts, and how a change goes into it.
    ghost counting: { Counting Seen Self.Change };

    /// What the commit of a change of a record writes, and to which cell.
    ghost fill: { Seen → Self.Change → Fill };

    /// What is true of each change that code can make.
    ghost IsStorable: { Self.Change → Type 0 };

    /// The record can take the change.
    ghost IsFit: { Seen → Self.Change → Type 0 };

    /// The change is one of this record of the node.
    ghost IsFrom: { Self.Name → Seen → Self.Change → Type 0 };

    /// A record of the node that its storage can show.
    ghost IsSound: { Self.Name → Seen → Type 0 };

    /// An image that shows this record.
    ghost IsShown: { Seen → List ℕ → Type 0 };

    /// The storage is not a valid storage of the node.
    ghost IsDamaged: { Self.Name → Self.Storage → Type 0 };

    /// What a commit leaves as it was beside the record.
    ghost Stays: { Self → Self → Type 0 };

    ghost name: { Self → Self.Name };

    ghost seen: { Self → Seen };

    ghost is_on: { Self → Bool };

    ghost storage: { Self → Self.Storage };

    /// A node that is off, in this storage. The number counts from its next boot on.
    fn off(number: Self::Name, nv: Self::Storage, spare: Self::Spare) -> Self
        ensures off { is_on result ≡ false }
        ensures storage { storage result ≡ nv };

    /// Whether it is on.
    fn is_on(&self) -> bool
        ensures { result ≡ is_on self.now };

    /// Restarts the storage of a node that is off, and leaves it off. Nothing is written.
    fn restart(&mut self) -> Result<(), NvFail>
        requires off { is_on self.old ≡ false }
        ensures off { is_on self.new ≡ false }
        ensures reads { Reads Self.Storage.Nv (storage self.old) (storage self.new) }
        ensures answer { RestartIs Self.Storage.Nv (storage self.old) (storage self.new) result };

    /// Switches a node that is off on, from what its storage shows, or leaves it off. Nothing is written.
    fn boot(&mut self, number: Self::Name) -> Result<(), BootFail>
        requires off { is_on self.old ≡ false }
        requires powered { (Self.Storage.meters (storage self.old)).lost ≡ false }
        ensures leaves { is_on self.new ≡ is_ok result }
        ensures starts { OnOk result ((name self.new ≡ number) × IsSound number (seen self.new)) }
        ensures reads { Reads Self.Storage.Nv (storage self.old) (storage self.new) }
        ensures damaged { Self.Storage.tells → IsErrOf result BootFail.Damaged → IsDamaged number (storage self.new) }
        ensures spent { Spends Self.Storage.Nv 1 (storage self.old) (storage self.new) (end_of_boot result) }
        ensures once { SyncsOnce Self.Storage.Nv bytes (storage self.old) (storage self.new) result };

    /// Commits a change of a node that is on, and keeps it once it is committed. After Power and Fault the node is off.
    fn commit(&mut self, change: &Self::Change) -> Result<(), StoreFail>
        requires on { is_on self.old ≡ true }
        requires fits { IsFit (seen self.old) change.now }
        ensures leaves { is_on self.new ≡ leaves_running result }
        ensures name { name self.new ≡ name self.old }
        ensures kept { IsStorable change.now }
        ensures rests { IsErrOf result StoreFail.Worn → self.new ≡ self.old }
        ensures stays { Leaves (seen self.old) (seen self.new) (Stays self.old self.new) result }
        ensures answers { Commits counting (seen self.old) (seen self.new) change.now result }
        ensures stores { Stores Self.Storage.Nv (IsShown (seen self.old)) (IsShown (counting.after (seen self.old) change.now))
            (storage self.old) (storage self.new) (end_of_commit result) }
        ensures writes { Writes Self.Storage.Nv (fill (seen self.old) change.now) (storage self.old) (storage self.new) (begins result) (is_ok result) };

    /// The number of commits.
    fn commits(&self) -> u64
        ensures { result ≡ counting.count (seen self.now) };

    /// Switches it off. Nothing is written.
    fn shut(&mut self)
        ensures off { is_on self.new ≡ false }
        ensures storage { storage self.new ≡ storage self.old };

    /// Gives the storage and the memory back.
    fn into_parts(self) -> (Self::Storage, Self::Spare)
        ensures { result.0 ≡ storage self };

    ghost stays_same: { (k : Self) → Stays k k };

    ghost sized: { (k : Self) → is_on k ≡ true → Self.Storage.size (storage k) ≡ bytes };

    /// While it is on, each image shows the record.
    ghost knows: { (k : Self) → Self.Storage.tells → is_on k ≡ true → (c : List ℕ) → Image (Self.Storage.times (storage k)) c
        → IsShown (seen k) c };

    /// An image shows one record.
    ghost one_shown: { (d : Self.Name) (a b : Seen) (c : List ℕ) → IsSound d a → IsSound d b → IsShown a c → IsShown b c
        → a ≡ b };

    ghost keeps: { (d : Self.Name) (s : Seen) (x : Self.Change) → IsSound d s → IsStorable x → IsFrom d s x
        → counting.is_worn s x ≡ false → IsSound d (counting.after s x) };

    ghost counts: { (d : Self.Name) (s : Seen) (x : Self.Change) → IsSound d s → IsStorable x
        → counting.count (counting.after s x) ≡ counting.count s + 1 };

    /// Storage that shows a record of the node is not damaged.
    ghost intact: { (d : Self.Name) (s : Seen) (nv : Self.Storage) → IsSound d s → IsShown s (Self.Storage.content nv)
        → Self.Storage.size nv ≡ bytes → IsDamaged d nv → ⊥ };
}

/// A node over storage with a fuse.
pub trait Arms: Node {
    ghost use Rattle.nv_model.specs.declared.fuse.Fuse.{Ghosts};

    /// The fuse of its storage.
    ghost fuse: { Ghosts Self.Storage };

    /// Arms the fuse of the storage.
    fn arm(&mut self, calls: u32, keep: u32, byte: u8)
        ensures armed { fuse.fuse_of (Self.storage self.new) ≡ armed calls keep byte (fuse.fuse_of (Self.storage self.old)) }
        ensures times { SameTimes (Self.Storage.times (Self.storage self.old)) (Self.Storage.times (Self.storage self.new)) }
        ensures size { Self.Storage.size (Self.storage self.new) ≡ Self.Storage.size (Self.storage self.old) }
        ensures meters { Self.Storage.meters (Self.storage self.new) ≡ with_fuse calls (Self.Storage.meters (Self.storage self.old)) }
        ensures name { Self.name self.new ≡ Self.name self.old }
        ensures seen { Self.seen self.new ≡ Self.seen self.old }
        ensures leaves { Self.is_on self.new ≡ Self.is_on self.old };
}
