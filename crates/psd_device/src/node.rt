//! A device in its storage, on or off.
ghost use Rattle.std.specs.Prelude.{◌≡◌, ◌==◌, ◌<◌, ◌^◌, OnErr, IsErrOf, true, false, is_ok};
ghost use Rattle.std.specs.Option.{ForSome};
ghost use Rattle.nv_model.specs.Meters.{Restarts};
ghost use Rattle.bench_base.specs.declared.sizes.TheConstants.{RECORD_BYTES, SLOTS, DEVICE_BYTES};
ghost use Rattle.nv_store.specs.Store.{one_held, Holds};
ghost use Rattle.nv_ring.specs.Turns.{IsWearOf};
ghost use Rattle.node_storage.specs.Does.{Reads, Commits, Stores, Writes};
ghost use Rattle.node_storage.specs.Ends.{begins, end_of_commit, leaves_running};
ghost use Rattle.psd_state.specs.Seen.{counting};
ghost use Rattle.psd_device.specs.Shown.{IsHeld, IsStorable, ShowsSeen, fill_of};
ghost use Rattle.psd_device.specs.Unique.{each_kept_prop, IsHeld-prop};

use bench_base::numbers::DevNo;
use bench_base::refusals::StoreFail;
use bench_base::sizes::{DEVICE_BYTES, MOST_COMMITS, RECORD_BYTES, SLOTS};
use nv_model::{Nv, NvFail};
use nv_ring::Wear;
use nv_store::{Head, commit_lent};
use psd_state::{DevRec, ReadyRecord, keep};

/// A device over storage of 3,424 bytes: one cell of sixteen slots, with the device's record as payload. While it is off,
/// what it knew of its storage counts for nothing.
#[derive(Drop)]
pub struct DeviceNode<N: Nv> {
    pub(crate) nv: N,
    pub(crate) head: Head,
    pub(crate) payload: [u8; RECORD_BYTES],
    pub(crate) wear: Wear,
    pub(crate) device: DevNo,
    pub(crate) state: Option<ReadyRecord>,
    pub(crate) on: bool,
    ghost room: { on ≡ true → N.size nv ≡ DEVICE_BYTES },
    ghost powered: { on ≡ true → (N.meters nv).lost ≡ false },
    ghost holds: { on ≡ true → N.tells → Holds RECORD_BYTES SLOTS head payload (N.times nv) (N.content nv) },
    ghost fits: { head.count < 2 ^ 32 },
    ghost inside: { 0 < head.count → head.place < SLOTS },
    ghost wears: { IsWearOf wear head },
    ghost written: { IsHeld head.count state (one_held head.count payload) } by { IsHeld-prop head.count state (one_held head.count payload) },
    ghost kept: { ForSome state IsStorable } by { each_kept_prop state },
}

impl<N: Nv> DeviceNode<N> {
    ghost use Rattle.psd_device.specs.NodeView.{storage_in, seen_in, number_in, is_on, wear_in, SameWear};

    /// A device that is off, in this storage. The number counts from its next boot on.
    pub(crate) fn new(device: DevNo, nv: N) -> DeviceNode<N>
        ensures off { is_on result ≡ false }
        ensures storage { storage_in result ≡ nv }
    {
        let head = Head::blank();
        DeviceNode {
            nv,
            head,
            payload: [0; RECORD_BYTES],
            wear: Wear::new(&head),
            device,
            state: None,
            on: false,
        }
    }

    /// The number of the device.
    pub fn number(&self) -> DevNo
        ensures { result ≡ number_in self.now }
    {
        self.device
    }

    /// Its record with its key made ready, None where it was never made.
    pub fn record(&self) -> &Option<ReadyRecord>
        ensures { result.now ≡ (seen_in self.now).state }
    {
        &self.state
    }

    /// The number of commits.
    pub(crate) fn count(&self) -> u64
        ensures value { result ≡ (seen_in self.now).count }
        ensures fits { result < 2 ^ 32 }
    {
        u64::from(self.head.count)
    }

    /// Whether its cell has as many commits as can be counted.
    pub(crate) fn is_worn(&self) -> bool
        ensures { result ≡ ((seen_in self.now).count == MOST_COMMITS) }
    {
        self.head.count == MOST_COMMITS
    }

    /// Restarts the storage of a device that is off.
    pub(crate) fn restart_storage(&mut self) -> Result<(), NvFail>
        requires off { is_on self.old ≡ false }
        ensures off { is_on self.new ≡ false }
        ensures reads { Reads N.Nv (storage_in self.old) (storage_in self.new) }
        ensures answer { Restarts (N.meters (storage_in self.old)) (N.meters (storage_in self.new)) result }
    {
        self.nv.restart()
    }

    /// Commits a record, and keeps it once it is committed. After Power and Fault the device is off.
    pub(crate) fn commit_record(&mut self, next: &DevRec) -> Result<(), StoreFail>
        requires on { is_on self.old ≡ true }
        ensures leaves { is_on self.new ≡ leaves_running result }
        ensures number { number_in self.new ≡ number_in self.old }
        ensures kept { IsStorable next.now }
        ensures rests { IsErrOf result StoreFail.Worn → self.new ≡ self.old }
        ensures stays { OnErr result (seen_in self.new ≡ seen_in self.old) }
        ensures answers { Commits counting (seen_in self.old) (seen_in self.new) next.now result }
        ensures stores { Stores N.Nv (ShowsSeen (seen_in self.old)) (ShowsSeen (counting.after (seen_in self.old) next.now))
            (storage_in self.old) (storage_in self.new) (end_of_commit result) }
        ensures writes { Writes N.Nv (fill_of (seen_in self.old) next.now) (storage_in self.old) (storage_in self.new) (begins result) (is_ok result) }
        ensures wear { SameWear (wear_in self.old) (wear_in self.new) }
    {
        let payload = next.write_payload();
        if self.is_worn() {
            return Err(StoreFail::Worn);
        }
        match commit_lent(
            &mut self.nv,
            SLOTS,
            &mut self.head,
            &mut self.payload,
            &payload,
        ) {
            Ok(()) => {
                self.wear.count(&self.head);
                keep(&mut self.state, next);
                Ok(())
            }
            Err(fail) => {
                self.on = false;
                Err(fail)
            }
        }
    }

    /// Gives the storage back.
    pub(crate) fn into_storage(self) -> N
        ensures { result ≡ storage_in self }
    {
        let DeviceNode {
            nv,
            head: _,
            payload: _,
            wear: _,
            device: _,
            state: _,
            on: _,
        } = self;
        nv
    }
}
