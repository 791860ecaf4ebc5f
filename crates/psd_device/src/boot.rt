//! A device out of its storage.
ghost use Rattle.std.specs.Prelude.{◌≡◌, ◌≢◌, OnOk, IfOk, IfErr, IfSome, IsErrOf, MatchResult, Ok, Err, false, is_ok};
ghost use Rattle.nv_store.specs.Store.{one_held};
ghost use Rattle.nv_store.specs.Turns.{Kept};
ghost use Rattle.node_storage.specs.Does.{Reads, Spends, SpendsOne, SyncsOnce};
ghost use Rattle.node_storage.specs.Ends.{end_of_boot};
ghost use Rattle.psd_state.specs.State.{State};
ghost use Rattle.psd_state.specs.Payload.{ReadsAs};
ghost use Rattle.psd_device.specs.Shown.{IsHeld};
ghost use Rattle.psd_device.specs.Boots.{IsOwn, AllShowOwn, IsDamaged};

use crate::device::Device;
use crate::node::DeviceNode;
use bench_base::numbers::DevNo;
use bench_base::refusals::BootFail;
use bench_base::sizes::{DEVICE_BYTES, RECORD_BYTES, SLOTS};
use node_storage::Running;
use nv_model::Nv;
use nv_ring::Wear;
use nv_store::{MountCause, mount_lent};
use psd_state::{DevRec, ReadyRecord, keep};

// The record that a cell with so many commits holds: None where it is blank, and Err where the payload reads as no record
// of this device. A record that was kept before saves time if its key is the same.
fn record_in(
    device: DevNo,
    count: u32,
    payload: &[u8; RECORD_BYTES],
    kept: &Option<ReadyRecord>,
) -> Result<Option<DevRec>, ()>
    ensures holds { IfOk result (λ state. IsHeld count state (one_held count payload.now)) }
    ensures own { IfOk result (λ state. IfSome state (IsOwn device)) }
    ensures filled { IfErr result (λ x. count ≢ 0) }
    ensures foreign { IfErr result (λ x. (s : State) → s.device ≡ device → ReadsAs payload.now s → ⊥) }
{
    if count == 0 {
        return Ok(None);
    }
    match DevRec::read_payload(device, payload, kept) {
        Some(record) => Ok(Some(record)),
        None => Err(()),
    }
}

// Keeps what was read. A key that stays the same is ready already.
fn follow(state: &mut Option<ReadyRecord>, read: &Option<DevRec>)
    ensures { state.new ≡ read.now }
{
    match read {
        Some(record) => keep(state, record),
        None => *state = None,
    }
}

impl<N: Nv> DeviceNode<N> {
    ghost use Rattle.psd_device.specs.NodeView.{storage_in, seen_in, number_in, is_on, wear_in};
    ghost use Rattle.psd_device.specs.Sound.{IsSound, IsNewWear, IsCurrent};

    /// Switches a device that is off on, from what its storage shows, or leaves it off. Power is not lost. Nothing is
    /// written.
    pub(crate) fn boot_record(&mut self, device: DevNo) -> Result<(), BootFail>
        requires off { is_on self.old ≡ false }
        requires powered { (N.meters (storage_in self.old)).lost ≡ false }
        ensures leaves { is_on self.new ≡ is_ok result }
        ensures starts { OnOk result ((number_in self.new ≡ device) × IsSound device (seen_in self.new)) }
        ensures reads { Reads N.Nv (storage_in self.old) (storage_in self.new) }
        ensures size { N.size (storage_in self.old) ≢ DEVICE_BYTES
            → (result ≡ Err BootFail.Damaged) × (storage_in self.new ≡ storage_in self.old) }
        ensures damaged { N.tells → IsErrOf result BootFail.Damaged → IsDamaged N.Nv device (storage_in self.new) }
        ensures spent { Spends N.Nv 1 (storage_in self.old) (storage_in self.new) (end_of_boot result) }
        ensures once { SyncsOnce N.Nv DEVICE_BYTES (storage_in self.old) (storage_in self.new) result }
        ensures wear { OnOk result (IsNewWear (wear_in self.new) (seen_in self.new).count) }
        ensures place { N.tells → OnOk result (IsCurrent (wear_in self.new).start (N.content (storage_in self.new))) }
    {
        let mut payload = [0; RECORD_BYTES];
        let head = match mount_lent(&mut self.nv, SLOTS, &mut payload) {
            Ok(head) => head,
            Err(MountCause::Power) => return Err(BootFail::Power),
            Err(MountCause::Fault) => return Err(BootFail::Fault),
            Err(MountCause::Size(_)) => return Err(BootFail::Damaged),
            Err(MountCause::Mixed(_)) => return Err(BootFail::Damaged),
        };
        let Ok(state) = record_in(device, head.count, &payload, &self.state) else {
            return Err(BootFail::Damaged);
        };
        self.wear = Wear::new(&head);
        self.head = head;
        self.payload = payload;
        self.device = device;
        follow(&mut self.state, &state);
        self.on = true;
        Ok(())
    }
}

impl<N: Nv> Device<N> {
    ghost use Rattle.psd_device.specs.DeviceView.{storage_of, seen_of, wear_of, Starts};
    ghost use Rattle.psd_device.specs.Sound.{IsNewWear};

    /// The device of this number in its storage, or why it does not start, with the storage. Power is not lost. Nothing is
    /// written.
    ///
    /// `Damaged` where the storage has not 3,424 bytes, an open slot has count 0, two open slots have equal counts, or the
    /// current payload reads as no record of this device, in version 1 or 2. Blank storage is a device that was not made yet.
    pub fn boot(device: DevNo, nv: N) -> Result<Device<N>, (N, BootFail)>
        requires powered { (N.meters nv).lost ≡ false }

        // What starts is what the storage shows, and nothing is written.
        ensures starts { IfOk result (Starts device) }
        ensures reads { MatchResult result (λ d. Reads N.Nv nv (storage_of d)) (λ e. Reads N.Nv nv e.0) }

        // Why it fails, and what it costs.
        ensures size { N.size nv ≢ DEVICE_BYTES → result ≡ Err (nv, BootFail.Damaged) }
        ensures damaged { N.tells → MatchResult result (λ d. IsDamaged N.Nv device (storage_of d) → ⊥)
            (λ e. e.1 ≡ BootFail.Damaged → IsDamaged N.Nv device e.0) }
        ensures sound { N.tells → N.size nv ≡ DEVICE_BYTES → AllShowOwn N.Nv device nv → IfErr result (λ e. e.1 ≢ BootFail.Damaged) }
        ensures spent { MatchResult result (λ d. Spends N.Nv 1 nv (storage_of d) Kept) (λ e. Spends N.Nv 1 nv e.0 (end_of_boot (Err e.1))) }
        ensures once { MatchResult result (λ d. SpendsOne N.Nv nv (storage_of d)) (λ e. SyncsOnce N.Nv DEVICE_BYTES nv e.0 (Err e.1)) }

        // Wear is counted from here on.
        ensures wear { IfOk result (λ d. IsNewWear (wear_of d) (seen_of d).count) }
    {
        let mut node = DeviceNode::new(device, nv);
        match node.boot_record(device) {
            Ok(()) => Ok(Device {
                running: Running { node, torn: None },
            }),
            Err(fail) => Err((node.into_storage(), fail)),
        }
    }
}
