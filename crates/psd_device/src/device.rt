//! A running device: its record in its storage, and the commit that failed.
ghost use Rattle.std.specs.Prelude.{◌≡◌, ◌+◌, ◌/◌, ◌≤◌, ◌<◌, ◌^◌, None, not, is_some, sum, slice_index};
ghost use Rattle.bench_base.specs.declared.sizes.TheConstants.{DEVICE_BYTES};
ghost use Rattle.nv_ring.specs.Turns.{fills_of, slot_after};
ghost use Rattle.psd_device.specs.Shown.{ShowsSeen};
ghost use Rattle.psd_device.specs.Sound.{IsCurrent};
ghost use Rattle.psd_device.specs.NodeView.{storage_in, is_on};

use crate::node::DeviceNode;
use bench_base::ledger::Commit;
use bench_base::refusals::DevFail;
use bench_base::sizes::SLOTS;
use node_storage::Running;
use nv_model::{Fused, Nv};
use psd_state::DeviceAct;

/// A device over storage of 3,424 bytes: one cell of sixteen slots, with the device's record as payload.
#[derive(Drop)]
pub struct Device<N: Nv> {
    pub(crate) running: Running<DeviceNode<N>>,
    ghost runs: { is_on running.node ≡ not (is_some running.torn) },
    ghost room: { N.size (storage_in running.node) ≡ DEVICE_BYTES },
}

impl<N: Nv> Device<N> {
    ghost use Rattle.psd_device.specs.DeviceView.{storage_of, seen_of, torn_of, wear_of, Performs};

    // Does what a call decided on: see `Running::perform`.
    pub(crate) fn perform<A: Copy>(&mut self, act: DeviceAct<A>) -> Result<A, DevFail>
        ensures { Performs act self.old self.new result }
    {
        self.running.perform(act)
    }

    /// The number of commits.
    pub fn commits(&self) -> u64
        ensures value { result ≡ (seen_of self.now).count }
        ensures fits { result < 2 ^ 32 }
    {
        self.running.node.count()
    }

    /// The commit that a call of this value which answered Power or Fault would have added; None if and only if no call did.
    pub fn torn(&self) -> Option<Commit>
        ensures { result ≡ torn_of self.now }
    {
        self.running.torn()
    }

    /// How many commits of this value filled a slot.
    pub fn fills(&self, slot: u32) -> u32
        requires { slot < SLOTS }
        ensures fills { result ≡ slice_index (wear_of self.now).fills slot }

        // Commits fill the slots in turn, so each gets its share of them.
        ensures count { (wear_of self.now).first + sum (wear_of self.now).fills ≡ (seen_of self.now).count }
        ensures turn { result ≡ fills_of (wear_of self.now).start (sum (wear_of self.now).fills) slot }
        ensures share { result ≤ sum (wear_of self.now).fills / SLOTS + 1 }

        // The slot of the last commit is the current one, and what it holds reads as the record.
        ensures current { N.tells → torn_of self.now ≡ None → ShowsSeen (seen_of self.now) (N.content (storage_of self.now))
            × IsCurrent (slot_after (wear_of self.now).start (sum (wear_of self.now).fills)) (N.content (storage_of self.now)) }
    {
        self.running.node.wear.fills[slot as usize]
    }

    /// Gives the storage back.
    pub fn shut(self) -> N
        ensures { result ≡ storage_of self }
    {
        let Device { running } = self;
        running.into_node().into_storage()
    }
}

impl<M: Nv> Device<Fused<M>> {
    ghost use Rattle.nv_model.specs.Fuses.{inside, state_of};
    ghost use Rattle.nv_model.specs.Still.{armed};
    ghost use Rattle.psd_device.specs.DeviceView.{storage_of, seen_of, number_of, torn_of, wear_of};

    /// Arms the fuse of the storage: see `Fused::arm`.
    pub fn arm(&mut self, calls: u32, keep: u32, byte: u8)
        ensures armed { state_of (storage_of self.new) ≡ armed calls keep byte (state_of (storage_of self.old)) }
        ensures inside { inside (storage_of self.new) ≡ inside (storage_of self.old) }
        ensures number { number_of self.new ≡ number_of self.old }
        ensures seen { seen_of self.new ≡ seen_of self.old }
        ensures torn { torn_of self.new ≡ torn_of self.old }
        ensures wear { wear_of self.new ≡ wear_of self.old }
    {
        self.running.node.nv.arm(calls, keep, byte);
    }
}
