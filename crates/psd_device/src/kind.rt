//! A device as a node of the bench.
ghost use Rattle.std.specs.Prelude.{◌≡◌, refl};
ghost use Rattle.bench_base.specs.declared.sizes.TheConstants.{DEVICE_BYTES};
ghost use Rattle.psd_state.specs.Seen as seen_by;
ghost use Rattle.psd_device.specs.Shown.{IsStorable, ShowsSeen, fill_of};
ghost use Rattle.psd_device.specs.Boots.{IsDamaged};
ghost use Rattle.psd_device.specs.Sound as sound_by;
ghost use Rattle.psd_device.specs.NodeView as node_view;
ghost use Rattle.psd_device.specs.NodeView.{SameWear};
ghost use Rattle.psd_device.specs.Knows as known;
ghost use Rattle.psd_device.specs.NodeLaws as laws;

use crate::node::DeviceNode;
use bench_base::numbers::DevNo;
use bench_base::refusals::{BootFail, StoreFail};
use node_storage::{Arms, Node};
use nv_model::{Fuse, Nv, NvFail};
use psd_state::DevRec;

impl<M: Nv> Node for DeviceNode<M> {
    type Storage = M;

    type Name = DevNo;

    type Change = DevRec;

    type Spare = ();

    ghost Seen = { seen_by.Seen };

    ghost bytes = { DEVICE_BYTES };

    ghost counting = { seen_by.counting };

    ghost fill = { λ s x. fill_of s x };

    ghost IsStorable = { λ x. IsStorable x };

    ghost IsFit = { λ s x. Unit {0} };

    ghost IsFrom = { λ d s x. x.device ≡ d };

    ghost IsSound = { λ d s. sound_by.IsSound d s };

    ghost IsShown = { λ s c. ShowsSeen s c };

    ghost IsDamaged = { λ d nv. IsDamaged M.Nv.own d nv };

    ghost Stays = { λ j k. SameWear (node_view.wear_in j) (node_view.wear_in k) };

    ghost name = { λ k. node_view.number_in k };

    ghost seen = { λ k. node_view.seen_in k };

    ghost is_on = { λ k. node_view.is_on k };

    ghost storage = { λ k. node_view.storage_in k };

    ghost stays_same = { λ k. record { first = refl; start = refl } };

    ghost sized = { λ k on. known.size k on };

    ghost knows = { λ k tells on. known.shows k tells on };

    ghost one_shown = { laws.one_shown };

    ghost keeps = { laws.keeps };

    ghost counts = { λ d s x sound kept. refl };

    ghost intact = { laws.intact M.Nv.own };

    fn off(number: DevNo, nv: M, _spare: ()) -> DeviceNode<M> {
        DeviceNode::new(number, nv)
    }

    fn is_on(&self) -> bool {
        self.on
    }

    fn restart(&mut self) -> Result<(), NvFail> {
        self.restart_storage()
    }

    fn boot(&mut self, number: DevNo) -> Result<(), BootFail> {
        self.boot_record(number)
    }

    fn commit(&mut self, change: &DevRec) -> Result<(), StoreFail> {
        self.commit_record(change)
    }

    fn commits(&self) -> u64 {
        self.count()
    }

    fn shut(&mut self) {
        self.on = false;
    }

    fn into_parts(self) -> (M, ()) {
        (self.into_storage(), ())
    }
}

impl<M: Fuse> Arms for DeviceNode<M> {
    ghost fuse = { M.Fuse.own };

    fn arm(&mut self, calls: u32, keep: u32, byte: u8) {
        self.nv.arm(calls, keep, byte);
    }
}
