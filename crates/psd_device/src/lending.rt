//! What a device lends to its calls.
use crate::node::DeviceNode;
use nv_model::Nv;
use psd_state::{DeviceState, StateOf};

impl<N: Nv> StateOf for DeviceNode<N> {
    ghost use Rattle.psd_device.specs.NodeView.{seen_in};

    ghost state = { λ k. (seen_in k).state };

    fn state(&self) -> &DeviceState {
        self.record()
    }
}
