//! What has the record of a device that calls are asked of, wherever the record lies: in the device's storage, or beside it.
ghost use Rattle.std.specs.Prelude.{◌≡◌};

use crate::ready_record::ReadyRecord;

/// The record of a device with its key made ready, None where it was never made.
pub type DeviceState = Option<ReadyRecord>;

/// What has the record of a device.
pub trait StateOf {
    ghost use Rattle.std.specs.Prelude.{Option};
    ghost use Rattle.psd_state.specs.State.{State};

    ghost state: { Self → Option State };

    /// The record.
    fn state(&self) -> &DeviceState
        ensures { result.now ≡ state self.now };
}

impl StateOf for DeviceState {
    ghost state = { λ s. s };

    fn state(&self) -> &DeviceState {
        self
    }
}
