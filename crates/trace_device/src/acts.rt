//! What a device does in a call, and what it says of it: by its record alone.
ghost use Rattle.std.specs.Prelude.{◌≡◌};
ghost use Rattle.bench_abstraction.specs.Devices as views;
ghost use Rattle.trace_device.specs.Records.{HoldsAct};

use bench_abstraction::DeviceCall;
use bench_base::events::Reply;
use bench_base::numbers::{DayNo, DevNo};
use call_handlers::{DeviceCallee, StatusCall};
use node_acts::{Act, Said};
use psd_state::{DevRec, DeviceState};
use trace_nodes::said_act;

type SaidAct = Act<DevRec, Reply, Said>;

/// What a call of the device does by its record on that day, with what the device says of it. Put into its callers, what it makes is copied once less.
#[inline(always)]
pub fn device_act(device: DevNo, day: DayNo, call: &DeviceCall, state: &DeviceState) -> SaidAct
    ensures { result ≡ views.device_act device day call.now state.now }
{
    let callee = DeviceCallee { device, day };
    match call {
        DeviceCall::Make(call) => said_act(&callee, call, state),
        DeviceCall::Debit(call) => said_act(&callee, call, state),
        DeviceCall::Ask(call) => said_act(&callee, call, state),
        DeviceCall::Resend(call) => said_act(&callee, call, state),
        DeviceCall::Ack(call) => said_act(&callee, call, state),
        DeviceCall::Status => said_act(&callee, &StatusCall, state),
        DeviceCall::Take(call) => said_act(&callee, call, state),
    }
}

/// The record that an act commits is one that storage can show.
pub fn holds_act(act: &SaidAct)
    ensures { HoldsAct act.now }
{
    if let Act::Commits(_, next, _) = act {
        let _key = next.key();
    }
}
