//! The calls of a device, and an event of the device in its place.
ghost use Rattle.std.specs.Prelude.{◌≡◌, length};
ghost use Rattle.node_turns.specs.declared.turn.Turn.{Turn};
ghost use Rattle.node_turns.specs.Printing.{printer_of};
ghost use Rattle.bench_abstraction.specs.Devices.{device_kind};
ghost use Rattle.bench.specs.Calls.{DeviceTurn};

use crate::node_turn::{Turns, node_turn};
use bench_abstraction::DeviceCall;
use bench_base::numbers::{DayNo, DevNo};
use bench_base::stream::Sink;
use bench_base::words::Node as NodeNo;
use call_handlers::{DeviceCallee, StatusCall};
use node_acts::Asked;
use node_storage::Node;
use node_turns::{Tell, call_node};
use nv_model::Fuse;
use psd_device::DeviceNode;

impl<'a, M: Fuse + Drop, T: Tell, P: Sink> Turns<DeviceCall<'a>, T, P> for DeviceNode<M> {
    ghost use Rattle.bench_base.specs.declared.words.Node.TheVariants as node;
    ghost use Rattle.node_acts.specs.declared.asked.Asked.TheVariants.{Call};
    ghost use Rattle.bench.specs.Calls.{Told, device_call_event};

    ghost IsRanged = { λ c. Unit {0} };

    ghost IsBytes = { λ c. Unit {0} };

    ghost CameTo = { λ d today c s t p q told. Told ⟦<DeviceNode<M> as Node>⟧ M.Nv M.Fuse.own device_kind (node.Device d) d today
        (device_call_event d c) (Call c) (T.IsOf told) s t p q };

    fn called(&mut self, number: DevNo, day: DayNo, asked: &DeviceCall<'a>, _printer: &mut P) -> T {
        let callee = DeviceCallee {
            device: number,
            day,
        };
        match asked {
            DeviceCall::Make(call) => call_node(self, &callee, call),
            DeviceCall::Debit(call) => call_node(self, &callee, call),
            DeviceCall::Ask(call) => call_node(self, &callee, call),
            DeviceCall::Resend(call) => call_node(self, &callee, call),
            DeviceCall::Ack(call) => call_node(self, &callee, call),
            DeviceCall::Status => call_node(self, &callee, &StatusCall),
            DeviceCall::Take(call) => call_node(self, &callee, call),
        }
    }
}

/// An event of one device, on that day.
#[inline(never)]
pub fn device_turn<T: Tell, M: Fuse + Drop, P: Sink>(
    devices: &mut Vec<DeviceNode<M>>,
    device: DevNo,
    day: DayNo,
    asked: &Asked<DeviceCall>,
    printer: &mut P,
) -> T
    requires eight { length devices.old.items ≡ 8 }
    ensures did { (turn : Turn) × T.IsOf result turn
        × DeviceTurn ⟦<DeviceNode<M> as Node>⟧ M.Nv M.Fuse.own device_kind device day asked.now
        devices.old.items devices.new.items (printer_of P.Sink printer.old) (printer_of P.Sink printer.new) turn }
{
    let place = device.get() as usize - 1;
    node_turn(
        &mut devices[place],
        device,
        &NodeNo::Device(device),
        day,
        asked,
        printer,
    )
}
