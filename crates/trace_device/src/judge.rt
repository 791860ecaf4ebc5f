//! Whether a line of the report can be the reply to an event of a device.
ghost use Rattle.std.specs.Prelude.{IfSome};
ghost use Rattle.bench_abstraction.specs.Devices.{IsKnown};
ghost use Rattle.trace_device.specs.Records.{seen_of, view_of, IsSettled};
ghost use Rattle.trace_device.specs.Verdicts.{IsByView, IsByLedger, commit_in};

use crate::acts::{device_act, holds_act};
use crate::record::DeviceRecord;
use bench_abstraction::DeviceCall;
use bench_abstraction::laws::nodes_follow;
use bench_base::events::Reply;
use bench_base::numbers::{DayNo, DevNo};
use bench_base::words::Node;
use node_acts::Asked;
use node_turns::Tell;
use psd_state::DevRec;
use trace_nodes::{Traced, judge_call, judge_cut, judge_off, judge_on};

/// A record is one that storage can show.
pub fn is_known(kept: &DeviceRecord)
    ensures { IsKnown (seen_of kept.now) }
{
    let _count = kept.count;
    if let Some(state) = &kept.state {
        let _key = state.record().key();
    }
}

// Judges by what is seen of the device. Its record is one that storage can show, before and after a commit.
fn judge_view<T: Tell>(
    traced: &mut Traced<DeviceRecord, DevRec>,
    device: DevNo,
    day: DayNo,
    asked: &Asked<DeviceCall>,
    line: &[u8],
) -> Result<T, Reply>
    requires settled { IsSettled traced.old }
    ensures settled { IsSettled traced.new }
    ensures judged { IsByView T.IsOf device day asked.now line.now (view_of traced.old) (view_of traced.new) result }
    ensures known { IsKnown (seen_of traced.old.record) }
    ensures next { IfSome (commit_in device day asked.now (view_of traced.old)) (λ x. IsKnown x.1) }
{
    is_known(&traced.record);
    let name = Node::Device(device);
    match asked {
        Asked::On => judge_on(traced, &name, line),
        Asked::Off => judge_off(traced, &name, line),
        Asked::Cut(_, _, _) => judge_cut(traced, &name, line),
        Asked::Call(call) => {
            let act = device_act(device, day, call, &traced.record.state);
            holds_act(&act);
            judge_call(traced, &name, &act, line)
        }
    }
}

/// Judges the line of an event that asks this of the device on that day. `Ok`, with the turn, if and
/// only if the event may get a reply of that line, at each history that shows the device as the traced node does. The traced node then shows the
/// device at the ledger that the reply leaves. `Err`, with the answer that was due, if and only if no reply that it may get has that line; the
/// traced node is unchanged.
pub fn judge_device<T: Tell>(
    traced: &mut Traced<DeviceRecord, DevRec>,
    device: DevNo,
    day: DayNo,
    asked: &Asked<DeviceCall>,
    line: &[u8],
) -> Result<T, Reply>
    requires settled { IsSettled traced.old }
    ensures settled { IsSettled traced.new }
    ensures by_view { IsByView T.IsOf device day asked.now line.now (view_of traced.old) (view_of traced.new) result }
    ensures by_ledger { IsByLedger T.IsOf device day asked.now line.now (view_of traced.old) (view_of traced.new) result }
{
    nodes_follow();
    judge_view(traced, device, day, asked, line)
}
