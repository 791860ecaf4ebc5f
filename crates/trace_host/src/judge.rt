//! Whether a line of the report can be the reply to an event of the host.
ghost use Rattle.std.specs.Prelude.{IfSome};
ghost use Rattle.host_jobs.specs.Seen.{IsKnown};
ghost use Rattle.trace_host.specs.Cells.{cells_of, view_of, IsSettled};
ghost use Rattle.trace_host.specs.Records.{IsRangedAsked};
ghost use Rattle.trace_host.specs.Verdicts.{IsByView, IsByLedger, commit_in};

use crate::acts::host_act;
use crate::record::HostRecord;
use bench_abstraction::HostCall;
use bench_abstraction::laws::host_follows;
use bench_base::events::Reply;
use bench_base::numbers::DayNo;
use bench_base::words::Node;
use host_jobs::{JobRow, JobsOf, acts_follow_the_commits};
use node_acts::Asked;
use node_turns::Tell;
use trace_nodes::{Traced, judge_call, judge_cut, judge_off, judge_on};

// A record is one that storage can show.
pub(crate) fn is_known(kept: &HostRecord)
    ensures { IsKnown (cells_of kept.now) }
{
    let _follows = kept.kept();
}

// Judges by what is seen of the host. Its record is one that storage can show, before and after a commit.
fn judge_view<T: Tell>(
    traced: &mut Traced<HostRecord, JobRow>,
    day: DayNo,
    asked: &Asked<HostCall>,
    line: &[u8],
) -> Result<T, Reply>
    requires settled { IsSettled traced.old }
    requires ranged { IsRangedAsked asked.now }
    ensures settled { IsSettled traced.new }
    ensures judged { IsByView T.IsOf day asked.now line.now (view_of traced.old) (view_of traced.new) result }
    ensures known { IsKnown (cells_of traced.old.record) }
    ensures next { IfSome (commit_in day asked.now (view_of traced.old)) (λ x. IsKnown x.1) }
{
    acts_follow_the_commits();
    is_known(&traced.record);
    let name = Node::Host;
    match asked {
        Asked::On => judge_on(traced, &name, line),
        Asked::Off => judge_off(traced, &name, line),
        Asked::Cut(_, _, _) => judge_cut(traced, &name, line),
        Asked::Call(call) => {
            let act = host_act(call, &traced.record);
            judge_call(traced, &name, &act, line)
        }
    }
}

/// Judges the line of an event that asks this of the host on that day: as `judge_device` of trace_device.
pub fn judge_host<T: Tell>(
    traced: &mut Traced<HostRecord, JobRow>,
    day: DayNo,
    asked: &Asked<HostCall>,
    line: &[u8],
) -> Result<T, Reply>
    requires settled { IsSettled traced.old }
    requires ranged { IsRangedAsked asked.now }
    ensures settled { IsSettled traced.new }
    ensures by_view { IsByView T.IsOf day asked.now line.now (view_of traced.old) (view_of traced.new) result }
    ensures by_ledger { IsByLedger T.IsOf day asked.now line.now (view_of traced.old) (view_of traced.new) result }
{
    host_follows();
    judge_view(traced, day, asked, line)
}
