//! Whether a line of the report can be the reply to an event of the verifier.
ghost use Rattle.std.specs.Prelude.{IfSome};
ghost use Rattle.verifier.specs.Seen.{IsKnown};
ghost use Rattle.trace_verifier.specs.Records.{IsRangedAsked};
ghost use Rattle.trace_verifier.specs.Cells.{cells_of, view_of, IsSettled};
ghost use Rattle.trace_verifier.specs.Verdicts.{IsByView, IsByLedger, commit_in};

use crate::acts::scan_said;
use crate::record::ScanRecord;
use bench_abstraction::VerifierCall;
use bench_abstraction::laws::verifier_follows;
use bench_base::events::Reply;
use bench_base::numbers::DayNo;
use bench_base::words::Node;
use node_acts::Asked;
use node_turns::Tell;
use trace_nodes::{Traced, judge_call, judge_cut, judge_off, judge_on};
use verifier::{Change, acts_follow_the_commits};

// A record is one that storage can show.
fn is_known(kept: &ScanRecord)
    ensures { IsKnown (cells_of kept.now) }
{
    let _total = kept.total;
}

// Judges by what is seen of the verifier. Its record is one that storage can show, before and after a commit.
fn judge_view<T: Tell>(
    traced: &mut Traced<ScanRecord, Change>,
    day: DayNo,
    asked: &Asked<VerifierCall>,
    line: &[u8],
) -> Result<T, Reply>
    requires settled { IsSettled traced.old }
    requires ranged { IsRangedAsked asked.now }
    ensures settled { IsSettled traced.new }
    ensures judged { IsByView T.IsOf day asked.now line.now (view_of traced.old) (view_of traced.new) result }
    ensures known { IsKnown (cells_of traced.old.record) }
    ensures next { IfSome (commit_in day asked.now (view_of traced.old)) (λ x. IsKnown x.1) }
{
    acts_follow_the_commits();
    is_known(&traced.record);
    let name = Node::Verifier;
    match asked {
        Asked::On => judge_on(traced, &name, line),
        Asked::Off => judge_off(traced, &name, line),
        Asked::Cut(_, _, _) => judge_cut(traced, &name, line),
        Asked::Call(call) => {
            let act = scan_said(call, day, &traced.record);
            judge_call(traced, &name, &act, line)
        }
    }
}

/// Judges the line of an event that asks this of the verifier on that day: as `judge_device` of trace_device.
pub fn judge_scans<T: Tell>(
    traced: &mut Traced<ScanRecord, Change>,
    day: DayNo,
    asked: &Asked<VerifierCall>,
    line: &[u8],
) -> Result<T, Reply>
    requires settled { IsSettled traced.old }
    requires ranged { IsRangedAsked asked.now }
    ensures settled { IsSettled traced.new }
    ensures by_view { IsByView T.IsOf day asked.now line.now (view_of traced.old) (view_of traced.new) result }
    ensures by_ledger { IsByLedger T.IsOf day asked.now line.now (view_of traced.old) (view_of traced.new) result }
{
    verifier_follows();
    judge_view(traced, day, asked, line)
}
