//! Whether a line of the report can be the reply to an event of the centre.
ghost use Rattle.std.specs.Prelude.{IfSome};
ghost use Rattle.centre_ledger.specs.Seen.{IsKnown};
ghost use Rattle.centre_protocol.specs.Sound.{IsSound};
ghost use Rattle.trace_centre.specs.Records.{IsRangedAsked};
ghost use Rattle.trace_centre.specs.Cells.{cells_of, view_of, IsSettled};
ghost use Rattle.trace_centre.specs.Verdicts.{IsByView, IsByLedger, commit_in};

use crate::acts::{centre_act, places_act};
use crate::record::CentreRecord;
use bench_abstraction::CentreCall;
use bench_abstraction::laws::nodes_follow;
use bench_base::events::Reply;
use bench_base::numbers::DayNo;
use bench_base::words::Node;
use centre_ledger::{BooksOf, Row, acts_follow_the_commits};
use node_acts::Asked;
use node_turns::Tell;
use trace_nodes::{Traced, judge_call, judge_cut, judge_off, judge_on};

/// The rows of a record are ones that storage can show.
pub fn is_known(kept: &CentreRecord)
    ensures { IsKnown (cells_of kept.now) }
{
    // What is lent says that the rows are sound.
    let _books = kept.books();
}

/// The rows of a record are ones that storage can show, and each lies in its own cell.
pub fn is_sound(kept: &CentreRecord)
    ensures { IsSound (cells_of kept.now) }
{
    is_known(kept);
}

// Judges by what is seen of the centre. Its record is one that storage can show, before and after a commit.
fn judge_view<T: Tell>(
    traced: &mut Traced<CentreRecord, Row>,
    day: DayNo,
    asked: &Asked<CentreCall>,
    line: &[u8],
) -> Result<T, Reply>
    requires settled { IsSettled traced.old }
    requires ranged { IsRangedAsked asked.now }
    ensures settled { IsSettled traced.new }
    ensures judged { IsByView T.IsOf day asked.now line.now (view_of traced.old) (view_of traced.new) result }
    ensures known { IsKnown (cells_of traced.old.record) }
    ensures next { IfSome (commit_in day asked.now (view_of traced.old)) (λ x. IsKnown x.1) }
{
    acts_follow_the_commits();
    is_known(&traced.record);
    let name = Node::Centre;
    match asked {
        Asked::On => judge_on(traced, &name, line),
        Asked::Off => judge_off(traced, &name, line),
        Asked::Cut(_, _, _) => judge_cut(traced, &name, line),
        Asked::Call(call) => {
            let act = centre_act(call, &traced.record);
            places_act(&act);
            judge_call(traced, &name, &act, line)
        }
    }
}

/// Judges the line of an event that asks this of the centre on that day: as `judge_device` of trace_device.
pub fn judge_centre<T: Tell>(
    traced: &mut Traced<CentreRecord, Row>,
    day: DayNo,
    asked: &Asked<CentreCall>,
    line: &[u8],
) -> Result<T, Reply>
    requires settled { IsSettled traced.old }
    requires ranged { IsRangedAsked asked.now }
    ensures settled { IsSettled traced.new }
    ensures by_view { IsByView T.IsOf day asked.now line.now (view_of traced.old) (view_of traced.new) result }
    ensures by_ledger { IsByLedger T.IsOf day asked.now line.now (view_of traced.old) (view_of traced.new) result }
{
    nodes_follow();
    judge_view(traced, day, asked, line)
}
