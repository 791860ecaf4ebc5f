//! Whether a line of the report can be the reply to an event that switches a node on or off, or arms the fuse of its storage.
ghost use Rattle.bench_base.specs.Ranges.{IsNode};
ghost use Rattle.node_acts.specs.declared.act.Started.TheVariants as start;
ghost use Rattle.node_turns.specs.Turns.{start_turn};
ghost use Rattle.trace_nodes.specs.TracedNodes.{view_of, IsSettled};
ghost use Rattle.trace_nodes.specs.Judged.{JudgedOn, JudgedOff, JudgedCut};

use crate::judge::is_told;
use crate::record::Record;
use crate::traced::Traced;
use bench_base::events::Reply;
use bench_base::ledger::Entry;
use bench_base::words::Node;
use node_turns::Tell;
use script_text::laws::one_reply;

// The number of a device is one of 1 to 8.
fn names_a_node(node: &Node)
    ensures { IsNode node.now }
{
    match node {
        Node::Device(device) => {
            let _number = device.get();
        }
        Node::Centre | Node::Host | Node::Verifier => {}
    }
}

// The node came on with so many commits.
fn came_up<T: Tell>(node: &Node, commits: u64) -> T
    ensures { T.IsOf result (start_turn node.now (start.Up commits)) }
{
    T::one(
        Reply::Up {
            node: *node,
            commits,
        },
        Entry::Up {
            node: *node,
            commits,
        },
    )
}

/// Judges the line of an `on`. A node that is off comes on with its commits, or, where one is open, with that one more; or it fails, and
/// stays off.
pub fn judge_on<T: Tell, R: Record<X>, X: Copy>(
    traced: &mut Traced<R, X>,
    node: &Node,
    line: &[u8],
) -> Result<T, Reply>
    requires settled { IsSettled R.counting R.IsFit R.seen traced.old }
    ensures settled { IsSettled R.counting R.IsFit R.seen traced.new }
    ensures judged { JudgedOn R.counting node.now (view_of R.counting R.seen traced.old) T.IsOf line.now (view_of R.counting R.seen traced.new) result }
{
    one_reply();
    names_a_node(node);
    if traced.on {
        let due = Reply::OnAlready(*node);
        return if is_told(&due, line) {
            Ok(T::silent(due))
        } else {
            Err(due)
        };
    }
    let commits = traced.record.commits();
    let due = Reply::Up {
        node: *node,
        commits,
    };
    if is_told(&due, line) {
        traced.open = None;
        traced.on = true;
        return Ok(came_up(node, commits));
    }
    if let Some(change) = traced.open {
        let more = commits + 1;
        if is_told(
            &Reply::Up {
                node: *node,
                commits: more,
            },
            line,
        ) {
            traced.record.put(&change);
            traced.open = None;
            traced.on = true;
            return Ok(came_up(node, more));
        }
    }
    if is_told(&Reply::Power(*node), line) {
        return Ok(T::silent(Reply::Power(*node)));
    }
    if is_told(&Reply::Fault(*node), line) {
        return Ok(T::silent(Reply::Fault(*node)));
    }
    Err(due)
}

/// Judges the line of an `off`.
pub fn judge_off<T: Tell, R: Record<X>, X: Copy>(
    traced: &mut Traced<R, X>,
    node: &Node,
    line: &[u8],
) -> Result<T, Reply>
    requires settled { IsSettled R.counting R.IsFit R.seen traced.old }
    ensures settled { IsSettled R.counting R.IsFit R.seen traced.new }
    ensures judged { JudgedOff R.counting node.now (view_of R.counting R.seen traced.old) T.IsOf line.now (view_of R.counting R.seen traced.new) result }
{
    if !traced.on {
        let due = Reply::OffNode(*node);
        return if is_told(&due, line) {
            Ok(T::silent(due))
        } else {
            Err(due)
        };
    }
    let due = Reply::Down(*node);
    if is_told(&due, line) {
        traced.on = false;
        return Ok(T::one(due, Entry::Down(*node)));
    }
    Err(due)
}

/// Judges the line of a `cut`, which is in no record.
pub fn judge_cut<T: Tell, R: Record<X>, X: Copy>(
    traced: &Traced<R, X>,
    node: &Node,
    line: &[u8],
) -> Result<T, Reply>
    ensures judged { JudgedCut R.counting node.now (view_of R.counting R.seen traced.now) T.IsOf line.now (view_of R.counting R.seen traced.now) result }
{
    let due = Reply::CutSet(*node);
    if is_told(&due, line) {
        Ok(T::silent(due))
    } else {
        Err(due)
    }
}
