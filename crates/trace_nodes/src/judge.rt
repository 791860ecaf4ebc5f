//! Whether a line of the report can be the reply to an event of a node.
ghost use Rattle.std.specs.Prelude.{◌≡◌, ◌≢◌, ◌↔◌, ℕ, IsTrue, IfSome, IfNone};
ghost use Rattle.bench_base.specs.declared.events.Reply.{Reply};
ghost use Rattle.bench_base.specs.declared.events.Reply.TheVariants as r;
ghost use Rattle.node_acts.specs.declared.{act.Outcome.Outcome, said.Said.Said};
ghost use Rattle.node_acts.specs.Acts.{CameOf, MayCome, commit_of, after_call};
ghost use Rattle.node_acts.specs.Plans.{IsOfNode, view_after};
ghost use Rattle.node_acts.specs.Said.{IsPlain, said_reply, seen_plan};
ghost use Rattle.script_text.specs.Texts.{text_of, IsWholeReply};
ghost use Rattle.trace_nodes.specs.TracedNodes.{view_of, IsSettled, FitsAct};
ghost use Rattle.trace_nodes.specs.Judged.{JudgedCall};

use crate::record::Record;
use crate::told::{tell, tell_unprinted};
use crate::traced::Traced;
use bench_base::events::Reply;
use bench_base::words::Node;
use node_acts::{Act, Outcome, Said};
use node_turns::Tell;
use script_text::{Line, put_reply};

/// Whether the line is that of this reply. The numbers of the reply fit their types (`whole`).
pub fn is_told(reply: &Reply, line: &[u8]) -> bool
    ensures exact { IsTrue result ↔ (text_of reply.now ≡ line.now) }
    ensures whole { IsWholeReply reply.now }
{
    let mut text = Line::new();
    put_reply(&mut text, reply);
    text.as_slice() == line
}

// What a call of this act came to, by its line; none where nothing that it may come to has that line.
fn told_outcome<R: Record<X>, X: Copy>(
    traced: &Traced<R, X>,
    node: &Node,
    act: &Act<X, Reply, Said>,
    line: &[u8],
) -> Option<Outcome<Reply, Said>>
    ensures found { IfSome result (λ x. MayCome R.counting (view_of R.counting R.seen traced.now) act.now x
        × (text_of (said_reply node.now x) ≡ line.now) × IsWholeReply (said_reply node.now x)) }
    ensures came { IfSome result (λ x. CameOf act.now x) }
    ensures none { IfNone result ((x : Outcome Reply Said) → MayCome R.counting (view_of R.counting R.seen traced.now) act.now x
        → text_of (said_reply node.now x) ≢ line.now) }
{
    if !traced.on {
        return if is_told(&Reply::OffNode(*node), line) {
            Some(Outcome::Off)
        } else {
            None
        };
    }
    match act {
        Act::Refuse(reply) => {
            if is_told(reply, line) {
                Some(Outcome::Refused(*reply))
            } else {
                None
            }
        }
        Act::Tell(said) => {
            if is_told(&said.reply, line) {
                Some(Outcome::Done(*said))
            } else {
                None
            }
        }
        Act::Commits(commit, change, said) => {
            if traced.record.is_worn(change) {
                if is_told(&Reply::Worn(*node), line) {
                    Some(Outcome::Worn)
                } else {
                    None
                }
            } else if is_told(&said.reply, line) {
                Some(Outcome::Done(*said))
            } else if is_told(&Reply::Power(*node), line) {
                Some(Outcome::Power(*commit))
            } else if is_told(&Reply::Fault(*node), line) {
                Some(Outcome::Fault(*commit))
            } else {
                None
            }
        }
    }
}

// The answer to a call of this act.
fn due_reply<R: Record<X>, X: Copy>(
    traced: &Traced<R, X>,
    node: &Node,
    act: &Act<X, Reply, Said>,
) -> Reply
    ensures { result ≡ (seen_plan R.counting node.now (view_of R.counting R.seen traced.now) act.now).reply }
{
    if !traced.on {
        return Reply::OffNode(*node);
    }
    match act {
        Act::Refuse(reply) => *reply,
        Act::Tell(said) => said.reply,
        Act::Commits(_, change, said) => {
            if traced.record.is_worn(change) {
                Reply::Worn(*node)
            } else {
                said.reply
            }
        }
    }
}

// Leaves the node as a call of this act leaves it that came to this.
fn take_outcome<R: Record<X>, X: Copy>(
    traced: &mut Traced<R, X>,
    act: &Act<X, Reply, Said>,
    outcome: &Outcome<Reply, Said>,
)
    requires settled { IsSettled R.counting R.IsFit R.seen traced.old }
    requires fits { FitsAct R.IsFit (R.seen traced.old.record) act.now }
    requires came { MayCome R.counting (view_of R.counting R.seen traced.old) act.now outcome.now }
    ensures settled { IsSettled R.counting R.IsFit R.seen traced.new }
    ensures leaves { view_of R.counting R.seen traced.new
        ≡ after_call outcome.now (commit_of R.counting (view_of R.counting R.seen traced.old) act.now) (view_of R.counting R.seen traced.old) }
{
    match outcome {
        Outcome::Off | Outcome::Refused(_) | Outcome::Worn => {}
        Outcome::Done(_) => {
            if let Act::Commits(_, change, _) = act {
                traced.record.put(change);
            }
        }
        Outcome::Power(_) | Outcome::Fault(_) => {
            if let Act::Commits(_, change, _) = act {
                traced.open = Some(*change);
            }
            traced.on = false;
        }
    }
}

// The job with a print that this is the answer to, if the line is that of a printer fault in its place.
fn unprinted_job(answer: &Reply, line: &[u8]) -> Option<u32>
    ensures some { IfSome result (λ j. (answer.now ≡ r.Printed j) × (text_of (r.PrinterFault j) ≡ line.now) × IsWholeReply (r.PrinterFault j)) }
    ensures none { IfNone result ((j : ℕ) → answer.now ≡ r.Printed j → text_of (r.PrinterFault j) ≢ line.now) }
{
    let job = answer.printed_job()?;
    if is_told(&Reply::PrinterFault(job), line) {
        Some(job)
    } else {
        None
    }
}

// Leaves the node as a call of this act leaves it if its print failed.
fn take_unprinted<R: Record<X>, X: Copy>(
    traced: &mut Traced<R, X>,
    act: &Act<X, Reply, Said>,
    due: &Reply,
    node: &Node,
)
    requires settled { IsSettled R.counting R.IsFit R.seen traced.old }
    requires fits { FitsAct R.IsFit (R.seen traced.old.record) act.now }
    requires due { due.now ≡ (seen_plan R.counting node.now (view_of R.counting R.seen traced.old) act.now).reply }
    requires printed { (j : ℕ) × (due.now ≡ r.Printed j) }
    ensures settled { IsSettled R.counting R.IsFit R.seen traced.new }
    ensures leaves { (j : ℕ) → view_of R.counting R.seen traced.new
        ≡ view_after R.counting (r.PrinterFault j) (commit_of R.counting (view_of R.counting R.seen traced.old) act.now)
        (view_of R.counting R.seen traced.old) }
{
    if let Act::Commits(_, change, _) = act {
        traced.record.put(change);
    }
}

/// Judges the line of a call of a node by its act. `Ok`, with the turn, if and only if the call may get a reply of that line: the node is left as
/// that reply says. If the call prints, this may be a fault of the printer after its commit. `Err`, with the answer that was due, if and only if no
/// reply that the call may get has that line: the node is unchanged.
pub fn judge_call<T: Tell, R: Record<X>, X: Copy>(
    traced: &mut Traced<R, X>,
    node: &Node,
    act: &Act<X, Reply, Said>,
    line: &[u8],
) -> Result<T, Reply>
    requires settled { IsSettled R.counting R.IsFit R.seen traced.old }
    requires fits { FitsAct R.IsFit (R.seen traced.old.record) act.now }
    requires own { IsOfNode node.now act.now }
    requires plain { IsPlain act.now }
    ensures settled { IsSettled R.counting R.IsFit R.seen traced.new }
    ensures judged { JudgedCall R.counting node.now (view_of R.counting R.seen traced.old) T.IsOf act.now line.now
        (view_of R.counting R.seen traced.new) result }
{
    let told = told_outcome(traced, node, act, line);
    match &told {
        Some(outcome) => {
            take_outcome(traced, act, outcome);
            Ok(tell(node, act, outcome))
        }
        None => {
            let due = due_reply(traced, node, act);
            match unprinted_job(&due, line) {
                Some(job) => {
                    take_unprinted(traced, act, &due, node);
                    Ok(tell_unprinted(act, job))
                }
                None => Err(due),
            }
        }
    }
}
