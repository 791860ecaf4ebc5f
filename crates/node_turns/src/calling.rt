//! A call of one node, and how it is reported.
ghost use Rattle.std.specs.Prelude.{◌≡◌, true};
ghost use Rattle.bench_base.specs.declared.events.Reply.{Reply};
ghost use Rattle.node_acts.specs.declared.{act.Act.Act, act.Outcome.Outcome, said.Said.Said};
ghost use Rattle.node_acts.specs.Said.{saying};
ghost use Rattle.node_turns.specs.declared.turn.Turn.{Turn};
ghost use Rattle.node_turns.specs.Printing as prints;
ghost use Rattle.node_turns.specs.Printing.{PrintsCall, printer_of};
ghost use Rattle.node_turns.specs.Calling.{Called, commit_in, done_turn, said_outcome};
ghost use Rattle.node_turns.specs.Turns as turns;

use crate::tell::Tell;
use bench_base::events::Reply;
use bench_base::ledger::{Commit, Entry};
use bench_base::stream::Sink;
use node_acts::{Act, Call, Callee, GivenOut, Outcome, Printed};
use node_storage::{Node, perform};
use text_streams::print_mark;

// The commit that the act makes.
fn commit_in<X: Copy, F: Copy, A: Copy>(act: &Act<X, F, A>) -> Option<Commit>
    ensures { result ≡ commit_in act.now }
{
    match act {
        Act::Refuse(_) | Act::Tell(_) => None,
        Act::Commits(commit, _, _) => Some(*commit),
    }
}

// How a call with this act that was done is reported.
fn done<T: Tell, K: Node, E: Callee, C: Call<E, K, K::Change>>(
    callee: &E,
    act: &Act<K::Change, E::Refusal, C::Answer>,
    answer: &C::Answer,
    call: &C,
) -> T
    ensures { T.IsOf result (done_turn (commit_in act.now) (C.says call.now callee.now answer.now)) }
{
    T::done(commit_in(act), &call.answer(callee, answer))
}

// How a call with this act is reported, by what it came to.
fn told<T: Tell, K: Node, E: Callee, C: Call<E, K, K::Change>>(
    callee: &E,
    act: &Act<K::Change, E::Refusal, C::Answer>,
    outcome: &Outcome<E::Refusal, C::Answer>,
    call: &C,
) -> T
    ensures { T.IsOf result (turns.told_turn (E.named callee.now) (commit_in act.now)
        (said_outcome (E.refuses callee.now) (C.says call.now callee.now) outcome.now)) }
{
    let node = &callee.name();
    match outcome {
        Outcome::Off => T::silent(Reply::OffNode(*node)),
        Outcome::Refused(refusal) => T::silent(callee.refusal(*refusal)),
        Outcome::Done(answer) => done(callee, act, answer, call),
        Outcome::Worn => T::silent(Reply::Worn(*node)),
        Outcome::Power(commit) => T::one(
            Reply::Power(*node),
            Entry::Torn {
                node: *node,
                commit: *commit,
            },
        ),
        Outcome::Fault(commit) => T::one(
            Reply::Fault(*node),
            Entry::Torn {
                node: *node,
                commit: *commit,
            },
        ),
    }
}

/// Calls the node, and reports what that came to. A node that is off decides nothing. `fits`: the record of a node that is
/// on can take what the call makes of it.
pub fn call_node<T: Tell, K: Node, E: Callee, C: Call<E, K, K::Change>>(
    place: &mut K,
    callee: &E,
    call: &C,
) -> T
    requires asked { C.IsAsked call.now }
    requires fits { K.Node.is_on place.old ≡ true → (x : K.Change) → C.Makes place.old x → K.Node.IsFit (K.Node.seen place.old) x }
    ensures did { (by : K.Node.Seen → Act K.Change Reply Said)
        → by (K.Node.seen place.old) ≡ saying (E.refuses callee.now) (C.says call.now callee.now) (C.does call.now callee.now place.old)
        → (x : Outcome Reply Said) × Called K.Node K.Storage.Nv by place.old place.new x
        × T.IsOf result (turns.call_turn (E.named callee.now) (by (K.Node.seen place.old)) x) }
{
    if !place.is_on() {
        return T::silent(Reply::OffNode(callee.name()));
    }
    let act = call.act(callee, place);
    let outcome = perform(place, &act);
    told(callee, &act, &outcome, call)
}

// The mark that is to be printed where the call came to this, with its job.
fn to_print<K: Node, E: Callee, C: Call<E, K, K::Change>>(
    callee: &E,
    outcome: &Outcome<E::Refusal, C::Answer>,
    call: &C,
) -> Option<Printed>
    ensures { result ≡ prints.to_print (said_outcome (E.refuses callee.now) (C.says call.now callee.now) outcome.now) }
{
    match outcome {
        Outcome::Done(answer) => match call.answer(callee, answer).given {
            Some(GivenOut::Printed(printed)) => Some(printed),
            Some(GivenOut::Released(_)) | None => None,
        },
        Outcome::Off
        | Outcome::Refused(_)
        | Outcome::Worn
        | Outcome::Power(_)
        | Outcome::Fault(_) => None,
    }
}

// The printer failed after this commit.
fn unprinted<T: Tell>(commit: Option<Commit>, job: u32) -> T
    ensures { T.IsOf result (prints.unprinted_turn commit job) }
{
    match commit {
        Some(commit) => T::one(Reply::PrinterFault(job), Entry::Commit(commit)),
        None => T::silent(Reply::PrinterFault(job)),
    }
}

/// Calls the node, prints the mark that it gives to the printer, and reports what that came to. The mark is printed after
/// the commit, as one line; if the printer fails, the commit stays. `fits` is as for `call_node`.
pub fn call_printing<T: Tell, K: Node, E: Callee, C: Call<E, K, K::Change>, P: Sink>(
    place: &mut K,
    callee: &E,
    call: &C,
    printer: &mut P,
) -> T
    requires asked { C.IsAsked call.now }
    requires fits { K.Node.is_on place.old ≡ true → (x : K.Change) → C.Makes place.old x → K.Node.IsFit (K.Node.seen place.old) x }
    ensures did { (by : K.Node.Seen → Act K.Change Reply Said)
        → by (K.Node.seen place.old) ≡ saying (E.refuses callee.now) (C.says call.now callee.now) (C.does call.now callee.now place.old)
        → (x : Outcome Reply Said) × Called K.Node K.Storage.Nv by place.old place.new x
        × (turn : Turn) × T.IsOf result turn
        × PrintsCall (E.named callee.now) (by (K.Node.seen place.old)) x (printer_of P.Sink printer.old) (printer_of P.Sink printer.new) turn }
{
    if !place.is_on() {
        return T::silent(Reply::OffNode(callee.name()));
    }
    let act = call.act(callee, place);
    let outcome = perform(place, &act);
    match to_print(callee, &outcome, call) {
        None => told(callee, &act, &outcome, call),
        Some(printed) => match print_mark(printer, &printed.mark) {
            Ok(()) => told(callee, &act, &outcome, call),
            Err(_) => unprinted(commit_in(&act), printed.job),
        },
    }
}
