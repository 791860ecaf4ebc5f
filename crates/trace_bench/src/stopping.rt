//! A report that ends before the line end of an answer: whether what it ends with can be the prefix of a reply, and how the event is then recorded.
ghost use Rattle.std.specs.Prelude.{◌≡◌, ◌↔◌, ◌+◌, ◌<◌, ◌≤◌, ℕ, List, IsTrue, IsOk, IsSome, MatchBool, IfOk, OnOk, Ok, length, true, false};
ghost use Rattle.bench_base.specs.declared.events.Reply.{Reply};
ghost use Rattle.bench_base.specs.Ledger.{Ledger};
ghost use Rattle.bench_base.specs.Ranges.{IsNode};
ghost use Rattle.bench_base.specs.Events.{IsWholeEvent};
ghost use Rattle.bench.specs.declared.benches.TheConstants.{MOST_MESSAGES};
ghost use Rattle.ledger_moves.specs.Tariffs.{Tariff};
ghost use Rattle.script_text.specs.Texts.{text_of, IsWholeReply};
ghost use Rattle.trace_bench.specs.Prefixes.{number_of, IsFound, BeginsOtherUp, BeginsCutPrint, BeginsRatesFault, BeginsBothUps, BeginsFailure, IsDue, Comes, LosesAt, LosesThere, Loses};
ghost use Rattle.trace_bench.specs.Judging.{AtEach, IsTold};
ghost use Rattle.trace_bench.specs.Seeing.{IsReady, Sees, audit_of, keeps};
ghost use Rattle.trace_bench.specs.Stopping.{IsPrefixOf, IsStopped};

use crate::auditor::Auditor;
use crate::judging::{Finding, hear, judge, send};
use bench_base::events::{Event, Reply};
use bench_base::numbers::{DayNo, DevNo};
use bench_base::words::Node;
use debit_laws::laws::debits;
use script_text::laws::{one_line, one_reply};
use script_text::{Line, put_reply};
use std::alloc::{AllocError, Global};

/// Whether the line of this reply begins so, or is so.
pub fn begins(reply: &Reply, prefix: &[u8]) -> bool
    ensures exact { IsTrue result ↔ IsPrefixOf prefix.now (text_of reply.now) }
    ensures whole { IsWholeReply reply.now }
    ensures short { result ≡ true → length prefix.now ≤ 256 }
{
    let mut text = Line::new();
    put_reply(&mut text, reply);
    text.as_slice().starts_with(prefix)
}

// The node's other `up`, with its open commit, where this is the answer, if it begins so.
fn other_up(auditor: &Auditor, due: &Reply, prefix: &[u8]) -> Option<Reply>
    requires ready { IsReady (audit_of auditor.now) }
    ensures exact { (H : Ledger) → Sees (audit_of auditor.now) H → IsFound (BeginsOtherUp due.now H prefix.now) result }
    ensures short { IsSome result → length prefix.now ≤ 256 }
{
    let Reply::Up { node, commits } = due else {
        return None;
    };
    let Some(more) = commits.checked_add(1) else {
        return None;
    };
    if !auditor.is_open(node) {
        return None;
    }
    let up = Reply::Up {
        node: *node,
        commits: more,
    };
    if begins(&up, prefix) { Some(up) } else { None }
}

// A failure of the printer, where this is the answer, if it begins so.
fn cut_print(due: &Reply, prefix: &[u8]) -> Option<Reply>
    ensures exact { IsFound (BeginsCutPrint due.now prefix.now) result }
    ensures short { IsSome result → length prefix.now ≤ 256 }
{
    let Reply::Printed(job) = due else {
        return None;
    };
    let fault = Reply::PrinterFault(*job);
    if begins(&fault, prefix) {
        Some(fault)
    } else {
        None
    }
}

// A failure of the rates, if it begins so.
fn rates_fault(event: &Event, day: Option<DayNo>, prefix: &[u8]) -> Option<Reply>
    ensures exact { IsFound (BeginsRatesFault event.now day prefix.now) result }
    ensures short { IsSome result → length prefix.now ≤ 256 }
{
    let Event::Rates = event else {
        return None;
    };
    if day.is_some() && begins(&Reply::RatesFault, prefix) {
        Some(Reply::RatesFault)
    } else {
        None
    }
}

// A reply that begins so and is no failure of a node, where this is the answer.
fn begun(auditor: &Auditor, event: &Event, due: &Reply, prefix: &[u8]) -> Option<Reply>
    requires whole { IsWholeEvent event.now }
    requires ready { IsReady (audit_of auditor.now) }
    ensures exact { (τ : Tariff) (H : Ledger) (left : List ℕ) → Sees (audit_of auditor.now) H → IsDue τ H event.now left due.now
        → Comes τ H event.now left prefix.now result }
    ensures short { IsSome result → length prefix.now ≤ 256 }
{
    if begins(due, prefix) {
        return Some(*due);
    }
    if let Some(up) = other_up(auditor, due, prefix) {
        return Some(up);
    }
    if let Some(fault) = cut_print(due, prefix) {
        return Some(fault);
    }
    rates_fault(event, auditor.day, prefix)
}

// Whether both `up`s of the node begin so, where this is the answer: it may have come on with its open commit, or without.
fn begins_both_ups(auditor: &Auditor, due: &Reply, prefix: &[u8]) -> bool
    requires ready { IsReady (audit_of auditor.now) }
    ensures exact { (H : Ledger) → Sees (audit_of auditor.now) H
        → MatchBool result (BeginsBothUps due.now H prefix.now) (BeginsBothUps due.now H prefix.now → ⊥) }
{
    begins(due, prefix) && other_up(auditor, due, prefix).is_some()
}

/// The answer that is due to the event, which the auditor leaves as it was: no reply has a line end in its line. AllocError is lack of
/// memory, for rates or a message.
pub fn due_to(
    alloc: Global,
    auditor: &mut Auditor,
    event: &Event,
    left: &[u8],
) -> Result<Reply, AllocError>
    requires whole { IsWholeEvent event.now }
    requires ready { IsReady (audit_of auditor.old) }
    requires few { length (audit_of auditor.old).messages < MOST_MESSAGES }
    ensures ready { IsReady (audit_of auditor.new) }
    ensures kept { keeps (audit_of auditor.new) ≡ keeps (audit_of auditor.old) }
    ensures unsent { (audit_of auditor.new).messages ≡ (audit_of auditor.old).messages }
    ensures due { AtEach (audit_of auditor.old) event.now (λ τ H. IfOk result (λ due. IsDue τ H event.now left.now due × Sees (audit_of auditor.new) H)) }
{
    one_line();
    match hear::<Reply>(alloc, auditor, event, left, b"\n") {
        Err(Finding::Wrong(due)) => Ok(due),
        Err(Finding::Memory) | Ok(_) => Err(AllocError),
    }
}

// Records the event as one in which this node lost its power, if it may be one. True if and only if it may.
fn lose_power_at(
    alloc: Global,
    auditor: &mut Auditor,
    event: &Event,
    left: &[u8],
    node: &Node,
) -> Result<bool, AllocError>
    requires whole { IsWholeEvent event.now }
    requires ready { IsReady (audit_of auditor.old) }
    requires few { length (audit_of auditor.old).messages < MOST_MESSAGES }
    ensures ready { IsReady (audit_of auditor.new) }
    ensures kept { keeps (audit_of auditor.new) ≡ keeps (audit_of auditor.old) }
    ensures few { length (audit_of auditor.new).messages ≤ length (audit_of auditor.old).messages + 1 }
    ensures unsent { IfOk result (λ b. b ≡ false → (audit_of auditor.new).messages ≡ (audit_of auditor.old).messages) }
    ensures lost { AtEach (audit_of auditor.old) event.now (λ τ H. IfOk result (λ b. LosesAt τ H event.now left.now node.now (audit_of auditor.new) b)) }
{
    one_reply();
    // What is debited follows from the ledger.
    debits();
    let mut line = Line::new();
    put_reply(&mut line, &Reply::Power(*node));
    match hear::<Reply>(alloc, auditor, event, left, line.as_slice()) {
        Ok(heard) => match send(auditor, heard) {
            Ok(_) => Ok(true),
            Err(_) => Err(AllocError),
        },
        Err(Finding::Wrong(_)) => Ok(false),
        Err(Finding::Memory) => Err(AllocError),
    }
}

// The node of this number among all.
fn node_at(number: u32) -> Node
    requires first { 1 ≤ number }
    requires last { number ≤ 11 }
    ensures number { number_of result ≡ number }
    ensures named { IsNode result }
{
    match DevNo::new(number) {
        Some(device) => Node::Device(device),
        None => match number {
            9 => Node::Centre,
            10 => Node::Host,
            _ => Node::Verifier,
        },
    }
}

// Whether a failure of this node begins so.
fn begins_failure(node: &Node, prefix: &[u8]) -> bool
    ensures exact { MatchBool result (BeginsFailure prefix.now node.now) (BeginsFailure prefix.now node.now → ⊥) }
    ensures short { result ≡ true → length prefix.now ≤ 256 }
{
    begins(&Reply::Power(*node), prefix) || begins(&Reply::Fault(*node), prefix)
}

// Records the event as one in which this node lost its power, if a failure of the node begins so, and the event may be one. True if and only if both
// hold.
fn lose_power_there(
    alloc: Global,
    auditor: &mut Auditor,
    event: &Event,
    left: &[u8],
    prefix: &[u8],
    node: &Node,
) -> Result<bool, AllocError>
    requires whole { IsWholeEvent event.now }
    requires named { IsNode node.now }
    requires ready { IsReady (audit_of auditor.old) }
    requires few { length (audit_of auditor.old).messages < MOST_MESSAGES }
    ensures ready { IsReady (audit_of auditor.new) }
    ensures kept { keeps (audit_of auditor.new) ≡ keeps (audit_of auditor.old) }
    ensures few { length (audit_of auditor.new).messages ≤ length (audit_of auditor.old).messages + 1 }
    ensures unsent { IfOk result (λ b. b ≡ false → (audit_of auditor.new).messages ≡ (audit_of auditor.old).messages) }
    ensures lost { AtEach (audit_of auditor.old) event.now
        (λ τ H. IfOk result (λ b. LosesThere τ H event.now left.now prefix.now node.now (audit_of auditor.new) b)) }
    ensures short { result ≡ Ok true → length prefix.now ≤ 256 }
{
    if begins_failure(node, prefix) {
        lose_power_at(alloc, auditor, event, left, node)
    } else {
        Ok(false)
    }
}

// Records the event as one in which a node lost its power: the first node with a failure that begins so, if the event may be one in which that node
// lost power. True if and only if there is one.
fn lose_power(
    alloc: Global,
    auditor: &mut Auditor,
    event: &Event,
    left: &[u8],
    prefix: &[u8],
) -> Result<bool, AllocError>
    requires whole { IsWholeEvent event.now }
    requires ready { IsReady (audit_of auditor.old) }
    requires few { length (audit_of auditor.old).messages < MOST_MESSAGES }
    ensures ready { IsReady (audit_of auditor.new) }
    ensures kept { keeps (audit_of auditor.new) ≡ keeps (audit_of auditor.old) }
    ensures few { length (audit_of auditor.new).messages ≤ length (audit_of auditor.old).messages + 1 }
    ensures unsent { IfOk result (λ b. b ≡ false → (audit_of auditor.new).messages ≡ (audit_of auditor.old).messages) }
    ensures lost { AtEach (audit_of auditor.old) event.now (λ τ H. IfOk result (λ b. Loses τ H event.now left.now prefix.now (audit_of auditor.new) b)) }
    ensures short { result ≡ Ok true → length prefix.now ≤ 256 }
{
    for number in 1..12 {
        let node = node_at(number);
        if lose_power_there(alloc, auditor, event, left, prefix, &node)? {
            return Ok(true);
        }
    }
    Ok(false)
}

// Tells the event as one that was done with this reply, which it may get.
fn tell_done(
    alloc: Global,
    auditor: &mut Auditor,
    event: &Event,
    left: &[u8],
    reply: &Reply,
) -> Result<(), AllocError>
    requires whole { IsWholeEvent event.now }
    requires ready { IsReady (audit_of auditor.old) }
    requires few { length (audit_of auditor.old).messages < MOST_MESSAGES }
    ensures ready { IsReady (audit_of auditor.new) }
    ensures kept { keeps (audit_of auditor.new) ≡ keeps (audit_of auditor.old) }
    ensures few { length (audit_of auditor.new).messages ≤ length (audit_of auditor.old).messages + 1 }
    ensures done { AtEach (audit_of auditor.old) event.now
        (λ τ H. OnOk result ((x : Reply) × IsTold τ H event.now left.now (text_of reply.now) (audit_of auditor.new) x)) }
{
    let mut line = Line::new();
    put_reply(&mut line, reply);
    match judge::<Reply>(alloc, auditor, event, left, line.as_slice()) {
        Ok(_) => Ok(()),
        Err(_) => Err(AllocError),
    }
}

/// Judges the bytes that a report ends with in place of the line of this event: none, some or all of it, without its line end. `Ok` if and only if
/// they are the prefix of the line of a reply that the event may get. A reply follows its event, so the event was done, and is recorded with a reply
/// that begins so: this one. The result has None if that is in doubt: there are no bytes, or a failure of a node begins so, or either of its `up`s
/// does. The event is then recorded as one in which its node lost its power, if it may be one: the next `up` says whether its commit counts.
/// `Wrong`, with the answer that was due, if and only if they are not the prefix of the line of any reply that the event may get; the auditor has
/// what it had. More than 256 bytes are never such a prefix, whatever the auditor has. `Memory` is lack of memory, for rates, a message or a mark.
pub fn stop(
    alloc: Global,
    auditor: &mut Auditor,
    event: &Event,
    left: &[u8],
    prefix: &[u8],
) -> Result<Option<Reply>, Finding>
    requires whole { IsWholeEvent event.now }
    requires ready { IsReady (audit_of auditor.old) }
    requires few { length (audit_of auditor.old).messages < MOST_MESSAGES }
    ensures ready { IsReady (audit_of auditor.new) }
    ensures kept { keeps (audit_of auditor.new) ≡ keeps (audit_of auditor.old) }
    ensures few { length (audit_of auditor.new).messages ≤ length (audit_of auditor.old).messages + 1 }
    ensures stopped { AtEach (audit_of auditor.old) event.now (λ τ H. IsStopped τ H event.now left.now prefix.now (audit_of auditor.new) result) }
    ensures short { IsOk result → length prefix.now ≤ 256 }
{
    let Ok(due) = due_to(alloc, auditor, event, left) else {
        return Err(Finding::Memory);
    };
    let Ok(is_lost) = lose_power(alloc, auditor, event, left, prefix) else {
        return Err(Finding::Memory);
    };
    if is_lost {
        return Ok(None);
    }
    let Some(reply) = begun(auditor, event, &due, prefix) else {
        return Err(Finding::Wrong(due));
    };
    if prefix.is_empty() || begins_both_ups(auditor, &due, prefix) {
        return Ok(None);
    }
    match tell_done(alloc, auditor, event, left, &reply) {
        Ok(()) => Ok(Some(reply)),
        Err(_) => Err(Finding::Memory),
    }
}
