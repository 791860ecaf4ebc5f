//! What an auditor takes for the answer to an event.
ghost use Rattle.std.specs.Prelude.{◌≡◌, ◌↔◌, ◌⊎◌, ◌+◌, ◌<◌, ◌≤◌, length, IfOk, IfErr, OnOk, IsOk, IsTrue};
ghost use Rattle.bench_base.specs.Events.{IsWholeEvent};
ghost use Rattle.bench.specs.declared.benches.TheConstants.{MOST_MESSAGES};
ghost use Rattle.ledger_moves.specs.Histories.{Unforged};
ghost use Rattle.trace_bench.specs.Forging.{AtHistory, IsSame};
ghost use Rattle.trace_bench.specs.Seeing.{IsReady, audit_of, keeps};
ghost use Rattle.trace_extensions.specs.Rates.{left_of};
ghost use Rattle.trace_bench.specs.Stopping.{IsPrefixOf};
ghost use Rattle.trace_extensions.specs.Exact.{IsOpenMiss, EachReply};
ghost use Rattle.trace_extensions.specs.Takes.{AtEachSeen, TakesLine, IsDueAt, IsBegunAt};
ghost use Rattle.trace_extensions.specs.declared.taking.Miss.{Miss as TheMiss};

use crate::rates::RatesLeft;
use bench_base::events::{Event, Reply};
use node_turns::Tell;
use std::alloc::Global;
use trace_bench::{Auditor, Finding, due_to, index, is_forged, judge, stop};

// Why an answer is not taken.
#[derive(Clone, Copy)]
pub(crate) enum Miss {
    /// The event may get no reply of this line; this was due.
    Wrong(Reply),
    Forged,
    Unkept,
    Memory,
}

impl Miss {
    // Whether the event has forged bytes.
    pub(crate) fn is_forged(&self) -> bool
        ensures { IsTrue result ↔ (self.now ≡ TheMiss.Forged) }
    {
        matches!(self, Miss::Forged)
    }
}

// Whether the event has no forged bytes.
pub(crate) fn admit(alloc: Global, auditor: &mut Auditor, event: &Event) -> Result<(), Miss>
    requires ready { IsReady (audit_of auditor.old) }
    ensures ready { IsReady (audit_of auditor.new) }
    ensures kept { keeps (audit_of auditor.new) ≡ keeps (audit_of auditor.old) }
    ensures same { IsSame (audit_of auditor.old) (audit_of auditor.new) }
    ensures unforged { OnOk result (AtHistory (audit_of auditor.new) (λ H. Unforged event.now H)) }
    ensures missed { IfErr result (λ why. AtHistory (audit_of auditor.old) (λ H. Unforged event.now H → IsOpenMiss why)) }
    ensures causes { IfErr result (λ why. (why ≡ TheMiss.Forged) ⊎ IsOpenMiss why) }
{
    if index(alloc, auditor, event).is_err() {
        return Err(Miss::Memory);
    }
    match is_forged(auditor, event) {
        None => Err(Miss::Unkept),
        Some(true) => Err(Miss::Forged),
        Some(false) => Ok(()),
    }
}

// Takes this line for the answer to the event: its turn.
pub(crate) fn take<T: Tell>(
    alloc: Global,
    auditor: &mut Auditor,
    rates: &mut RatesLeft,
    event: &Event,
    line: &[u8],
) -> Result<T, Miss>
    requires whole { IsWholeEvent event.now }
    requires ready { IsReady (audit_of auditor.old) }
    requires few { length (audit_of auditor.old).messages < MOST_MESSAGES }
    ensures ready { IsReady (audit_of auditor.new) }
    ensures few { length (audit_of auditor.new).messages ≤ length (audit_of auditor.old).messages + 1 }
    ensures kept { keeps (audit_of auditor.new) ≡ keeps (audit_of auditor.old) }
    ensures takes { IfOk result (λ told. TakesLine T.IsOf told event.now line.now (audit_of auditor.old) (audit_of auditor.new)
        (left_of rates.old) (left_of rates.new)) }
    ensures missed { IfErr result (λ why. EachReply event.now (left_of rates.old) (audit_of auditor.old) (λ text. text ≡ line.now)
        (IsOpenMiss why)) }
{
    match admit(alloc, auditor, event) {
        Ok(()) => {}
        Err(miss) => return Err(miss),
    }
    match judge(alloc, auditor, event, rates.left(), line) {
        Err(Finding::Wrong(due)) => Err(Miss::Wrong(due)),
        Err(Finding::Memory) => Err(Miss::Memory),
        Ok(judged) => {
            if judged.taken > rates.left().len() {
                return Err(Miss::Memory);
            }
            rates.pass(judged.taken);
            Ok(judged.told)
        }
    }
}

// The answer that is due to the event.
pub(crate) fn due_reply(
    alloc: Global,
    auditor: &mut Auditor,
    rates: &RatesLeft,
    event: &Event,
) -> Result<Reply, Miss>
    requires whole { IsWholeEvent event.now }
    requires ready { IsReady (audit_of auditor.old) }
    requires few { length (audit_of auditor.old).messages < MOST_MESSAGES }
    ensures ready { IsReady (audit_of auditor.new) }
    ensures unsent { (audit_of auditor.new).messages ≡ (audit_of auditor.old).messages }
    ensures kept { keeps (audit_of auditor.new) ≡ keeps (audit_of auditor.old) }
    ensures due { IfOk result (λ due. IsDueAt event.now due (left_of rates.now) (audit_of auditor.old) (audit_of auditor.new)) }
    ensures missed { IfErr result (λ why. AtEachSeen (audit_of auditor.old) (λ τ H. Unforged event.now H → IsOpenMiss why)) }
{
    match admit(alloc, auditor, event) {
        Ok(()) => {}
        Err(miss) => return Err(miss),
    }
    match due_to(alloc, auditor, event, rates.left()) {
        Ok(due) => Ok(due),
        Err(_) => Err(Miss::Memory),
    }
}

// Takes these bytes, with which the report ends, for a prefix of the answer to the event.
pub(crate) fn take_prefix(
    alloc: Global,
    auditor: &mut Auditor,
    rates: &RatesLeft,
    event: &Event,
    prefix: &[u8],
) -> Result<(), Miss>
    requires whole { IsWholeEvent event.now }
    requires ready { IsReady (audit_of auditor.old) }
    requires few { length (audit_of auditor.old).messages < MOST_MESSAGES }
    ensures ready { IsReady (audit_of auditor.new) }
    ensures few { length (audit_of auditor.new).messages ≤ length (audit_of auditor.old).messages + 1 }
    ensures kept { keeps (audit_of auditor.new) ≡ keeps (audit_of auditor.old) }
    ensures begun { OnOk result (IsBegunAt event.now prefix.now (left_of rates.now) (audit_of auditor.old) (audit_of auditor.new)) }
    ensures short { IsOk result → length prefix.now ≤ 256 }
    ensures forged { IfErr result (λ why. why ≡ TheMiss.Forged → IsSame (audit_of auditor.old) (audit_of auditor.new)) }
    ensures missed { IfErr result (λ why. EachReply event.now (left_of rates.now) (audit_of auditor.old) (λ text. IsPrefixOf prefix.now text)
        (IsOpenMiss why)) }
    ensures only_forged { IfErr result (λ why. AtEachSeen (audit_of auditor.old) (λ τ H. (Unforged event.now H → ⊥)
        → (why ≡ TheMiss.Forged) ⊎ IsOpenMiss why)) }
    ensures not_unforged { IfErr result (λ why. why ≡ TheMiss.Forged → AtEachSeen (audit_of auditor.old) (λ τ H. Unforged event.now H → ⊥)) }
{
    match admit(alloc, auditor, event) {
        Ok(()) => {}
        Err(miss) => return Err(miss),
    }
    match stop(alloc, auditor, event, rates.left(), prefix) {
        Ok(_) => Ok(()),
        Err(Finding::Wrong(due)) => Err(Miss::Wrong(due)),
        Err(Finding::Memory) => Err(Miss::Memory),
    }
}
