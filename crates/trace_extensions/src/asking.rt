//! The steps that an extension asks for, taken from what the report has for its line.
ghost use Rattle.std.specs.Prelude.{◌≡◌, ◌≢◌, ◌+◌, ◌<◌, ◌≤◌, List, [], length, IfErr, IfOk, IfSome, IsSome, MatchResult};
ghost use Rattle.bench_base.specs.Events.{IsWholeEvent};
ghost use Rattle.bench_base.specs.declared.events.Reply.{Reply as TheReply};
ghost use Rattle.bench.specs.declared.benches.TheConstants.{MOST_MESSAGES};
ghost use Rattle.line_extensions.specs.Desks.{World, world, Asked, Asks};
ghost use Rattle.line_extensions.specs.Trace.{StepRecord};
ghost use Rattle.line_extensions.specs.declared.extension.Next.{Next as TheNext};
ghost use Rattle.line_extensions.specs.Wants.{MayAsk, IsStep};
ghost use Rattle.trace_bench.specs.Seeing.{IsReady, audit_of, keeps};
ghost use Rattle.trace_extensions.specs.Exact.{EachReply, IsOpenMiss, IsMet};
ghost use Rattle.trace_extensions.specs.Models.{by_model, IsToldOf, AreToldOf};
ghost use Rattle.trace_extensions.specs.Places.{Place, place, MayStep};
ghost use Rattle.trace_extensions.specs.Rates.{left_of};
ghost use Rattle.trace_extensions.specs.Takes.{AtEachSeen};
ghost use Rattle.trace_extensions.specs.Worlds.{AskedSo, AskedOne, AskedWith};

use crate::extension::TracedExtension;
use crate::rates::RatesLeft;
use crate::taking::{Miss, due_reply, take};
use crate::transcript::Transcript;
use bench_base::events::{Event, Reply};
use line_extensions::{Extension, Next};
use script_text::write_reply;
use std::alloc::Global;
use trace_bench::Auditor;

// The reply to the step of this number: the failure that the line of the report has for it, or the one that is due.
fn reply_to<D: TracedExtension>(step: u32, line: &[u8], due: Reply) -> Reply
    ensures failed { (reply : TheReply) → D.Fails step line.now reply → result ≡ reply }
    ensures fine { ((reply : TheReply) → D.Fails step line.now reply → ⊥) → result ≡ due }
{
    D::laws();
    match D::failure(step, line) {
        Some(failure) => failure,
        None => due,
    }
}

// Takes the reply of this text to a step, and has the extension go on with it.
pub(crate) fn take_reply<D: TracedExtension>(
    alloc: Global,
    auditor: &mut Auditor,
    rates: &mut RatesLeft,
    desk: &mut D,
    event: &Event,
    text: &[u8],
) -> Result<Next, Miss>
    requires whole { IsWholeEvent event.now }
    requires ready { IsReady (audit_of auditor.old) }
    requires few { length (audit_of auditor.old).messages < MOST_MESSAGES }
    ensures ready { IsReady (audit_of auditor.new) }
    ensures few { length (audit_of auditor.new).messages ≤ length (audit_of auditor.old).messages + 1 }
    ensures kept { keeps (audit_of auditor.new) ≡ keeps (audit_of auditor.old) }
    ensures may { IfOk result (λ next. MayAsk next (D.left desk.new)) }
    ensures fewer { IfOk result (λ next. IsStep next → D.left desk.new < D.left desk.old) }
    ensures asked { IfOk result (λ next. AtEachSeen (audit_of auditor.old) (λ τ H. AskedWith ⟦<D as Extension>⟧ text.now τ event.now
        (world (place H (left_of rates.old)) desk.old) (audit_of auditor.new) (left_of rates.new) desk.new next)) }
    ensures missed { IfErr result (λ why. EachReply event.now (left_of rates.old) (audit_of auditor.old) (λ line. line ≡ text.now)
        (IsOpenMiss why)) }
{
    match take(alloc, auditor, rates, event, text) {
        Ok(told) => Ok(desk.go_on(&told)),
        Err(miss) => Err(miss),
    }
}

// Takes the step of this number: its reply is the failure that the line of the report has for it, or the one that is due.
fn ask_one<D: TracedExtension>(
    alloc: Global,
    auditor: &mut Auditor,
    rates: &mut RatesLeft,
    desk: &mut D,
    step: u32,
    event: &Event,
    line: &[u8],
    transcript: &mut Transcript,
) -> Result<Next, Miss>
    requires whole { IsWholeEvent event.now }
    requires ready { IsReady (audit_of auditor.old) }
    requires few { length (audit_of auditor.old).messages < MOST_MESSAGES }
    ensures ready { IsReady (audit_of auditor.new) }
    ensures few { length (audit_of auditor.new).messages ≤ length (audit_of auditor.old).messages + 1 }
    ensures kept { keeps (audit_of auditor.new) ≡ keeps (audit_of auditor.old) }
    ensures may { IfOk result (λ next. MayAsk next (D.left desk.new)) }
    ensures fewer { IfOk result (λ next. IsStep next → D.left desk.new < D.left desk.old) }
    ensures asked { IfOk result (λ next. AtEachSeen (audit_of auditor.old) (λ τ H. AskedOne ⟦<D as Extension>⟧ τ event.now
        (world (place H (left_of rates.old)) desk.old) (audit_of auditor.new) (left_of rates.new) desk.new next)) }
    ensures only { AtEachSeen (audit_of auditor.old) (λ τ H. (mid : World Place D.View) (d : StepRecord) (more : TheNext)
        → Asked (by_model D.model) (MayStep τ) (world (place H (left_of rates.old)) (D.view desk.old)) mid (TheNext.Step event.now) d more
        → IsToldOf D.Fails step line.now d
        → MatchResult result (λ next. next ≢ TheNext.Stop → (more ≡ next) × IsMet D.view τ
        (audit_of auditor.new) (left_of rates.new) desk.new mid) (λ why. IsOpenMiss why)) }
{
    D::laws();
    match due_reply(alloc, auditor, rates, event) {
        Ok(due) => {
            let text = write_reply(&reply_to::<D>(step, line, due));
            match take_reply(alloc, auditor, rates, desk, event, text.as_slice()) {
                Ok(next) => {
                    transcript.step(event, &text);
                    Ok(next)
                }
                Err(miss) => Err(miss),
            }
        }
        Err(miss) => Err(miss),
    }
}

// Takes the steps that the extension asks for, one after the other. What it asks for last is no step.
pub(crate) fn ask_all<D: TracedExtension>(
    alloc: Global,
    auditor: &mut Auditor,
    rates: &mut RatesLeft,
    desk: &mut D,
    first: Next,
    line: &[u8],
    transcript: &mut Transcript,
) -> Result<Next, Miss>
    requires may { MayAsk first (D.left desk.old) }
    requires ready { IsReady (audit_of auditor.old) }
    requires few { length (audit_of auditor.old).messages < MOST_MESSAGES }
    ensures ready { IsReady (audit_of auditor.new) }
    ensures few { length (audit_of auditor.new).messages ≤ length (audit_of auditor.old).messages + 1 }
    ensures kept { keeps (audit_of auditor.new) ≡ keeps (audit_of auditor.old) }
    ensures last { IfOk result (λ next. IsStep next → ⊥) }
    ensures asked { IfOk result (λ next. AtEachSeen (audit_of auditor.old) (λ τ H. AskedSo ⟦<D as Extension>⟧ τ
        (world (place H (left_of rates.old)) desk.old) (audit_of auditor.new) (left_of rates.new) desk.new first next)) }
    ensures only { AtEachSeen (audit_of auditor.old) (λ τ H. (mid : World Place D.View) (steps : List StepRecord)
        → Asks (by_model D.model) (MayStep τ) (world (place H (left_of rates.old)) (D.view desk.old)) mid first steps TheNext.Say
        → AreToldOf D.Fails 1 line.now steps
        → MatchResult result (λ next. next ≢ TheNext.Stop → IsMet D.view τ
        (audit_of auditor.new) (left_of rates.new) desk.new mid) (λ why. IsOpenMiss why)) }
{
    let sent = auditor.message_count();
    let mut next = first;
    let mut number = 0_u32;
    while let Next::Step(event) = next {
        // Only the last step of a line may send a message.
        if auditor.message_count() != sent {
            return Err(Miss::Memory);
        }
        let Some(step) = number.checked_add(1) else {
            return Err(Miss::Memory);
        };
        number = step;
        match ask_one(alloc, auditor, rates, desk, step, &event, line, transcript) {
            Ok(more) => next = more,
            Err(miss) => return Err(miss),
        }
    }
    Ok(next)
}

// Takes so many steps that the extension asks for, one after the other, each with the reply that is due: what it asks for after them. None if it asks for
// fewer.
pub(crate) fn ask_some<D: TracedExtension>(
    alloc: Global,
    auditor: &mut Auditor,
    rates: &mut RatesLeft,
    desk: &mut D,
    first: Next,
    count: u32,
    transcript: &mut Transcript,
) -> Result<Option<Next>, Miss>
    requires may { MayAsk first (D.left desk.old) }
    requires ready { IsReady (audit_of auditor.old) }
    requires few { length (audit_of auditor.old).messages < MOST_MESSAGES }
    ensures ready { IsReady (audit_of auditor.new) }
    ensures few { length (audit_of auditor.new).messages ≤ length (audit_of auditor.old).messages + 1 }
    ensures kept { keeps (audit_of auditor.new) ≡ keeps (audit_of auditor.old) }
    ensures may { IfOk result (λ o. IfSome o (λ next. MayAsk next (D.left desk.new))) }
    ensures asked { IfOk result (λ o. IfSome o (λ next. AtEachSeen (audit_of auditor.old) (λ τ H. AskedSo ⟦<D as Extension>⟧ τ
        (world (place H (left_of rates.old)) desk.old) (audit_of auditor.new) (left_of rates.new) desk.new first next))) }
    ensures only { AtEachSeen (audit_of auditor.old) (λ τ H. (mid : World Place D.View) (steps : List StepRecord) (last : TheNext)
        → Asks (by_model D.model) (MayStep τ) (world (place H (left_of rates.old)) (D.view desk.old)) mid first steps last
        → AreToldOf D.Fails 1 [] steps → length steps ≡ count
        → MatchResult result (λ o. IsSome o × IfSome o (λ next. next ≢ TheNext.Stop → (last ≡ next) × IsMet D.view τ
        (audit_of auditor.new) (left_of rates.new) desk.new mid)) (λ why. IsOpenMiss why)) }
{
    let sent = auditor.message_count();
    let mut next = first;
    for number in 0..count {
        let event = match next {
            Next::Step(event) => event,
            Next::Say => return Ok(None),
            Next::Stop => return Err(Miss::Memory),
        };
        // Only the last step of a line may send a message.
        if sent != auditor.message_count() {
            return Err(Miss::Memory);
        }
        let step = number + 1;
        match ask_one(alloc, auditor, rates, desk, step, &event, &[], transcript) {
            Ok(more) => next = more,
            Err(miss) => return Err(miss),
        }
    }
    Ok(Some(next))
}
