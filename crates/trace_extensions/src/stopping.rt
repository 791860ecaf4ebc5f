//! A report that ends within the answer to a line of its own.
ghost use Rattle.std.specs.Prelude.{◌≡◌, ◌≢◌, ◌↔◌, ◌⊎◌, ◌+◌, ◌<◌, ◌≤◌, ℕ, List, [], ◌∷◌, Some, IsTrue, length};
ghost use Rattle.std.specs.Io.KnownBytes.{Consumes, IsAtEnd};
ghost use Rattle.bench.specs.declared.benches.TheConstants.{MOST_MESSAGES};
ghost use Rattle.bench_base.specs.Events.{IsWholeEvent};
ghost use Rattle.bench_base.specs.Ledger.{Ledger};
ghost use Rattle.line_extensions.specs.Desks.{World, world, Asks};
ghost use Rattle.line_extensions.specs.Trace.{StepRecord};
ghost use Rattle.line_extensions.specs.Wants.{MayAsk, IsStep};
ghost use Rattle.line_extensions.specs.declared.extension.Next.{Next as TheNext};
ghost use Rattle.line_runs.specs.Lines.{IsOneLine};
ghost use Rattle.trace_bench.specs.Seeing.{IsReady, audit_of, keeps};
ghost use Rattle.trace_bench.specs.Stopping.{IsPrefixOf};
ghost use Rattle.trace_extensions.specs.Exact.{EachOwnLeft, FailsAt, IsMet, reached};
ghost use Rattle.trace_extensions.specs.Fits.{IsCutShort, IsOpen, IsText, IsUnbegun};
ghost use Rattle.trace_extensions.specs.FitsStopped.{IsCutOf, LeftByStep, TellsOwnStop};
ghost use Rattle.trace_extensions.specs.Models.{by_model, AreToldOf};
ghost use Rattle.trace_extensions.specs.Places.{Place, place, MayStep};
ghost use Rattle.trace_extensions.specs.Rates.{left_of};
ghost use Rattle.trace_extensions.specs.Takes.{AtEachSeen};
ghost use Rattle.trace_runs.specs.Between.{SeesBetween};
ghost use Rattle.trace_extensions.specs.Worlds.{AskedOne, EndsInOwn, StepLeft, StopsInOwn};
ghost use Rattle.trace_extensions.specs.declared.papers.SideVerdict.{SideVerdict as Verdict};

use crate::asking::{ask_all, ask_some, take_reply};
use crate::comparing::{answer_begins, says};
use crate::extension::TracedExtension;
use crate::papers::{Papers, SideVerdict};
use crate::plain::miss;
use crate::rates::RatesLeft;
use crate::taking::take_prefix;
use bench_base::events::Event;
use bench_base::stream::Source;
use ledger_laws::laws::histories;
use line_extensions::{Extension, Next};
use line_runs::lines::{LineRead, read_line};
use script_text::write_reply;
use std::alloc::Global;
use text_streams::ReadAhead;
use trace_bench::Auditor;
use trace_runs::Input;

// Whether a step is asked for.
fn is_step(next: &Next) -> bool
    ensures { IsTrue result ↔ IsStep next.now }
{
    matches!(next, Next::Step(_))
}

// Ends the audit before the line of this number, of which nothing was begun: the report has nothing of its answer.
pub(crate) fn own_unbegun<R: Source>(number: u32, papers: &mut Papers<R>)
    ensures unstopped { (n : ℕ) → papers.new.verdict ≢ Verdict.Stopped n }
    ensures in_own { (n : ℕ) → papers.new.verdict ≡ Verdict.StoppedInOwn n
        → Consumes (⟦<ReadAhead<R> as Source>⟧.left papers.old.report) (⟦<ReadAhead<R> as Source>⟧.left papers.new.report) []
        × IsAtEnd (⟦<ReadAhead<R> as Source>⟧.left papers.new.report) }
    ensures own_number { (n : ℕ) → papers.new.verdict ≡ Verdict.StoppedInOwn n → n ≡ number }
    ensures reach { papers.new.reach ≡ papers.old.reach }
    ensures line { papers.new.line ≡ papers.old.line }
    ensures only { (byte : ℕ) (more : List ℕ) → ⟦<ReadAhead<R> as Source>⟧.left papers.old.report ≡ Some (byte ∷ more)
        → (papers.new.verdict ≡ Verdict.PastReach number) ⊎ IsCutShort papers.new.verdict }
    ensures stops { ⟦<ReadAhead<R> as Source>⟧.left papers.old.report ≡ Some []
        → (papers.new.verdict ≡ Verdict.StoppedInOwn number) ⊎ IsCutShort papers.new.verdict }
    ensures open { IsUnbegun papers.old.reach number → IsOpen papers.old.reach papers.new.verdict }
{
    papers.may_reach_more = true;
    let mut buf = [0; 600];
    match read_line(&mut papers.report, &mut buf) {
        LineRead::End => papers.end(SideVerdict::StoppedInOwn(number)),
        LineRead::Line(_, _) => papers.end(SideVerdict::PastReach(number)),
        LineRead::Long => papers.end(SideVerdict::PastReach(number)),
        LineRead::Fault => papers.end(SideVerdict::Unread(Input::Report)),
    }
}

// Ends the audit at an own line of this number, where the report ends with this prefix of its answer, and it is known what was done: all of it.
fn own_done<R: Source, D: TracedExtension>(
    alloc: Global,
    number: u32,
    first: Next,
    prefix: &[u8],
    desk: &mut D,
    auditor: &mut Auditor,
    rates: &mut RatesLeft,
    papers: &mut Papers<R>,
)
    requires may { MayAsk first (D.left desk.old) }
    requires ready { IsReady (audit_of auditor.old) }
    requires few { length (audit_of auditor.old).messages < MOST_MESSAGES }
    ensures ready { IsReady (audit_of auditor.new) }
    ensures few { length (audit_of auditor.new).messages ≤ length (audit_of auditor.old).messages + 1 }
    ensures kept { keeps (audit_of auditor.new) ≡ keeps (audit_of auditor.old) }
    ensures report { papers.new.report ≡ papers.old.report }
    ensures stopped { (n : ℕ) → papers.new.verdict ≡ Verdict.Stopped n → IsText prefix.now → StopsInOwn ⟦<D as Extension>⟧ D.view D.model
        (audit_of auditor.old) (left_of rates.old) desk.old first prefix.now (audit_of auditor.new) desk.new }
    ensures in_own { (n : ℕ) → papers.new.verdict ≢ Verdict.StoppedInOwn n }
    ensures stops { AtEachSeen (audit_of auditor.old) (λ τ H. (mid : World Place D.View) (text : List ℕ) (more : List (List ℕ)) (steps : List StepRecord)
        → Asks (by_model D.model) (MayStep τ) (world (place H (left_of rates.old)) (D.view desk.old)) mid first steps TheNext.Say
        → AreToldOf D.Fails 1 prefix.now steps → D.model.texts mid.desk ≡ text ∷ more → IsPrefixOf prefix.now text
        → ((papers.new.verdict ≡ Verdict.Stopped number) × IsMet D.view τ (audit_of auditor.new) (left_of rates.new) desk.new mid)
        ⊎ IsCutShort papers.new.verdict) }
    ensures number { (n : ℕ) → papers.new.verdict ≡ Verdict.Stopped n → n ≡ number }
    ensures reach { papers.new.reach ≡ papers.old.reach }
    ensures line { papers.new.line ≡ papers.old.line }
{
    D::laws();
    match ask_all(
        alloc,
        auditor,
        rates,
        desk,
        first,
        prefix,
        &mut papers.transcript,
    ) {
        Err(why) => miss(papers, number, why),
        Ok(Next::Say) => {
            let verdict = SideVerdict::Stopped(number);
            answer_begins(alloc, number, desk, prefix, verdict, papers);
        }
        Ok(Next::Stop | Next::Step(_)) => papers.end(SideVerdict::Memory),
    }
}

// Ends the audit at an own line of which nothing was answered: one step more was asked for, and it is in doubt whether it was done.
fn step_open<R: Source>(
    alloc: Global,
    number: u32,
    event: &Event,
    auditor: &mut Auditor,
    rates: &RatesLeft,
    papers: &mut Papers<R>,
)
    requires whole { IsWholeEvent event.now }
    requires ready { IsReady (audit_of auditor.old) }
    requires few { length (audit_of auditor.old).messages < MOST_MESSAGES }
    ensures ready { IsReady (audit_of auditor.new) }
    ensures few { length (audit_of auditor.new).messages ≤ length (audit_of auditor.old).messages + 1 }
    ensures kept { keeps (audit_of auditor.new) ≡ keeps (audit_of auditor.old) }
    ensures report { papers.new.report ≡ papers.old.report }
    ensures unstopped { (n : ℕ) → papers.new.verdict ≢ Verdict.Stopped n }
    ensures in_own { (n : ℕ) → papers.new.verdict ≡ Verdict.StoppedInOwn n
        → AtEachSeen (audit_of auditor.old) (λ τ H. StepLeft τ (place H (left_of rates.now)) event.now (audit_of auditor.new)) }
    ensures stops { AtEachSeen (audit_of auditor.old) (λ τ H. (K : Ledger) → LeftByStep τ (place H (left_of rates.now)) event.now K
        → ((papers.new.verdict ≡ Verdict.StoppedInOwn number) × SeesBetween (audit_of auditor.new) K) ⊎ IsCutShort papers.new.verdict) }
    ensures own_number { (n : ℕ) → papers.new.verdict ≡ Verdict.StoppedInOwn n → n ≡ number }
    ensures reach { papers.new.reach ≡ papers.old.reach }
    ensures line { papers.new.line ≡ papers.old.line }
{
    histories();
    match take_prefix(alloc, auditor, rates, event, &[]) {
        Ok(()) => {
            papers.transcript.step_begun(event, &[]);
            papers.end(SideVerdict::StoppedInOwn(number));
        }
        Err(why) => {
            if why.is_forged() {
                // The run was stopped before it.
                papers.end(SideVerdict::StoppedInOwn(number));
            } else {
                miss(papers, number, why);
            }
        }
    }
}

// Ends the audit at an own line, with this prefix of whose answer the report ends: a node failed in the step of this number, `step`, as it tells.
fn step_failed<R: Source, D: TracedExtension>(
    alloc: Global,
    number: u32,
    step: u32,
    event: &Event,
    prefix: &[u8],
    desk: &mut D,
    auditor: &mut Auditor,
    rates: &mut RatesLeft,
    papers: &mut Papers<R>,
)
    requires whole { IsWholeEvent event.now }
    requires ready { IsReady (audit_of auditor.old) }
    requires few { length (audit_of auditor.old).messages < MOST_MESSAGES }
    ensures ready { IsReady (audit_of auditor.new) }
    ensures few { length (audit_of auditor.new).messages ≤ length (audit_of auditor.old).messages + 1 }
    ensures kept { keeps (audit_of auditor.new) ≡ keeps (audit_of auditor.old) }
    ensures report { papers.new.report ≡ papers.old.report }
    ensures unstopped { (n : ℕ) → papers.new.verdict ≢ Verdict.Stopped n }
    ensures asked { (n : ℕ) → papers.new.verdict ≡ Verdict.StoppedInOwn n → AtEachSeen (audit_of auditor.old) (λ τ H. AskedOne ⟦<D as Extension>⟧ τ
        event.now (world (place H (left_of rates.old)) desk.old) (audit_of auditor.new) (left_of rates.new) desk.new TheNext.Say) }
    ensures cut { (n : ℕ) → papers.new.verdict ≡ Verdict.StoppedInOwn n → IsText prefix.now → IsCutOf prefix.now (D.texts desk.new) }
    ensures stops { AtEachSeen (audit_of auditor.old) (λ τ H. (mid : World Place D.View) (line : List ℕ)
        → FailsAt D.model D.Fails τ (world (place H (left_of rates.old)) (D.view desk.old)) mid event.now step line → IsPrefixOf prefix.now line
        → ((papers.new.verdict ≡ Verdict.StoppedInOwn number) × SeesBetween (audit_of auditor.new) mid.scene.ledger
        × D.model.Alike (D.view desk.new) mid.desk) ⊎ IsCutShort papers.new.verdict) }
    ensures own_number { (n : ℕ) → papers.new.verdict ≡ Verdict.StoppedInOwn n → n ≡ number }
    ensures reach { papers.new.reach ≡ papers.old.reach }
    ensures line { papers.new.line ≡ papers.old.line }
{
    D::laws();
    let Some(failure) = D::failure_in(step, prefix) else {
        return papers.end(SideVerdict::Wrong(number));
    };
    let text = write_reply(&failure);
    match take_reply(alloc, auditor, rates, desk, event, text.as_slice()) {
        Err(why) => miss(papers, number, why),
        Ok(Next::Say) => {
            if !says(desk, prefix) {
                return papers.end(SideVerdict::Wrong(number));
            }
            // It may be another failure, so the transcript has no answer.
            papers.transcript.step_begun(event, text.as_slice());
            papers.end(SideVerdict::StoppedInOwn(number));
        }
        Ok(Next::Stop | Next::Step(_)) => papers.end(SideVerdict::Memory),
    }
}

// Ends the audit at an own line of this number, of which so many steps were done, where the report ends with this prefix of its answer.
fn own_reached<R: Source, D: TracedExtension>(
    alloc: Global,
    number: u32,
    steps: u32,
    first: Next,
    prefix: &[u8],
    desk: &mut D,
    auditor: &mut Auditor,
    rates: &mut RatesLeft,
    papers: &mut Papers<R>,
)
    requires may { MayAsk first (D.left desk.old) }
    requires ready { IsReady (audit_of auditor.old) }
    requires few { length (audit_of auditor.old).messages < MOST_MESSAGES }
    ensures ready { IsReady (audit_of auditor.new) }
    ensures few { length (audit_of auditor.new).messages ≤ length (audit_of auditor.old).messages + 1 }
    ensures kept { keeps (audit_of auditor.new) ≡ keeps (audit_of auditor.old) }
    ensures report { papers.new.report ≡ papers.old.report }
    ensures unstopped { (n : ℕ) → papers.new.verdict ≢ Verdict.Stopped n }
    ensures in_own { (n : ℕ) → papers.new.verdict ≡ Verdict.StoppedInOwn n → IsText prefix.now → EndsInOwn ⟦<D as Extension>⟧ (audit_of auditor.old)
        (left_of rates.old) desk.old first prefix.now (audit_of auditor.new) desk.new }
    ensures stops { IsOneLine prefix.now → AtEachSeen (audit_of auditor.old) (λ τ H. EachOwnLeft D.model τ (place H (left_of rates.old))
        (D.view desk.old) first prefix.now (Some (reached number steps))
        (TellsOwnStop D.model papers.new.reach papers.new.verdict (audit_of auditor.new) (D.view desk.new))) }
    ensures own_number { (n : ℕ) → papers.new.verdict ≡ Verdict.StoppedInOwn n → n ≡ number }
    ensures reach { papers.new.reach ≡ papers.old.reach }
    ensures line { papers.new.line ≡ papers.old.line }
{
    D::laws();
    let sent = auditor.message_count();
    let transcript = &mut papers.transcript;
    let verdict = SideVerdict::StoppedInOwn(number);
    match ask_some(alloc, auditor, rates, desk, first, steps, transcript) {
        Err(why) => miss(papers, number, why),
        Ok(None) => papers.end(SideVerdict::Wrong(number)),
        Ok(Some(Next::Step(event))) => {
            // Only the last step of a line may send a message.
            if auditor.message_count() != sent {
                return papers.end(SideVerdict::Memory);
            }
            papers.may_reach_more = true;
            if prefix.is_empty() {
                return step_open(alloc, number, &event, auditor, rates, papers);
            }
            let Some(step) = steps.checked_add(1) else {
                return papers.end(SideVerdict::Memory);
            };
            step_failed(
                alloc, number, step, &event, prefix, desk, auditor, rates, papers,
            );
        }
        Ok(Some(Next::Say)) => answer_begins(alloc, number, desk, prefix, verdict, papers),
        Ok(Some(Next::Stop)) => papers.end(SideVerdict::Memory),
    }
}

// Ends the audit at an own line of this number, where the report ends with this prefix of its answer.
pub(crate) fn own_begun<R: Source, D: TracedExtension>(
    alloc: Global,
    number: u32,
    first: Next,
    prefix: &[u8],
    desk: &mut D,
    auditor: &mut Auditor,
    rates: &mut RatesLeft,
    papers: &mut Papers<R>,
)
    requires may { MayAsk first (D.left desk.old) }
    requires ready { IsReady (audit_of auditor.old) }
    requires few { length (audit_of auditor.old).messages < MOST_MESSAGES }
    requires begun { IsUnbegun papers.old.reach number → ⊥ }
    ensures ready { IsReady (audit_of auditor.new) }
    ensures few { length (audit_of auditor.new).messages ≤ length (audit_of auditor.old).messages + 1 }
    ensures kept { keeps (audit_of auditor.new) ≡ keeps (audit_of auditor.old) }
    ensures report { papers.new.report ≡ papers.old.report }
    ensures stopped { (n : ℕ) → papers.new.verdict ≡ Verdict.Stopped n → IsText prefix.now → StopsInOwn ⟦<D as Extension>⟧ D.view D.model
        (audit_of auditor.old) (left_of rates.old) desk.old first prefix.now (audit_of auditor.new) desk.new }
    ensures in_own { (n : ℕ) → papers.new.verdict ≡ Verdict.StoppedInOwn n → IsText prefix.now → EndsInOwn ⟦<D as Extension>⟧ (audit_of auditor.old)
        (left_of rates.old) desk.old first prefix.now (audit_of auditor.new) desk.new }
    ensures stops { IsOneLine prefix.now → AtEachSeen (audit_of auditor.old) (λ τ H. EachOwnLeft D.model τ (place H (left_of rates.old))
        (D.view desk.old) first prefix.now papers.new.reach
        (TellsOwnStop D.model papers.new.reach papers.new.verdict (audit_of auditor.new) (D.view desk.new))) }
    ensures number { (n : ℕ) → papers.new.verdict ≡ Verdict.Stopped n → n ≡ number }
    ensures own_number { (n : ℕ) → papers.new.verdict ≡ Verdict.StoppedInOwn n → n ≡ number }
    ensures reach { papers.new.reach ≡ papers.old.reach }
    ensures line { papers.new.line ≡ papers.old.line }
{
    D::laws();
    if !desk.is_in_doubt(&first, prefix) {
        // What it would have done changes nothing.
        if prefix.is_empty() && is_step(&first) {
            return papers.end(SideVerdict::Stopped(number));
        }
        return own_done(alloc, number, first, prefix, desk, auditor, rates, papers);
    }
    let Some(steps) = papers.steps_in(number) else {
        return papers.end(SideVerdict::InDoubt(number));
    };
    own_reached(
        alloc, number, steps, first, prefix, desk, auditor, rates, papers,
    );
}
