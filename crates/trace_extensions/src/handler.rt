//! The lines of a script beside those of its report: events of the bench, or an extension's own.
ghost use Rattle.std.specs.Prelude.{◌≡◌, ◌≢◌, ◌↔◌, ◌+◌, ◌++◌, ◌<◌, ◌≤◌, ℕ, List, None, Some, IsTrue, true, false, length, flat_map, MatchBool};
ghost use Rattle.std.specs.List.{AllByRecursion};
ghost use Rattle.std.specs.Io.KnownBytes.{Consumes, IsAtEnd};
ghost use Rattle.bench.specs.declared.benches.TheConstants.{MOST_MESSAGES};
ghost use Rattle.line_extensions.specs.Desks.{World, world};
ghost use Rattle.line_extensions.specs.Trace.{StepRecord};
ghost use Rattle.line_extensions.specs.declared.extension.Next.{Next as TheNext};
ghost use Rattle.line_runs.specs.Lines.{ended};
ghost use Rattle.trace_extensions.specs.Exact.{EachOwnLeft, HasNext, IsMet, MayAnswer};
ghost use Rattle.trace_extensions.specs.Fits.{IsCutShort, IsText, IsUnbegun};
ghost use Rattle.trace_extensions.specs.FitsStopped.{TellsOwnStop};
ghost use Rattle.trace_extensions.specs.Places.{Place, place};
ghost use Rattle.trace_extensions.specs.Takes.{AtEachSeen};
ghost use Rattle.trace_bench.specs.Seeing.{IsReady, audit_of, keeps};
ghost use Rattle.trace_extensions.specs.Rates.{left_of};
ghost use Rattle.trace_extensions.specs.Steps.{AuditWorld, audit_world, AuditStep, audit_lines};
ghost use Rattle.trace_extensions.specs.Worlds.{AskedSo, AuditLeaves, DidAudit, ReadsInOwn, ReadsStop, StopsInOwn};
ghost use Rattle.trace_extensions.specs.declared.papers.SideVerdict.{SideVerdict as Verdict};
ghost use Rattle.trace_extensions.specs.AuditLaws.{audit_done, audit_fits};
ghost use Rattle.line_extensions.specs.Wants.{MayAsk};

use crate::asking::ask_all;
use crate::comparing::answer_fits;
use crate::extension::TracedExtension;
use crate::papers::{Papers, SideVerdict};
use crate::plain::{answer, miss};
use crate::rates::RatesLeft;
use crate::stopping::{own_begun, own_unbegun};
use crate::transcript::Transcript;
use bench_base::events::Event;
use bench_base::stream::{Sink, Source};
use line_extensions::{Extension, Next, ended_by};
use line_runs::LineHandler;
use line_runs::lines::{LineRead, read_line};
use line_runs::status::{SideStatus, Status};
use script_text::{is_skipped, read_event};
use std::alloc::Global;
use std::marker::PhantomData;
use text_streams::ReadAhead;
use trace_bench::Auditor;
use trace_runs::Input;

/// Judges the lines of a script that are events of a bench, or an extension's own.
pub struct AtReport<R, D> {
    of: PhantomData<(R, D)>,
}

// Whether the extension's storage failed.
fn is_stop(next: &Next) -> bool
    ensures { IsTrue result ↔ (next.now ≡ TheNext.Stop) }
{
    matches!(next, Next::Stop)
}

// Notes the answer of an own line in the transcript, if it is one.
fn note_answer<D: Extension>(
    alloc: Global,
    desk: &D,
    is_answer: bool,
    transcript: &mut Transcript,
) {
    if is_answer {
        transcript.answered(alloc, desk);
    }
}

// Takes the steps of an own line of this number, by what the report has for it, and compares the answer: whether it is the same.
fn own_fits<R: Source, D: TracedExtension>(
    alloc: Global,
    number: u32,
    first: Next,
    answer: &[u8],
    desk: &mut D,
    auditor: &mut Auditor,
    rates: &mut RatesLeft,
    papers: &mut Papers<R>,
) -> bool
    requires may { MayAsk first (D.left desk.old) }
    requires ready { IsReady (audit_of auditor.old) }
    requires few { length (audit_of auditor.old).messages < MOST_MESSAGES }
    ensures ready { IsReady (audit_of auditor.new) }
    ensures few { length (audit_of auditor.new).messages ≤ length (audit_of auditor.old).messages + 1 }
    ensures kept { keeps (audit_of auditor.new) ≡ keeps (audit_of auditor.old) }
    ensures asked { result ≡ true → AtEachSeen (audit_of auditor.old) (λ τ H. AskedSo ⟦<D as Extension>⟧ τ
        (world (place H (left_of rates.old)) desk.old) (audit_of auditor.new) (left_of rates.new) desk.new first TheNext.Say) }
    ensures fits { result ≡ true → (rest : List ℕ) × (flat_map ended (D.texts desk.new) ≡ ended answer.now ++ rest)
        × Consumes (⟦<ReadAhead<R> as Source>⟧.left papers.old.report) (⟦<ReadAhead<R> as Source>⟧.left papers.new.report) rest }
    ensures stopped { result ≡ false → (n : ℕ) → papers.new.verdict ≡ Verdict.Stopped n → IsText answer.now → (rest : List ℕ)
        × Consumes (⟦<ReadAhead<R> as Source>⟧.left papers.old.report) (⟦<ReadAhead<R> as Source>⟧.left papers.new.report) rest
        × IsAtEnd (⟦<ReadAhead<R> as Source>⟧.left papers.new.report)
        × StopsInOwn ⟦<D as Extension>⟧ D.view D.model (audit_of auditor.old) (left_of rates.old) desk.old first (ended answer.now ++ rest)
        (audit_of auditor.new) desk.new }
    ensures in_own { result ≡ false → (n : ℕ) → papers.new.verdict ≢ Verdict.StoppedInOwn n }
    ensures only { AtEachSeen (audit_of auditor.old) (λ τ H. (mid : World Place D.View) (more : List (List ℕ)) (told : List ℕ)
        (steps : List StepRecord)
        → MayAnswer D.model D.Fails τ (world (place H (left_of rates.old)) (D.view desk.old)) mid first answer.now more steps
        → ⟦<ReadAhead<R> as Source>⟧.left papers.old.report ≡ Some (flat_map ended more ++ told)
        → MatchBool result (IsMet D.view τ (audit_of auditor.new) (left_of rates.new) desk.new mid
        × (⟦<ReadAhead<R> as Source>⟧.left papers.new.report ≡ Some told)) (IsCutShort papers.new.verdict)) }
    ensures texts { result ≡ true → IsText answer.now → AllByRecursion IsText (D.texts desk.new) }
    ensures stops { AtEachSeen (audit_of auditor.old) (λ τ H. (told : List ℕ) → IsText answer.now → ⟦<ReadAhead<R> as Source>⟧.left papers.old.report ≡ Some told
        → EachOwnLeft D.model τ (place H (left_of rates.old)) (D.view desk.old) first (ended answer.now ++ told) None (λ K kept. MatchBool result ⊥
        (TellsOwnStop D.model papers.new.reach papers.new.verdict (audit_of auditor.new) (D.view desk.new) K kept))) }
    ensures number { result ≡ false → (n : ℕ) → papers.new.verdict ≡ Verdict.Stopped n → n ≡ number }
    ensures reach { papers.new.reach ≡ papers.old.reach }
    ensures line { papers.new.line ≡ papers.old.line }
{
    D::laws();
    match ask_all(
        alloc,
        auditor,
        rates,
        desk,
        first,
        answer,
        &mut papers.transcript,
    ) {
        Err(why) => {
            miss(papers, number, why);
            false
        }
        Ok(Next::Say) => {
            let fits = answer_fits(number, desk, answer, papers);
            let is_answer = fits | papers.has_stopped();
            note_answer(alloc, desk, is_answer, &mut papers.transcript);
            fits
        }
        Ok(Next::Stop | Next::Step(_)) => {
            papers.end(SideVerdict::Memory);
            false
        }
    }
}

// Reads the first line that the report has for an own line of this number, and judges the answer: whether the run goes on.
fn own_line<R: Source, D: TracedExtension>(
    alloc: Global,
    number: u32,
    first: Next,
    desk: &mut D,
    auditor: &mut Auditor,
    rates: &mut RatesLeft,
    papers: &mut Papers<R>,
) -> bool
    requires may { MayAsk first (D.left desk.old) }
    requires ready { IsReady (audit_of auditor.old) }
    requires few { length (audit_of auditor.old).messages < MOST_MESSAGES }
    requires begun { IsUnbegun papers.old.reach number → ⊥ }
    ensures ready { IsReady (audit_of auditor.new) }
    ensures few { length (audit_of auditor.new).messages ≤ length (audit_of auditor.old).messages + 1 }
    ensures kept { keeps (audit_of auditor.new) ≡ keeps (audit_of auditor.old) }
    ensures asked { result ≡ true → AtEachSeen (audit_of auditor.old) (λ τ H. AskedSo ⟦<D as Extension>⟧ τ
        (world (place H (left_of rates.old)) desk.old) (audit_of auditor.new) (left_of rates.new) desk.new first TheNext.Say) }
    ensures fits { result ≡ true → Consumes (⟦<ReadAhead<R> as Source>⟧.left papers.old.report) (⟦<ReadAhead<R> as Source>⟧.left papers.new.report)
        (flat_map ended (D.texts desk.new)) }
    ensures stopped { result ≡ false → (n : ℕ) → papers.new.verdict ≡ Verdict.Stopped n → ReadsStop ⟦<D as Extension>⟧ D.view D.model
        (audit_of auditor.old) (left_of rates.old) desk.old first (⟦<ReadAhead<R> as Source>⟧.left papers.old.report) (audit_of auditor.new) desk.new
        (⟦<ReadAhead<R> as Source>⟧.left papers.new.report) }
    ensures in_own { result ≡ false → (n : ℕ) → papers.new.verdict ≡ Verdict.StoppedInOwn n → ReadsInOwn ⟦<D as Extension>⟧ (audit_of auditor.old)
        (left_of rates.old) desk.old first (⟦<ReadAhead<R> as Source>⟧.left papers.old.report) (audit_of auditor.new) desk.new
        (⟦<ReadAhead<R> as Source>⟧.left papers.new.report) }
    ensures only { AtEachSeen (audit_of auditor.old) (λ τ H. (mid : World Place D.View) (line : List ℕ) (more : List (List ℕ)) (told : List ℕ)
        (steps : List StepRecord)
        → MayAnswer D.model D.Fails τ (world (place H (left_of rates.old)) (D.view desk.old)) mid first line more steps
        → HasNext (⟦<ReadAhead<R> as Source>⟧.left papers.old.report) line (flat_map ended more ++ told)
        → MatchBool result (IsMet D.view τ (audit_of auditor.new) (left_of rates.new) desk.new mid
        × (⟦<ReadAhead<R> as Source>⟧.left papers.new.report ≡ Some told)) (IsCutShort papers.new.verdict)) }
    ensures texts { result ≡ true → AllByRecursion IsText (D.texts desk.new) }
    ensures stops { AtEachSeen (audit_of auditor.old) (λ τ H. (told : List ℕ) → ⟦<ReadAhead<R> as Source>⟧.left papers.old.report ≡ Some told
        → MatchBool result (EachOwnLeft D.model τ (place H (left_of rates.old)) (D.view desk.old) first told None (λ K kept. ⊥))
        (EachOwnLeft D.model τ (place H (left_of rates.old)) (D.view desk.old) first told papers.new.reach
        (TellsOwnStop D.model papers.new.reach papers.new.verdict (audit_of auditor.new) (D.view desk.new)))) }
    ensures number { result ≡ false → (n : ℕ) → papers.new.verdict ≡ Verdict.Stopped n → n ≡ number }
    ensures own_number { result ≡ false → (n : ℕ) → papers.new.verdict ≡ Verdict.StoppedInOwn n → n ≡ number }
    ensures reach { papers.new.reach ≡ papers.old.reach }
    ensures line { papers.new.line ≡ papers.old.line }
{
    let mut buf = [0; 600];
    match read_line(&mut papers.report, &mut buf) {
        LineRead::Line(len, true) => {
            papers.answers = papers.answers.saturating_add(1);
            return own_fits(
                alloc,
                number,
                first,
                &buf[..len as usize],
                desk,
                auditor,
                rates,
                papers,
            );
        }
        LineRead::Line(len, false) => own_begun(
            alloc,
            number,
            first,
            &buf[..len as usize],
            desk,
            auditor,
            rates,
            papers,
        ),
        LineRead::End => own_begun(alloc, number, first, &[], desk, auditor, rates, papers),
        LineRead::Long => papers.end(SideVerdict::Wrong(number)),
        LineRead::Fault => papers.end(SideVerdict::Unread(Input::Report)),
    }
    false
}

impl<R: Source, D: TracedExtension> LineHandler for AtReport<R, D> {
    type Extension = D;

    type Bench = Auditor;

    type Rates = RatesLeft;

    type Printer = Papers<R>;

    ghost World = { AuditWorld D };

    ghost world = { λ desk auditor rates papers. audit_world (audit_of auditor) (left_of rates) desk (⟦<ReadAhead<R> as Source>⟧.left papers.report)
        papers.verdict papers.reach papers.line };

    ghost IsReady = { λ w. IsReady w.audit };

    ghost used = { λ w. length w.audit.messages };

    ghost TraceStep = { AuditStep D.Own D };

    ghost lines = { audit_lines ⟦<D as Extension>⟧ };

    ghost Does = { DidAudit ⟦<D as Extension>⟧ D.view D.model };

    ghost Leaves = { AuditLeaves };

    ghost chain = { audit_done ⟦<D as Extension>⟧ D.view D.model };

    ghost fits = { audit_fits ⟦<D as Extension>⟧ D.alone };

    fn do_line<K: Sink>(
        alloc: Global,
        number: u32,
        line: &[u8],
        desk: &mut D,
        auditor: &mut Auditor,
        rates: &mut RatesLeft,
        papers: &mut Papers<R>,
        _report: &mut K,
    ) -> Option<SideStatus> {
        D::laws();
        let before = papers.line;
        papers.line = before.saturating_add(1);
        let here = papers.line;
        papers.transcript.begin(number, line);
        if is_skipped(line) {
            return None;
        }
        if papers.is_unbegun(here) {
            own_unbegun(here, papers);
            papers.is_own_stop = true;
            return Some(SideStatus::Stopped);
        }
        let begun = desk.begin(alloc, line);
        match begun {
            Err(_) => {
                papers.end(SideVerdict::Memory);
                Some(SideStatus::Stopped)
            }
            Ok(Some(first)) => {
                // The audit's own storage has no room for more.
                if is_stop(&first) {
                    papers.end(SideVerdict::Memory);
                    return Some(SideStatus::Stopped);
                }
                if own_line(alloc, here, first, desk, auditor, rates, papers) {
                    None
                } else {
                    papers.is_own_stop = true;
                    Some(SideStatus::Stopped)
                }
            }
            Ok(None) => match &read_event(line) {
                Ok(event) => {
                    papers.transcript.event(line);
                    let mut buf = [0; 600];
                    match answer::<D::Heard, R>(
                        alloc, auditor, rates, papers, here, event, &mut buf,
                    ) {
                        Some(answered) => {
                            desk.see(event, &answered.told);
                            ended_by(event)
                        }
                        None => Some(SideStatus::Stopped),
                    }
                }
                Err(_) => {
                    // It is no line that was judged.
                    papers.line = before;
                    Some(SideStatus::Run(Status::Script(number)))
                }
            },
        }
    }
}
