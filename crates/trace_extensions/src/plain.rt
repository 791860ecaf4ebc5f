//! The line of an event that the extension leaves to the bench.
ghost use Rattle.std.specs.Prelude.{◌≡◌, ◌≢◌, ◌⊎◌, ◌+◌, ◌<◌, ◌≤◌, ℕ, List, length, take, IfSome, IfNone};
ghost use Rattle.std.specs.Io.KnownBytes.{Consumes};
ghost use Rattle.bench_base.specs.Events.{IsWholeEvent};
ghost use Rattle.bench.specs.declared.benches.TheConstants.{MOST_MESSAGES};
ghost use Rattle.line_runs.specs.Lines.{IsOneLine, ended};
ghost use Rattle.trace_bench.specs.Stopping.{IsPrefixOf};
ghost use Rattle.trace_extensions.specs.Exact.{EachLeft, EachReply, HasNext, IsOpenMiss};
ghost use Rattle.trace_extensions.specs.Fits.{IsCutShort};
ghost use Rattle.trace_bench.specs.Seeing.{IsReady, audit_of, keeps};
ghost use Rattle.trace_extensions.specs.Rates.{left_of};
ghost use Rattle.trace_runs.specs.Between.{SeesBetween};
ghost use Rattle.trace_extensions.specs.Takes.{TakesLine, IsBegunAt, EndsWithin, MayLeave};
ghost use Rattle.trace_extensions.specs.declared.papers.SideVerdict.{SideVerdict as Verdict};

use crate::papers::{Papers, SideVerdict};
use crate::rates::RatesLeft;
use crate::taking::{Miss, take, take_prefix};
use bench_base::events::Event;
use bench_base::stream::Source;
use ledger_laws::laws::histories;
use line_runs::lines::{LineRead, read_line};
use node_turns::Tell;
use script_text::write_reply;
use std::alloc::Global;
use text_streams::ReadAhead;
use trace_bench::Auditor;
use trace_runs::Input;
use trace_runs::imprint::{due_mark, given_in, keep, open_in};

impl Miss {
    // What is said of the line of this number.
    fn verdict(&self, number: u32) -> SideVerdict
        ensures unstopped { (n : ℕ) → result ≢ Verdict.Stopped n }
        ensures in_own { (n : ℕ) → result ≢ Verdict.StoppedInOwn n }
        ensures open { IsOpenMiss self.now → IsCutShort result }
    {
        match self {
            Miss::Wrong(_) => SideVerdict::Wrong(number),
            Miss::Forged => SideVerdict::Forged(number),
            Miss::Unkept => SideVerdict::Unkept(number),
            Miss::Memory => SideVerdict::Memory,
        }
    }
}

// Ends the audit at the line of this number, since its answer is not taken.
pub(crate) fn miss<R: Source>(papers: &mut Papers<R>, number: u32, miss: Miss)
    ensures report { papers.new.report ≡ papers.old.report }
    ensures unstopped { (n : ℕ) → papers.new.verdict ≢ Verdict.Stopped n }
    ensures in_own { (n : ℕ) → papers.new.verdict ≢ Verdict.StoppedInOwn n }
    ensures open { IsOpenMiss miss → IsCutShort papers.new.verdict }
    ensures reach { papers.new.reach ≡ papers.old.reach }
    ensures line { papers.new.line ≡ papers.old.line }
{
    if let Miss::Wrong(due) = &miss {
        papers.due = write_reply(due);
    }
    papers.end(miss.verdict(number));
}

// Ends the audit at the event of the line of this number, where the report ends with these bytes.
fn stopped<R: Source>(
    alloc: Global,
    auditor: &mut Auditor,
    rates: &RatesLeft,
    papers: &mut Papers<R>,
    number: u32,
    event: &Event,
    prefix: &[u8],
)
    requires whole { IsWholeEvent event.now }
    requires ready { IsReady (audit_of auditor.old) }
    requires few { length (audit_of auditor.old).messages < MOST_MESSAGES }
    ensures ready { IsReady (audit_of auditor.new) }
    ensures few { length (audit_of auditor.new).messages ≤ length (audit_of auditor.old).messages + 1 }
    ensures kept { keeps (audit_of auditor.new) ≡ keeps (audit_of auditor.old) }
    ensures report { papers.new.report ≡ papers.old.report }
    ensures begun { (n : ℕ) → papers.new.verdict ≡ Verdict.Stopped n
        → IsBegunAt event.now prefix.now (left_of rates.now) (audit_of auditor.old) (audit_of auditor.new)
        × MayLeave event.now prefix.now (left_of rates.now) (audit_of auditor.old) (audit_of auditor.new) × (length prefix.now ≤ 256) }
    ensures in_own { (n : ℕ) → papers.new.verdict ≢ Verdict.StoppedInOwn n }
    ensures missed { EachReply event.now (left_of rates.now) (audit_of auditor.old) (λ text. IsPrefixOf prefix.now text)
        (IsCutShort papers.new.verdict ⊎ (length prefix.now ≤ 256)) }
    ensures stops { EachLeft event.now (left_of rates.now) prefix.now (audit_of auditor.old)
        (λ K. ((papers.new.verdict ≡ Verdict.Stopped number) × SeesBetween (audit_of auditor.new) K) ⊎ IsCutShort papers.new.verdict) }
    ensures number { (n : ℕ) → papers.new.verdict ≡ Verdict.Stopped n → n ≡ number }
    ensures reach { papers.new.reach ≡ papers.old.reach }
    ensures line { papers.new.line ≡ papers.old.line }
{
    histories();
    let open = open_in(event, due_mark(auditor, event), prefix);
    match take_prefix(alloc, auditor, rates, event, prefix) {
        Ok(()) => {
            papers.transcript.break_off(prefix);
            match keep(&mut papers.imprints, number, open) {
                Ok(()) => papers.end(SideVerdict::Stopped(number)),
                Err(_) => papers.end(SideVerdict::Memory),
            }
        }
        Err(why) => miss(papers, number, why),
    }
}

// Takes this line of the report for the answer to the event of the line of this number: its turn. None if the audit ends.
fn heard<T: Tell, R: Source>(
    alloc: Global,
    auditor: &mut Auditor,
    rates: &mut RatesLeft,
    papers: &mut Papers<R>,
    number: u32,
    event: &Event,
    line: &[u8],
) -> Option<T>
    requires whole { IsWholeEvent event.now }
    requires ready { IsReady (audit_of auditor.old) }
    requires few { length (audit_of auditor.old).messages < MOST_MESSAGES }
    ensures ready { IsReady (audit_of auditor.new) }
    ensures few { length (audit_of auditor.new).messages ≤ length (audit_of auditor.old).messages + 1 }
    ensures kept { keeps (audit_of auditor.new) ≡ keeps (audit_of auditor.old) }
    ensures report { papers.new.report ≡ papers.old.report }
    ensures takes { IfSome result (λ told. TakesLine T.IsOf told event.now line.now (audit_of auditor.old) (audit_of auditor.new)
        (left_of rates.old) (left_of rates.new)) }
    ensures unstopped { IfNone result ((n : ℕ) → papers.new.verdict ≢ Verdict.Stopped n) }
    ensures in_own { IfNone result ((n : ℕ) → papers.new.verdict ≢ Verdict.StoppedInOwn n) }
    ensures missed { IfNone result (EachReply event.now (left_of rates.old) (audit_of auditor.old) (λ text. text ≡ line.now)
        (IsCutShort papers.new.verdict)) }
    ensures reach { papers.new.reach ≡ papers.old.reach }
    ensures line { papers.new.line ≡ papers.old.line }
{
    let given = given_in(event, due_mark(auditor, event), line);
    match take(alloc, auditor, rates, event, line) {
        Err(why) => {
            miss(papers, number, why);
            None
        }
        Ok(told) => {
            papers.transcript.reply(line);
            papers.answers = papers.answers.saturating_add(1);
            if keep(&mut papers.imprints, number, given).is_err() {
                papers.end(SideVerdict::Memory);
                return None;
            }
            Some(told)
        }
    }
}

/// The answer that the report has for an event: its length, in bytes, and the turn.
#[derive(Drop)]
pub(crate) struct Answered<T> {
    pub len: u16,
    pub told: T,
}

// Reads the answer that the report has for the event of the line of this number into the buffer, and takes it. None if the audit ends.
pub(crate) fn answer<T: Tell, R: Source>(
    alloc: Global,
    auditor: &mut Auditor,
    rates: &mut RatesLeft,
    papers: &mut Papers<R>,
    number: u32,
    event: &Event,
    buf: &mut [u8; 600],
) -> Option<Answered<T>>
    requires whole { IsWholeEvent event.now }
    requires ready { IsReady (audit_of auditor.old) }
    requires few { length (audit_of auditor.old).messages < MOST_MESSAGES }
    ensures ready { IsReady (audit_of auditor.new) }
    ensures few { length (audit_of auditor.new).messages ≤ length (audit_of auditor.old).messages + 1 }
    ensures kept { keeps (audit_of auditor.new) ≡ keeps (audit_of auditor.old) }
    ensures heard { IfSome result (λ x. TakesLine T.IsOf x.told event.now (take x.len buf.new) (audit_of auditor.old) (audit_of auditor.new)
        (left_of rates.old) (left_of rates.new)
        × Consumes (⟦<ReadAhead<R> as Source>⟧.left papers.old.report) (⟦<ReadAhead<R> as Source>⟧.left papers.new.report)
        (ended (take x.len buf.new))) }
    ensures one { IfSome result (λ x. IsOneLine (take x.len buf.new)) }
    ensures begun { IfNone result ((n : ℕ) → papers.new.verdict ≡ Verdict.Stopped n
        → EndsWithin event.now (left_of rates.old) (audit_of auditor.old) (audit_of auditor.new)
        (⟦<ReadAhead<R> as Source>⟧.left papers.old.report) (⟦<ReadAhead<R> as Source>⟧.left papers.new.report)) }
    ensures in_own { IfNone result ((n : ℕ) → papers.new.verdict ≢ Verdict.StoppedInOwn n) }
    ensures missed { IfNone result (EachReply event.now (left_of rates.old) (audit_of auditor.old)
        (λ text. (told : List ℕ) × HasNext (⟦<ReadAhead<R> as Source>⟧.left papers.old.report) text told) (IsCutShort papers.new.verdict)) }
    ensures unstopped { IfSome result (λ x. (told : List ℕ) → ⟦<ReadAhead<R> as Source>⟧.left papers.old.report ≡ Some told
        → EachLeft event.now (left_of rates.old) told (audit_of auditor.old) (λ K. ⊥)) }
    ensures stops { IfNone result ((told : List ℕ) → ⟦<ReadAhead<R> as Source>⟧.left papers.old.report ≡ Some told
        → EachLeft event.now (left_of rates.old) told (audit_of auditor.old)
        (λ K. ((papers.new.verdict ≡ Verdict.Stopped number) × SeesBetween (audit_of auditor.new) K) ⊎ IsCutShort papers.new.verdict)) }
    ensures number { IfNone result ((n : ℕ) → papers.new.verdict ≡ Verdict.Stopped n → n ≡ number) }
    ensures reach { papers.new.reach ≡ papers.old.reach }
    ensures line { papers.new.line ≡ papers.old.line }
{
    match read_line(&mut papers.report, buf) {
        LineRead::Line(len, true) => {
            let line = &buf[..len as usize];
            match heard(alloc, auditor, rates, papers, number, event, line) {
                Some(told) => Some(Answered { len, told }),
                None => None,
            }
        }
        LineRead::Line(len, false) => {
            let prefix = &buf[..len as usize];
            stopped(alloc, auditor, rates, papers, number, event, prefix);
            None
        }
        LineRead::End => {
            stopped(alloc, auditor, rates, papers, number, event, &[]);
            None
        }
        LineRead::Long => {
            stopped(alloc, auditor, rates, papers, number, event, &buf[..]);
            None
        }
        LineRead::Fault => {
            papers.end(SideVerdict::Unread(Input::Report));
            None
        }
    }
}
