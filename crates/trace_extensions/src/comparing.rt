//! The answer of an extension beside the lines of the report.
ghost use Rattle.std.specs.Prelude.{◌≡◌, ◌≢◌, ◌⊎◌, ◌++◌, ◌≤◌, ℕ, List, ◌∷◌, Some, true, false, drop, flat_map, length, take, MatchBool};
ghost use Rattle.std.specs.List.{AllByRecursion};
ghost use Rattle.std.specs.Io.KnownBytes.{Consumes, IsAtEnd};
ghost use Rattle.trace_bench.specs.Stopping.{IsPrefixOf};
ghost use Rattle.trace_extensions.specs.declared.papers.SideVerdict.{SideVerdict as Verdict};
ghost use Rattle.line_runs.specs.Lines.{ended};
ghost use Rattle.trace_extensions.specs.Exact.{HasNext, IsCalledStopped};
ghost use Rattle.trace_extensions.specs.Fits.{IsCutShort, IsText};
ghost use Rattle.trace_extensions.specs.FitsStopped.{IsCutOf};

use crate::papers::{Papers, SideVerdict};
use bench_base::stream::Source;
use line_extensions::Extension;
use line_runs::lines::{LineRead, read_line};
use script_text::Line;
use std::alloc::Global;
use text_streams::ReadAhead;
use trace_runs::Input;

// How a line of the report compares with a text.
#[derive(Clone, Copy, PartialEq, Eq)]
enum Compared {
    Same,
    Other,
    /// The report ends within it.
    Open,
    Fault,
}

// Reads a line of the report, and compares it with this text.
fn compare_next<R: Source>(papers: &mut Papers<R>, text: &[u8]) -> Compared
    ensures same { result ≡ Compared.Same → Consumes (⟦<ReadAhead<R> as Source>⟧.left papers.old.report)
        (⟦<ReadAhead<R> as Source>⟧.left papers.new.report) (ended text.now) }
    ensures open { result ≡ Compared.Open → (part : List ℕ) × IsPrefixOf part text.now × IsText part
        × Consumes (⟦<ReadAhead<R> as Source>⟧.left papers.old.report) (⟦<ReadAhead<R> as Source>⟧.left papers.new.report) part
        × IsAtEnd (⟦<ReadAhead<R> as Source>⟧.left papers.new.report) }
    ensures only { (told : List ℕ) → IsText text.now → HasNext (⟦<ReadAhead<R> as Source>⟧.left papers.old.report) text.now told
        → ((result ≡ Compared.Same) × (⟦<ReadAhead<R> as Source>⟧.left papers.new.report ≡ Some told)) ⊎ (result ≡ Compared.Fault) }
    ensures stops { (told : List ℕ) → IsText told → ⟦<ReadAhead<R> as Source>⟧.left papers.old.report ≡ Some told → IsPrefixOf told text.now
        → (result ≡ Compared.Open) ⊎ (result ≡ Compared.Fault) }
    ensures text { result ≡ Compared.Same → IsText text.now }
    ensures reach { papers.new.reach ≡ papers.old.reach }
    ensures line { papers.new.line ≡ papers.old.line }
{
    let mut buf = [0; 600];
    match read_line(&mut papers.report, &mut buf) {
        LineRead::Line(len, true) => {
            papers.answers = papers.answers.saturating_add(1);
            if &buf[..len as usize] == text {
                Compared::Same
            } else {
                Compared::Other
            }
        }
        LineRead::Line(len, false) => {
            if text.starts_with(&buf[..len as usize]) {
                Compared::Open
            } else {
                Compared::Other
            }
        }
        LineRead::End => Compared::Open,
        LineRead::Long => Compared::Other,
        LineRead::Fault => Compared::Fault,
    }
}

// Ends the audit if a line of the report is not the text that is due: whether it is.
fn is_same<R: Source>(number: u32, papers: &mut Papers<R>, text: Line, compared: Compared) -> bool
    ensures same { result ≡ true → compared ≡ Compared.Same }
    ensures open { result ≡ false → (n : ℕ) → papers.new.verdict ≡ Verdict.Stopped n → compared ≡ Compared.Open }
    ensures in_own { result ≡ false → (n : ℕ) → papers.new.verdict ≢ Verdict.StoppedInOwn n }
    ensures report { papers.new.report ≡ papers.old.report }
    ensures fault { compared ≡ Compared.Fault → MatchBool result ⊥ (IsCutShort papers.new.verdict) }
    ensures goes_on { compared ≡ Compared.Same → result ≡ true }
    ensures stops { compared ≡ Compared.Open → (result ≡ false) × (papers.new.verdict ≡ Verdict.Stopped number) }
    ensures number { result ≡ false → (n : ℕ) → papers.new.verdict ≡ Verdict.Stopped n → n ≡ number }
    ensures reach { papers.new.reach ≡ papers.old.reach }
    ensures line { papers.new.line ≡ papers.old.line }
{
    match compared {
        Compared::Same => return true,
        Compared::Other => {
            papers.due = text;
            papers.end(SideVerdict::Wrong(number));
        }
        // All was done: the answer is begun.
        Compared::Open => papers.end(SideVerdict::Stopped(number)),
        Compared::Fault => papers.end(SideVerdict::Unread(Input::Report)),
    }
    false
}

// Compares the texts of the extension's answer after the first with the lines of the report: whether they are the same.
fn rest_fits<D: Extension, R: Source>(number: u32, desk: &D, papers: &mut Papers<R>) -> bool
    requires some { 1 ≤ length (D.texts desk.now) }
    ensures fits { result ≡ true → (rest : List ℕ) × (flat_map ended (D.texts desk.now) ≡ flat_map ended (take 1 (D.texts desk.now)) ++ rest)
        × Consumes (⟦<ReadAhead<R> as Source>⟧.left papers.old.report) (⟦<ReadAhead<R> as Source>⟧.left papers.new.report) rest }
    ensures open { result ≡ false → (n : ℕ) → papers.new.verdict ≡ Verdict.Stopped n → (rest : List ℕ)
        × IsCutOf rest (drop 1 (D.texts desk.now))
        × Consumes (⟦<ReadAhead<R> as Source>⟧.left papers.old.report) (⟦<ReadAhead<R> as Source>⟧.left papers.new.report) rest
        × IsAtEnd (⟦<ReadAhead<R> as Source>⟧.left papers.new.report) }
    ensures in_own { result ≡ false → (n : ℕ) → papers.new.verdict ≢ Verdict.StoppedInOwn n }
    ensures only { (first : List ℕ) (more : List (List ℕ)) (told : List ℕ) → D.texts desk.now ≡ first ∷ more → AllByRecursion IsText more
        → ⟦<ReadAhead<R> as Source>⟧.left papers.old.report ≡ Some (flat_map ended more ++ told)
        → MatchBool result (⟦<ReadAhead<R> as Source>⟧.left papers.new.report ≡ Some told) (IsCutShort papers.new.verdict) }
    ensures stops { (first : List ℕ) (more : List (List ℕ)) (told : List ℕ) → D.texts desk.now ≡ first ∷ more → IsCutOf told more
        → ⟦<ReadAhead<R> as Source>⟧.left papers.old.report ≡ Some told → MatchBool result ⊥ (IsCalledStopped number papers.new.verdict) }
    ensures texts { result ≡ true → (first : List ℕ) (more : List (List ℕ)) → D.texts desk.now ≡ first ∷ more → AllByRecursion IsText more }
    ensures number { result ≡ false → (n : ℕ) → papers.new.verdict ≡ Verdict.Stopped n → n ≡ number }
    ensures reach { papers.new.reach ≡ papers.old.reach }
    ensures line { papers.new.line ≡ papers.old.line }
{
    for at in 1..desk.count() {
        let mut text = Line::new();
        desk.put(at, &mut text);
        let compared = compare_next(papers, text.as_slice());
        if !is_same(number, papers, text, compared) {
            return false;
        }
    }
    true
}

// Compares the extension's answer with this line, which was read of the report, and those after it: whether they are the same.
pub(crate) fn answer_fits<D: Extension, R: Source>(
    number: u32,
    desk: &D,
    first: &[u8],
    papers: &mut Papers<R>,
) -> bool
    ensures fits { result ≡ true → (rest : List ℕ) × (flat_map ended (D.texts desk.now) ≡ ended first.now ++ rest)
        × Consumes (⟦<ReadAhead<R> as Source>⟧.left papers.old.report) (⟦<ReadAhead<R> as Source>⟧.left papers.new.report) rest }
    ensures open { result ≡ false → (n : ℕ) → papers.new.verdict ≡ Verdict.Stopped n → IsText first.now → (rest : List ℕ)
        × IsCutOf (ended first.now ++ rest) (D.texts desk.now)
        × Consumes (⟦<ReadAhead<R> as Source>⟧.left papers.old.report) (⟦<ReadAhead<R> as Source>⟧.left papers.new.report) rest
        × IsAtEnd (⟦<ReadAhead<R> as Source>⟧.left papers.new.report) }
    ensures in_own { result ≡ false → (n : ℕ) → papers.new.verdict ≢ Verdict.StoppedInOwn n }
    ensures only { (more : List (List ℕ)) (told : List ℕ) → D.texts desk.now ≡ first.now ∷ more → AllByRecursion IsText more
        → ⟦<ReadAhead<R> as Source>⟧.left papers.old.report ≡ Some (flat_map ended more ++ told)
        → MatchBool result (⟦<ReadAhead<R> as Source>⟧.left papers.new.report ≡ Some told) (IsCutShort papers.new.verdict) }
    ensures stops { (more : List (List ℕ)) (told : List ℕ) → D.texts desk.now ≡ first.now ∷ more → IsCutOf told more
        → ⟦<ReadAhead<R> as Source>⟧.left papers.old.report ≡ Some told → MatchBool result ⊥ (IsCalledStopped number papers.new.verdict) }
    ensures texts { result ≡ true → IsText first.now → AllByRecursion IsText (D.texts desk.now) }
    ensures number { result ≡ false → (n : ℕ) → papers.new.verdict ≡ Verdict.Stopped n → n ≡ number }
    ensures reach { papers.new.reach ≡ papers.old.reach }
    ensures line { papers.new.line ≡ papers.old.line }
{
    if desk.count() == 0 {
        papers.end(SideVerdict::Wrong(number));
        return false;
    }
    let mut text = Line::new();
    desk.put(0, &mut text);
    if text.as_slice() != first {
        papers.due = text;
        papers.end(SideVerdict::Wrong(number));
        return false;
    }
    rest_fits(number, desk, papers)
}

// Whether the first text of its answer begins so.
pub(crate) fn says<D: Extension>(desk: &D, front: &[u8]) -> bool
    ensures cut { result ≡ true → IsText front.now → IsCutOf front.now (D.texts desk.now) }
    ensures never { result ≡ false → (text : List ℕ) (more : List (List ℕ)) → D.texts desk.now ≡ text ∷ more → IsPrefixOf front.now text → ⊥ }
{
    if desk.count() == 0 {
        return false;
    }
    let mut text = Line::new();
    desk.put(0, &mut text);
    text.as_slice().starts_with(front)
}

// Ends the audit at an own line of this number, of which all was done, if its answer begins with this prefix, with which the report ends: with this
// verdict.
pub(crate) fn answer_begins<D: Extension, R: Source>(
    alloc: Global,
    number: u32,
    desk: &D,
    prefix: &[u8],
    verdict: SideVerdict,
    papers: &mut Papers<R>,
)
    ensures report { papers.new.report ≡ papers.old.report }
    ensures stopped { (n : ℕ) → papers.new.verdict ≡ Verdict.Stopped n
        → (verdict ≡ Verdict.Stopped n) × (IsText prefix.now → IsCutOf prefix.now (D.texts desk.now)) }
    ensures in_own { (n : ℕ) → papers.new.verdict ≡ Verdict.StoppedInOwn n
        → (verdict ≡ Verdict.StoppedInOwn n) × (IsText prefix.now → IsCutOf prefix.now (D.texts desk.now)) }
    ensures begins { (text : List ℕ) (more : List (List ℕ)) → D.texts desk.now ≡ text ∷ more → IsPrefixOf prefix.now text
        → papers.new.verdict ≡ verdict }
    ensures reach { papers.new.reach ≡ papers.old.reach }
    ensures line { papers.new.line ≡ papers.old.line }
{
    if desk.count() == 0 {
        return papers.end(SideVerdict::Wrong(number));
    }
    let mut text = Line::new();
    desk.put(0, &mut text);
    if text.as_slice().starts_with(prefix) {
        papers.transcript.answered(alloc, desk);
        papers.end(verdict);
    } else {
        papers.due = text;
        papers.end(SideVerdict::Wrong(number));
    }
}
