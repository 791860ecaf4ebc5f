//! The audit of one run with an extension.
ghost use Rattle.std.specs.Prelude.{◌≡◌, ◌≢◌, ◌⊎◌, ℕ, [], Some};
ghost use Rattle.std.specs.Io.KnownBytes.{Consumes, IsAtEnd};
ghost use Rattle.trace_bench.specs.Seeing.{IsReady, audit_of, keeps};
ghost use Rattle.trace_extensions.specs.Fits.{FitsIfLawful, LawfulIfFits, IsCutShort};
ghost use Rattle.trace_extensions.specs.FitsStopped.{FitsIfStopped, StoppedIfFits, StoppedInOwnIfFits};
ghost use Rattle.trace_extensions.specs.Sides.{MayHaveRun, MayHaveStopped};
ghost use Rattle.trace_extensions.specs.declared.papers.SideVerdict.{SideVerdict as Verdict};
ghost use Rattle.trace_runs.specs.Verdicts.{status_of};
ghost use Rattle.trace_runs.specs.declared.verdict.Ending.{Ending as TheEnding};

use crate::extension::TracedExtension;
use crate::handler::AtReport;
use crate::papers::{Papers, SideVerdict};
use crate::rates::RatesLeft;
use bench_base::memory::MemSink;
use bench_base::stream::Source;
use line_extensions::Extension;
use line_runs::lines::{LineRead, read_line};
use line_runs::run_lines;
use line_runs::status::{SideStatus, Status};
use std::alloc::Global;
use text_streams::ReadAhead;
use trace_bench::Auditor;
use trace_runs::{Ending, Input};

// What is said of a run with a script that ends so, by what is left of the report.
fn over<R: Source>(papers: &mut Papers<R>, end: Ending) -> SideVerdict
    ensures lawful { (e : TheEnding) → result ≡ Verdict.Lawful e → (e ≡ end) × IsAtEnd (⟦<ReadAhead<R> as Source>⟧.left papers.new.report)
        × Consumes (⟦<ReadAhead<R> as Source>⟧.left papers.old.report) (⟦<ReadAhead<R> as Source>⟧.left papers.new.report) [] }
    ensures unstopped { (n : ℕ) → result ≢ Verdict.Stopped n }
    ensures in_own { (n : ℕ) → result ≢ Verdict.StoppedInOwn n }
    ensures only { ⟦<ReadAhead<R> as Source>⟧.left papers.old.report ≡ Some [] → (result ≡ Verdict.Lawful end) ⊎ IsCutShort result }
{
    let mut buf = [0; 600];
    match read_line(&mut papers.report, &mut buf) {
        LineRead::End => SideVerdict::Lawful(end),
        LineRead::Line(_, _) => SideVerdict::More(papers.line, end),
        LineRead::Long => SideVerdict::More(papers.line, end),
        LineRead::Fault => SideVerdict::Unread(Input::Report),
    }
}

// The verdict of an audit that ended before its script: it is never lawful.
fn unlawful(verdict: SideVerdict) -> SideVerdict
    ensures unlawful { (e : TheEnding) → result ≢ Verdict.Lawful e }
    ensures stopped { (n : ℕ) → result ≡ Verdict.Stopped n → verdict ≡ Verdict.Stopped n }
    ensures in_own { (n : ℕ) → result ≡ Verdict.StoppedInOwn n → verdict ≡ Verdict.StoppedInOwn n }
    ensures only { (result ≡ verdict) ⊎ IsCutShort result }
{
    match verdict {
        SideVerdict::Lawful(_) => SideVerdict::Memory,
        other => other,
    }
}

/// Judges a run with an extension, over what the auditor has of the runs before and what the extension has.
///
/// If it is lawful, a bench and the extension may have written this report, from whatever history the auditor had, and the auditor sees what they leave.
/// It is lawful if and only if some run fits the script and the report, by the model of the extension, unless the verdict leaves that open: so a run that
/// is called wrong, forged or longer than its script is none. If it was stopped, the whole lines of the report may have been written so, and the
/// next line of the script begun: the auditor sees what that may leave, and the extension is as it found it. `InDoubt` says nothing of either.
///
/// If a run may have been stopped at the line of an event, it is called stopped, unless the verdict leaves that open; and the auditor sees what that
/// stop leaves. If one may have been stopped at an own line, as the reach says, it is called stopped, too, unless the audit ended early; if no reach is
/// given for the line, it may be called in doubt.
pub fn judge_side<S: Source, R: Source, D: TracedExtension>(
    alloc: Global,
    auditor: &mut Auditor,
    desk: &mut D,
    script: &mut ReadAhead<S>,
    rates: Vec<u8>,
    papers: &mut Papers<R>,
) -> SideVerdict
    requires ready { IsReady (audit_of auditor.old) }
    ensures ready { IsReady (audit_of auditor.new) }
    ensures kept { keeps (audit_of auditor.new) ≡ keeps (audit_of auditor.old) }
    ensures sound { (end : TheEnding) → result ≡ Verdict.Lawful end → MayHaveRun ⟦<D as Extension>⟧ (status_of end)
        (⟦<ReadAhead<S> as Source>⟧.left script.old) (⟦<ReadAhead<S> as Source>⟧.left script.new)
        (⟦<ReadAhead<R> as Source>⟧.left papers.old.report) (⟦<ReadAhead<R> as Source>⟧.left papers.new.report)
        rates.items desk.old desk.new (audit_of auditor.old) (audit_of auditor.new) }
    ensures stopped { (n : ℕ) → result ≡ Verdict.Stopped n → MayHaveStopped ⟦<D as Extension>⟧
        (⟦<ReadAhead<S> as Source>⟧.left script.old) (⟦<ReadAhead<S> as Source>⟧.left script.new)
        (⟦<ReadAhead<R> as Source>⟧.left papers.old.report) (⟦<ReadAhead<R> as Source>⟧.left papers.new.report)
        rates.items desk.old desk.new (audit_of auditor.old) (audit_of auditor.new) }
    ensures in_own { (n : ℕ) → result ≡ Verdict.StoppedInOwn n → MayHaveStopped ⟦<D as Extension>⟧
        (⟦<ReadAhead<S> as Source>⟧.left script.old) (⟦<ReadAhead<S> as Source>⟧.left script.new)
        (⟦<ReadAhead<R> as Source>⟧.left papers.old.report) (⟦<ReadAhead<R> as Source>⟧.left papers.new.report)
        rates.items desk.old desk.new (audit_of auditor.old) (audit_of auditor.new) }
    ensures fits { FitsIfLawful D.model (⟦<ReadAhead<S> as Source>⟧.left script.old) (⟦<ReadAhead<R> as Source>⟧.left papers.old.report) rates.items
        (D.view desk.old) (D.view desk.new) (audit_of auditor.old) (audit_of auditor.new) result }
    ensures complete { LawfulIfFits D.model (⟦<ReadAhead<S> as Source>⟧.left script.old) (⟦<ReadAhead<R> as Source>⟧.left papers.old.report) rates.items
        (D.view desk.old) (D.view desk.new) (audit_of auditor.old) (audit_of auditor.new) result papers.old.reach }
    ensures fits_stopped { FitsIfStopped D.model (⟦<ReadAhead<S> as Source>⟧.left script.old) (⟦<ReadAhead<R> as Source>⟧.left papers.old.report)
        rates.items (D.view desk.old) (D.view desk.new) (audit_of auditor.old) (audit_of auditor.new) result papers.old.reach }
    ensures stops { StoppedIfFits D.model (⟦<ReadAhead<S> as Source>⟧.left script.old) (⟦<ReadAhead<R> as Source>⟧.left papers.old.report) rates.items
        (D.view desk.old) (D.view desk.new) (audit_of auditor.old) (audit_of auditor.new) result papers.old.reach }
    ensures own_stops { StoppedInOwnIfFits D.model (⟦<ReadAhead<S> as Source>⟧.left script.old) (⟦<ReadAhead<R> as Source>⟧.left papers.old.report)
        rates.items (D.view desk.old) (D.view desk.new) (audit_of auditor.old) (audit_of auditor.new) result papers.old.reach }
{
    D::laws();
    auditor.begin();
    papers.line = 0;
    let mut left = RatesLeft::new(rates);
    let mut nothing = MemSink::new(Vec::new(alloc), Vec::new(alloc), Vec::new(alloc));
    match run_lines::<AtReport<R, D>, ReadAhead<S>, MemSink>(
        alloc,
        script,
        desk,
        auditor,
        &mut left,
        papers,
        &mut nothing,
    ) {
        SideStatus::Run(Status::Done) => over(papers, Ending::Done),
        SideStatus::Run(Status::Script(line)) => {
            papers.line = line;
            over(papers, Ending::Script(line))
        }
        SideStatus::Run(Status::TooLong) => over(papers, Ending::TooLong),
        SideStatus::Run(Status::ReadFault) => SideVerdict::Unread(Input::Script),
        SideStatus::Run(Status::Words | Status::WriteFault | Status::Memory) => SideVerdict::Memory,
        SideStatus::Stopped => unlawful(papers.verdict),
    }
}
