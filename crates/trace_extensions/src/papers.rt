//! What an audit reads beside the script of a run, and what it finds.
ghost use Rattle.std.specs.Prelude.{◌≡◌, ◌↔◌, IsTrue, Some, IfSome, IfNone};

use crate::transcript::Transcript;
use bench_base::stream::Source;
use script_text::Line;
use text_streams::ReadAhead;
use trace_runs::{Ending, Imprint, Input};

/// What an audit says of a run with lines of its own. Numbers are those of lines of the script, counted from 1.
#[derive(Clone, Copy)]
pub enum SideVerdict {
    /// Each line may have got the answer that the report has for it, and the report ends as the script does.
    Lawful(Ending),
    /// So far as for `Lawful`; but the report ends before the line end of the answer to this line.
    Stopped(u32),
    /// The same, of an own line of which it is in doubt what was done: the report has nothing of its answer, or a failure of a node begins so. What the
    /// reach says may have been done for it.
    StoppedInOwn(u32),
    /// The same, if no reach is given for the line: no later run is judged.
    InDoubt(u32),
    /// The reach says that nothing was begun of this line, but the report goes on there.
    PastReach(u32),
    /// The report has another answer to this line than those that it may get.
    Wrong(u32),
    /// The event of this line, or a step of an own line, has forged bytes.
    Forged(u32),
    /// It has bytes, and the auditor does not keep what was sent and released.
    Unkept(u32),
    /// The script ends so at this line, and the report goes on after that.
    More(u32, Ending),
    /// There was no memory.
    Memory,
    /// This failed to be read.
    Unread(Input),
}

/// How far a run came in a line of its own at which it was stopped.
#[derive(Clone, Copy)]
pub struct Reach {
    /// The line of the script, counted from 1.
    pub line: u32,
    /// How many steps of the line were done, each with the reply that was due; None if nothing of the line was begun. If it asks for one step more, it is
    /// in doubt whether that was done. If it asks for none, all was done.
    pub steps: Option<u32>,
}

/// The report of a run, and what was found in it.
#[derive(Drop)]
pub struct Papers<R: Source> {
    pub report: ReadAhead<R>,
    /// What the printer was given, of all runs so far.
    pub imprints: Vec<Imprint>,
    /// The line of the script that was judged last, counted from 1.
    pub line: u32,
    /// How many lines of the report were read.
    pub answers: u32,
    /// What is said if the audit ends before the script does.
    pub verdict: SideVerdict,
    /// The answer that was due there.
    pub due: Line,
    /// The events that were taken, if they are to be kept.
    pub transcript: Transcript,
    /// How far the run came in the line of its own at which it was stopped, if it is in doubt what was done for that line.
    pub reach: Option<Reach>,
    /// Whether it may have come further than that.
    pub may_reach_more: bool,
    /// Whether the audit ended at a line of its own: a stop is then one at that line.
    pub is_own_stop: bool,
}

impl<R: Source> Papers<R> {
    ghost use Rattle.trace_extensions.specs.Fits.{IsReachOf, IsUnbegun};
    ghost use Rattle.trace_extensions.specs.declared.papers.Reach.{Reach as TheReach};

    /// Of a report of which nothing was read.
    pub fn new(
        report: ReadAhead<R>,
        imprints: Vec<Imprint>,
        transcript: Transcript,
        reach: Option<Reach>,
    ) -> Papers<R>
        ensures { result.report ≡ report }
    {
        Papers {
            report,
            imprints,
            line: 0,
            answers: 0,
            verdict: SideVerdict::Memory,
            due: Line::new(),
            transcript,
            reach,
            may_reach_more: false,
            is_own_stop: false,
        }
    }

    // Whether nothing of the line of this number was begun.
    pub(crate) fn is_unbegun(&self, line: u32) -> bool
        ensures { IsTrue result ↔ IsUnbegun self.now.reach line }
    {
        match self.reach {
            Some(reach) => reach.line == line && reach.steps.is_none(),
            None => false,
        }
    }

    // How many steps of the line of this number were done, if it was begun.
    pub(crate) fn steps_in(&self, line: u32) -> Option<u32>
        ensures some { IfSome result (λ steps. (reach : TheReach) × (self.now.reach ≡ Some reach) × (reach.line ≡ line) × (reach.steps ≡ Some steps)) }
        ensures none { IfNone result (IsReachOf self.now.reach line → IsUnbegun self.now.reach line) }
    {
        match self.reach {
            Some(reach) if reach.line == line => reach.steps,
            _ => None,
        }
    }

    // Whether the report ended before the line end of an answer of which it is known what was done.
    pub(crate) fn has_stopped(&self) -> bool {
        matches!(self.verdict, SideVerdict::Stopped(_))
    }

    // Ends the audit with this verdict.
    pub(crate) fn end(&mut self, verdict: SideVerdict)
        ensures report { self.new.report ≡ self.old.report }
        ensures verdict { self.new.verdict ≡ verdict }
        ensures reach { self.new.reach ≡ self.old.reach }
        ensures line { self.new.line ≡ self.old.line }
    {
        self.verdict = verdict;
    }
}
