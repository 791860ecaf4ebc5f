//! A run is judged: what is said of it, by the bytes that were judged.
ghost use Rattle.trace_bench.specs.Seeing.{IsReady, audit_of};

use crate::tails::{Lines, Tail, last_taken, lines_over};
use audit_words::shown;
use line_runs::lines::LineRead;
use script_text::{Line, put_reply};
use std::alloc::{AllocError, Global};
use std::cell::RefCell;
use std::io::Read;
use std::mem;
use trace_bench::Auditor;
use trace_extensions::{
    Papers as SidePapers, Reach, SideVerdict, TracedExtension, Transcript, judge_side,
};
use trace_runs::{Ending, Imprint, Input, Judgment, Verdict, judge_next, read_line};

/// What came of a run. Numbers are those of lines of its script.
#[derive(Clone, Copy)]
pub enum Outcome {
    Lawful(Ending),
    Stopped(u32),
    /// Stopped at a line of its own, with what was done for it in doubt.
    StoppedInOwn(u32),
    Wrong(u32),
    Forged(u32),
    /// An event contains bytes, and what was sent and released is not kept.
    Unkept(u32),
    More(u32, Ending),
    Unread(Input),
    Memory,
}

/// What is read of a run.
#[derive(Drop)]
pub struct Papers<S: Read + Drop, R: Read + Drop> {
    pub script: S,
    pub report: R,
    pub rates: Vec<u8>,
    /// How far it came in the line of its own at which it was stopped, if that is in doubt.
    pub reach: Option<Reach>,
}

/// What is said of a run.
#[derive(Drop)]
pub struct Judged {
    pub outcome: Outcome,
    /// Whether it was stopped at a line of its own.
    pub is_own_stop: bool,
    /// Whether it may have come further in that line than was taken.
    pub may_reach_more: bool,
    /// How the script ended, if the run came to its end.
    pub ending: Ending,
    /// How many lines the report has, if the run is lawful.
    pub answers: u32,
    /// Whether the report has no byte.
    pub is_empty: bool,
    /// The line of the script that was judged last, the answer that was due to it, and what the report has there, as they are shown.
    pub script: String,
    pub due: String,
    pub found: String,
}

/// What a judgment says, with the line of the answer that was due.
#[derive(Drop)]
struct Summary {
    outcome: Outcome,
    is_own_stop: bool,
    may_reach_more: bool,
    answers: u32,
    due: Line,
}

// What the judgment says.
fn summary_of(judgment: &Judgment) -> Summary {
    let mut due = Line::new();
    let outcome = match &judgment.verdict {
        Verdict::Lawful(ending) => Outcome::Lawful(*ending),
        Verdict::Stopped(line) => Outcome::Stopped(*line),
        Verdict::Wrong(line, reply) => {
            put_reply(&mut due, reply);
            Outcome::Wrong(*line)
        }
        Verdict::Forged(line) => Outcome::Forged(*line),
        Verdict::Unkept(line) => Outcome::Unkept(*line),
        Verdict::More(line, ending) => Outcome::More(*line, *ending),
        Verdict::Memory => Outcome::Memory,
        Verdict::Unread(input, _) => Outcome::Unread(*input),
    };
    Summary {
        outcome,
        is_own_stop: false,
        may_reach_more: false,
        answers: judgment.answers,
        due,
    }
}

// What the verdict on a run with lines of its own says.
fn outcome_of(verdict: SideVerdict) -> Outcome {
    match verdict {
        SideVerdict::Lawful(ending) => Outcome::Lawful(ending),
        SideVerdict::Stopped(line) => Outcome::Stopped(line),
        SideVerdict::StoppedInOwn(line) | SideVerdict::InDoubt(line) => Outcome::StoppedInOwn(line),
        SideVerdict::Wrong(line) | SideVerdict::PastReach(line) => Outcome::Wrong(line),
        SideVerdict::Forged(line) => Outcome::Forged(line),
        SideVerdict::Unkept(line) => Outcome::Unkept(line),
        SideVerdict::More(line, ending) => Outcome::More(line, ending),
        SideVerdict::Memory => Outcome::Memory,
        SideVerdict::Unread(input) => Outcome::Unread(input),
    }
}

// How the script ended, if it did.
fn ending_of(outcome: Outcome) -> Ending {
    match outcome {
        Outcome::Lawful(ending) | Outcome::More(_, ending) => ending,
        Outcome::Stopped(_)
        | Outcome::StoppedInOwn(_)
        | Outcome::Wrong(_)
        | Outcome::Forged(_)
        | Outcome::Unkept(_)
        | Outcome::Unread(_)
        | Outcome::Memory => Ending::Done,
    }
}

// What the report has for the line that was judged last. What it has for one with forged bytes was not read yet.
fn found_in<R: Read>(
    alloc: Global,
    outcome: Outcome,
    report: &mut Lines<'_, R>,
    tail: &RefCell<Tail>,
) -> Result<Vec<u8>, AllocError> {
    if let Outcome::Forged(_) = outcome {
        let mut line = [0; 600];
        match read_line(report, &mut line) {
            LineRead::Line(_, _) | LineRead::Long => {}
            LineRead::End | LineRead::Fault => return Ok(Vec::new(alloc)),
        }
    }
    last_taken(alloc, report, tail)
}

// Whether the reader gave nothing.
fn gave_nothing(tail: &RefCell<Tail>) -> bool {
    match tail.try_borrow() {
        Ok(tail) => tail.is_empty(),
        Err(_) => false,
    }
}

// What is said of a run, with the line of its script that was judged last and what its report has there.
fn judged_so(
    alloc: Global,
    summary: &Summary,
    is_empty: bool,
    line: &[u8],
    found: &[u8],
) -> Result<Judged, AllocError> {
    Ok(Judged {
        outcome: summary.outcome,
        is_own_stop: summary.is_own_stop,
        may_reach_more: summary.may_reach_more,
        ending: ending_of(summary.outcome),
        answers: summary.answers,
        is_empty,
        script: shown(alloc, line)?,
        due: shown(alloc, summary.due.as_slice())?,
        found: shown(alloc, found)?,
    })
}

/// Judges the next run, of events alone, over what the auditor has of the runs before. Its papers are read once: the imprints are added to those of the
/// runs before. AllocError is lack of memory beside that of the verdict.
pub fn judge_over<S: Read + Drop, R: Read + Drop>(
    alloc: Global,
    auditor: &mut Auditor,
    papers: Papers<S, R>,
    imprints: &mut Vec<Imprint>,
) -> Result<Judged, AllocError>
    requires ready { IsReady (audit_of auditor.old) }
    ensures ready { IsReady (audit_of auditor.new) }
{
    let Papers {
        script,
        report,
        rates,
        reach: _,
    } = papers;
    let script_tail = RefCell::new(Tail::new(alloc)?);
    let report_tail = RefCell::new(Tail::new(alloc)?);
    let mut script = lines_over(alloc, script, &script_tail)?;
    let mut report = lines_over(alloc, report, &report_tail)?;
    let summary = summary_of(&judge_next(
        alloc,
        auditor,
        &mut script,
        &mut report,
        rates.as_slice(),
        imprints,
    ));
    let found = found_in(alloc, summary.outcome, &mut report, &report_tail)?;
    let line = last_taken(alloc, &mut script, &script_tail)?;
    judged_so(
        alloc,
        &summary,
        gave_nothing(&report_tail),
        line.as_slice(),
        found.as_slice(),
    )
}

/// Judges the next run, which has lines of its own, beside the desk whose lines they are, and writes what was done at the bench to the transcript.
/// Otherwise as `judge_over`.
pub fn judge_beside<S: Read + Drop, R: Read + Drop, D: TracedExtension>(
    alloc: Global,
    auditor: &mut Auditor,
    desk: &mut D,
    papers: Papers<S, R>,
    imprints: &mut Vec<Imprint>,
    transcript: &mut Transcript,
) -> Result<Judged, AllocError>
    requires ready { IsReady (audit_of auditor.old) }
    ensures ready { IsReady (audit_of auditor.new) }
{
    let Papers {
        script,
        report,
        rates,
        reach,
    } = papers;
    let script_tail = RefCell::new(Tail::new(alloc)?);
    let report_tail = RefCell::new(Tail::new(alloc)?);
    let mut script = lines_over(alloc, script, &script_tail)?;
    let report = lines_over(alloc, report, &report_tail)?;
    let mut side = SidePapers::new(
        report,
        mem::replace(imprints, Vec::new(alloc)),
        mem::replace(transcript, Transcript::new(alloc, false)),
        reach,
    );
    let verdict = judge_side(alloc, auditor, desk, &mut script, rates, &mut side);
    let SidePapers {
        report,
        imprints: given,
        line: _,
        answers,
        verdict: _,
        due,
        transcript: written,
        reach: _,
        may_reach_more,
        is_own_stop,
    } = side;
    if written.has_failed {
        return Err(AllocError);
    }
    *imprints = given;
    *transcript = written;
    let mut report = report;
    let summary = Summary {
        outcome: outcome_of(verdict),
        is_own_stop,
        may_reach_more,
        answers,
        due,
    };
    let found = last_taken(alloc, &mut report, &report_tail)?;
    let line = last_taken(alloc, &mut script, &script_tail)?;
    judged_so(
        alloc,
        &summary,
        gave_nothing(&report_tail),
        line.as_slice(),
        found.as_slice(),
    )
}
