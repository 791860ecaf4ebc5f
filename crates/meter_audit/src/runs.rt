//! Runs are judged in order, up to the first finding, and gone over once more if that is asked for.
ghost use Rattle.trace_bench.specs.Seeing.{IsReady, audit_of};

use crate::desks::{Desks, judge_read, judge_run};
use crate::digest::{NO_RUNS, Sum, digest_with};
use crate::faults::{Fault, or_book, or_memory, or_write};
use crate::files::{changed, open_of, rates_of, unknown, unusable_of, whole_run};
use crate::judging::{Judged, Outcome, Papers, judge_over};
use crate::page::{keep_run, run_finding};
use crate::plan::{Plan, is_counted, takes_output};
use crate::reaches::Reaches;
use crate::verdicts::{FINDING, is_finding, is_own_doubt, is_undecided, stopped_at, verdict_text};
use crate::words::Word;
use audit_facts::{PrintsFinding, RunFinding};
use audit_recount::{Recount, Run, put_due};
use audit_words::{Asked, shown_text};
use bench_base::numbers::DayNo;
use bench_base::stream::IoSink;
use std::alloc::Global;
use std::io;
use trace_bench::Auditor;
use trace_extensions::Reach;
use trace_runs::{Imprint, Input};

/// What was gathered over the runs.
#[derive(Drop)]
pub struct Gathered {
    pub desks: Desks,
    /// How far the lines of their own were done at which runs were stopped.
    pub reaches: Reaches,
    /// For each run, how many imprints there are up to its end.
    pub ends: Vec<usize>,
    /// For each run that is gone over once more, the digest up to it.
    pub digests: Vec<Sum>,
    /// The last day that was reported.
    pub day: Option<DayNo>,
    /// Whether a script or a report left something undecided.
    is_undecided: bool,
    /// For a page: what was found in a run, and what is said of prints.
    pub finding: Option<RunFinding>,
    pub prints: Option<PrintsFinding>,
    /// Whether it is in doubt what the last run did for a line of its own.
    is_own_doubt: bool,
    /// Whether nothing more can be judged after that.
    is_end: bool,
}

impl Gathered {
    /// Before the first run.
    pub fn new(alloc: Global, reaches: Reaches) -> Gathered {
        Gathered {
            desks: Desks::new(alloc),
            reaches,
            ends: Vec::new(alloc),
            digests: Vec::new(alloc),
            day: None,
            is_undecided: false,
            finding: None,
            prints: None,
            is_own_doubt: false,
            is_end: false,
        }
    }
}

/// Prints a verdict: on standard error if the journal goes to standard output. Standard error may take no line; the exit status says the same.
pub fn say(rt: &HostRuntime, asked: Asked, text: &str) -> Result<(), Fault> {
    if takes_output(asked) {
        let _ = eprintln!(rt; "{text}");
        return Ok(());
    }
    or_write(println!(rt; "{text}"))
}

/// Prints a finding: its exit status, which is the same if it can't be printed.
pub fn say_finding(rt: &HostRuntime, asked: Asked, text: &str) -> u8 {
    if let Err(fault) = say(rt, asked, text) {
        let _ = eprintln!(rt; "{fault}");
    }
    FINDING
}

// Prints the verdict on a run: its exit status.
fn tell(rt: &HostRuntime, plan: &Plan, name: &str, judged: &Judged) -> Result<u8, Fault> {
    match judged.outcome {
        Outcome::Memory => return Err(Fault::Memory),
        // If bytes were expected, all that was sent is kept, but for what came before a start.
        Outcome::Unkept(line) if plan.has_bytes => return Err(unknown(rt, name, line)),
        Outcome::Unkept(_) => return Err(changed(rt, name)),
        Outcome::Unread(Input::Script) => return Err(unusable_of(rt, name, ".script")),
        Outcome::Unread(Input::Report) => return Err(unusable_of(rt, name, ".report")),
        Outcome::Lawful(_)
        | Outcome::Stopped(_)
        | Outcome::StoppedInOwn(_)
        | Outcome::Wrong(_)
        | Outcome::Forged(_)
        | Outcome::More(_, _) => {}
    }
    let name = or_memory(shown_text(rt.alloc(), name))?;
    let text = or_memory(verdict_text(rt.alloc(), name.as_str(), judged))?;
    if is_finding(judged) {
        return Ok(say_finding(rt, plan.asked, text.as_str()));
    }
    say(rt, plan.asked, text.as_str())?;
    Ok(0)
}

// Judges a run that is gone over once more, of events alone.
fn judge_whole(
    alloc: Global,
    auditor: &mut Auditor,
    run: &Run,
    imprints: &mut Vec<Imprint>,
) -> Result<Judged, Fault>
    requires ready { IsReady (audit_of auditor.old) }
    ensures ready { IsReady (audit_of auditor.new) }
{
    let papers = Papers {
        script: run.script.as_slice(),
        report: run.report.as_slice(),
        rates: or_memory(run.rates.clone())?,
        reach: None,
    };
    or_memory(judge_over(alloc, auditor, papers, imprints))
}

// Goes over a run for what was due: of the last one, which has to be one that was stopped, that is printed; the others are judged once more.
fn tell_due(
    rt: &HostRuntime,
    plan: &Plan,
    auditor: &mut Auditor,
    place: usize,
    run: &Run,
    stopped: Option<u32>,
) -> Result<(), Fault>
    requires ready { IsReady (audit_of auditor.old) }
    ensures ready { IsReady (audit_of auditor.new) }
{
    if place.saturating_add(1) < plan.names.len() {
        let mut imprints = Vec::new(rt.alloc());
        judge_whole(rt.alloc(), auditor, run, &mut imprints)?;
        return Ok(());
    }
    if stopped.is_none() {
        let name = match plan.names.last() {
            Some(name) => name.as_str(),
            None => "",
        };
        return Err(Fault::Unstopped(or_memory(shown_text(rt.alloc(), name))?));
    }
    let mut output = IoSink::new(io::writer(rt));
    or_book(put_due(rt.alloc(), auditor, run, &mut output))
}

// Goes once more over a run without a finding.
fn count(
    rt: &HostRuntime,
    plan: &Plan,
    clerk: &mut Recount,
    place: usize,
    run: &Run,
    stopped: Option<u32>,
) -> Result<(), Fault>
    requires ready { IsReady (audit_of clerk.old.auditor) }
    ensures ready { IsReady (audit_of clerk.new.auditor) }
{
    match plan.asked {
        Asked::Due => tell_due(rt, plan, &mut clerk.auditor, place, run, stopped),
        Asked::Nothing
        | Asked::Table
        | Asked::Page
        | Asked::Html
        | Asked::Csv
        | Asked::Json
        | Asked::Ledger => or_book(clerk.go_over(rt, plan.names.as_slice(), place, run, stopped)),
    }
}

impl Gathered {
    // Gathers what the run of this place left.
    fn gather(&mut self, place: usize, judged: &Judged, day: Option<DayNo>) -> Result<(), Fault> {
        self.day = day.or(self.day);
        self.is_undecided = self.is_undecided || is_undecided(judged);
        self.is_own_doubt = is_own_doubt(judged);
        self.is_end = self.is_own_doubt && self.reaches.of(place).is_none();
        or_memory(self.ends.push(self.desks.imprints.len()))
    }

    /// Whether the runs left something undecided, beside a commit in doubt.
    pub fn is_undecided(&self) -> bool {
        self.is_undecided || self.is_own_doubt || self.reaches.is_undecided
    }

    // Gathers the digest up to a run.
    fn digest(&mut self, run: &Run) -> Result<(), Fault> {
        let before = self.digests.last().copied().unwrap_or(NO_RUNS);
        or_memory(self.digests.push(digest_with(&before, run)))
    }
}

// Goes once more over a run with lines of its own, by what it did at the bench.
fn count_told(
    rt: &HostRuntime,
    plan: &Plan,
    clerk: &mut Recount,
    gathered: &mut Gathered,
    place: usize,
    run: &Run,
    judged: &Judged,
) -> Result<(), Fault>
    requires ready { IsReady (audit_of clerk.old.auditor) }
    ensures ready { IsReady (audit_of clerk.new.auditor) }
{
    let rates = or_memory(run.rates.clone())?;
    let told = or_memory(gathered.desks.told_run(rt.alloc(), rates))?;
    let stopped = stopped_at(judged);
    count(rt, plan, clerk, place, &told, stopped)?;
    match stopped {
        Some(line) if judged.is_own_stop => {
            let is_last = place.saturating_add(1) == plan.names.len();
            or_book(clerk.stop_at(place, line, is_last && is_own_doubt(judged)))
        }
        _ => Ok(()),
    }
}

// Goes once more over a run of this word without a finding.
fn count_run(
    rt: &HostRuntime,
    plan: &Plan,
    clerk: &mut Recount,
    gathered: &mut Gathered,
    place: usize,
    word: Word,
    run: &Run,
    judged: &Judged,
) -> Result<(), Fault>
    requires ready { IsReady (audit_of clerk.old.auditor) }
    ensures ready { IsReady (audit_of clerk.new.auditor) }
{
    match word {
        Word::Replay => count(rt, plan, clerk, place, run, stopped_at(judged)),
        Word::Claims | Word::Departments | Word::Manifest | Word::Statement => {
            count_told(rt, plan, clerk, gathered, place, run, judged)
        }
    }
}

// Judges a run by its files, which are read once, line by line. Its rates are those of every run, if there are such.
fn judge_files(
    rt: &HostRuntime,
    plan: &Plan,
    auditor: &mut Auditor,
    gathered: &mut Gathered,
    name: &str,
    word: Word,
    reach: Option<Reach>,
) -> Result<Judged, Fault>
    requires ready { IsReady (audit_of auditor.old) }
    ensures ready { IsReady (audit_of auditor.new) }
{
    let papers = Papers {
        script: open_of(rt, name, ".script")?,
        report: open_of(rt, name, ".report")?,
        rates: rates_of(rt, name, &plan.rates)?,
        reach,
    };
    judge_run(rt.alloc(), auditor, word, papers, &mut gathered.desks)
}

// Judges the run of this name, and prints the verdict: its exit status.
fn judge_next(
    rt: &HostRuntime,
    plan: &Plan,
    auditor: &mut Auditor,
    clerk: &mut Recount,
    gathered: &mut Gathered,
    place: usize,
    name: &str,
    word: Word,
) -> Result<u8, Fault>
    requires ready { IsReady (audit_of auditor.old) }
    requires ready_clerk { IsReady (audit_of clerk.old.auditor) }
    ensures ready { IsReady (audit_of auditor.new) }
    ensures ready_clerk { IsReady (audit_of clerk.new.auditor) }
{
    let reach = gathered.reaches.of(place);
    if !is_counted(plan.asked) {
        let judged = judge_files(rt, plan, auditor, gathered, name, word, reach)?;
        gathered.gather(place, &judged, auditor.day())?;
        return tell(rt, plan, name, &judged);
    }
    let run = whole_run(rt, name, &plan.rates)?;
    let judged = judge_read(rt.alloc(), auditor, word, &run, reach, &mut gathered.desks)?;
    gathered.gather(place, &judged, auditor.day())?;
    let code = tell(rt, plan, name, &judged)?;
    if code != 0 {
        gathered.finding = run_finding(rt.alloc(), &judged, place, auditor.day(), run);
        return Ok(code);
    }
    gathered.digest(&run)?;
    count_run(rt, plan, clerk, gathered, place, word, &run, &judged)?;
    if plan.asked == Asked::Html {
        keep_run(rt.alloc(), &mut clerk.book, &judged, &run)?;
    }
    Ok(0)
}

// What is said of the run before this place, if nothing more can be judged after it.
fn end_behind(rt: &HostRuntime, plan: &Plan, place: usize) -> Fault {
    let name = match plan.names.get(place.saturating_sub(1)) {
        Some(name) => name.as_str(),
        None => "",
    };
    match shown_text(rt.alloc(), name) {
        Ok(name) => Fault::OwnStop(name),
        Err(_) => Fault::Memory,
    }
}

/// Refuses what shows the nodes after the last run, if it is in doubt how far that came in a line of its own.
pub fn want_known(rt: &HostRuntime, plan: &Plan, gathered: &Gathered) -> Result<(), Fault> {
    let is_refused = match plan.storages {
        Some(_) => gathered.is_end,
        None => gathered.is_own_doubt && plan.asked == Asked::Table,
    };
    if is_refused {
        return Err(end_behind(rt, plan, plan.names.len()));
    }
    Ok(())
}

/// Judges the runs in order, up to the first finding: the exit status.
pub fn judge_all(
    rt: &HostRuntime,
    plan: &Plan,
    auditor: &mut Auditor,
    clerk: &mut Recount,
    gathered: &mut Gathered,
) -> Result<u8, Fault>
    requires ready { IsReady (audit_of auditor.old) }
    requires ready_clerk { IsReady (audit_of clerk.old.auditor) }
    ensures ready { IsReady (audit_of auditor.new) }
    ensures ready_clerk { IsReady (audit_of clerk.new.auditor) }
{
    for place in 0..plan.names.len().min(plan.words.len()) {
        let name = plan.names[place].as_str();
        if gathered.is_end {
            return Err(end_behind(rt, plan, place));
        }
        let word = plan.words[place];
        let code = judge_next(rt, plan, auditor, clerk, gathered, place, name, word)?;
        if code != 0 {
            return Ok(code);
        }
    }
    Ok(0)
}
