//! How far runs came in lines of their own at which they were stopped. Where the report of such a run leaves that open, the runs are judged from the first
//! one on with each possibility in turn, up to one with which nothing is found in any of them.
ghost use Rattle.trace_bench.specs.Seeing.{IsReady, audit_of};

use crate::desks::{Desks, judge_run};
use crate::faults::{Fault, or_memory};
use crate::files::{can_be_read_again, has_end, open_of, rates_again};
use crate::judging::{Judged, Outcome, Papers};
use crate::plan::{Plan, is_counted};
use crate::states::state_of;
use crate::storages::are_as_left;
use crate::words::Word;
use audit_words::shown_text;
use bench_base::words::Node;
use std::alloc::Global;
use std::collections::HashSet;
use trace_bench::Auditor;
use trace_extensions::Reach;

/// The most tries of one audit.
const MOST_TRIES: u32 = 4_096;

/// What the answer of the verifier to `on` has before the number of its commits.
const UP: &str = "up verifier commits ";

/// A stop at a line of its own, in a try.
#[derive(Clone, Copy)]
struct Stop {
    /// The place of the run among all.
    place: usize,
    /// How far it is taken to have come.
    reach: Reach,
    /// Whether it may have come further.
    has_more: bool,
    /// How many commits of the verifier count after it.
    commits: u64,
}

/// How far runs came in lines of their own at which they were stopped, as far as that was in doubt and is known.
#[derive(Drop)]
pub struct Reaches {
    stops: Vec<Stop>,
    /// Whether nothing is found with another possibility either, which leaves something else.
    pub is_undecided: bool,
}

impl Reaches {
    /// Nothing is known.
    pub fn unknown(alloc: Global) -> Reaches {
        Reaches {
            stops: Vec::new(alloc),
            is_undecided: false,
        }
    }

    /// How far the run of this place came.
    pub fn of(&self, place: usize) -> Option<Reach> {
        let stop = self.stops.iter().find(|stop| stop.place == place)?;
        Some(stop.reach)
    }
}

/// An `up` of the verifier that counts other commits than were due.
#[derive(Clone, Copy)]
struct Counted {
    due: u64,
    found: u64,
}

/// How a try ended.
#[derive(Clone, Copy)]
enum TryEnd {
    /// Nothing was found up to the last run, or to one that can't be judged.
    Through,
    /// It goes on as an earlier one did.
    Seen,
    /// The run of this place is stopped at this line of its own, which no try knew before.
    Stopped(usize, u32),
    /// Something was found in the run of this place at this line, which is 0 if it can't have come as far as was taken; with what an `up` of the verifier
    /// counts there, if that is it.
    Found(usize, u32, Option<Counted>),
}

/// All tries so far.
#[derive(Drop)]
struct Search {
    /// The last run that may be stopped at a line of its own.
    last: usize,
    /// Of each run of which that is known, its place and the line.
    lines: Vec<(usize, u32)>,
    /// The stops of this try.
    stops: Vec<Stop>,
    /// The place from which on this try differs from the one before.
    fresh: usize,
    /// What tries had after their runs.
    seen: HashSet<Vec<u8>>,
    /// The place and the line to which a try came at most, and its stops.
    furthest_place: usize,
    furthest_line: u32,
    best: Vec<Stop>,
    /// Whether nothing was found in a try.
    is_through: bool,
    /// Whether nothing was found in another one.
    is_undecided: bool,
}

// The commits that an `up` of the verifier counts.
fn commits_in(text: &str) -> Option<u64> {
    text.strip_prefix(UP)?.parse().ok()
}

// What an `up` of the verifier counts, if that was found.
fn counted_in(judged: &Judged) -> Option<Counted> {
    Some(Counted {
        due: commits_in(judged.due.as_str())?,
        found: commits_in(judged.found.as_str())?,
    })
}

// How a try ends with a finding at this line.
fn found_end(place: usize, line: u32, reach: Option<Reach>, judged: &Judged) -> TryEnd {
    match reach {
        Some(reach) if reach.line == line => TryEnd::Found(place, 0, None),
        _ => TryEnd::Found(place, line, counted_in(judged)),
    }
}

// How a try ends with this judgment of the run of this place, if it does.
fn end_of(place: usize, reach: Option<Reach>, judged: &Judged) -> Option<TryEnd> {
    match judged.outcome {
        Outcome::Lawful(_) | Outcome::Stopped(_) => None,
        Outcome::StoppedInOwn(line) if reach.is_none() => Some(TryEnd::Stopped(place, line)),
        Outcome::StoppedInOwn(_) => None,
        Outcome::Wrong(line) | Outcome::Forged(line) | Outcome::More(line, _) => {
            Some(found_end(place, line, reach, judged))
        }
        Outcome::Unkept(_) | Outcome::Unread(_) | Outcome::Memory => Some(TryEnd::Through),
    }
}

impl Stop {
    // How many commits of the line are missing by this finding, if these are those of the line: no `up` of the verifier came between. None if there are too
    // many; otherwise at least one.
    fn missing(&self, counted: Option<Counted>) -> Option<u64> {
        match counted {
            Some(counted) if counted.due == self.commits => counted.found.checked_sub(counted.due),
            _ => Some(1),
        }
    }

    // The next possibility after this finding, if there is one. Each step commits once at most, and the last one may be in doubt.
    fn next(&self, counted: Option<Counted>) -> Option<Stop> {
        if !self.has_more {
            return None;
        }
        let missing = u32::try_from(self.missing(counted)?).unwrap_or(u32::MAX);
        let more = missing.saturating_sub(1);
        let steps = match self.reach.steps {
            None => more,
            Some(steps) => steps.saturating_add(more.max(1)),
        };
        let reach = Reach {
            line: self.reach.line,
            steps: Some(steps),
        };
        Some(Stop { reach, ..*self })
    }
}

// Judges a run of this word once more, by its files.
fn judge_again(
    rt: &HostRuntime,
    plan: &Plan,
    auditor: &mut Auditor,
    desks: &mut Desks,
    name: &str,
    word: Word,
    reach: Option<Reach>,
) -> Result<Judged, Fault>
    requires ready { IsReady (audit_of auditor.old) }
    ensures ready { IsReady (audit_of auditor.new) }
{
    let rates = rates_again(rt, name, &plan.rates)?;
    let papers = Papers {
        script: open_of(rt, name, ".script")?,
        report: open_of(rt, name, ".report")?,
        rates: rates.unwrap_or(Vec::new(rt.alloc())),
        reach,
    };
    judge_run(rt.alloc(), auditor, word, papers, desks)
}

impl Search {
    // Before the first try.
    fn new(alloc: Global, last: usize) -> Search {
        Search {
            last,
            lines: Vec::new(alloc),
            stops: Vec::new(alloc),
            fresh: 0,
            seen: HashSet::new(alloc),
            furthest_place: 0,
            furthest_line: 0,
            best: Vec::new(alloc),
            is_through: false,
            is_undecided: false,
        }
    }

    // How far the run of this place is taken to have come, if it is known to be stopped at a line of its own: at first, not even into that.
    fn reach_of(&mut self, place: usize) -> Result<Option<Reach>, Fault> {
        if let Some(stop) = self.stops.iter().find(|stop| stop.place == place) {
            return Ok(Some(stop.reach));
        }
        let Some((_, line)) = self.lines.iter().find(|known| known.0 == place) else {
            return Ok(None);
        };
        let reach = Reach {
            line: *line,
            steps: None,
        };
        let stop = Stop {
            place,
            reach,
            has_more: true,
            commits: 0,
        };
        or_memory(self.stops.push(stop))?;
        Ok(Some(reach))
    }

    // Keeps what came of the stop of the run of this place. Of an earlier stop nothing changed.
    fn keep_stop(&mut self, place: usize, has_more: bool, commits: u64) {
        if let Some(stop) = self.stops.last_mut() {
            if stop.place == place {
                stop.has_more = has_more;
                stop.commits = commits;
            }
        }
    }

    // Whether an earlier try had the same after the run of this place.
    fn has_seen(
        &mut self,
        alloc: Global,
        place: usize,
        auditor: &Auditor,
        desks: &Desks,
    ) -> Result<bool, Fault>
        requires ready { IsReady (audit_of auditor.now) }
    {
        if self.stops.is_empty() || place < self.fresh {
            return Ok(false);
        }
        let state = or_memory(state_of(alloc, place, auditor, desks))?;
        Ok(!or_memory(self.seen.insert(state))?)
    }

    // Judges the run of this place in a try: how that ends, if it does. If the run can't be judged at all, that is said when its verdict is due.
    fn judge_next(
        &mut self,
        rt: &HostRuntime,
        plan: &Plan,
        auditor: &mut Auditor,
        desks: &mut Desks,
        place: usize,
        name: &str,
        word: Word,
    ) -> Result<Option<TryEnd>, Fault>
        requires ready { IsReady (audit_of auditor.old) }
        ensures ready { IsReady (audit_of auditor.new) }
    {
        let reach = self.reach_of(place)?;
        let judged = match judge_again(rt, plan, auditor, desks, name, word, reach) {
            Ok(judged) => judged,
            Err(Fault::Memory) => return Err(Fault::Memory),
            Err(_) => return Ok(Some(TryEnd::Through)),
        };
        self.keep_stop(
            place,
            judged.may_reach_more,
            auditor.commits_of(&Node::Verifier),
        );
        if let Some(end) = end_of(place, reach, &judged) {
            return Ok(Some(end));
        }
        if self.has_seen(rt.alloc(), place, auditor, desks)? {
            return Ok(Some(TryEnd::Seen));
        }
        Ok(None)
    }

    // How a try ends in which nothing was found in a run: it has to leave what the storages of the folder show.
    fn end_at_folder(
        &self,
        rt: &HostRuntime,
        plan: &Plan,
        auditor: &Auditor,
        desks: &Desks,
    ) -> Result<TryEnd, Fault>
        requires ready { IsReady (audit_of auditor.now) }
    {
        let Some(folder) = &plan.storages else {
            return Ok(TryEnd::Through);
        };
        if are_as_left(rt, auditor, desks, folder)? {
            Ok(TryEnd::Through)
        } else {
            Ok(TryEnd::Found(plan.names.len(), 1, None))
        }
    }

    // Judges the runs from the first one on: how the try ends.
    fn judge_all(&mut self, rt: &HostRuntime, plan: &Plan) -> Result<TryEnd, Fault> {
        let Ok(mut auditor) = Auditor::new(rt.alloc(), plan.has_bytes) else {
            return Err(Fault::Memory);
        };
        let mut desks = Desks::new(rt.alloc());
        for place in 0..plan.names.len().min(plan.words.len()) {
            if self.stops.is_empty() && place > self.last {
                return Ok(TryEnd::Through);
            }
            let (name, word) = (plan.names[place].as_str(), plan.words[place]);
            if let Some(end) = self.judge_next(
                rt,
                plan,
                &mut auditor,
                &mut desks,
                place,
                name,
                word,
            )? {
                return Ok(end);
            }
        }
        self.end_at_folder(rt, plan, &auditor, &desks)
    }

    // Keeps the stops of this try, if it came further than those before. Of tries that ended at one stop, the last one counts.
    fn note(&mut self, alloc: Global, place: usize, line: u32) -> Result<(), Fault> {
        let is_further = !self.is_through
            && if place == self.furthest_place {
                line > self.furthest_line || line == 0 && self.furthest_line == 0
            } else {
                place > self.furthest_place
            };
        if is_further {
            self.furthest_place = place;
            self.furthest_line = line;
            self.best = or_memory(Vec::from_slice(alloc, self.stops.as_slice()))?;
        }
        Ok(())
    }

    // Takes the last stop that may have come further to have done so, after this finding: whether there is one.
    fn turn_back(&mut self, counted: Option<Counted>) -> Result<bool, Fault> {
        for _ in 0..self.stops.len() {
            let Some(stop) = self.stops.pop() else {
                return Ok(false);
            };
            if let Some(next) = stop.next(counted) {
                self.fresh = next.place;
                or_memory(self.stops.push(next))?;
                return Ok(true);
            }
        }
        Ok(false)
    }

    // Prepares the try after one that ended so: whether there is one. If nothing was found, another one may show that something is undecided.
    fn go_on(&mut self, alloc: Global, end: TryEnd) -> Result<bool, Fault> {
        match end {
            TryEnd::Through if self.is_through => {
                self.is_undecided = true;
                Ok(false)
            }
            TryEnd::Through => {
                self.is_through = true;
                self.best = or_memory(Vec::from_slice(alloc, self.stops.as_slice()))?;
                self.turn_back(None)
            }
            TryEnd::Seen => self.turn_back(None),
            TryEnd::Stopped(place, line) => {
                self.fresh = place;
                or_memory(self.lines.push((place, line)))?;
                Ok(true)
            }
            TryEnd::Found(place, line, counted) => {
                self.note(alloc, place, line)?;
                self.turn_back(counted)
            }
        }
    }
}

impl Search {
    // What was found.
    fn found(self) -> Reaches {
        Reaches {
            stops: self.best,
            is_undecided: self.is_undecided,
        }
    }
}

// Whether each run can be read more than once.
fn can_all_be_read_again(rt: &HostRuntime, names: &[String]) -> Result<bool, Fault> {
    for place in 0..names.len() {
        if !can_be_read_again(rt, names[place].as_str())? {
            return Ok(false);
        }
    }
    Ok(true)
}

// Whether a run of this word may be stopped so that it is in doubt what was done for a line of its own.
fn may_be_stopped(rt: &HostRuntime, name: &str, word: Word) -> bool {
    match word {
        Word::Claims | Word::Departments | Word::Manifest => !has_end(rt, name),
        Word::Replay | Word::Statement => false,
    }
}

// The last run that may be stopped so, if what follows from that is asked for: of the last run of all, more than its verdict.
fn last_stop(rt: &HostRuntime, plan: &Plan) -> Option<usize> {
    let count = plan.names.len().min(plan.words.len());
    let is_more_asked = is_counted(plan.asked) || plan.storages.is_some();
    let mut last = None;
    for place in 0..count {
        if place + 1 == count && !is_more_asked {
            return last;
        }
        if may_be_stopped(rt, plan.names[place].as_str(), plan.words[place]) {
            last = Some(place);
        }
    }
    last
}

// Refuses to try more.
fn too_many(rt: &HostRuntime, plan: &Plan, search: &Search) -> Fault {
    let name = match search.stops.first() {
        Some(stop) if stop.place < plan.names.len() => plan.names[stop.place].as_str(),
        _ => "",
    };
    match shown_text(rt.alloc(), name) {
        Ok(name) => Fault::Cases(name),
        Err(_) => Fault::Memory,
    }
}

/// How far runs came in lines of their own at which they were stopped: the first possibility with which nothing is found, or the one with which the runs are
/// judged furthest before something is. The runs start from blank storages. Nothing is known if one of them can be read only once. Fault::Cases if too many
/// possibilities are open, Fault::Memory is lack of memory.
pub fn find_reaches(rt: &HostRuntime, plan: &Plan) -> Result<Reaches, Fault> {
    let unknown = Reaches::unknown(rt.alloc());
    if !can_all_be_read_again(rt, plan.names.as_slice())? {
        return Ok(unknown);
    }
    let Some(last) = last_stop(rt, plan) else {
        return Ok(unknown);
    };
    let mut search = Search::new(rt.alloc(), last);
    for _ in 0..MOST_TRIES {
        let end = search.judge_all(rt, plan)?;
        if !search.go_on(rt.alloc(), end)? {
            return Ok(search.found());
        }
    }
    search.is_undecided = true;
    if search.is_through {
        return Ok(search.found());
    }
    Err(too_many(rt, plan, &search))
}
