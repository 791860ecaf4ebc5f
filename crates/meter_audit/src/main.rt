//! The auditor's program: whether the reports that some meter wrote for these scripts may be those of a lawful meter. Each NAME is a run, in order:
//! NAME.script, NAME.report and NAME.rates, which is empty if it is missing. Options ask for runs in a folder, for rates of all runs, for their
//! prints, and for marks that were seen on mail. One option may ask for more: what the auditor has after the runs, what they came to, the journal of
//! what they committed, or what was due after a stop.
#![tactic(auto)]

mod checking;
mod desks;
mod digest;
mod faults;
mod files;
mod folders;
mod held;
mod judging;
mod own_storages;
mod page;
mod plan;
mod prints;
mod reaches;
mod runs;
mod scripts;
mod seen;
mod starting;
mod states;
mod storage_files;
mod storages;
mod tails;
mod verdicts;
mod words;

ghost use Rattle.trace_bench.specs.Seeing.{IsReady, audit_of};

use audit_journal::Form;
use audit_pages::{tell_page, tell_table};
use audit_recount::Recount;
use audit_words::{Asked, Call, HELP, VERSION, Words, WordsFault, read_call};
use checking::check;
use faults::{Fault, code_of, or_book, or_memory, or_write};
use own_storages::Kept;
use page::tell_html;
use plan::{Plan, plan_of};
use prints::{Said, judge_prints};
use reaches::{Reaches, find_reaches};
use runs::{Gathered, judge_all, say, say_finding, want_known};
use seen::{SeenFile, read_seen, tell_seen};
use starting::{halted, starts_of};
use std::process::ExitCode;
use std::{env, io};
use storage_files::node_at;
use storages::tell_storages;
use trace_bench::Auditor;
use verdicts::FINDING;

/// The exit status if nothing was found, but something is undecided.
const UNDECIDED: u8 = 4;

// The words after the program's name.
fn given_words(rt: &HostRuntime) -> Result<Vec<String>, Fault> {
    let mut words = Vec::new(rt.alloc());
    let given = match env::args(rt) {
        Ok(given) => given,
        Err(fault) if fault.kind() == io::ErrorKind::InvalidData => return Err(Fault::Words),
        Err(_) => return Err(Fault::Memory),
    };
    for word in given.skip(1) {
        or_memory(words.push(word))?;
    }
    Ok(words)
}

fn form_of(asked: Asked) -> Form {
    match asked {
        Asked::Nothing | Asked::Table | Asked::Page | Asked::Html | Asked::Due => Form::None,
        Asked::Csv => Form::Csv,
        Asked::Json => Form::Json,
        Asked::Ledger => Form::Ledger,
    }
}

// Whether a commit is in doubt that no line decides.
fn is_in_doubt(auditor: &Auditor) -> bool
    requires ready { IsReady (audit_of auditor.now) }
{
    for number in 1..12 {
        if auditor.is_open(&node_at(number)) {
            return true;
        }
    }
    false
}

// Judges the prints of all runs, where a file of them is named: the exit status.
fn tell_prints(rt: &HostRuntime, plan: &mut Plan, gathered: &mut Gathered) -> Result<u8, Fault> {
    let Some(printed) = plan.printed.take() else {
        return Ok(0);
    };
    let said = judge_prints(
        rt,
        printed,
        plan.names.as_slice(),
        gathered.ends.as_slice(),
        gathered.desks.imprints.as_slice(),
    )?;
    let Said {
        text,
        is_finding,
        page,
    } = said;
    gathered.prints = Some(page);
    if is_finding {
        return Ok(say_finding(rt, plan.asked, text.as_str()));
    }
    say(rt, plan.asked, text.as_str())?;
    Ok(0)
}

// Reads the marks that were seen on mail, where a file of them is named.
fn read_marks(
    rt: &HostRuntime,
    plan: &Plan,
    auditor: &mut Auditor,
) -> Result<Option<SeenFile>, Fault>
    requires ready { IsReady (audit_of auditor.old) }
    ensures ready { IsReady (audit_of auditor.new) }
{
    match &plan.seen {
        Some(file) => Ok(Some(read_seen(rt, auditor, plan.asked, file.as_str())?)),
        None => Ok(None),
    }
}

// Says which of the marks that were seen on mail these runs debited, where there are such: the exit status.
fn tell_marks(
    rt: &HostRuntime,
    plan: &Plan,
    auditor: &Auditor,
    seen: Option<SeenFile>,
) -> Result<u8, Fault>
    requires ready { IsReady (audit_of auditor.now) }
{
    match seen {
        Some(file) => tell_seen(rt, auditor, plan.asked, file),
        None => Ok(0),
    }
}

// Prints what is asked for below the verdicts, where nothing was found.
fn tell_below(
    rt: &HostRuntime,
    plan: &Plan,
    auditor: &Auditor,
    clerk: &Recount,
    gathered: &Gathered,
) -> Result<(), Fault>
    requires ready { IsReady (audit_of auditor.now) }
    requires ready_clerk { IsReady (audit_of clerk.now.auditor) }
{
    match plan.asked {
        Asked::Nothing | Asked::Csv | Asked::Json | Asked::Ledger | Asked::Due => Ok(()),
        Asked::Html => tell_html(rt, plan, clerk, gathered),
        Asked::Table => or_book(tell_table(rt, auditor, gathered.day)),
        Asked::Page => {
            let (names, digests) = (plan.names.as_slice(), gathered.digests.as_slice());
            or_book(tell_page(rt, names, auditor, &clerk.book, digests, gathered.day))
        }
    }
}

// Writes the page of a finding, if one is asked for: the exit status of a finding, which is the same if it can't be written.
fn tell_found(rt: &HostRuntime, plan: &Plan, clerk: &Recount, gathered: &Gathered) -> u8
    requires ready { IsReady (audit_of clerk.now.auditor) }
{
    if plan.asked != Asked::Html {
        return FINDING;
    }
    if let Err(fault) = tell_html(rt, plan, clerk, gathered) {
        let _ = eprintln!(rt; "{fault}");
    }
    FINDING
}

// Judges what was planned over these auditors: the exit status.
fn judge_words(
    rt: &HostRuntime,
    planned: Result<Plan, Fault>,
    reaches: Reaches,
    auditor: &mut Auditor,
    clerk: &mut Recount,
) -> Result<u8, Fault>
    requires ready { IsReady (audit_of auditor.old) }
    requires ready_clerk { IsReady (audit_of clerk.old.auditor) }
{
    let mut plan = planned?;
    let seen = read_marks(rt, &plan, auditor)?;
    let mut gathered = Gathered::new(rt.alloc(), reaches);
    gathered.desks.claims = plan.kept.claims.take();
    gathered.desks.departments = plan.kept.departments.take();
    if judge_all(rt, &plan, auditor, clerk, &mut gathered)? != 0 {
        return Ok(tell_found(rt, &plan, clerk, &gathered));
    }
    let prints_code = tell_prints(rt, &mut plan, &mut gathered)?;
    let marks_code = tell_marks(rt, &plan, auditor, seen)?;
    if plan.storages.is_some() || plan.asked == Asked::Table {
        want_known(rt, &plan, &gathered)?;
    }
    let storages_code = tell_storages(rt, &plan, auditor, &gathered)?;
    if prints_code != 0 || marks_code != 0 || storages_code != 0 {
        return Ok(tell_found(rt, &plan, clerk, &gathered));
    }
    tell_below(rt, &plan, auditor, clerk, &gathered)?;
    let is_undecided = gathered.is_undecided() || is_in_doubt(auditor);
    Ok(if is_undecided && !plan.is_lenient {
        UNDECIDED
    } else {
        0
    })
}

// Ends the journal, which is closed on each way out: the exit status. The status of a finding stays, and an earlier fault is the one that is
// reported.
fn end_journal(
    rt: &HostRuntime,
    clerk: &mut Recount,
    judged: Result<u8, Fault>,
) -> Result<u8, Fault> {
    let ended = or_book(clerk.book.end(rt));
    let code = judged?;
    match ended {
        Ok(()) => Ok(code),
        Err(fault) if code == FINDING => {
            let _ = eprintln!(rt; "{fault}");
            Ok(code)
        }
        Err(fault) => Err(fault),
    }
}

// Whether a script may contain bytes.
fn has_bytes(planned: &Result<Plan, Fault>) -> bool {
    match planned {
        Ok(plan) => plan.has_bytes,
        Err(_) => false,
    }
}

// Judges what was planned over what this auditor has. The second one goes over the runs once more.
fn audit_over(
    rt: &HostRuntime,
    asked: Asked,
    planned: Result<Plan, Fault>,
    reaches: Reaches,
    auditor: Auditor,
    second: Auditor,
) -> Result<u8, Fault>
    requires ready { IsReady (audit_of auditor) }
    requires ready_second { IsReady (audit_of second) }
{
    let mut auditor = auditor;
    let has_facts = asked == Asked::Html;
    let Ok(mut clerk) = Recount::new(rt.alloc(), second, form_of(asked), has_facts) else {
        return Err(Fault::Memory);
    };
    or_book(clerk.book.begin())?;
    let judged = judge_words(rt, planned, reaches, &mut auditor, &mut clerk);
    end_journal(rt, &mut clerk, judged)
}

// Judges what the words name, from blank storages on.
fn audit_from_blank(rt: &HostRuntime, words: Words) -> Result<u8, Fault> {
    let asked = words.asked;
    let planned = plan_of(rt, words, Kept::nothing());
    let reaches = match &planned {
        Ok(plan) => find_reaches(rt, plan)?,
        Err(_) => Reaches::unknown(rt.alloc()),
    };
    let is_kept = has_bytes(&planned);
    let Ok(auditor) = Auditor::new(rt.alloc(), is_kept) else {
        return Err(Fault::Memory);
    };
    let Ok(second) = Auditor::new(rt.alloc(), is_kept) else {
        return Err(Fault::Memory);
    };
    audit_over(rt, asked, planned, reaches, auditor, second)
}

// Judges what the words name, from the storages of this folder on.
fn audit_from(rt: &HostRuntime, folder: &str, words: Words) -> Result<u8, Fault> {
    let asked = words.asked;
    match starts_of(rt, asked, folder) {
        Ok(starts) => {
            let planned = plan_of(rt, words, starts.kept);
            let unknown = Reaches::unknown(rt.alloc());
            audit_over(rt, asked, planned, unknown, starts.auditor, starts.second)
        }
        Err(halt) => halted(rt, asked, halt),
    }
}

// Judges what the words name.
fn audit(rt: &HostRuntime, words: Words) -> Result<u8, Fault> {
    let mut words = words;
    match words.start.take() {
        Some(folder) => audit_from(rt, folder.as_str(), words),
        None => audit_from_blank(rt, words),
    }
}

// Prints a text.
fn tell_text(rt: &HostRuntime, text: &str) -> Result<u8, Fault> {
    or_write(println!(rt; "{text}"))?;
    Ok(0)
}

// Does what the words call for.
fn called(rt: &HostRuntime) -> Result<u8, Fault> {
    let words = given_words(rt)?;
    match read_call(rt.alloc(), words) {
        Ok(Call::Audit(words)) => audit(rt, words),
        Ok(Call::Check(script)) => check(rt, script.as_str()),
        Ok(Call::Help) => tell_text(rt, HELP),
        Ok(Call::Version) => tell_text(rt, VERSION),
        Err(WordsFault::Usage) => Err(Fault::Words),
        Err(WordsFault::Start) => Err(Fault::Start),
        Err(WordsFault::Memory) => Err(Fault::Memory),
    }
}

// Standard error may take no line. The exit status says the same.
fn main(rt: HostRuntime) -> ExitCode {
    match called(&rt) {
        Ok(code) => ExitCode::from(code),
        Err(fault) => {
            let code = code_of(&fault);
            let _ = eprintln!(rt; "{fault}");
            ExitCode::from(code)
        }
    }
}
