//! What was not granted, what was refused, and what went wrong, on a page.
use crate::devices::ask_text;
use crate::saying::{place_text, say};
use audit_journal::{BookFault, date_text, node_text, verdict_word};
use audit_tally::{Cause, Incident, Mishap, Outcome, Ungranted};
use bench_base::numbers::DayNo;
use std::alloc::{AllocError, Global};

fn ungranted_text(
    alloc: Global,
    names: &[String],
    found: &Ungranted,
) -> Result<String, AllocError> {
    let what = ask_text(alloc, found.device, &found.ask)?;
    let why = verdict_word(found.verdict);
    let place = place_text(alloc, names, &found.place)?;
    format!(in alloc; "not granted {what} {why} at {place}")
}

/// Prints the requests that were not granted. BookFault::Write if standard output takes no more, BookFault::Memory is lack of memory.
pub fn tell_ungranted(
    rt: &HostRuntime,
    names: &[String],
    rows: &[Ungranted],
) -> Result<(), BookFault> {
    for found in rows.iter() {
        say(rt, ungranted_text(rt.alloc(), names, found))?;
    }
    Ok(())
}

fn cause_text(alloc: Global, names: &[String], cause: &Cause) -> Result<String, AllocError> {
    let first = place_text(alloc, names, &cause.first)?;
    let last = place_text(alloc, names, &cause.last)?;
    let words = cause.words.as_str();
    format!(in alloc; "refused {} {words} first {first} last {last}", cause.count)
}

/// Prints how often something was refused, a line for each cause. BookFault::Write if standard output takes no more, BookFault::Memory is lack of memory.
pub fn tell_causes(rt: &HostRuntime, names: &[String], rows: &[Cause]) -> Result<(), BookFault> {
    for cause in rows.iter() {
        say(rt, cause_text(rt.alloc(), names, cause))?;
    }
    Ok(())
}

fn mishap_text(alloc: Global, mishap: &Mishap) -> Result<String, AllocError> {
    match mishap {
        Mishap::Power(node) => {
            let word = node_text(alloc, node)?;
            format!(in alloc; "power {word}")
        }
        Mishap::Fault(node) => {
            let word = node_text(alloc, node)?;
            format!(in alloc; "fault {word}")
        }
        Mishap::Printer(job) => format!(in alloc; "printer fault {job}"),
        Mishap::Stop => format!(in alloc; "stopped"),
    }
}

// On which day it went wrong.
fn day_text(alloc: Global, day: Option<DayNo>) -> Result<String, AllocError> {
    match day {
        Some(day) => {
            let date = date_text(alloc, day.get())?;
            format!(in alloc; " on {date}")
        }
        None => Ok(String::new(alloc)),
    }
}

// Whether the commit of the line counts.
fn outcome_words(outcome: Outcome) -> &'static str {
    match outcome {
        Outcome::None => "",
        Outcome::Doubt => ", in doubt",
        Outcome::Done => ", done",
        Outcome::NotDone => ", not done",
    }
}

// What went wrong, and its day.
fn dated_text(alloc: Global, incident: &Incident) -> Result<String, AllocError> {
    let what = mishap_text(alloc, &incident.mishap)?;
    let day = day_text(alloc, incident.day)?;
    format!(in alloc; "{what}{day}")
}

fn incident_text(
    alloc: Global,
    names: &[String],
    incident: &Incident,
) -> Result<String, AllocError> {
    let place = place_text(alloc, names, &incident.place)?;
    let what = dated_text(alloc, incident)?;
    let outcome = outcome_words(incident.outcome);
    format!(in alloc; "at {place}: {what}{outcome}")
}

/// Prints what went wrong, in its order. BookFault::Write if standard output takes no more, BookFault::Memory is lack of memory.
pub fn tell_incidents(
    rt: &HostRuntime,
    names: &[String],
    rows: &[Incident],
) -> Result<(), BookFault> {
    for incident in rows.iter() {
        say(rt, incident_text(rt.alloc(), names, incident))?;
    }
    Ok(())
}
