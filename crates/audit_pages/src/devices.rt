//! The devices on a page: what each shows, how it and the centre compare, its deadline, and what it has asked for. Amounts are in mills.
ghost use Rattle.trace_bench.specs.Seeing.{IsReady, audit_of};

use crate::rulings::ruling_of;
use crate::saying::{say, tell_reply};
use audit_book::Book;
use audit_journal::{BookFault, date_text, kind_word, money_text, verdict_word};
use audit_tally::Ask;
use bench_base::events::DevView;
use bench_base::numbers::{DayNo, DevNo};
use bench_base::words::Phase;
use std::alloc::{AllocError, Global};
use trace_bench::Auditor;

/// How many days after its deadline a device still franks small postage.
const DAYS_OF_GRACE: i32 = 7;

// Until when the device franks.
fn deadline_text(
    alloc: Global,
    device: DevNo,
    deadline: i32,
    day: DayNo,
) -> Result<String, AllocError> {
    let last = date_text(alloc, deadline)?;
    let left = i64::from(deadline) - i64::from(day.get());
    if left >= 0 {
        return format!(in alloc; "due d{} {last} in {left} days", device.get());
    }
    let grace = date_text(alloc, deadline.saturating_add(DAYS_OF_GRACE))?;
    format!(in alloc; "overdue d{} {last} grace to {grace}", device.get())
}

// Prints until when the device franks, if it has a deadline and is not withdrawn.
fn tell_deadline(
    rt: &HostRuntime,
    device: DevNo,
    view: &DevView,
    day: DayNo,
) -> Result<(), BookFault> {
    if view.deadline == 0 || matches!(view.phase, Phase::Withdrawn) {
        return Ok(());
    }
    say(rt, deadline_text(rt.alloc(), device, view.deadline, day))
}

/// What the device asked: its number, the kind, and the amount of one for money. AllocError is lack of memory.
pub fn ask_text(alloc: Global, device: DevNo, ask: &Ask) -> Result<String, AllocError> {
    let kind = kind_word(ask.kind);
    match ask.asked {
        Some(asked) => {
            let amount = money_text(alloc, asked)?;
            format!(in alloc; "d{} {} {kind} {amount}", device.get(), ask.number)
        }
        None => format!(in alloc; "d{} {} {kind}", device.get(), ask.number),
    }
}

// When it was asked.
fn asked_on(alloc: Global, day: Option<DayNo>) -> Result<String, AllocError> {
    match day {
        Some(day) => {
            let date = date_text(alloc, day.get())?;
            format!(in alloc; " asked {date}")
        }
        None => Ok(String::new(alloc)),
    }
}

// How the centre ruled on the request of this number, if it did.
fn ruling_word(auditor: &Auditor, device: DevNo, number: u32) -> &'static str {
    match ruling_of(auditor, device) {
        Some(ruling) if ruling.number == number => verdict_word(ruling.verdict),
        _ => "not ruled on",
    }
}

fn pending_text(
    alloc: Global,
    auditor: &Auditor,
    device: DevNo,
    ask: &Ask,
) -> Result<String, AllocError> {
    let what = ask_text(alloc, device, ask)?;
    let when = asked_on(alloc, ask.day)?;
    let ruling = ruling_word(auditor, device, ask.number);
    format!(in alloc; "pending {what}{when}, {ruling}, not applied")
}

// Prints what the device has asked for and not applied, if there is something.
fn tell_pending(
    rt: &HostRuntime,
    auditor: &Auditor,
    book: &Book,
    device: DevNo,
    view: &DevView,
) -> Result<(), BookFault> {
    if view.pending.is_none() {
        return Ok(());
    }
    match book.ask_of(device) {
        Some(ask) => say(rt, pending_text(rt.alloc(), auditor, device, &ask)),
        None => Ok(()),
    }
}

// Prints until when a device that was made franks, and what it has asked for.
fn tell_view(
    rt: &HostRuntime,
    auditor: &Auditor,
    book: &Book,
    device: DevNo,
    day: DayNo,
) -> Result<(), BookFault>
    requires ready { IsReady (audit_of auditor.now) }
{
    let Some(view) = auditor.shown_of(device, day) else {
        return Ok(());
    };
    tell_deadline(rt, device, &view, day)?;
    tell_pending(rt, auditor, book, device, &view)
}

// Prints what there is of a device that was made.
fn tell_device(
    rt: &HostRuntime,
    auditor: &Auditor,
    book: &Book,
    device: DevNo,
    day: DayNo,
) -> Result<(), BookFault>
    requires ready { IsReady (audit_of auditor.now) }
{
    let Some(status) = auditor.status_of(device, day) else {
        return Ok(());
    };
    tell_reply(rt, status)?;
    tell_reply(rt, auditor.reconcile_of(device))?;
    tell_view(rt, auditor, book, device, day)
}

/// Prints what there is of each device that was made. BookFault::Write if standard output takes no more, BookFault::Memory is lack of memory.
pub fn tell_devices(
    rt: &HostRuntime,
    auditor: &Auditor,
    book: &Book,
    day: DayNo,
) -> Result<(), BookFault>
    requires ready { IsReady (audit_of auditor.now) }
{
    for number in 1..9 {
        if let Some(device) = DevNo::new(number) {
            tell_device(rt, auditor, book, device, day)?;
        }
    }
    Ok(())
}
