//! Whether a line of the report can be the reply to an event.
ghost use Rattle.std.specs.Prelude.{◌≡◌, ◌+◌, ◌<◌, ◌≤◌, [], ◌∷◌, length};
ghost use Rattle.bench_base.specs.declared.events.Reply.TheVariants as r;
ghost use Rattle.bench_base.specs.declared.ledger.Entry.TheVariants as entry;
ghost use Rattle.bench_base.specs.Ranges.{IsDevice};
ghost use Rattle.bench_base.specs.Events.{IsWholeEvent};
ghost use Rattle.bench_abstraction.specs.Centre as centres;
ghost use Rattle.bench_abstraction.specs.Verifier as verifiers;
ghost use Rattle.bench.specs.declared.benches.TheConstants.{MOST_MESSAGES};
ghost use Rattle.trace_bench.specs.Debits.{OthersRest};
ghost use Rattle.trace_bench.specs.Placed.{DeviceJudged, ComparesInPlace};
ghost use Rattle.trace_bench.specs.Plainly as plainly;
ghost use Rattle.trace_bench.specs.Plainly.{IsPlainly, SendsHeard, heard_of_node, heard_of_rates};
ghost use Rattle.trace_bench.specs.Seeing.{AreSettled, IsReady, audit_of, keeps};
ghost use Rattle.trace_bench.specs.Judging.{AtEach, AtEachRun, IsHeard, IsJudged};

use crate::auditor::Auditor;
use crate::comparing::compare;
use crate::noting::Noted;
use crate::rates::judge_rates;
use crate::ticking::tick_last;
use bench_abstraction::laws::nodes_follow;
use bench_abstraction::{CentreCall, DeviceCall, OfDay, Routed, VerifierCall, route};
use bench_base::bytes::Note;
use bench_base::events::{Event, Reply};
use bench_base::ledger::Entry;
use bench_base::numbers::{DayNo, DevNo};
use call_handlers::{hands_bytes, scans_bytes};
use centre_ledger::Row;
use debit_laws::laws::debits;
use host_rates::laws::prices_by_text;
use node_acts::Asked;
use node_turns::Tell;
use psd_state::DevRec;
use std::alloc::Global;
use trace_centre::{CentreRecord, is_known, judge_centre};
use trace_device::{DeviceRecord, judge_device};
use trace_host::judge_host;
use trace_nodes::{Traced, is_told};
use trace_verifier::judge_scans;

/// What is found if a line of the report is not that of a reply that its event may get.
#[derive(Clone, Copy)]
pub enum Finding {
    /// No reply that the event may get has the line; this was the answer.
    Wrong(Reply),
    /// There was no memory, for rates, a message or a mark.
    Memory,
}

/// What is heard of an event by its line: its turn, the message that it sent, the mark that it released, how much of the rates it took, in bytes,
/// and the device that it was for.
#[derive(Drop)]
pub struct Heard<T> {
    pub told: T,
    pub sent: Option<Note>,
    pub released: Option<[u8; 64]>,
    pub taken: usize,
    pub device: Option<DevNo>,
}

/// What is judged of an event: its turn, and how much of the rates it took, in bytes.
#[derive(Drop)]
pub struct Judged<T> {
    pub told: T,
    pub taken: usize,
}

// What is heard of an event that took so much of the rates and was for this device, if it was for one.
fn heard_of<T: Tell>(noted: Noted<T>, taken: usize, device: Option<DevNo>) -> Heard<T>
    ensures { result ≡ plainly.heard_of noted taken device }
{
    Heard {
        told: noted.told,
        sent: noted.sent,
        released: noted.released,
        taken,
        device,
    }
}

// The line beside the one answer to an event, which adds nothing.
fn plain<T: Tell>(due: Reply, line: &[u8]) -> Result<Heard<T>, Finding>
    ensures { IsPlainly T.IsOf due [] line.now result }
{
    if is_told(&due, line) {
        Ok(heard_of(Noted::silent(due), 0, None))
    } else {
        Err(Finding::Wrong(due))
    }
}

// The line beside the one answer to a `day`.
fn day_told<T: Tell>(day: DayNo, line: &[u8]) -> Result<Heard<T>, Finding>
    ensures { IsPlainly T.IsOf (r.Day day) (entry.Day day ∷ []) line.now result }
{
    let due = Reply::Day(day);
    if is_told(&due, line) {
        Ok(heard_of(Noted::one(due, Entry::Day(day)), 0, None))
    } else {
        Err(Finding::Wrong(due))
    }
}

// What is heard of a node, which is this device, if it is one.
fn of_node<T: Tell>(
    device: Option<DevNo>,
    judged: Result<Noted<T>, Reply>,
) -> Result<Heard<T>, Finding>
    ensures { result ≡ heard_of_node device judged }
{
    match judged {
        Ok(noted) => Ok(heard_of(noted, 0, device)),
        Err(due) => Err(Finding::Wrong(due)),
    }
}

// What is heard of a `rates`.
fn of_rates<T: Tell>(judged: Result<Judged<Noted<T>>, Finding>) -> Result<Heard<T>, Finding>
    ensures { result ≡ heard_of_rates judged }
{
    match judged {
        Ok(judged) => Ok(heard_of(judged.told, judged.taken, None)),
        Err(finding) => Err(finding),
    }
}

// Judges the line of an event of the device in its place.
fn device_in_place<T: Tell>(
    devices: &mut Vec<Traced<DeviceRecord, DevRec>>,
    device: DevNo,
    day: DayNo,
    asked: &Asked<DeviceCall>,
    line: &[u8],
) -> Result<T, Reply>
    requires eight { length devices.old.items ≡ 8 }
    requires settled { AreSettled devices.old.items }
    ensures settled { AreSettled devices.new.items }
    ensures eight { length devices.new.items ≡ 8 }
    ensures judged { DeviceJudged T.IsOf device day asked.now line.now devices.old.items devices.new.items result }
{
    let place = device.get() as usize - 1;
    judge_device(&mut devices[place], device, day, asked, line)
}

// How the device in its place and the centre compare.
fn compare_in_place(
    device: DevNo,
    devices: &[Traced<DeviceRecord, DevRec>],
    centre: &Traced<CentreRecord, Row>,
) -> Reply
    requires eight { length devices.now ≡ 8 }
    ensures shows { ComparesInPlace device devices.now centre.now result }
    ensures named { IsDevice device }
{
    let place = device.get() as usize - 1;
    compare(device, &devices[place], centre)
}

// What the centre is handed is a list of bytes.
fn hands_centre(asked: &Asked<CentreCall>)
    ensures { centres.AreBytes asked.now }
{
    if let Asked::Call(call) = asked {
        hands_bytes(call);
    }
}

// What the verifier scans is a list of bytes.
fn hands_verifier(asked: &Asked<VerifierCall>)
    ensures { verifiers.AreBytes asked.now }
{
    if let Asked::Call(call) = asked {
        scans_bytes(call);
    }
}

// Judges the line of an event, before its message is sent.
pub(crate) fn hear<T: Tell>(
    alloc: Global,
    auditor: &mut Auditor,
    event: &Event,
    left: &[u8],
    line: &[u8],
) -> Result<Heard<T>, Finding>
    requires whole { IsWholeEvent event.now }
    requires ready { IsReady (audit_of auditor.old) }
    requires few { length (audit_of auditor.old).messages < MOST_MESSAGES }
    ensures ready { IsReady (audit_of auditor.new) }
    ensures unsent { (audit_of auditor.new).messages ≡ (audit_of auditor.old).messages }
    ensures unlearnt { (audit_of auditor.new).known ≡ (audit_of auditor.old).known }
    ensures others { OthersRest result (audit_of auditor.old).devices (audit_of auditor.new).devices }
    ensures judged { AtEachRun (audit_of auditor.old) event.now (λ τ H. IsHeard T.IsOf τ H event.now left.now line.now (audit_of auditor.new) result) }
{
    // What is seen of the nodes follows from the ledger.
    nodes_follow();
    prices_by_text();
    is_known(&auditor.centre.record);
    let today = auditor.day;
    let found = route(event, &auditor.messages, &auditor.rates);
    let Some(taken) = &found else {
        unreachable!();
    };
    match taken {
        Routed::Day(day) => match day_told(*day, line) {
            Ok(heard) => {
                auditor.day = Some(*day);
                Ok(heard)
            }
            Err(finding) => Err(finding),
        },
        Routed::End => plain(Reply::End, line),
        Routed::OfDay(work) => match today {
            None => plain(Reply::NoDay, line),
            Some(day) => match work {
                OfDay::Rates => of_rates(judge_rates(alloc, &mut auditor.rates, left, line)),
                OfDay::NoMessage(number) => plain(Reply::NoMessage(*number), line),
                OfDay::Reconcile(device) => {
                    let due = compare_in_place(*device, &auditor.devices, &auditor.centre);
                    plain(due, line)
                }
                OfDay::Device(device, asked) => of_node(
                    Some(*device),
                    device_in_place(&mut auditor.devices, *device, day, asked, line),
                ),
                OfDay::Centre(asked) => {
                    hands_centre(asked);
                    of_node(None, judge_centre(&mut auditor.centre, day, asked, line))
                }
                OfDay::Host(asked) => of_node(
                    None,
                    judge_host(&mut auditor.host, day, asked, line),
                ),
                OfDay::Verifier(asked) => {
                    hands_verifier(asked);
                    of_node(None, judge_scans(&mut auditor.verifier, day, asked, line))
                }
            },
        },
    }
}

// Sends the message that was heard of, if there is one, and keeps it and the mark, if that is kept. The mark of the device's last debit is recorded
// as debited, if it was seen.
pub(crate) fn send<T: Tell>(auditor: &mut Auditor, heard: Heard<T>) -> Result<Judged<T>, Finding>
    requires ready { IsReady (audit_of auditor.old) }
    ensures ready { IsReady (audit_of auditor.new) }
    ensures few { length (audit_of auditor.new).messages ≤ length (audit_of auditor.old).messages + 1 }
    ensures kept { keeps (audit_of auditor.new) ≡ keeps (audit_of auditor.old) }
    ensures sent { SendsHeard heard (audit_of auditor.old) (audit_of auditor.new) result }
{
    tick_last(&mut auditor.known.seen, &auditor.devices, heard.device);
    if auditor.known.learn(&heard.sent, &heard.released).is_err() {
        return Err(Finding::Memory);
    }
    let judged = Judged {
        told: heard.told,
        taken: heard.taken,
    };
    let Some(note) = heard.sent else {
        return Ok(judged);
    };
    match auditor.messages.push(note) {
        Ok(()) => Ok(judged),
        Err(_) => Err(Finding::Memory),
    }
}

/// Judges the line of an event, where these bytes of the rates are left. `Ok`, with its turn and how many of them it took, if and only if it may get a
/// reply of that line; the auditor then has what the ledger shows that the reply leaves. `Wrong`, with the answer that was due, if and only if it may get
/// none; the auditor has what it had. `Memory` is lack of memory, for rates, a message or a mark.
pub fn judge<T: Tell>(
    alloc: Global,
    auditor: &mut Auditor,
    event: &Event,
    left: &[u8],
    line: &[u8],
) -> Result<Judged<T>, Finding>
    requires whole { IsWholeEvent event.now }
    requires ready { IsReady (audit_of auditor.old) }
    requires few { length (audit_of auditor.old).messages < MOST_MESSAGES }
    ensures ready { IsReady (audit_of auditor.new) }
    ensures few { length (audit_of auditor.new).messages ≤ length (audit_of auditor.old).messages + 1 }
    ensures kept { keeps (audit_of auditor.new) ≡ keeps (audit_of auditor.old) }
    ensures judged { AtEach (audit_of auditor.old) event.now (λ τ H. IsJudged T.IsOf τ H event.now left.now line.now (audit_of auditor.new) result) }
{
    // What is debited follows from the ledger.
    debits();
    match hear(alloc, auditor, event, left, line) {
        Ok(heard) => send(auditor, heard),
        Err(finding) => Err(finding),
    }
}
