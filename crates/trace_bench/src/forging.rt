//! Whether an event contains forged bytes from outside, and what makes that quick.
ghost use Rattle.std.specs.Prelude.{◌≡◌, ◌≢◌, Some, IfSome, IfNone, IsTrue, IsFalse, MatchBool, OnOk, option_map};
ghost use Rattle.bench_base.specs.Events.{brought_by};
ghost use Rattle.bench_base.specs.declared.questions.Brought.TheVariants.{Nothing};
ghost use Rattle.indicium.specs.Marks.{read_mark};
ghost use Rattle.psd_wire.specs.Grammar.{read};
ghost use Rattle.trace_centre.specs.Cells.{cells_of};
ghost use Rattle.trace_device.specs.Records.{seen_of};
ghost use Rattle.trace_verifier.specs.Cells as scans;
ghost use Rattle.trace_bench.specs.Forging as forging;
ghost use Rattle.trace_bench.specs.Forging.{GivesForged, BringsForged, TellsForged, IsFoundFor, IsSame};
ghost use Rattle.trace_bench.specs.Seeing.{IsReady, audit_of, keeps};
ghost use Rattle.trace_bench.specs.Telling.{OfDevice};

use crate::auditor::Auditor;
use crate::known::ByteSet;
use crate::telling::traced_of;
use bench_base::bytes::Note;
use bench_base::events::Event;
use bench_base::numbers::DevNo;
use bench_base::questions::Brought;
use bench_base::words::Node;
use centre_ledger::Accounts;
use hmac_core::ReadyKey;
use indicium::read_indicium;
use ledger_laws::laws::{counts, histories};
use psd_state::ReadyRecord;
use psd_wire::{Message, is_own_code, read_message};
use std::alloc::{AllocError, Global};
use trace_verifier::ScanRecord;

// Whether the bytes have the code of this key and are not known.
fn is_unknown(bytes: &[u8], key: &ReadyKey, known: &ByteSet<Note>) -> bool
    ensures { result ≡ forging.is_unknown bytes.now (Some key.now) known.now }
{
    is_own_code(bytes, key) && !known.has(bytes)
}

// Whether the bytes have the code of the device of this record and are not known.
fn is_unknown_of(state: &Option<ReadyRecord>, bytes: &[u8], known: &ByteSet<Note>) -> bool
    ensures { result ≡ forging.is_unknown bytes.now (option_map (λ s. s.key) state.now) known.now }
{
    match state {
        Some(state) => is_unknown(bytes, &ReadyKey::new(state.record().key()), known),
        None => false,
    }
}

// Whether bytes that name this device have the code of its row and are not known.
fn is_forged_by(accounts: &Accounts, device: u32, bytes: &[u8], known: &ByteSet<Note>) -> bool
    ensures { result ≡ forging.forged_by accounts.now device bytes.now known.now }
{
    let Some(device) = DevNo::new(device) else {
        return false;
    };
    match accounts.ready(device.get()) {
        Some(row) => is_unknown(bytes, row.key(), known),
        None => false,
    }
}

// Whether bytes that are given to this device are a forged Reply.
fn is_forged_reply(auditor: &Auditor, device: DevNo, bytes: &[u8]) -> bool
    requires ready { IsReady (audit_of auditor.now) }
    ensures { OfDevice device (audit_of auditor.now)
        (λ s. result ≡ forging.forged_reply (seen_of s.record).state device bytes.now (audit_of auditor.now).known.sent (read bytes.now)) }
{
    let traced = traced_of(&auditor.devices, device);
    match &read_message(bytes) {
        Ok(Message::Reply(reply)) => reply.device == device.get()
            && is_unknown_of(&traced.record.state, bytes, &auditor.known.sent),
        Ok(Message::Request(_))
        | Ok(Message::Done(_))
        | Ok(Message::Debit(_))
        | Ok(Message::Release(_))
        | Err(_) => false,
    }
}

// Whether bytes that are given to the centre are a forged Request or a forged Done.
fn is_forged_message(accounts: &Accounts, bytes: &[u8], known: &ByteSet<Note>) -> bool
    ensures { result ≡ forging.forged_message accounts.now bytes.now known.now (read bytes.now) }
{
    match &read_message(bytes) {
        Ok(Message::Request(request)) => is_forged_by(accounts, request.device, bytes, known),
        Ok(Message::Done(done)) => is_forged_by(accounts, done.device, bytes, known),
        Ok(Message::Reply(_)) | Ok(Message::Debit(_)) | Ok(Message::Release(_)) | Err(_) => false,
    }
}

// Whether bytes that are given to the host are a forged Release: it has no key, so each that was not released is.
fn is_forged_release(bytes: &[u8], known: &ByteSet<[u8; 64]>) -> bool
    ensures { result ≡ forging.forged_release known.now (read bytes.now) }
{
    match &read_message(bytes) {
        Ok(Message::Release(mark)) => !known.has(&mark[..]),
        Ok(Message::Request(_))
        | Ok(Message::Done(_))
        | Ok(Message::Debit(_))
        | Ok(Message::Reply(_))
        | Err(_) => false,
    }
}

// Whether scanned bytes are a forged mark.
fn is_forged_mark(rows: &ScanRecord, bytes: &[u8], known: &ByteSet<[u8; 64]>) -> bool
    ensures { result ≡ forging.forged_mark (scans.cells_of rows.now) bytes.now known.now (read_mark bytes.now) }
{
    match &read_indicium(bytes) {
        Ok((mark, _)) => match rows.key(mark.device) {
            Some(key) => is_own_code(bytes, key) && !known.has(bytes),
            None => false,
        },
        Err(_) => false,
    }
}

// Whether bytes that are given to this node are forged.
fn gives_forged(auditor: &Auditor, node: &Node, bytes: &[u8]) -> bool
    requires ready { IsReady (audit_of auditor.now) }
    ensures { GivesForged (audit_of auditor.now) node.now bytes.now result }
{
    match node {
        Node::Device(device) => is_forged_reply(auditor, *device, bytes),
        Node::Centre => is_forged_message(
            auditor.centre.record.accounts(),
            bytes,
            &auditor.known.sent,
        ),
        Node::Host => is_forged_release(bytes, &auditor.known.released),
        Node::Verifier => false,
    }
}

/// Puts what was sent and released since it was last asked for to where each is found by its hash, if `is_forged` asks for it of this
/// event. What the auditor has stays the same, also where there is no memory; and so does what `is_forged` answers, which walks whatever
/// was not put there.
pub fn index(alloc: Global, auditor: &mut Auditor, event: &Event) -> Result<(), AllocError>
    requires ready { IsReady (audit_of auditor.old) }
    ensures ready { IsReady (audit_of auditor.new) }
    ensures kept { keeps (audit_of auditor.new) ≡ keeps (audit_of auditor.old) }
    ensures same { IsSame (audit_of auditor.old) (audit_of auditor.new) }
    ensures found { OnOk result (IsFoundFor event.now (audit_of auditor.new).known) }
{
    match &event.brings() {
        Brought::Handed(_, _) => {
            auditor.known.sent.index(alloc)?;
            auditor.known.released.index(alloc)
        }
        Brought::Scanned(_) => auditor.known.released.index(alloc),
        Brought::Nothing => Ok(()),
    }
}

// Whether the event contains forged bytes, by an auditor that keeps what was sent and released.
fn brings_forged(auditor: &Auditor, event: &Event) -> bool
    requires ready { IsReady (audit_of auditor.now) }
    requires kept { IsTrue (keeps (audit_of auditor.now)).all }
    ensures by_record { BringsForged (audit_of auditor.now) event.now result }
    ensures by_ledger { TellsForged (audit_of auditor.now) event.now result }
{
    // The devices in a history are eight.
    histories();
    counts();
    match &event.brings() {
        Brought::Handed(node, bytes) => gives_forged(auditor, node, bytes.as_slice()),
        Brought::Scanned(bytes) => is_forged_mark(
            &auditor.verifier.record,
            bytes.as_slice(),
            &auditor.known.released,
        ),
        Brought::Nothing => false,
    }
}

// Whether the event contains no bytes.
fn brings_nothing(event: &Event) -> bool
    ensures { MatchBool result (brought_by event.now ≡ Nothing) (brought_by event.now ≢ Nothing) }
{
    match &event.brings() {
        Brought::Nothing => true,
        Brought::Handed(_, _) => false,
        Brought::Scanned(_) => false,
    }
}

/// Whether the event contains forged bytes. Bytes of a `give` or of a `scan hex` are forged if they have the right MAC of whoever they name, and no
/// node sent or released them in any run before. A mark for the host, which has no key, is forged if it was not released. None only if the event
/// contains bytes and the auditor does not keep what was sent and released.
pub fn is_forged(auditor: &Auditor, event: &Event) -> Option<bool>
    requires ready { IsReady (audit_of auditor.now) }
    ensures unkept { IfNone result (IsFalse (keeps (audit_of auditor.now)).all) }
    ensures brings { IfNone result (brought_by event.now ≢ Nothing) }
    ensures by_record { IfSome result (λ b. BringsForged (audit_of auditor.now) event.now b) }
    ensures by_ledger { IfSome result (λ b. TellsForged (audit_of auditor.now) event.now b) }
{
    if auditor.known.is_kept {
        return Some(brings_forged(auditor, event));
    }
    if brings_nothing(event) {
        Some(false)
    } else {
        None
    }
}
