//! What a device does in a call, decided by its record alone. Money is in mills, and a day counts from 1970-01-01.
ghost use Rattle.std.specs.Prelude.{◌≡◌};
ghost use Rattle.bench_base.specs.Rules.{todays_rules};
ghost use Rattle.psd_state.specs.Answers.{apply_answer, debit_answer};
ghost use Rattle.psd_state.specs.Acts as act_of;

use crate::debiting::Debited;
use crate::ready_record::ReadyRecord;
use crate::record::DevRec;
use crate::words::VERSION;
use bench_base::bytes::Note;
use bench_base::events::DevView as DevStatus;
use bench_base::ledger::Commit;
use bench_base::numbers::{DayNo, DevNo};
use bench_base::refusals::{DevRefusal, Unread};
use bench_base::words::{Key, Kind, Verdict};
use node_acts::Act;
use psd_wire::{DebitMsg, Message, ReplyMsg, is_own_code, read_message};

/// What a call of a device does.
pub type DeviceAct<A> = Act<DevRec, DevRefusal, A>;

/// The mark of a piece, and whether it was debited before.
#[derive(Clone, Copy)]
pub struct Franked {
    pub mark: [u8; 64],
    pub again: bool,
}

/// What became of a message that a device took.
#[derive(Clone, Copy)]
pub enum Taken {
    /// A reply: the transaction of this number is over.
    Applied {
        number: u32,
        verdict: Verdict,
    },
    /// A debit: the mark of the piece, and whether it was debited before.
    Released {
        piece: u32,
        mark: [u8; 64],
        again: bool,
    },
}

/// The commit of a debit of a piece that was not debited before.
pub fn debit_commit(device: DevNo, command: &DebitMsg, day: DayNo) -> Commit
    ensures { result ≡ act_of.debit_commit todays_rules device command.now day }
{
    Commit::Debited {
        device,
        piece: command.piece,
        postage: command.postage,
        class: command.class,
        day,
        version: VERSION,
    }
}

/// Makes the device under a key. `Made` if and only if it was made before.
pub fn make_act(device: DevNo, key: &Key, state: &Option<ReadyRecord>) -> DeviceAct<()>
    ensures { result ≡ act_of.make_act device key.now state.now }
{
    match state {
        Some(_) => Act::Refuse(DevRefusal::Made),
        None => Act::Commits(
            Commit::Made { device, key: *key },
            DevRec::made(device, key),
            (),
        ),
    }
}

/// Marks a piece: see `DevRec::debit`. `Blank`, before its refusals, if and only if there is no record. The mark of the last
/// piece is given once more without a commit.
pub fn debit_act(
    device: DevNo,
    command: &DebitMsg,
    day: DayNo,
    state: &Option<ReadyRecord>,
) -> DeviceAct<Franked>
    ensures { result ≡ act_of.debit_act todays_rules device command.now day state.now }
{
    match state {
        Some(record) => franked_act(device, command, day, record),
        None => Act::Refuse(DevRefusal::Blank),
    }
}

// A function of its own when it is compiled too, since it clears what a debit gives as it begins.
#[inline(always)]
fn franked_act(
    device: DevNo,
    command: &DebitMsg,
    day: DayNo,
    kept: &ReadyRecord,
) -> DeviceAct<Franked>
    ensures { result ≡ act_of.franked_act todays_rules device command.now day (debit_answer todays_rules kept.now command.now day) }
{
    match &kept.record().debit_by(command, day, kept.key()) {
        Err(refusal) => Act::Refuse(*refusal),
        Ok(Debited::Again(mark)) => Act::Tell(Franked {
            mark: *mark,
            again: true,
        }),
        Ok(Debited::New(next, mark)) => Act::Commits(
            debit_commit(device, command, day),
            *next,
            Franked {
                mark: *mark,
                again: false,
            },
        ),
    }
}

/// Asks for a transaction: see `DevRec::ask`. `Blank`, before its refusals, if and only if there is no record. The customer
/// counts for an enrolment only, and the amount, in mills, for a reset only.
pub fn ask_act(
    device: DevNo,
    kind: Kind,
    customer: u32,
    amount: u32,
    day: DayNo,
    state: &Option<ReadyRecord>,
) -> DeviceAct<Note>
    ensures { result ≡ act_of.ask_act todays_rules device kind customer amount day state.now }
{
    let Some(record) = state else {
        return Act::Refuse(DevRefusal::Blank);
    };
    let kept = record.record();
    match kept.ask_by(kind, customer, amount, day, record.key()) {
        Err(refusal) => Act::Refuse(refusal),
        Ok((next, note)) => {
            let number = kept.number() + 1;
            Act::Commits(
                Commit::Asked {
                    device,
                    number,
                    request: note,
                },
                next,
                note,
            )
        }
    }
}

// A reply with the device's own code.
fn apply_act(device: DevNo, reply: &ReplyMsg, kept: &DevRec) -> DeviceAct<Taken>
    ensures { result ≡ act_of.applied_act device reply.now (apply_answer kept.now kept.now.pending reply.now) }
{
    match kept.apply(reply) {
        Err(refusal) => Act::Refuse(refusal),
        Ok(next) => Act::Commits(
            Commit::Applied {
                device,
                number: reply.number,
                verdict: reply.verdict,
            },
            next,
            Taken::Applied {
                number: reply.number,
                verdict: reply.verdict,
            },
        ),
    }
}

fn reply_act(
    device: DevNo,
    bytes: &[u8],
    reply: &ReplyMsg,
    state: &Option<ReadyRecord>,
) -> DeviceAct<Taken>
    ensures { result ≡ act_of.reply_act device bytes.now reply.now state.now }
{
    let Some(record) = state else {
        return Act::Refuse(DevRefusal::Blank);
    };
    if reply.device != device.get() {
        return Act::Refuse(DevRefusal::WrongDevice(reply.device));
    }
    if !is_own_code(bytes, record.key()) {
        return Act::Refuse(DevRefusal::BadCode);
    }
    apply_act(device, reply, record.record())
}

// A debit that came as a message: the piece is reported too.
fn released(piece: u32, act: DeviceAct<Franked>) -> DeviceAct<Taken>
    ensures { result ≡ act_of.released piece act }
{
    match act {
        Act::Refuse(refusal) => Act::Refuse(refusal),
        Act::Tell(franked) => Act::Tell(released_of(piece, franked)),
        Act::Commits(commit, next, franked) => {
            Act::Commits(commit, next, released_of(piece, franked))
        }
    }
}

fn released_of(piece: u32, franked: Franked) -> Taken
    ensures { result ≡ act_of.released_of piece franked }
{
    let mark = franked.mark;
    Taken::Released {
        piece,
        mark,
        again: franked.again,
    }
}

/// Takes a Reply or a Debit. The first refusal that holds is answered:
///
/// 1. `Unread` of `read_message`.
/// 2. `Unread` with `Tag` for another message.
/// 3. For a Debit those of `debit_act`.
/// 4. For a Reply `Blank`, `WrongDevice` with the Reply's device, `BadCode` if and only if its code is not of this device's
///    key, and then those of `DevRec::apply`.
pub fn take_act(
    device: DevNo,
    bytes: &[u8],
    day: DayNo,
    state: &Option<ReadyRecord>,
) -> DeviceAct<Taken>
    ensures { result ≡ act_of.take_act todays_rules device bytes.now day state.now }
{
    match read_message(bytes) {
        Err(unread) => Act::Refuse(DevRefusal::Unread(unread)),
        Ok(Message::Reply(reply)) => reply_act(device, bytes, &reply, state),
        Ok(Message::Debit(command)) => {
            released(command.piece, debit_act(device, &command, day, state))
        }
        Ok(_) => Act::Refuse(DevRefusal::Unread(Unread::Tag)),
    }
}

/// The request that is outstanding, byte for byte as it was sent. `Blank`, then `NothingPending`.
pub fn resend_act(state: &Option<ReadyRecord>) -> DeviceAct<Note>
    ensures { result ≡ act_of.resend_act state.now }
{
    let Some(record) = state else {
        return Act::Refuse(DevRefusal::Blank);
    };
    match record.record().resend_by(record.key()) {
        Ok(note) => Act::Tell(note),
        Err(refusal) => Act::Refuse(refusal),
    }
}

/// The message that the last transaction was applied. `Blank`, then `NothingDone`.
pub fn ack_act(state: &Option<ReadyRecord>) -> DeviceAct<Note>
    ensures { result ≡ act_of.ack_act state.now }
{
    let Some(record) = state else {
        return Act::Refuse(DevRefusal::Blank);
    };
    match record.record().done_by(record.key()) {
        Ok(bytes) => Act::Tell(Note::of(&bytes)),
        Err(refusal) => Act::Refuse(refusal),
    }
}

/// What the device shows of its record on that day. `Blank` if there is no record.
pub fn status_act(day: DayNo, state: &Option<ReadyRecord>) -> DeviceAct<DevStatus>
    ensures { result ≡ act_of.status_act day state.now }
{
    match state {
        Some(record) => Act::Tell(record.record().status(day)),
        None => Act::Refuse(DevRefusal::Blank),
    }
}
