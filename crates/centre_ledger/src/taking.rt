//! What the centre does with a message that it takes, decided by its rows alone. Amounts are in mills.
ghost use Rattle.std.specs.Prelude.{◌≡◌, ◌+◌, false, Ok, Some};
ghost use Rattle.psd_wire.specs.declared.message.Message.TheVariants as m;
ghost use Rattle.psd_wire.specs.Grammar.{IsWhole, read, spell};
ghost use Rattle.ledger_terms.specs.Rulings as rulings;
ghost use Rattle.centre_ledger.specs.Acts as act_of;
ghost use Rattle.centre_ledger.specs.Answers.{settle_answer};
ghost use Rattle.centre_ledger.specs.Books.{device_at, AreSound};
ghost use Rattle.centre_ledger.specs.Rows.{enrolled_in, settled_row};
ghost use Rattle.centre_ledger.specs.Soundness.{IsSoundDevice};
ghost use Rattle.centre_ledger.specs.Standing as stands;

use crate::accounts::Accounts;
use crate::acts::CentreAct;
use crate::replies::ruled_on;
use crate::rows::{DeviceRow, Row};
use crate::rulings::verdict;
use crate::settling::{is_repeat, settled};
use crate::standing::ruling_in;
use bench_base::bytes::Note;
use bench_base::ledger::Commit;
use bench_base::numbers::DevNo;
use bench_base::refusals::{CentreRefusal, Unread};
use bench_base::words::{Kind, Verdict};
use hmac_core::ReadyKey;
use node_acts::Act;
use psd_wire::{DoneMsg, Message, Request, is_own_code, read_message};

/// What became of a message that the centre took.
#[derive(Clone, Copy)]
pub enum CentreAnswer {
    /// A request: it has this verdict, and this reply goes back; whether it was ruled on before.
    Ruled {
        device: DevNo,
        number: u32,
        verdict: Verdict,
        reply: Note,
        again: bool,
    },
    /// A done: the transaction of this number is settled, and whether it was before.
    Settled {
        device: DevNo,
        number: u32,
        again: bool,
    },
}

// The customer who pays: the one asked for at an enrolment, otherwise the device's own.
#[tactic(auto, unfolding(bench_base::specs::Kinds::same_kind))]
fn payer(row: &DeviceRow, request: &Request) -> u32
    ensures { result ≡ rulings.payer request.now (enrolled_in row.now) }
{
    match request.kind {
        Kind::Enrol => request.customer,
        _ => row.enrolment.customer_number(),
    }
}

// The reply that is kept is given again, with its verdict.
fn repeated_act(row: &DeviceRow) -> CentreAct<CentreAnswer>
    ensures { result ≡ act_of.repeated_act row.now (stands.ruling_in row.now) }
{
    match ruling_in(row) {
        Some((verdict, _)) => Act::Tell(CentreAnswer::Ruled {
            device: row.device,
            number: row.ruled,
            verdict,
            reply: row.reply,
            again: true,
        }),
        None => Act::Refuse(CentreRefusal::Changed(row.ruled)),
    }
}

// The device's next request is ruled, in one commit with the reply.
fn ruled_act(
    note: &Note,
    request: &Request,
    row: &DeviceRow,
    key: &ReadyKey,
    accounts: &Accounts,
) -> CentreAct<CentreAnswer>
    requires key { key.now ≡ row.now.key }
    requires sound { AreSound accounts.now }
    requires row { device_at accounts.now request.now.device ≡ Some row.now }
    requires whole { IsWhole (m.Request request.now) }
    requires spelled { spell (m.Request request.now) row.now.key ≡ note.now }
    requires number { request.now.number ≡ row.now.ruled + 1 }
    ensures { result ≡ act_of.turn_act note.now request.now row.now (act_of.in_books accounts.now) (Ok false) }
{
    let left = accounts.left(row.enrolment.customer_number());
    let verdict = verdict(row, accounts.customer(payer(row, request)), left, request);
    let next = ruled_on(row, key, request, note, verdict, left);
    let reply = next.reply;
    Act::Commits(
        Commit::Ruled {
            device: row.device,
            number: request.number,
            verdict,
            request: *note,
        },
        Row::Device(next),
        CentreAnswer::Ruled {
            device: row.device,
            number: request.number,
            verdict,
            reply,
            again: false,
        },
    )
}

fn request_act(bytes: &[u8], request: &Request, accounts: &Accounts) -> CentreAct<CentreAnswer>
    requires reads { read bytes.now ≡ Ok (m.Request request.now) }
    ensures { result ≡ act_of.request_act bytes.now request.now (device_at accounts.now request.now.device) (act_of.in_books accounts.now) }
{
    let Some(kept) = accounts.ready(request.device) else {
        return Act::Refuse(CentreRefusal::UnknownDevice(request.device));
    };
    let (row, key) = (kept.row(), kept.key());
    if !is_own_code(bytes, key) {
        return Act::Refuse(CentreRefusal::BadCode);
    }
    match is_repeat(row, request.number, bytes) {
        Err(refusal) => Act::Refuse(refusal),
        Ok(true) => repeated_act(row),
        Ok(false) => ruled_act(&Note::of(bytes), request, row, key, accounts),
    }
}

// A done with the device's own code.
fn settled_act(row: &DeviceRow, number: u32) -> CentreAct<CentreAnswer>
    requires { IsSoundDevice row.now }
    ensures { result ≡ act_of.settled_act row.now number (settled_row row.now (settle_answer row.now.settled row.now.ruled number)) }
{
    let device = row.device;
    match settled(row, number) {
        Err(refusal) => Act::Refuse(refusal),
        Ok(None) => Act::Tell(CentreAnswer::Settled {
            device,
            number,
            again: true,
        }),
        Ok(Some(next)) => Act::Commits(
            Commit::Settled { device, number },
            Row::Device(next),
            CentreAnswer::Settled {
                device,
                number,
                again: false,
            },
        ),
    }
}

fn done_act(bytes: &[u8], done: &DoneMsg, accounts: &Accounts) -> CentreAct<CentreAnswer>
    ensures { result ≡ act_of.done_act bytes.now done.now (device_at accounts.now done.now.device) }
{
    let Some(kept) = accounts.ready(done.device) else {
        return Act::Refuse(CentreRefusal::UnknownDevice(done.device));
    };
    if !is_own_code(bytes, kept.key()) {
        return Act::Refuse(CentreRefusal::BadCode);
    }
    settled_act(kept.row(), done.number)
}

/// Takes a Request, of either version, or a Done. The first refusal that holds is answered:
///
/// 1. `Unread` of `read_message`.
/// 2. `Unread` with `Tag` for another message.
/// 3. `UnknownDevice`, with its number, if and only if the device is not registered.
/// 4. `BadCode` if and only if the code does not match under the device's key.
/// 5. For a Request those of `is_repeat`, and for a Done those of `settled`.
///
/// A Request that is the last one again gets the reply that is kept, without a commit. A Done that was settled before is
/// answered so, also without a commit. Another Request is ruled as `verdict` and `ruled` say, in one commit.
pub fn take_act(bytes: &[u8], accounts: &Accounts) -> CentreAct<CentreAnswer>
    ensures { result ≡ act_of.take_act bytes.now accounts.now }
{
    match read_message(bytes) {
        Err(fault) => Act::Refuse(CentreRefusal::Unread(fault)),
        Ok(Message::Request(request)) => request_act(bytes, &request, accounts),
        Ok(Message::Done(done)) => done_act(bytes, &done, accounts),
        Ok(_) => Act::Refuse(CentreRefusal::Unread(Unread::Tag)),
    }
}
