//! What a ruling makes of a row: the verdict, the reply to keep, and the sums after it.
ghost use Rattle.std.specs.Prelude.{◌≡◌, ◌+◌, ◌≤◌};
ghost use Rattle.bench_base.specs.Kinds as kinds;
ghost use Rattle.psd_wire.specs.declared.message.Message.TheVariants as m;
ghost use Rattle.psd_wire.specs.Grammar.{IsWhole, spell};
ghost use Rattle.ledger_terms.specs.Requests.{request_in};
ghost use Rattle.ledger_terms.specs.Sums as sums;
ghost use Rattle.ledger_terms.specs.Rulings as rulings;
ghost use Rattle.centre_ledger.specs.Rows as rows;
ghost use Rattle.centre_ledger.specs.Rows.{ruled_row};
ghost use Rattle.centre_ledger.specs.Soundness.{IsSoundDevice, IsNext, IsVerdict};

use crate::rows::{DeviceRow, Enrolment};
use bench_base::bytes::Note;
use bench_base::numbers::Customer;
use bench_base::words::{Kind, Verdict};
use hmac_core::ReadyKey;
use psd_wire::{Message, ReplyMsg, Request, read_message, write_message_by};

/// How many days after its request a reply lets the device debit.
const DAYS: i32 = 92;

pub fn is_granted(verdict: Verdict) -> bool
    ensures { result ≡ kinds.is_granted verdict }
{
    matches!(verdict, Verdict::Granted)
}

#[tactic(auto, unfolding(bench_base::specs::Kinds::same_kind))]
fn deadline_after(verdict: Verdict, request: &Request) -> i32
    ensures { result ≡ rows.deadline_after verdict request.now }
{
    if is_granted(verdict) && matches!(request.kind, Kind::Reset | Kind::Audit) {
        request.day.get() + DAYS
    } else {
        0
    }
}

fn amount_shown(verdict: Verdict, asked: u64, bought: u64, balance: u64) -> u64
    ensures { result ≡ rows.amount_shown verdict asked bought balance }
{
    match verdict {
        Verdict::Granted => asked,
        Verdict::Imbalance => bought,
        Verdict::NoFunds => balance,
        _ => 0,
    }
}

// A reply of version 1 names an amount of four bytes.
fn written_amount(version: u8, amount: u64) -> u64
    ensures { result ≡ rulings.written_amount version amount }
{
    if version == 1 {
        amount.min(4_294_967_295)
    } else {
        amount
    }
}

// The reply with this verdict, in the request's version.
fn reply_by(row: &DeviceRow, verdict: Verdict, balance: u64, request: &Request) -> ReplyMsg
    ensures { result ≡ rows.reply_by row.now verdict balance request.now }
{
    ReplyMsg {
        version: request.version,
        device: request.device,
        number: request.number,
        kind: request.kind,
        verdict,
        amount: written_amount(
            request.version,
            amount_shown(verdict, request.amount, row.buys, balance),
        ),
        deadline: deadline_after(verdict, request),
        origin: row.origin,
    }
}

fn withdrawn(before: Enrolment) -> Enrolment
    ensures { result ≡ rows.withdrawn_of before }
{
    match before.customer() {
        Some(customer) => Enrolment::Withdrawn(customer),
        None => Enrolment::Registered,
    }
}

// A granted enrolment names a customer.
#[tactic(auto, unfolding(bench_base::specs::Kinds::same_kind))]
fn enrolment_after(before: Enrolment, verdict: Verdict, request: &Request) -> Enrolment
    requires { rows.NamesCustomer verdict request.now }
    ensures { result ≡ rows.enrolment_after before verdict request.now }
{
    if !is_granted(verdict) {
        return before;
    }
    match request.kind {
        Kind::Enrol => match Customer::new(request.customer) {
            Some(customer) => Enrolment::Enrolled(customer),
            None => unreachable!(),
        },
        Kind::Withdraw => withdrawn(before),
        Kind::Reset | Kind::Audit | Kind::Refund => before,
    }
}

#[tactic(auto, unfolding(bench_base::specs::Kinds::same_kind, ledger_terms::specs::Sums::adds))]
pub fn adds(verdict: Verdict, request: &Request) -> u64
    ensures exact { result ≡ sums.adds verdict request.now }
    ensures most { result ≤ request.now.amount }
{
    if is_granted(verdict) && matches!(request.kind, Kind::Reset) {
        request.amount
    } else {
        0
    }
}

#[tactic(auto, unfolding(bench_base::specs::Kinds::same_kind, ledger_terms::specs::Sums::takes))]
pub fn takes(verdict: Verdict, request: &Request) -> u64
    ensures exact { result ≡ sums.takes verdict request.now }
    ensures most { result ≤ request.now.amount }
{
    if is_granted(verdict) && matches!(request.kind, Kind::Refund | Kind::Withdraw) {
        request.amount
    } else {
        0
    }
}

// The row with the ruling on this request, under the row's key made ready.
pub fn ruled_on(
    row: &DeviceRow,
    key: &ReadyKey,
    request: &Request,
    bytes: &Note,
    verdict: Verdict,
    balance: u64,
) -> DeviceRow
    requires key { key.now ≡ row.now.key }
    requires whole { IsWhole (m.Request request.now) }
    requires spelled { spell (m.Request request.now) row.now.key ≡ bytes.now }
    requires device { request.now.device ≡ row.now.device }
    requires number { request.now.number ≡ row.now.ruled + 1 }
    requires sound { IsSoundDevice row.now }
    requires verdict { IsVerdict row.now balance request.now verdict }
    ensures exact { result ≡ ruled_row row.now verdict balance request.now bytes.now }
    ensures sound { IsSoundDevice result }
{
    let reply = Message::Reply(reply_by(row, verdict, balance, request));
    DeviceRow {
        device: row.device,
        enrolment: enrolment_after(row.enrolment, verdict, request),
        origin: row.origin,
        key: row.key,
        ruled: request.number,
        settled: row.ruled,
        buys: row.buys + adds(verdict, request),
        returns: row.returns + takes(verdict, request),
        request: *bytes,
        reply: write_message_by(&reply, key),
    }
}

/// The row with the ruling on the bytes of a request.
///
/// The bytes are the device's next request under its key, and the verdict is the one that `verdict` answers, with the
/// balance, in mills, of the device's own customer. The reply has the request's version, and is kept beside it; one of version 1
/// names no amount above 4,294,967,295.
pub fn ruled(row: &DeviceRow, request: &Note, verdict: Verdict, balance: u64) -> DeviceRow
    requires sound { IsSoundDevice row.now }
    requires next { IsNext row.now request.now }
    requires verdict { IsVerdict row.now balance (request_in request.now) verdict }
    ensures exact { result ≡ ruled_row row.now verdict balance (request_in request.now) request.now }
    ensures sound { IsSoundDevice result }
{
    match read_message(request.as_slice()) {
        Ok(Message::Request(asked)) => {
            let key = ReadyKey::new(&row.key);
            ruled_on(row, &key, &asked, request, verdict, balance)
        }
        _ => *row,
    }
}
