//! Whether a row that was read meets its conditions.
ghost use Rattle.std.specs.Prelude.{◌≡◌, ◌↔◌, IfSome, IsTrue, None};
ghost use Rattle.bench_base.specs.Ranges.{IsCustomer};
ghost use Rattle.psd_wire.specs.declared.{message.Request.Request as TheRequest, message.ReplyMsg.ReplyMsg as TheReply};
ghost use Rattle.centre_ledger.specs.Parts as parts;
ghost use Rattle.centre_ledger.specs.Parts.{IsSpelled, HasMessages, IsAnswer, IsCovered};
ghost use Rattle.centre_ledger.specs.Rows.{customer_of};
ghost use Rattle.centre_ledger.specs.Soundness.{IsRuling, IsSoundDevice, IsSoundCustomer};

use crate::rows::{CustomerRow, DeviceRow, Enrolment};
use crate::settling::{DEPOSIT_LIMIT, DEPOSITS_LIMIT};
use bench_base::refusals::Unread;
use bench_base::words::{Kind, Verdict};
use psd_wire::{Message, ReplyMsg, Request, read_message};

/// Whether a device's row meets its conditions. The codes of its messages are right (condition), and are not made again.
pub fn is_sound_device(row: &DeviceRow) -> bool
    requires { HasMessages row.now }
    ensures { IsTrue result ↔ IsSoundDevice row.now }
{
    is_enrolment_right(row.enrolment, row.buys)
        && row.settled <= row.ruled
        && row.ruled - row.settled <= 1
        && row.returns <= row.buys
        && (row.ruled == 0 || is_ruling_right(row))
}

/// Whether a customer's row meets its conditions.
pub fn is_sound_customer(row: &CustomerRow) -> bool
    ensures { IsTrue result ↔ IsSoundCustomer row.now }
{
    let is_new = row.deposits == 0;
    row.deposits <= DEPOSITS_LIMIT
        && row.amount <= DEPOSIT_LIMIT
        && u64::from(row.amount) <= row.deposits
        && (row.receipt == 0) == is_new
        && (row.amount == 0) == is_new
}

// A device that was never enrolled bought nothing.
fn is_enrolment_right(enrolment: Enrolment, buys: u64) -> bool
    ensures { IsTrue result ↔ ((customer_of enrolment ≡ None → buys ≡ 0) × IfSome (customer_of enrolment) IsCustomer) }
{
    match enrolment {
        Enrolment::Registered => buys == 0,
        Enrolment::Enrolled(_) | Enrolment::Withdrawn(_) => true,
    }
}

// Whether the messages are a request of the device and the reply to it.
fn is_ruling_right(row: &DeviceRow) -> bool
    requires request { IsSpelled row.now.key row.now.request }
    requires reply { IsSpelled row.now.key row.now.reply }
    ensures { IsTrue result ↔ ((q : TheRequest) × (p : TheReply) × IsRuling row.now q p) }
{
    let Some(request) = request_of(read_message(row.request.as_slice())) else {
        return false;
    };
    let Some(reply) = reply_of(read_message(row.reply.as_slice())) else {
        return false;
    };
    is_answer(row, &request, &reply) && is_covered(row, &reply)
}

// The Request, if the message is one.
fn request_of(message: Result<Message, Unread>) -> Option<Request>
    ensures { result ≡ parts.request_of message }
{
    match message {
        Ok(Message::Request(request)) => Some(request),
        _ => None,
    }
}

// The Reply, if the message is one.
fn reply_of(message: Result<Message, Unread>) -> Option<ReplyMsg>
    ensures { result ≡ parts.reply_of message }
{
    match message {
        Ok(Message::Reply(reply)) => Some(reply),
        _ => None,
    }
}

// Whether both messages are the device's, of the last number, and of one kind and version.
fn is_answer(row: &DeviceRow, request: &Request, reply: &ReplyMsg) -> bool
    ensures { IsTrue result ↔ IsAnswer row.now request.now reply.now }
{
    let device = row.device.get();
    request.device == device
        && request.number == row.ruled
        && reply.device == device
        && reply.number == row.ruled
        && request.kind == reply.kind
        && request.version == reply.version
}

// Whether what is acknowledged is not below 0 without the ruling in flight.
#[tactic(auto, unfolding(bench_base::specs::Kinds::same_kind))]
fn is_covered(row: &DeviceRow, reply: &ReplyMsg) -> bool
    ensures { IsTrue result ↔ IsCovered row.now reply.now }
{
    if u64::from(row.ruled) != u64::from(row.settled) + 1
        || !matches!(reply.verdict, Verdict::Granted)
    {
        return true;
    }
    match reply.kind {
        Kind::Reset => u128::from(row.returns) + u128::from(reply.amount) <= u128::from(row.buys),
        Kind::Refund | Kind::Withdraw => reply.amount <= row.returns,
        Kind::Enrol | Kind::Audit => true,
    }
}
