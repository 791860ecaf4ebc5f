//! Messages as bytes.
ghost use Rattle.std.specs.Prelude.{◌≡◌, ◌≤◌, ◌++◌, length};
ghost use Rattle.hmac_core.specs.Hmac.{hmac};
ghost use Rattle.psd_wire.specs.declared.message.Message.TheVariants as m;
ghost use Rattle.psd_wire.specs.Grammar.{IsWhole, body, spell, kind_code, verdict_code};

use crate::message::{DebitMsg, DoneMsg, Message, ReplyMsg, Request};
use bench_base::bytes::Note;
use bench_base::fields::{put_i32, put_u16, put_u32, put_u64};
use bench_base::words::{Key, Kind, Verdict};
use hmac_core::ReadyKey;

fn code_of_kind(kind: Kind) -> u8
    ensures { result ≡ kind_code kind }
{
    match kind {
        Kind::Enrol => 1,
        Kind::Reset => 2,
        Kind::Audit => 3,
        Kind::Refund => 4,
        Kind::Withdraw => 5,
    }
}

fn code_of_verdict(verdict: Verdict) -> u8
    ensures { result ≡ verdict_code verdict }
{
    match verdict {
        Verdict::Granted => 0,
        Verdict::NotEnrolled => 1,
        Verdict::EnrolledAlready => 2,
        Verdict::NoCustomer => 3,
        Verdict::Suspended => 4,
        Verdict::NoFunds => 5,
        Verdict::Imbalance => 6,
    }
}

#[tactic(auto, unfolding(crate::specs::Grammar::body, bench_base::specs::Table::spelled))]
fn first_request(request: &Request) -> [u8; 39]
    requires whole { IsWhole (m.Request request.now) }
    requires version { request.now.version ≡ 1 }
    ensures { result ≡ body (m.Request request.now) }
{
    let mut bytes = [0; 39];
    bytes[0] = request.version;
    bytes[1] = 1;
    put_u32(&mut bytes, 2, request.device);
    put_u32(&mut bytes, 6, request.number);
    bytes[10] = code_of_kind(request.kind);
    put_u32(&mut bytes, 11, request.customer);
    put_u32(&mut bytes, 15, request.amount as u32);
    put_u32(&mut bytes, 19, request.ascending as u32);
    put_u32(&mut bytes, 23, request.descending as u32);
    put_u32(&mut bytes, 27, request.refunded as u32);
    put_u32(&mut bytes, 31, request.pieces);
    put_i32(&mut bytes, 35, request.day.get());
    bytes
}

#[tactic(auto, unfolding(crate::specs::Grammar::body, bench_base::specs::Table::spelled))]
fn second_request(request: &Request) -> [u8; 55]
    requires whole { IsWhole (m.Request request.now) }
    requires version { request.now.version ≡ 2 }
    ensures { result ≡ body (m.Request request.now) }
{
    let mut bytes = [0; 55];
    bytes[0] = request.version;
    bytes[1] = 1;
    put_u32(&mut bytes, 2, request.device);
    put_u32(&mut bytes, 6, request.number);
    bytes[10] = code_of_kind(request.kind);
    put_u32(&mut bytes, 11, request.customer);
    put_u64(&mut bytes, 15, request.amount);
    put_u64(&mut bytes, 23, request.ascending);
    put_u64(&mut bytes, 31, request.descending);
    put_u64(&mut bytes, 39, request.refunded);
    put_u32(&mut bytes, 47, request.pieces);
    put_i32(&mut bytes, 51, request.day.get());
    bytes
}

#[tactic(auto, unfolding(crate::specs::Grammar::body, bench_base::specs::Table::spelled))]
fn first_reply(reply: &ReplyMsg) -> [u8; 24]
    requires whole { IsWhole (m.Reply reply.now) }
    requires version { reply.now.version ≡ 1 }
    ensures { result ≡ body (m.Reply reply.now) }
{
    let mut bytes = [0; 24];
    bytes[0] = reply.version;
    bytes[1] = 2;
    put_u32(&mut bytes, 2, reply.device);
    put_u32(&mut bytes, 6, reply.number);
    bytes[10] = code_of_kind(reply.kind);
    bytes[11] = code_of_verdict(reply.verdict);
    put_u32(&mut bytes, 12, reply.amount as u32);
    put_i32(&mut bytes, 16, reply.deadline);
    put_u32(&mut bytes, 20, reply.origin);
    bytes
}

#[tactic(auto, unfolding(crate::specs::Grammar::body, bench_base::specs::Table::spelled))]
fn second_reply(reply: &ReplyMsg) -> [u8; 28]
    requires whole { IsWhole (m.Reply reply.now) }
    requires version { reply.now.version ≡ 2 }
    ensures { result ≡ body (m.Reply reply.now) }
{
    let mut bytes = [0; 28];
    bytes[0] = reply.version;
    bytes[1] = 2;
    put_u32(&mut bytes, 2, reply.device);
    put_u32(&mut bytes, 6, reply.number);
    bytes[10] = code_of_kind(reply.kind);
    bytes[11] = code_of_verdict(reply.verdict);
    put_u64(&mut bytes, 12, reply.amount);
    put_i32(&mut bytes, 20, reply.deadline);
    put_u32(&mut bytes, 24, reply.origin);
    bytes
}

#[tactic(auto, unfolding(crate::specs::Grammar::body, bench_base::specs::Table::spelled))]
fn done_body(done: &DoneMsg) -> [u8; 10]
    ensures { result ≡ body (m.Done done.now) }
{
    let mut bytes = [0; 10];
    bytes[0] = 1;
    bytes[1] = 3;
    put_u32(&mut bytes, 2, done.device);
    put_u32(&mut bytes, 6, done.number);
    bytes
}

#[tactic(auto, unfolding(crate::specs::Grammar::body, bench_base::specs::Table::spelled))]
fn debit_body(debit: &DebitMsg) -> [u8; 16]
    ensures { result ≡ body (m.Debit debit.now) }
{
    let mut bytes = [0; 16];
    bytes[0] = 1;
    bytes[1] = 16;
    put_u32(&mut bytes, 2, debit.device);
    put_u32(&mut bytes, 6, debit.piece);
    put_u32(&mut bytes, 10, debit.postage);
    put_u16(&mut bytes, 14, debit.class);
    bytes
}

#[tactic(auto, unfolding(crate::specs::Grammar::body))]
fn release_body(mark: &[u8; 64]) -> [u8; 66]
    ensures { result ≡ body (m.Release mark.now) }
{
    let mut bytes = [0; 66];
    bytes[0] = 1;
    bytes[1] = 17;
    bytes[2..].copy_from_slice(mark);
    bytes
}

fn request_body(request: &Request) -> Note
    requires { IsWhole (m.Request request.now) }
    ensures exact { result ≡ body (m.Request request.now) }
    ensures short { length result ≤ 55 }
{
    if request.version == 1 {
        Note::of(&first_request(request))
    } else {
        Note::of(&second_request(request))
    }
}

fn reply_body(reply: &ReplyMsg) -> Note
    requires { IsWhole (m.Reply reply.now) }
    ensures exact { result ≡ body (m.Reply reply.now) }
    ensures short { length result ≤ 55 }
{
    if reply.version == 1 {
        Note::of(&first_reply(reply))
    } else {
        Note::of(&second_reply(reply))
    }
}

/// All bytes of the message but its code. A Debit and a Release have no code.
///
/// The version of a Request or Reply is 1 or 2, and in version 1 its amount and sums are below 2^32. The 64 bytes
/// of a Release are an indicium that `read_indicium` takes.
pub fn write_body(message: &Message) -> Note
    requires { IsWhole message.now }
    ensures { result ≡ body message.now }
{
    match message {
        Message::Request(request) => request_body(request),
        Message::Reply(reply) => reply_body(reply),
        Message::Done(done) => Note::of(&done_body(done)),
        Message::Debit(debit) => Note::of(&debit_body(debit)),
        Message::Release(mark) => Note::of(&release_body(mark)),
    }
}

// A body and its code.
fn coded(body: &[u8], key: &ReadyKey) -> Note
    requires { length body.now ≤ 55 }
    ensures { result ≡ body.now ++ hmac key.now body.now }
{
    let code = key.code(body);
    let front = body.len();
    let mut bytes = [0; 87];
    bytes[..front].copy_from_slice(body);
    bytes[front..front + 32].copy_from_slice(&code);
    Note::of(&bytes[..front + 32])
}

/// The one spelling of the message under the key. A Debit and a Release have no code, and the key does not count.
///
/// The message is as for `write_body`.
#[tactic(auto, unfolding(crate::specs::Grammar::spell))]
pub fn write_message(message: &Message, key: &Key) -> Note
    requires { IsWhole message.now }
    ensures { result ≡ spell message.now key.now }
{
    match message {
        Message::Debit(debit) => Note::of(&debit_body(debit)),
        Message::Release(mark) => Note::of(&release_body(mark)),
        Message::Request(_) | Message::Reply(_) | Message::Done(_) => {
            write_message_by(message, &ReadyKey::new(key))
        }
    }
}

/// As `write_message`, under a key that was made ready.
#[tactic(auto, unfolding(crate::specs::Grammar::spell))]
pub fn write_message_by(message: &Message, key: &ReadyKey) -> Note
    requires { IsWhole message.now }
    ensures { result ≡ spell message.now key.now }
{
    match message {
        Message::Request(request) => coded(request_body(request).as_slice(), key),
        Message::Reply(reply) => coded(reply_body(reply).as_slice(), key),
        Message::Done(done) => coded(&done_body(done), key),
        Message::Debit(debit) => Note::of(&debit_body(debit)),
        Message::Release(mark) => Note::of(&release_body(mark)),
    }
}
