//! Messages out of bytes.
ghost use Rattle.std.specs.Prelude.{◌≡◌, ◌≢◌, ◌≤◌, ◌↔◌, IsTrue, IfOk, IfSome, IfNone, IsErrOf, Ok, length, slice_index};
ghost use Rattle.bench_base.specs.Table.{Four, Eight, room, values};
ghost use Rattle.bench_base.specs.declared.refusals.Unread.{Unread as TheUnread};
ghost use Rattle.psd_wire.specs.declared.message.Message.{Message as TheMessage};
ghost use Rattle.psd_wire.specs.Grammar.{read, kind_of, verdict_of, size_of, sum_size, request_table, reply_table, request_in, reply_in, request_at, reply_at, done_at, debit_at, release_at, body, spell, IsWhole, IsCoded, IsReading, HasCode, coded_in};
ghost use Rattle.psd_wire.specs.Codes.{has_code};
ghost use Rattle.psd_wire.specs.Faults.{HasFault};

use crate::message::{DebitMsg, DoneMsg, Message, ReplyMsg, Request};
use bench_base::fields::{i32_at, u16_at, u32_at, u64_at};
use bench_base::numbers::{DayNo, is_known_version};
use bench_base::refusals::Unread;
use bench_base::words::{Key, Kind, Verdict};
use hmac_core::ReadyKey;
use indicium::read_indicium;

#[tactic(auto, unfolding(crate::specs::Grammar::kind_of))]
fn kind_from(code: u8) -> Option<Kind>
    ensures { result ≡ kind_of code }
{
    match code {
        1 => Some(Kind::Enrol),
        2 => Some(Kind::Reset),
        3 => Some(Kind::Audit),
        4 => Some(Kind::Refund),
        5 => Some(Kind::Withdraw),
        _ => None,
    }
}

#[tactic(auto, unfolding(crate::specs::Grammar::verdict_of))]
fn verdict_from(code: u8) -> Option<Verdict>
    ensures { result ≡ verdict_of code }
{
    match code {
        0 => Some(Verdict::Granted),
        1 => Some(Verdict::NotEnrolled),
        2 => Some(Verdict::EnrolledAlready),
        3 => Some(Verdict::NoCustomer),
        4 => Some(Verdict::Suspended),
        5 => Some(Verdict::NoFunds),
        6 => Some(Verdict::Imbalance),
        _ => None,
    }
}

// How many bytes a message of this version and tag has.
#[tactic(auto, unfolding(crate::specs::Grammar::size_of))]
fn length_of(version: u8, tag: u8) -> Option<usize>
    ensures { result ≡ size_of version tag }
{
    match (version == 1, tag) {
        (true, 1) => Some(71),
        (true, 2) => Some(56),
        (true, 3) => Some(42),
        (true, 16) => Some(16),
        (true, 17) => Some(66),
        (false, 1) => Some(87),
        (false, 2) => Some(60),
        _ => None,
    }
}

#[tactic(auto, unfolding(crate::specs::Grammar::request_at))]
fn request_from(bytes: &[u8]) -> Result<Message, Unread>
    requires { room (request_table (sum_size (slice_index bytes.now 0))) ≤ length bytes.now }
    ensures { result ≡ request_at bytes.now }
{
    if bytes[0] == 1 {
        first_request(bytes)
    } else {
        second_request(bytes)
    }
}

// A Request of version 1.
#[tactic(auto, unfolding(crate::specs::Grammar::day_of, bench_base::specs::Table::number))]
fn first_request(bytes: &[u8]) -> Result<Message, Unread>
    requires { 39 ≤ length bytes.now }
    ensures { result ≡ request_in (values 0 (request_table Four) bytes.now) }
{
    let Some(kind) = kind_from(bytes[10]) else {
        return Err(Unread::Kind);
    };
    let Some(day) = DayNo::new(i32_at(bytes, 35)) else {
        return Err(Unread::Day);
    };
    Ok(Message::Request(Request {
        version: bytes[0],
        device: u32_at(bytes, 2),
        number: u32_at(bytes, 6),
        kind,
        customer: u32_at(bytes, 11),
        amount: u64::from(u32_at(bytes, 15)),
        ascending: u64::from(u32_at(bytes, 19)),
        descending: u64::from(u32_at(bytes, 23)),
        refunded: u64::from(u32_at(bytes, 27)),
        pieces: u32_at(bytes, 31),
        day,
    }))
}

// A Request of version 2.
#[tactic(auto, unfolding(crate::specs::Grammar::day_of, bench_base::specs::Table::number))]
fn second_request(bytes: &[u8]) -> Result<Message, Unread>
    requires { 55 ≤ length bytes.now }
    ensures { result ≡ request_in (values 0 (request_table Eight) bytes.now) }
{
    let Some(kind) = kind_from(bytes[10]) else {
        return Err(Unread::Kind);
    };
    let Some(day) = DayNo::new(i32_at(bytes, 51)) else {
        return Err(Unread::Day);
    };
    Ok(Message::Request(Request {
        version: bytes[0],
        device: u32_at(bytes, 2),
        number: u32_at(bytes, 6),
        kind,
        customer: u32_at(bytes, 11),
        amount: u64_at(bytes, 15),
        ascending: u64_at(bytes, 23),
        descending: u64_at(bytes, 31),
        refunded: u64_at(bytes, 39),
        pieces: u32_at(bytes, 47),
        day,
    }))
}

#[tactic(auto, unfolding(crate::specs::Grammar::reply_at))]
fn reply_from(bytes: &[u8]) -> Result<Message, Unread>
    requires { room (reply_table (sum_size (slice_index bytes.now 0))) ≤ length bytes.now }
    ensures { result ≡ reply_at bytes.now }
{
    if bytes[0] == 1 {
        first_reply(bytes)
    } else {
        second_reply(bytes)
    }
}

// A Reply of version 1.
#[tactic(auto, unfolding(bench_base::specs::Table::number))]
fn first_reply(bytes: &[u8]) -> Result<Message, Unread>
    requires { 24 ≤ length bytes.now }
    ensures { result ≡ reply_in (values 0 (reply_table Four) bytes.now) }
{
    let Some(kind) = kind_from(bytes[10]) else {
        return Err(Unread::Kind);
    };
    let Some(verdict) = verdict_from(bytes[11]) else {
        return Err(Unread::Verdict);
    };
    Ok(Message::Reply(ReplyMsg {
        version: bytes[0],
        device: u32_at(bytes, 2),
        number: u32_at(bytes, 6),
        kind,
        verdict,
        amount: u64::from(u32_at(bytes, 12)),
        deadline: i32_at(bytes, 16),
        origin: u32_at(bytes, 20),
    }))
}

// A Reply of version 2.
#[tactic(auto, unfolding(bench_base::specs::Table::number))]
fn second_reply(bytes: &[u8]) -> Result<Message, Unread>
    requires { 28 ≤ length bytes.now }
    ensures { result ≡ reply_in (values 0 (reply_table Eight) bytes.now) }
{
    let Some(kind) = kind_from(bytes[10]) else {
        return Err(Unread::Kind);
    };
    let Some(verdict) = verdict_from(bytes[11]) else {
        return Err(Unread::Verdict);
    };
    Ok(Message::Reply(ReplyMsg {
        version: bytes[0],
        device: u32_at(bytes, 2),
        number: u32_at(bytes, 6),
        kind,
        verdict,
        amount: u64_at(bytes, 12),
        deadline: i32_at(bytes, 20),
        origin: u32_at(bytes, 24),
    }))
}

#[tactic(auto, unfolding(crate::specs::Grammar::done_at, bench_base::specs::Table::number))]
fn done_from(bytes: &[u8]) -> Message
    requires { 10 ≤ length bytes.now }
    ensures { result ≡ done_at bytes.now }
{
    Message::Done(DoneMsg {
        device: u32_at(bytes, 2),
        number: u32_at(bytes, 6),
    })
}

#[tactic(auto, unfolding(crate::specs::Grammar::debit_at, bench_base::specs::Table::number))]
fn debit_from(bytes: &[u8]) -> Message
    requires { 16 ≤ length bytes.now }
    ensures { result ≡ debit_at bytes.now }
{
    Message::Debit(DebitMsg {
        device: u32_at(bytes, 2),
        piece: u32_at(bytes, 6),
        postage: u32_at(bytes, 10),
        class: u16_at(bytes, 14),
    })
}

#[tactic(auto, unfolding(crate::specs::Grammar::release_at))]
fn release_from(bytes: &[u8]) -> Result<Message, Unread>
    requires { length bytes.now ≡ 66 }
    ensures { result ≡ release_at bytes.now }
{
    let body = &bytes[2..];
    match read_indicium(body) {
        Ok(_) => {
            let mut mark = [0; 64];
            mark.copy_from_slice(body);
            Ok(Message::Release(mark))
        }
        Err(_) => Err(Unread::Mark),
    }
}

// The message of these bytes, or the first fault.
#[tactic(auto, unfolding(crate::specs::Grammar::read, crate::specs::Grammar::size_of))]
fn message_of(bytes: &[u8]) -> Result<Message, Unread>
    ensures exact { result ≡ read bytes.now }
{
    if bytes.len() < 2 {
        return Err(Unread::Length);
    }
    if !is_known_version(bytes[0]) {
        return Err(Unread::Version);
    }
    let Some(length) = length_of(bytes[0], bytes[1]) else {
        return Err(Unread::Tag);
    };
    if bytes.len() != length {
        return Err(Unread::Length);
    }
    match bytes[1] {
        1 => request_from(bytes),
        2 => reply_from(bytes),
        3 => Ok(done_from(bytes)),
        16 => Ok(debit_from(bytes)),
        _ => release_from(bytes),
    }
}

/// The message of these bytes. The code after it is not checked. The first fault is answered:
///
/// 1. `Length` if there are fewer than two bytes.
/// 2. `Version` if byte 0 is neither 1 nor 2.
/// 3. `Tag` if byte 1 is no tag of that version.
/// 4. `Length` if there are not as many bytes as version and tag have.
/// 5. `Kind` if the kind's byte is not 1 to 5.
/// 6. `Verdict` if the verdict's byte is not 0 to 6.
/// 7. `Day` if a Request's day is out of range.
/// 8. `Mark` if a Release's 64 bytes are no indicium.
pub fn read_message(bytes: &[u8]) -> Result<Message, Unread>
    ensures exact { result ≡ read bytes.now }
    ensures found { IfOk result (λ message. IsReading bytes.now message) }
    ensures only { (message : TheMessage) → IsReading bytes.now message → result ≡ Ok message }
    ensures refused { (fault : TheUnread) → IsErrOf result fault ↔ HasFault fault bytes.now }
{
    message_of(bytes)
}

/// Whether there are at least 32 bytes, and the last 32 are the code of all before them under the key.
pub fn code_matches(bytes: &[u8], key: &Key) -> bool
    ensures { IsTrue result ↔ HasCode bytes.now key.now }
{
    code_matches_by(bytes, &ReadyKey::new(key))
}

/// As `code_matches`, under a key that was made ready.
pub fn code_matches_by(bytes: &[u8], key: &ReadyKey) -> bool
    ensures { IsTrue result ↔ HasCode bytes.now key.now }
{
    if bytes.len() < 32 {
        return false;
    }
    let front = bytes.len() - 32;
    key.matches(&bytes[..front], &bytes[front..])
}

/// Whether the last 32 bytes are the code of all before them, under a key that was made ready.
pub fn is_own_code(bytes: &[u8], key: &ReadyKey) -> bool
    ensures { result ≡ has_code key.now bytes.now }
{
    code_matches_by(bytes, key)
}

/// The message that the bytes spell under the key, among those that end in a code; None if and only if they spell no such
/// message.
pub fn read_under(bytes: &[u8], key: &Key) -> Option<Message>
    ensures found { IfSome result (λ x. IsCoded x × IsWhole x × (spell x key.now ≡ bytes.now)) }
    ensures none { IfNone result ((x : TheMessage) → IsCoded x → IsWhole x → spell x key.now ≢ bytes.now) }
{
    read_under_by(bytes, &ReadyKey::new(key))
}

/// As `read_under`, under a key that was made ready.
pub fn read_under_by(bytes: &[u8], key: &ReadyKey) -> Option<Message>
    ensures found { IfSome result (λ x. IsCoded x × IsWhole x × (spell x key.now ≡ bytes.now)) }
    ensures none { IfNone result ((x : TheMessage) → IsCoded x → IsWhole x → spell x key.now ≢ bytes.now) }
{
    if code_matches_by(bytes, key) {
        coded_of(read_message(bytes))
    } else {
        None
    }
}

/// The message with the bytes as its body, among those that end in a code; None if and only if they are the body of no such
/// message. A body is all but the code.
pub fn read_body(bytes: &[u8]) -> Option<Message>
    ensures found { IfSome result (λ x. IsCoded x × IsWhole x × (body x ≡ bytes.now)) }
    ensures none { IfNone result ((x : TheMessage) → IsCoded x → IsWhole x → body x ≢ bytes.now) }
{
    if bytes.len() > 55 {
        return None;
    }
    let mut filled = [0; 87];
    filled[..bytes.len()].copy_from_slice(bytes);
    coded_of(read_message(&filled[..bytes.len() + 32]))
}

// The message that was read, if it ends in a code.
fn coded_of(message: Result<Message, Unread>) -> Option<Message>
    ensures { result ≡ coded_in message }
{
    match message {
        Ok(Message::Request(request)) => Some(Message::Request(request)),
        Ok(Message::Reply(reply)) => Some(Message::Reply(reply)),
        Ok(Message::Done(done)) => Some(Message::Done(done)),
        _ => None,
    }
}
