//! The parts of a payload, written and read one by one.
ghost use Rattle.std.specs.Prelude.{◌≡◌, ◌↔◌, ◌≤◌, ◌<◌, ◌∷◌, [], Option, Some, None, IfSome, IfNone, IsTrue, ℕ, List, length, replicate, true, FitsSigned};
ghost use Rattle.std.specs.Int.{w32};
ghost use Rattle.bench_base.specs.Rules.{IsVersion};
ghost use Rattle.bench_base.specs.Table.{row, Fit};
ghost use Rattle.bench_base.specs.declared.words.Phase.{Phase as ThePhase};
ghost use Rattle.hmac_core.specs.Hmac.{hmac};
ghost use Rattle.indicium.specs.declared.Mark.{Mark as TheMark};
ghost use Rattle.indicium.specs.Marks as marks;
ghost use Rattle.psd_wire.specs.declared.message.Request.{Request as TheRequest};
ghost use Rattle.psd_wire.specs.declared.message.Message.TheVariants as m;
ghost use Rattle.psd_wire.specs.Grammar as grammar;
ghost use Rattle.psd_state.specs.State.{is_stored, kept_code};
ghost use Rattle.psd_state.specs.Payload.{fields_at, filled, body_room, pending_part, mark_part, coded_part, flag_of, phase_byte, request_part, PendingWhole, MarkWhole, IsKeptAt, head_table, middle_table, middle_row};

use bench_base::fields::{i32_at, put_i32, put_u32, put_u64, u32_at, u64_at};
use bench_base::numbers::DevNo;
use bench_base::words::{Key, Phase};
use hmac_core::ReadyKey;
use indicium::{Mark, read_indicium, verify_mark, verify_mark_by, write_coded};
use psd_wire::{Message, Request, read_body, read_under, write_body};
use registers::Registers;

/// The numbers of a record, as they stand.
#[derive(Clone, Copy)]
pub struct Fields {
    pub device: u32,
    pub phase: u8,
    pub key: Key,
    pub ascending: u64,
    pub descending: u64,
    pub refunded: u64,
    pub pieces: u32,
    pub number: u32,
    pub deadline: i32,
    pub last_day: i32,
    pub customer: u32,
    pub origin: u32,
    pub pending: u8,
}

/// The kept mark and its code, which is zeros where there is no mark.
#[derive(Clone, Copy)]
pub struct Kept {
    pub mark: Option<Mark>,
    pub code: [u8; 32],
}

/// The numbers of version 1.
pub fn first_fields(payload: &[u8]) -> Fields
    requires { length payload.now ≡ 209 }
    ensures { result ≡ fields_at 1 payload.now }
{
    let mut key = [0; 32];
    key.copy_from_slice(&payload[5..37]);
    Fields {
        device: u32_at(payload, 0),
        phase: payload[4],
        key,
        ascending: u64::from(u32_at(payload, 37)),
        descending: u64::from(u32_at(payload, 41)),
        refunded: u64::from(u32_at(payload, 45)),
        pieces: u32_at(payload, 49),
        number: u32_at(payload, 53),
        deadline: i32_at(payload, 57),
        last_day: i32_at(payload, 61),
        customer: u32_at(payload, 65),
        origin: u32_at(payload, 69),
        pending: payload[73],
    }
}

/// The numbers of version 2.
pub fn second_fields(payload: &[u8]) -> Fields
    requires { length payload.now ≡ 209 }
    ensures { result ≡ fields_at 2 payload.now }
{
    let mut key = [0; 32];
    key.copy_from_slice(&payload[5..37]);
    Fields {
        device: u32_at(payload, 0),
        phase: payload[4],
        key,
        ascending: u64_at(payload, 37),
        descending: u64_at(payload, 45),
        refunded: u64_at(payload, 53),
        pieces: u32_at(payload, 61),
        number: u32_at(payload, 65),
        deadline: i32_at(payload, 69),
        last_day: i32_at(payload, 73),
        customer: u32_at(payload, 77),
        origin: u32_at(payload, 81),
        pending: payload[85],
    }
}

// The Request, if the message is one.
fn request_of(message: Option<Message>) -> Option<Request>
    ensures { result ≡ request_part message }
{
    match message {
        Some(Message::Request(request)) => Some(request),
        _ => None,
    }
}

/// The Request that the bytes spell under the key.
pub fn read_request(bytes: &[u8], key: &Key) -> Option<Request>
    ensures found { IfSome result (λ q. grammar.IsWhole (m.Request q) × (grammar.spell (m.Request q) key.now ≡ bytes.now)) }
    ensures none { IfNone result ((q : TheRequest) → grammar.IsWhole (m.Request q) → grammar.spell (m.Request q) key.now ≡ bytes.now → ⊥) }
{
    request_of(read_under(bytes, key))
}

// How many bytes the body of a Request of this version has.
fn room_of_body(version: u8) -> usize
    ensures value { result ≡ body_room version }
    ensures most { result ≤ 55 }
{
    if version == 1 { 39 } else { 55 }
}

/// The Request that has the bytes as its body, filled with zeros. A body of version 1 has 39 bytes, one of version 2 55.
pub fn read_filled(bytes: &[u8]) -> Option<Request>
    requires { length bytes.now ≡ 55 }
    ensures found { IfSome result (λ q. grammar.IsWhole (m.Request q) × (filled q ≡ bytes.now)) }
    ensures none { IfNone result ((q : TheRequest) → grammar.IsWhole (m.Request q) → filled q ≡ bytes.now → ⊥) }
{
    let front = room_of_body(bytes[0]);
    if !is_zero(&bytes[front..]) {
        return None;
    }
    request_of(read_body(&bytes[..front]))
}

// Whether the bytes are a mark's spelling under the key. If the ready key is of this key, it saves time.
fn is_genuine(bytes: &[u8], key: &Key, ready: Option<&ReadyKey>) -> bool
    ensures { IsTrue result ↔ marks.IsSpelled bytes.now key.now }
{
    if let Some(ready) = ready {
        if ready.key() == key {
            return verify_mark_by(bytes, ready);
        }
    }
    verify_mark(bytes, key)
}

/// The mark that the bytes spell under the key, and its code. A ready key saves time if it is of this key.
pub fn read_mark(bytes: &[u8], key: &Key, ready: Option<&ReadyKey>) -> Option<(Mark, [u8; 32])>
    ensures found { IfSome result (λ x. marks.IsWhole x.0 × (marks.spell x.0 key.now ≡ bytes.now) × (hmac key.now (marks.body x.0) ≡ x.1)) }
    ensures none { IfNone result ((k : TheMark) → marks.IsWhole k → marks.spell k key.now ≡ bytes.now → ⊥) }
{
    if !is_genuine(bytes, key, ready) {
        return None;
    }
    match read_indicium(bytes) {
        Ok(found) => Some(found),
        Err(_) => None,
    }
}

// The byte of a phase in version 2.
fn byte_of_phase(phase: Phase) -> u8
    ensures { result ≡ phase_byte 2 phase }
{
    match phase {
        Phase::Manufactured => 17,
        Phase::Authorised => 18,
        Phase::InService => 19,
        Phase::Withdrawn => 20,
        Phase::Blank | Phase::Locked => 16,
    }
}

#[tactic(auto, unfolding(bench_base::specs::Table::spelled))]
pub fn head_bytes(device: DevNo, phase: Phase) -> [u8; 5]
    ensures value { result ≡ row head_table (device ∷ phase_byte 2 phase ∷ []) }
    ensures fits { Fit head_table (device ∷ phase_byte 2 phase ∷ []) }
{
    let mut bytes = [0; 5];
    put_u32(&mut bytes, 0, device.get());
    bytes[4] = byte_of_phase(phase);
    bytes
}

#[tactic(auto, unfolding(bench_base::specs::Table::spelled))]
pub fn middle_bytes(
    registers: &Registers,
    number: u32,
    deadline: i32,
    last_day: i32,
    customer: u32,
    origin: u32,
    pending: u8,
) -> [u8; 49]
    ensures value { result ≡ row (middle_table 2) (middle_row registers.now number deadline last_day customer origin pending) }
    ensures fits { Fit (middle_table 2) (middle_row registers.now number deadline last_day customer origin pending) }
    ensures deadline { FitsSigned w32 deadline }
    ensures last_day { FitsSigned w32 last_day }
{
    let mut bytes = [0; 49];
    put_u64(&mut bytes, 0, registers.ascending());
    put_u64(&mut bytes, 8, registers.descending());
    put_u64(&mut bytes, 16, registers.refunded());
    put_u32(&mut bytes, 24, registers.pieces());
    put_u32(&mut bytes, 28, number);
    put_i32(&mut bytes, 32, deadline);
    put_i32(&mut bytes, 36, last_day);
    put_u32(&mut bytes, 40, customer);
    put_u32(&mut bytes, 44, origin);
    bytes[48] = pending;
    bytes
}

/// What is outstanding in version 2: its bytes without the code, and zeros.
#[tactic(auto, unfolding(crate::specs::Payload::pending_part))]
pub fn pending_bytes(pending: &Option<Request>) -> [u8; 55]
    requires { PendingWhole pending.now }
    ensures { (key : List ℕ) → result ≡ pending_part 2 key pending.now }
{
    match pending {
        Some(request) => filled_bytes(request),
        None => [0; 55],
    }
}

fn filled_bytes(request: &Request) -> [u8; 55]
    requires { grammar.IsWhole (m.Request request.now) }
    ensures { result ≡ filled request.now }
{
    let note = write_body(&Message::Request(*request));
    let body = note.as_slice();
    let mut bytes = [0; 55];
    bytes[..body.len()].copy_from_slice(body);
    bytes
}

/// The kept mark with this code.
pub fn mark_bytes(mark: &Option<Mark>, code: &[u8; 32]) -> [u8; 64]
    requires { MarkWhole mark.now }
    ensures { result ≡ coded_part code.now mark.now }
{
    match mark {
        Some(mark) => write_coded(mark, code),
        None => [0; 64],
    }
}

pub fn code_of_pending(pending: &Option<Request>) -> u8
    ensures { result ≡ flag_of pending.now }
{
    match pending {
        Some(_) => 1,
        None => 0,
    }
}

pub fn phase_from(version: u8, byte: u8) -> Option<Phase>
    requires { IsVersion version }
    ensures found { IfSome result (λ p. (is_stored p ≡ true) × (phase_byte version p ≡ byte)) }
    ensures none { IfNone result ((p : ThePhase) → is_stored p ≡ true → phase_byte version p ≡ byte → ⊥) }
{
    match (version == 1, byte) {
        (true, 1) | (false, 17) => Some(Phase::Manufactured),
        (true, 2) | (false, 18) => Some(Phase::Authorised),
        (true, 3) | (false, 19) => Some(Phase::InService),
        (true, 4) | (false, 20) => Some(Phase::Withdrawn),
        _ => None,
    }
}

pub fn is_zero(bytes: &[u8]) -> bool
    ensures { IsTrue result ↔ (replicate (length bytes.now) 0 ≡ bytes.now) }
{
    bytes.iter().all(|byte| *byte == 0)
}

/// What is outstanding in version 1, by its flag and its bytes.
pub fn read_first_pending(flag: u8, bytes: &[u8], key: &Key) -> Option<Option<Request>>
    requires { length bytes.now ≡ 71 }
    ensures found { IfSome result (λ o. PendingWhole o × (flag_of o ≡ flag) × (pending_part 1 key.now o ≡ bytes.now)) }
    ensures none { IfNone result ((o : Option TheRequest) → PendingWhole o → flag_of o ≡ flag → pending_part 1 key.now o ≡ bytes.now → ⊥) }
{
    match flag {
        0 => { if is_zero(bytes) { Some(None) } else { None } }
        1 => match read_request(bytes, key) {
            Some(request) => Some(Some(request)),
            None => None,
        },
        _ => None,
    }
}

/// What is outstanding in version 2, by its flag and its bytes, which have no code.
pub fn read_second_pending(flag: u8, bytes: &[u8]) -> Option<Option<Request>>
    requires { length bytes.now ≡ 55 }
    ensures found { IfSome result (λ o. PendingWhole o × (flag_of o ≡ flag) × ((key : List ℕ) → pending_part 2 key o ≡ bytes.now)) }
    ensures none { IfNone result ((o : Option TheRequest) (key : List ℕ) → PendingWhole o → flag_of o ≡ flag → pending_part 2 key o ≡ bytes.now → ⊥) }
{
    match flag {
        0 => { if is_zero(bytes) { Some(None) } else { None } }
        1 => match read_filled(bytes) {
            Some(request) => Some(Some(request)),
            None => None,
        },
        _ => None,
    }
}

/// The mark that was kept, by the count of pieces and its bytes. A ready key saves time if it is of this key.
pub fn read_kept(pieces: u32, bytes: &[u8], key: &Key, ready: Option<&ReadyKey>) -> Option<Kept>
    requires { length bytes.now ≡ 64 }
    ensures found { IfSome result (λ k. MarkWhole k.mark × IsKeptAt pieces k.mark × (mark_part key.now k.mark ≡ bytes.now)) }
    ensures code { IfSome result (λ k. kept_code key.now k.mark ≡ k.code) }
    ensures none { IfNone result ((o : Option TheMark) → MarkWhole o → IsKeptAt pieces o → mark_part key.now o ≡ bytes.now → ⊥) }
{
    if pieces == 0 {
        if is_zero(bytes) {
            let code = [0; 32];
            return Some(Kept { mark: None, code });
        }
        return None;
    }
    match read_mark(bytes, key, ready) {
        Some(found) => {
            let code = found.1;
            Some(Kept {
                mark: Some(found.0),
                code,
            })
        }
        None => None,
    }
}
