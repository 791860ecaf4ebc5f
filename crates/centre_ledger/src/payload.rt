//! A device's row as the 192 bytes that are kept in storage.
ghost use Rattle.std.specs.Prelude.{◌≡◌, ◌≤◌, ◌++◌, ◌+◌, IfSome, IfNone, length, replicate, get_or};
ghost use Rattle.bench_base.specs.Rules.{IsVersion};
ghost use Rattle.bench_base.specs.Table.{Fit, bytes_in};
ghost use Rattle.psd_wire.specs.Grammar.{sum_size};
ghost use Rattle.bench_base.specs.Ranges.{IsCustomer};
ghost use Rattle.centre_ledger.specs.declared.{rows.DeviceRow.DeviceRow as TheRow, rows.Enrolment.Enrolment as TheEnrolment};
ghost use Rattle.centre_ledger.specs.Soundness.{IsSoundDevice};
ghost use Rattle.centre_ledger.specs.Payload as layout;
ghost use Rattle.centre_ledger.specs.Rows.{customer_of, enrolled_in};
ghost use Rattle.centre_ledger.specs.Payload.{DeviceReadsAs, device_bytes, filled, request_size, reply_size, state_byte};
ghost use Rattle.centre_ledger.specs.Parts.{bare, bare_at, sum_at, HeadIs, IsToldBy, KeepMessages, IsSpelling};

use crate::messages::{reply_front, request_front, stored, uncoded};
use crate::page::{is_zero, put};
use crate::ready_row::{ReadyRow, plain};
use crate::rows::{DeviceRow, Enrolment};
use crate::soundness::is_sound_device;
use bench_base::bytes::Note;
use bench_base::fields::{put_u32, put_u64, u32_at, u64_at};
use bench_base::numbers::{Customer, DevNo};
use bench_base::words::Key;
use hmac_core::ReadyKey;

impl DeviceRow {
    /// The row's one spelling in version 2, whatever version it was read from. No code is made.
    pub fn write_payload(&self) -> [u8; 192]
        requires { IsSoundDevice self.now }
        ensures value { result ≡ device_bytes self.now }
        ensures reads { DeviceReadsAs result self.now }
    {
        let head = head_bytes(self);
        let sums = sums_bytes(self);
        joined(
            &head,
            &self.key,
            &sums,
            uncoded(&self.request),
            uncoded(&self.reply),
        )
    }

    /// The row of this device that the bytes read as, in version 1 or 2; None if and only if they read as none.
    pub fn read_payload(device: DevNo, payload: &[u8; 192]) -> Option<DeviceRow>
        ensures found { IfSome result (λ r. (r.device ≡ device) × DeviceReadsAs payload.now r) }
        ensures none { IfNone result ((r : TheRow) → r.device ≡ device → DeviceReadsAs payload.now r → ⊥) }
    {
        plain(&ReadyRow::read_payload(device, payload))
    }
}

impl ReadyRow {
    /// As `read_payload` of `DeviceRow`, with the key made ready under which its messages were read.
    pub fn read_payload(device: DevNo, payload: &[u8; 192]) -> Option<ReadyRow>
        ensures found { IfSome result (λ r. (r.device ≡ device) × DeviceReadsAs payload.now r) }
        ensures none { IfNone result ((r : TheRow) → r.device ≡ device → DeviceReadsAs payload.now r → ⊥) }
    {
        if payload[4] < 16 {
            read_first(device, payload)
        } else {
            read_second(device, payload)
        }
    }
}

// A payload of version 1.
fn read_first(device: DevNo, payload: &[u8]) -> Option<ReadyRow>
    requires long { length payload.now ≡ 192 }
    ensures found { IfSome result (λ r. (r.device ≡ device) × IsSpelling 1 payload.now r) }
    ensures none { IfNone result ((r : TheRow) → r.device ≡ device → IsSpelling 1 payload.now r → ⊥) }
{
    let Some(row) = bare_row(device, 1, payload[4], payload) else {
        return None;
    };
    if !is_zero(&payload[188..192]) {
        return None;
    }
    with_messages(&row, 1, &payload[61..132], &payload[132..188])
}

// A payload of version 2.
fn read_second(device: DevNo, payload: &[u8]) -> Option<ReadyRow>
    requires long { length payload.now ≡ 192 }
    requires state { 16 ≤ get_or payload.now 4 0 }
    ensures found { IfSome result (λ r. (r.device ≡ device) × IsSpelling 2 payload.now r) }
    ensures none { IfNone result ((r : TheRow) → r.device ≡ device → IsSpelling 2 payload.now r → ⊥) }
{
    let Some(row) = bare_row(device, 2, payload[4] - 16, payload) else {
        return None;
    };
    if !is_zero(&payload[152..192]) {
        return None;
    }
    with_messages(&row, 2, &payload[69..124], &payload[124..152])
}

// The enrolment that a state and the number of a customer encode; None if and only if they are those of no enrolment.
fn enrolment_of(state: u8, customer: u32) -> Option<Enrolment>
    ensures found { IfSome result (IsToldBy state customer) }
    ensures none { IfNone result ((e : TheEnrolment) → IfSome (customer_of e) IsCustomer → IsToldBy state customer e → ⊥) }
{
    match Customer::new(customer) {
        Some(customer) => match state {
            2 => Some(Enrolment::Enrolled(customer)),
            3 => Some(Enrolment::Withdrawn(customer)),
            _ => None,
        },
        None if state == 1 && customer == 0 => Some(Enrolment::Registered),
        None => None,
    }
}

// The row of the device without its messages, where the bytes begin as those of a row of that device.
fn bare_row(device: DevNo, version: u8, state: u8, payload: &[u8]) -> Option<DeviceRow>
    requires long { length payload.now ≡ 192 }
    requires version { IsVersion version }
    requires state { state_byte version state ≡ get_or payload.now 4 0 }
    ensures found { IfSome result (λ r. (r ≡ bare_at version payload.now) × (r.device ≡ device) × HeadIs version r payload.now) }
    ensures none { IfNone result ((r : TheRow) → r.device ≡ device → IfSome (enrolled_in r) IsCustomer → HeadIs version r payload.now → ⊥) }
{
    if u32_at(payload, 0) != device.get() {
        return None;
    }
    let Some(enrolment) = enrolment_of(state, u32_at(payload, 5)) else {
        return None;
    };
    let (buys, returns) = sums_at(version, payload);
    let mut key = [0; 32];
    key.copy_from_slice(&payload[13..45]);
    Some(DeviceRow {
        device,
        enrolment,
        origin: u32_at(payload, 9),
        key,
        ruled: u32_at(payload, 45),
        settled: u32_at(payload, 49),
        buys,
        returns,
        request: Note::of(&[]),
        reply: Note::of(&[]),
    })
}

// Buys and returns, in four bytes each in version 1 and in eight in version 2.
fn sums_at(version: u8, payload: &[u8]) -> (u64, u64)
    requires { length payload.now ≡ 192 }
    ensures buys { result.0 ≡ sum_at version 53 payload.now }
    ensures returns { result.1 ≡ sum_at version (53 + bytes_in (sum_size version)) payload.now }
{
    if version == 1 {
        (
            u64::from(u32_at(payload, 53)),
            u64::from(u32_at(payload, 57)),
        )
    } else {
        (u64_at(payload, 53), u64_at(payload, 61))
    }
}

// The row with the messages that these bytes keep, where it meets the conditions of a row.
fn with_messages(row: &DeviceRow, version: u8, request: &[u8], reply: &[u8]) -> Option<ReadyRow>
    requires version { IsVersion version }
    requires request { length request.now ≡ request_size version }
    requires reply { length reply.now ≡ reply_size version }
    requires bare { bare row.now ≡ row.now }
    ensures found { IfSome result (λ r. (bare r ≡ row.now) × KeepMessages version request.now reply.now r) }
    ensures sound { IfSome result IsSoundDevice }
    ensures none { IfNone result ((r : TheRow) → IsSoundDevice r → bare r ≡ row.now → KeepMessages version request.now reply.now r → ⊥) }
{
    let key = ReadyKey::new(&row.key);
    let front = request_front(version, request[0]);
    let Some(request) = stored(version, row.ruled, front, request, &key) else {
        return None;
    };
    let front = reply_front(version, reply[0]);
    let Some(reply) = stored(version, row.ruled, front, reply, &key) else {
        return None;
    };
    let whole = DeviceRow {
        request,
        reply,
        ..*row
    };
    if is_sound_device(&whole) {
        Some(ReadyRow::with(&whole, key))
    } else {
        None
    }
}

// 1 registered, 2 enrolled, 3 withdrawn.
fn state_number(enrolment: Enrolment) -> u8
    ensures exact { result ≡ layout.state_number enrolment }
    ensures low { result ≤ 3 }
{
    match enrolment {
        Enrolment::Registered => 1,
        Enrolment::Enrolled(_) => 2,
        Enrolment::Withdrawn(_) => 3,
    }
}

#[tactic(auto, unfolding(bench_base::specs::Table::spelled, crate::specs::Payload::head_part))]
fn head_bytes(row: &DeviceRow) -> [u8; 13]
    ensures value { result ≡ layout.head_part 2 row.now }
    ensures fits { Fit layout.head_table (layout.head 2 row.now) }
{
    let mut bytes = [0; 13];
    let (customer, origin) = (row.enrolment.customer_number(), row.origin);
    put_u32(&mut bytes, 0, row.device.get());
    bytes[4] = state_number(row.enrolment) + 16;
    put_u32(&mut bytes, 5, customer);
    put_u32(&mut bytes, 9, origin);
    bytes
}

#[tactic(auto, unfolding(bench_base::specs::Table::spelled, crate::specs::Payload::sums_part))]
fn sums_bytes(row: &DeviceRow) -> [u8; 24]
    ensures value { result ≡ layout.sums_part 2 row.now }
    ensures fits { Fit (layout.sums_table 2) (layout.sums row.now) }
{
    let mut bytes = [0; 24];
    let (ruled, settled) = (row.ruled, row.settled);
    let (buys, returns) = (row.buys, row.returns);
    put_u32(&mut bytes, 0, ruled);
    put_u32(&mut bytes, 4, settled);
    put_u64(&mut bytes, 8, buys);
    put_u64(&mut bytes, 16, returns);
    bytes
}

// Five parts at their places, the last two filled with zeros, and zeros at the end.
fn joined(head: &[u8; 13], key: &Key, sums: &[u8; 24], request: &[u8], reply: &[u8]) -> [u8; 192]
    requires request { length request.now ≤ 55 }
    requires reply { length reply.now ≤ 28 }
    ensures value { result ≡ head.now ++ (key.now ++ (sums.now ++ (filled 55 request.now ++ (filled 28 reply.now ++ replicate 40 0)))) }
    ensures key { length key.now ≡ 32 }
{
    let mut bytes = [0; 192];
    put(&mut bytes, 0, head);
    put(&mut bytes, 13, key);
    put(&mut bytes, 45, sums);
    put(&mut bytes, 69, request);
    put(&mut bytes, 124, reply);
    bytes
}
