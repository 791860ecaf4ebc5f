//! The record as the 209 bytes that are kept in storage.
ghost use Rattle.std.specs.Prelude.{◌≡◌, ◌≤◌, ◌+◌, ◌++◌, ◌↔◌, IfSome, IfNone, IsSome, IsTrue, length, replicate, FitsSigned};
ghost use Rattle.std.specs.Int.{w32};
ghost use Rattle.bench_base.specs.Rules.{IsVersion};
ghost use Rattle.registers.specs.Sums.{Sound, total};
ghost use Rattle.psd_state.specs.State.{State, Holds, PendingOk, MarkOk, IsAmount, kept_code};
ghost use Rattle.psd_state.specs.Payload.{bytes_of, spelled, pending_part, mark_part, fields_of as fields_in, Ranges, IsOld, ReadsAs, PendingWhole, MarkWhole, flag_of, sums_of};
ghost use Rattle.ledger_terms.specs.Rulings.{buys_limit as limit_of};

use crate::page::Page;
use crate::parts::{
    Fields, Kept, code_of_pending, first_fields, head_bytes, is_zero, mark_bytes, middle_bytes,
    pending_bytes, phase_from, read_first_pending, read_kept, read_second_pending, second_fields,
};
use crate::ready_record::ReadyRecord;
use crate::record::DevRec;
use crate::words::is_allowed;
use bench_base::numbers::DevNo;
use bench_base::words::{Key, Kind, Phase};
use hmac_core::ReadyKey;
use indicium::Mark;
use psd_wire::Request;
use registers::Registers;

impl DevRec {
    /// The record's one spelling in version 2, whatever version it was read from. No code is made.
    #[tactic(auto, unfolding(crate::specs::Payload::spelled, crate::specs::Payload::head_part, crate::specs::Payload::middle_part))]
    pub fn write_payload(&self) -> [u8; 209]
        ensures value { result ≡ bytes_of self.now }
        ensures sound { Holds self.now }
        ensures fits { Ranges self.now }
    {
        let head = head_bytes(self.device, self.phase);
        let (deadline, last_day) = self.days();
        let middle = middle_bytes(
            &self.registers,
            self.number,
            deadline,
            last_day,
            self.customer,
            self.origin,
            code_of_pending(&self.pending),
        );
        let pending = self.pending_bytes();
        let mark = self.mark_bytes();
        joined(&head, &self.key, &middle, &pending, &mark)
    }

    // What is outstanding, without its code.
    fn pending_bytes(&self) -> [u8; 55]
        ensures { result ≡ pending_part 2 self.now.key self.now.pending }
    {
        pending_bytes(&self.pending)
    }

    // The kept mark, with the code that was kept.
    pub(crate) fn mark_bytes(&self) -> [u8; 64]
        ensures { result ≡ mark_part self.now.key self.now.mark }
    {
        mark_bytes(&self.mark, &self.code)
    }

    // The deadline and the last day, which fit their fields.
    fn days(&self) -> (i32, i32)
        ensures value { result ≡ (self.now.deadline, self.now.last_day) }
        ensures fits { FitsSigned w32 self.now.deadline × FitsSigned w32 self.now.last_day }
    {
        (self.deadline, self.last_day)
    }

    /// The record of this device that the bytes read as, in version 1 or 2; None if and only if they read as none. A record
    /// that was kept before saves time if its key is the same.
    pub fn read_payload(
        device: DevNo,
        payload: &[u8; 209],
        kept: &Option<ReadyRecord>,
    ) -> Option<DevRec>
        ensures found { IfSome result (λ s. (s.device ≡ device) × ReadsAs payload.now s) }
        ensures none { IfNone result ((s : State) → s.device ≡ device → ReadsAs payload.now s → ⊥) }
    {
        let ready = ready_key(kept);
        if payload[4] < 16 {
            read_first(device, payload, ready)
        } else {
            read_second(device, payload, ready)
        }
    }
}

// The key of a record that was kept.
fn ready_key(kept: &Option<ReadyRecord>) -> Option<&ReadyKey> {
    match kept {
        Some(kept) => Some(kept.key()),
        None => None,
    }
}

// A payload of version 1, with sums, request and mark of that version too.
fn read_first(device: DevNo, payload: &[u8], ready: Option<&ReadyKey>) -> Option<DevRec>
    requires { length payload.now ≡ 209 }
    ensures found { IfSome result (λ s. (s.device ≡ device) × IsOld s × (spelled 1 s ≡ payload.now)) }
    ensures sound { IfSome result Holds }
    ensures fits { IfSome result Ranges }
    ensures none { IfNone result ((s : State) → Holds s → Ranges s → IsOld s → s.device ≡ device → spelled 1 s ≡ payload.now → ⊥) }
{
    let fields = first_fields(payload);
    let Some(pending) = read_first_pending(fields.pending, &payload[74..145], &fields.key) else {
        return None;
    };
    let Some(kept) = read_kept(fields.pieces, &payload[145..209], &fields.key, ready) else {
        return None;
    };
    if !is_old(&fields, &kept.mark) {
        return None;
    }
    record_of(device, 1, fields, pending, kept)
}

// A payload of version 2.
fn read_second(device: DevNo, payload: &[u8], ready: Option<&ReadyKey>) -> Option<DevRec>
    requires { length payload.now ≡ 209 }
    ensures found { IfSome result (λ s. (s.device ≡ device) × (spelled 2 s ≡ payload.now)) }
    ensures sound { IfSome result Holds }
    ensures fits { IfSome result Ranges }
    ensures none { IfNone result ((s : State) → Holds s → Ranges s → s.device ≡ device → spelled 2 s ≡ payload.now → ⊥) }
{
    let fields = second_fields(payload);
    let Some(pending) = read_second_pending(fields.pending, &payload[86..141]) else {
        return None;
    };
    let Some(kept) = read_kept(fields.pieces, &payload[141..205], &fields.key, ready) else {
        return None;
    };
    if !is_zero(&payload[205..209]) {
        return None;
    }
    record_of(device, 2, fields, pending, kept)
}

// Whether sums and mark are ones that version 1 spells.
fn is_old(fields: &Fields, mark: &Option<Mark>) -> bool
    ensures { IsTrue result ↔ ((total (sums_of fields.now) ≤ 4294967295) × IfSome mark.now (λ k. k.version ≡ 1)) }
{
    let total = sum_of(fields.ascending, fields.descending, fields.refunded);
    let first = match mark {
        Some(mark) => mark.version == 1,
        None => true,
    };
    total <= 4_294_967_295 && first
}

// Three sums that may be any numbers of eight bytes.
fn sum_of(ascending: u64, descending: u64, refunded: u64) -> u128
    ensures { result ≡ ascending + descending + refunded }
{
    u128::from(ascending) + u128::from(descending) + u128::from(refunded)
}

// The record of these parts, where it is one of the device.
fn record_of(
    device: DevNo,
    version: u8,
    fields: Fields,
    pending: Option<Request>,
    kept: Kept,
) -> Option<DevRec>
    requires version { IsVersion version }
    requires pending { PendingWhole pending × (flag_of pending ≡ fields.pending) }
    requires mark { MarkWhole kept.mark }
    requires code { kept_code fields.key kept.mark ≡ kept.code }
    ensures found { IfSome result (λ s. (s.device ≡ device) × (fields ≡ fields_in version s) × (s.pending ≡ pending) × (s.mark ≡ kept.mark)) }
    ensures sound { IfSome result Holds }
    ensures fits { IfSome result Ranges }
    ensures none { IfNone result ((s : State) → Holds s → s.device ≡ device → fields ≡ fields_in version s → s.pending ≡ pending → s.mark ≡ kept.mark → ⊥) }
{
    if fields.device != device.get() {
        return None;
    }
    let Some(phase) = phase_from(version, fields.phase) else {
        return None;
    };
    let Some(registers) = registers_of(&fields) else {
        return None;
    };
    if !is_pending_right(&pending, fields.device, fields.number, phase, &registers) {
        return None;
    }
    if !is_mark_right(&kept.mark, fields.device, &registers) {
        return None;
    }
    let key = fields.key;
    let code = kept.code;
    Some(DevRec {
        device,
        phase,
        key,
        registers,
        number: fields.number,
        deadline: fields.deadline,
        last_day: fields.last_day,
        customer: fields.customer,
        origin: fields.origin,
        pending,
        mark: kept.mark,
        code,
    })
}

// The registers of the fields, where they are sound.
fn registers_of(fields: &Fields) -> Option<Registers>
    ensures valid { IsSome result ↔ Sound (sums_of fields.now) }
    ensures value { IfSome result (λ r. r ≡ sums_of fields.now) }
{
    Registers::of(
        fields.ascending,
        fields.descending,
        fields.refunded,
        fields.pieces,
    )
}

// Five parts, one after the other, and four zeros.
fn joined(
    head: &[u8; 5],
    key: &Key,
    middle: &[u8; 49],
    pending: &[u8; 55],
    mark: &[u8; 64],
) -> [u8; 209]
    ensures value { result ≡ head.now ++ (key.now ++ (middle.now ++ (pending.now ++ (mark.now ++ replicate 4 0)))) }
    ensures key { length key.now ≡ 32 }
{
    let mut page = Page::new();
    page.push(head);
    page.push(key);
    page.push(middle);
    page.push(pending);
    page.push(mark);
    page.push(&[0; 4]);
    page.whole()
}

// Whether what is outstanding meets its conditions. It is whole (condition).
fn is_pending_right(
    pending: &Option<Request>,
    device: u32,
    number: u32,
    phase: Phase,
    registers: &Registers,
) -> bool
    requires { PendingWhole pending.now }
    ensures { IsTrue result ↔ PendingOk device number phase registers.now pending.now }
{
    match pending {
        Some(request) => {
            request.device == device
                && u64::from(request.number) == u64::from(number) + 1
                && is_allowed(request.kind, phase)
                && is_amount(request.kind, request.version, request.amount, registers)
        }
        None => true,
    }
}

// The most that the registers may come to by a reset of this version.
fn limit_of_version(version: u8) -> u64
    ensures value { result ≡ limit_of version }
    ensures most { result ≤ 1000000000000 }
{
    match version {
        1 => 4_294_967_295,
        2 => 1_000_000_000_000,
        _ => 0,
    }
}

fn is_amount(kind: Kind, version: u8, amount: u64, registers: &Registers) -> bool
    ensures { IsTrue result ↔ IsAmount kind version amount registers.now }
{
    match kind {
        Kind::Reset => 1 <= amount
            && amount <= 10_000_000
            && registers.total() + amount <= limit_of_version(version),
        Kind::Refund | Kind::Withdraw => amount == registers.descending(),
        Kind::Enrol | Kind::Audit => amount == 0,
    }
}

// Whether the kept mark meets its conditions. It is whole (condition).
fn is_mark_right(mark: &Option<Mark>, device: u32, registers: &Registers) -> bool
    requires { MarkWhole mark.now }
    ensures { IsTrue result ↔ MarkOk device registers.now mark.now }
{
    match mark {
        Some(mark) => {
            registers.pieces() > 0
                && mark.device == device
                && mark.piece == registers.pieces()
                && mark.ascending == registers.ascending()
        }
        None => registers.pieces() == 0,
    }
}
