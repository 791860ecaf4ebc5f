//! Debits: the mark of a piece, once and again.
ghost use Rattle.std.specs.Prelude.{◌≡◌, Some, IfOk, option_map};
ghost use Rattle.bench_base.specs.Rules.{todays_rules};
ghost use Rattle.indicium.specs.Marks as marks;
ghost use Rattle.psd_state.specs.Answers as answers;
ghost use Rattle.psd_state.specs.Answers.{debit_answer, new_answer, HoldsAfter};
ghost use Rattle.psd_state.specs.State.{mark_in};

use crate::record::DevRec;
use crate::state_of::DeviceState;
use crate::words::{VERSION, empties, is_in_service};
use bench_base::numbers::{DayNo, DevNo};
use bench_base::refusals::DevRefusal;
use bench_base::words::Kind;
use hmac_core::ReadyKey;
use indicium::{Mark, code_by, write_coded};
use psd_audit::{clock_back, is_overdue};
use psd_wire::{DebitMsg, Request};
use registers::Registers;

/// The most postage of one piece, in mills.
const POSTAGE_LIMIT: u32 = 100_000;

/// What a debit gives: the record to keep and the mark of a new piece, or the mark of the last piece once more.
#[derive(Clone, Copy)]
pub enum Debited {
    New(DevRec, [u8; 64]),
    Again([u8; 64]),
}

impl DevRec {
    /// Marks a piece, or gives the mark of the last piece once more: the same bytes, and the record stays.
    ///
    /// The first refusal that holds is answered:
    ///
    /// 1. `WrongDevice` if another device is named.
    /// 2. `Conflict` if the piece is the last one, with another postage or class.
    /// 3. `WrongPiece` if the piece is not the next one.
    /// 4. `Phase` if the stored phase is not in service.
    /// 5. `Frozen` if a refund or withdrawal is outstanding.
    /// 6. `ClockBack` if the day is before the last one.
    /// 7. `Due` if the day is more than seven days after the deadline, or after it and the postage is above 1,000 mills.
    /// 8. `BadAmount` if the postage is 0 or above 100,000 mills.
    /// 9. `NoFunds` if the postage is more than the descending register.
    pub fn debit(&self, command: &DebitMsg, day: DayNo) -> Result<Debited, DevRefusal>
        ensures exact { result ≡ debit_answer todays_rules self.now command.now day }
        ensures sound { IfOk result HoldsAfter }
    {
        self.debit_by(command, day, &ReadyKey::new(&self.key))
    }

    // As `debit`, under its key made ready.
    pub(crate) fn debit_by(
        &self,
        command: &DebitMsg,
        day: DayNo,
        key: &ReadyKey,
    ) -> Result<Debited, DevRefusal>
        requires key { key.now ≡ self.now.key }
        ensures exact { result ≡ debit_answer todays_rules self.now command.now day }
        ensures sound { IfOk result HoldsAfter }
    {
        if command.device != self.device.get() {
            return Err(DevRefusal::WrongDevice(command.device));
        }
        match repeated(&self.mark, command.piece) {
            Some(mark) => self.again(command, &mark),
            None => self.debit_new(command, day, key),
        }
    }

    // The mark of the last debit, with the code that was kept. None if nothing was debited.
    #[tactic(auto, unfolding(crate::specs::Payload::mark_part))]
    fn kept_mark(&self) -> Option<[u8; 64]>
        ensures { result ≡ option_map (λ k. marks.spell k self.now.key) self.now.mark }
    {
        match self.mark {
            Some(_) => Some(self.mark_bytes()),
            None => None,
        }
    }

    // A debit of the piece that was marked last, with the code that was kept.
    fn again(&self, command: &DebitMsg, mark: &Mark) -> Result<Debited, DevRefusal>
        requires { self.now.mark ≡ Some mark.now }
        ensures { result ≡ answers.again command.now self.now.key mark.now }
    {
        if mark.postage == command.postage && mark.class == command.class {
            Ok(Debited::Again(write_coded(mark, &self.code)))
        } else {
            Err(DevRefusal::Conflict(mark.postage, mark.class))
        }
    }

    // Marks a piece that was not marked before.
    #[tactic(auto, unfolding(indicium::specs::Marks::spell))]
    fn debit_new(
        &self,
        command: &DebitMsg,
        day: DayNo,
        key: &ReadyKey,
    ) -> Result<Debited, DevRefusal>
        requires key { key.now ≡ self.now.key }
        ensures exact { result ≡ new_answer todays_rules self.now command.now day }
        ensures sound { IfOk result HoldsAfter }
    {
        let pieces = self.registers.pieces();
        if u64::from(command.piece) != u64::from(pieces) + 1 {
            return Err(DevRefusal::WrongPiece(pieces));
        }
        if !is_in_service(self.phase) {
            return Err(DevRefusal::Phase(self.phase));
        }
        match frozen(&self.pending) {
            Some(kind) => return Err(DevRefusal::Frozen(kind)),
            None => {}
        }
        if clock_back(day, self.last_day) {
            return Err(DevRefusal::ClockBack(self.last_day));
        }
        if is_overdue(day, self.deadline, command.postage) {
            return Err(DevRefusal::Due(self.deadline));
        }
        if command.postage == 0 || command.postage > POSTAGE_LIMIT {
            return Err(DevRefusal::BadAmount(command.postage));
        }
        let registers = match self.registers.debit(command.postage) {
            Ok(registers) => registers,
            Err(left) => return Err(DevRefusal::NoFunds(left)),
        };
        let mark = mark_for(self.device, self.origin, *command, &registers, day);
        let code = code_by(&mark, key);
        let bytes = write_coded(&mark, &code);
        let franked = DevRec {
            registers,
            last_day: day.get(),
            mark: Some(mark),
            code,
            ..*self
        };
        Ok(Debited::New(franked, bytes))
    }
}

/// The mark of the device's last debit: its bytes. None if nothing was debited, or the device was not made.
pub fn last_mark(state: &DeviceState) -> Option<[u8; 64]>
    ensures { result ≡ mark_in state.now }
{
    match state {
        Some(kept) => kept.record().kept_mark(),
        None => None,
    }
}

// The mark of this piece, where it is the last.
fn repeated(mark: &Option<Mark>, piece: u32) -> Option<Mark>
    ensures { result ≡ answers.repeated mark.now piece }
{
    match mark {
        Some(mark) if mark.piece == piece => Some(*mark),
        _ => None,
    }
}

// Nothing may be spent while all that is left is to be given back: the kind of such a transaction.
fn frozen(pending: &Option<Request>) -> Option<Kind>
    ensures { result ≡ answers.frozen_kind pending.now }
{
    match pending {
        Some(request) if empties(request.kind) => Some(request.kind),
        _ => None,
    }
}

// The mark of a debit after which the registers are these.
fn mark_for(
    device: DevNo,
    origin: u32,
    command: DebitMsg,
    registers: &Registers,
    day: DayNo,
) -> Mark
    ensures value { result ≡ answers.mark_of todays_rules device origin command registers.now day }
    ensures whole { marks.IsWhole result }
{
    Mark {
        version: VERSION,
        device: device.get(),
        piece: command.piece,
        postage: command.postage,
        ascending: registers.ascending(),
        descending: registers.descending(),
        day: day.get(),
        origin,
        class: command.class,
    }
}
