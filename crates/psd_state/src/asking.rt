//! Transactions: what a device asks its centre for, once and again, and what it reports of the last one.
ghost use Rattle.std.specs.Prelude.{◌≡◌, IfOk};
ghost use Rattle.bench_base.specs.Rules.{todays_rules};
ghost use Rattle.psd_wire.specs.declared.message.Message.TheVariants as m;
ghost use Rattle.psd_wire.specs.Grammar.{IsWhole, spell};
ghost use Rattle.psd_state.specs.State.{Holds};
ghost use Rattle.psd_state.specs.Answers as answers;
ghost use Rattle.psd_state.specs.Answers.{ask_answer, resend_answer, done_answer};

use crate::record::DevRec;
use crate::words::{VERSION, is_allowed, is_reset};
use bench_base::bytes::Note;
use bench_base::numbers::DayNo;
use bench_base::refusals::DevRefusal;
use bench_base::words::Kind;
use hmac_core::ReadyKey;
use psd_audit::{clock_back, is_due};
use psd_wire::{DoneMsg, Message, Request, write_message_by};
use registers::TOTAL_LIMIT;

/// The most that may be asked for in one reset, in mills.
const RESET_LIMIT: u32 = 10_000_000;

impl DevRec {
    /// Asks for a transaction: the record to keep, and the request to send.
    ///
    /// The customer counts for an enrolment only, and the amount, in mills, for a reset only. The first refusal that holds
    /// is answered:
    ///
    /// 1. `Busy` if a transaction is outstanding.
    /// 2. `Phase` if the kind may not be asked for in the stored phase.
    /// 3. `ClockBack` if the day is before the last one.
    /// 4. `Due` if a reset is asked for after the deadline.
    /// 5. `BadAmount` if a reset is of 0 or above 10,000,000.
    /// 6. `TotalFull` if a reset would take the sum of all registers above its limit.
    /// 7. `NumberFull` if the last number was 4,294,967,295.
    pub fn ask(
        &self,
        kind: Kind,
        customer: u32,
        amount: u32,
        day: DayNo,
    ) -> Result<(DevRec, Note), DevRefusal>
        ensures exact { result ≡ ask_answer todays_rules self.now kind customer amount day }
        ensures sound { IfOk result (λ x. Holds x.0) }
    {
        self.ask_by(kind, customer, amount, day, &ReadyKey::new(&self.key))
    }

    // As `ask`, under its key made ready.
    #[tactic(auto, unfolding(bench_base::specs::Kinds::same_kind))]
    pub(crate) fn ask_by(
        &self,
        kind: Kind,
        customer: u32,
        amount: u32,
        day: DayNo,
        key: &ReadyKey,
    ) -> Result<(DevRec, Note), DevRefusal>
        requires key { key.now ≡ self.now.key }
        ensures exact { result ≡ ask_answer todays_rules self.now kind customer amount day }
        ensures sound { IfOk result (λ x. Holds x.0) }
    {
        if let Some(request) = self.pending {
            return Err(DevRefusal::Busy(request.kind));
        }
        if !is_allowed(kind, self.phase) {
            return Err(DevRefusal::Phase(self.phase));
        }
        if clock_back(day, self.last_day) {
            return Err(DevRefusal::ClockBack(self.last_day));
        }
        let reset = is_reset(kind);
        if reset && is_due(day, self.deadline) {
            return Err(DevRefusal::Due(self.deadline));
        }
        if reset && (amount == 0 || amount > RESET_LIMIT) {
            return Err(DevRefusal::BadAmount(amount));
        }
        let total = self.registers.total();
        if reset && total + u64::from(amount) > TOTAL_LIMIT {
            return Err(DevRefusal::TotalFull(total));
        }
        if self.number == u32::MAX {
            return Err(DevRefusal::NumberFull);
        }
        let request = Request {
            version: VERSION,
            device: self.device.get(),
            number: self.number + 1,
            kind,
            customer: customer_for(kind, customer, self.customer),
            amount: amount_for(kind, amount, self.registers.descending()),
            ascending: self.registers.ascending(),
            descending: self.registers.descending(),
            refunded: self.registers.refunded(),
            pieces: self.registers.pieces(),
            day,
        };
        let note = note_for(&request, key);
        let asked = DevRec {
            last_day: day.get(),
            pending: Some(request),
            ..*self
        };
        Ok((asked, note))
    }

    /// The request that is outstanding, byte for byte as it was sent, in its own version. `NothingPending` if there is no
    /// such request.
    pub fn resend(&self) -> Result<Note, DevRefusal>
        ensures exact { result ≡ resend_answer self.now self.now.pending }
    {
        self.resend_by(&ReadyKey::new(&self.key))
    }

    // As `resend`, under its key made ready.
    pub(crate) fn resend_by(&self, key: &ReadyKey) -> Result<Note, DevRefusal>
        requires key { key.now ≡ self.now.key }
        ensures exact { result ≡ resend_answer self.now self.now.pending }
    {
        match self.pending {
            Some(request) => Ok(note_for(&request, key)),
            None => Err(DevRefusal::NothingPending),
        }
    }

    /// The message that the last transaction was applied. `NothingDone` where none was yet.
    pub fn done(&self) -> Result<[u8; 42], DevRefusal>
        ensures exact { result ≡ done_answer self.now }
    {
        self.done_by(&ReadyKey::new(&self.key))
    }

    // As `done`, under its key made ready.
    pub(crate) fn done_by(&self, key: &ReadyKey) -> Result<[u8; 42], DevRefusal>
        requires key { key.now ≡ self.now.key }
        ensures exact { result ≡ done_answer self.now }
    {
        if self.number == 0 {
            return Err(DevRefusal::NothingDone);
        }
        let done = DoneMsg {
            device: self.device.get(),
            number: self.number,
        };
        Ok(done_bytes(done, key))
    }
}

// The bytes of a request.
fn note_for(request: &Request, key: &ReadyKey) -> Note
    requires { IsWhole (m.Request request.now) }
    ensures { result ≡ spell (m.Request request.now) key.now }
{
    write_message_by(&Message::Request(*request), key)
}

fn done_bytes(done: DoneMsg, key: &ReadyKey) -> [u8; 42]
    ensures { result ≡ spell (m.Done done) key.now }
{
    let note = write_message_by(&Message::Done(done), key);
    let mut bytes = [0; 42];
    bytes.copy_from_slice(note.as_slice());
    bytes
}

fn amount_for(kind: Kind, amount: u32, left: u64) -> u64
    ensures { result ≡ answers.amount_for kind amount left }
{
    match kind {
        Kind::Reset => u64::from(amount),
        Kind::Refund | Kind::Withdraw => left,
        Kind::Enrol | Kind::Audit => 0,
    }
}

fn customer_for(kind: Kind, asked: u32, own: u32) -> u32
    ensures { result ≡ answers.customer_for kind asked own }
{
    match kind {
        Kind::Enrol => asked,
        _ => own,
    }
}
