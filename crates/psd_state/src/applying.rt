//! The end of a transaction: what the centre's reply does to the record.
ghost use Rattle.std.specs.Prelude.{◌≡◌, ◌+◌, ◌≤◌, IfOk};
ghost use Rattle.registers.specs.Sums as sums;
ghost use Rattle.registers.specs.Sums.{total, limit, Sound};
ghost use Rattle.psd_state.specs.State.{Holds};
ghost use Rattle.psd_state.specs.Answers.{apply_answer};

use crate::record::DevRec;
use crate::words::{is_granted, is_same_kind};
use bench_base::refusals::DevRefusal;
use bench_base::words::{Kind, Phase};
use psd_wire::ReplyMsg;
use registers::Registers;

impl DevRec {
    /// Ends the transaction that is outstanding by the centre's reply: the record to keep.
    ///
    /// The first refusal that holds is answered:
    ///
    /// 1. `NothingPending` if no transaction is outstanding.
    /// 2. `Stale` if the reply has another number than what is outstanding.
    /// 3. `Stray` if it has another kind, or is granted with another amount.
    ///
    /// The caller must know that the reply is the centre's, by its code and its device.
    pub fn apply(&self, reply: &ReplyMsg) -> Result<DevRec, DevRefusal>
        ensures exact { result ≡ apply_answer self.now self.now.pending reply.now }
        ensures sound { IfOk result (λ s. Holds s) }
    {
        let request = match &self.pending {
            Some(request) => request,
            None => return Err(DevRefusal::NothingPending),
        };
        if reply.number != request.number {
            return Err(DevRefusal::Stale(request.number));
        }
        let granted = is_granted(reply.verdict);
        if !is_same_kind(reply.kind, request.kind) || (granted && reply.amount != request.amount) {
            return Err(DevRefusal::Stray(request.kind));
        }
        let ended = DevRec {
            number: request.number,
            pending: None,
            ..*self
        };
        if !granted {
            return Ok(ended);
        }
        Ok(match request.kind {
            Kind::Enrol => DevRec {
                phase: Phase::Authorised,
                customer: request.customer,
                origin: reply.origin,
                ..ended
            },
            Kind::Audit => DevRec {
                phase: Phase::InService,
                deadline: reply.deadline,
                ..ended
            },
            Kind::Reset => DevRec {
                registers: loaded(&self.registers, request.amount as u32),
                deadline: reply.deadline,
                ..ended
            },
            Kind::Refund => DevRec {
                registers: self.registers.clear(),
                ..ended
            },
            Kind::Withdraw => DevRec {
                registers: self.registers.clear(),
                phase: Phase::Withdrawn,
                ..ended
            },
        })
    }
}

// A load that is known to fit.
fn loaded(registers: &Registers, amount: u32) -> Registers
    requires { total registers.now + amount ≤ limit }
    ensures value { result ≡ sums.loaded registers.now amount }
    ensures sound { Sound result }
{
    match registers.load(amount) {
        Ok(loaded) => loaded,
        Err(_) => unreachable!(),
    }
}
