//! The record of a device: what it keeps, and what it shows of it.
ghost use Rattle.std.specs.Prelude.{◌≡◌, ◌+◌};
ghost use Rattle.ledger_terms.specs.Devices.{lock};
ghost use Rattle.psd_state.specs.State.{Holds};
ghost use Rattle.psd_state.specs.Answers.{made_state, status_of, waiting_kind};

use crate::words::is_in_service;
use bench_base::events::DevView;
use bench_base::numbers::{DayNo, DevNo};
use bench_base::words::{Key, Kind, Phase};
use indicium::Mark;
use psd_audit::is_due;
use psd_wire::Request;
use registers::Registers;
use std::marker::Model;

/// All that a device keeps. Money is in mills, and a day counts from 1970-01-01.
///
/// What is outstanding and the mark of the last debit are kept as values, each with its own version. The mark's code is
/// kept beside it. So neither giving the mark again nor keeping it makes a code.
#[derive(Clone, Copy)]
pub struct DevRec {
    pub(crate) device: DevNo,
    pub(crate) phase: Phase,
    pub(crate) key: Key,
    pub(crate) registers: Registers,
    pub(crate) number: u32,
    pub(crate) deadline: i32,
    pub(crate) last_day: i32,
    pub(crate) customer: u32,
    pub(crate) origin: u32,
    pub(crate) pending: Option<Request>,
    pub(crate) mark: Option<Mark>,
    /// The code of the mark's fields under the key, and zeros where there is no mark.
    pub(crate) code: [u8; 32],
}

impl Model for DevRec {
    ghost use Rattle.std.specs.Prelude.{◌+◌, ◌≡◌};
    ghost use Rattle.psd_state.specs.State.{State, Holds, kept_code};

    ghost Value = { State };

    ghost view = { λ r. record {
      device = r.device;
      phase = r.phase;
      key = r.key;
      registers = r.registers;
      number = r.number;
      deadline = r.deadline;
      last_day = r.last_day;
      customer = r.customer;
      origin = r.origin;
      pending = r.pending;
      mark = r.mark;
    } };

    ghost invariant = { λ r. Holds (record {
      device = r.device;
      phase = r.phase;
      key = r.key;
      registers = r.registers;
      number = r.number;
      deadline = r.deadline;
      last_day = r.last_day;
      customer = r.customer;
      origin = r.origin;
      pending = r.pending;
      mark = r.mark;
    })
        × (kept_code r.key r.mark ≡ r.code) };

    ghost inverse = { λ r. record {
      device = r.device;
      phase = r.phase;
      key = r.key;
      registers = r.registers;
      number = r.number;
      deadline = r.deadline;
      last_day = r.last_day;
      customer = r.customer;
      origin = r.origin;
      pending = r.pending;
      mark = r.mark;
      code = kept_code r.key r.mark;
    } };

    ghost inverse_ok = { λ r h. λ i. record r { code = h.1 i } };
}

impl DevRec {
    /// A new device under a key: manufactured, with nothing loaded, spent or outstanding.
    pub fn made(device: DevNo, key: &Key) -> DevRec
        ensures value { result ≡ made_state device key.now }
        ensures sound { Holds result }
    {
        DevRec {
            device,
            phase: Phase::Manufactured,
            key: *key,
            registers: Registers::zero(),
            number: 0,
            deadline: 0,
            last_day: 0,
            customer: 0,
            origin: 0,
            pending: None,
            mark: None,
            code: [0; 32],
        }
    }

    /// What the device has franked and holds, in mills.
    pub fn held(&self) -> u64
        ensures { result ≡ self.now.registers.ascending + self.now.registers.descending }
    {
        self.registers.held()
    }

    /// The number of the last transaction that was applied, and 0 where none was.
    pub fn number(&self) -> u32
        ensures { result ≡ self.now.number }
    {
        self.number
    }

    /// What the device shows on that day: in service it is locked after its deadline.
    pub fn status(&self, day: DayNo) -> DevView
        ensures { result ≡ status_of self.now day }
    {
        DevView {
            phase: shown(self.phase, self.deadline, day),
            ascending: self.registers.ascending(),
            descending: self.registers.descending(),
            refunded: self.registers.refunded(),
            pieces: self.registers.pieces(),
            number: self.number,
            deadline: self.deadline,
            pending: kind_of(&self.pending),
        }
    }

    /// The key that a reply's code is checked with.
    pub fn key(&self) -> &Key
        ensures value { result.now ≡ self.now.key }
        ensures sound { Holds self.now }
    {
        &self.key
    }
}

fn shown(phase: Phase, deadline: i32, day: DayNo) -> Phase
    ensures { result ≡ lock day deadline phase }
{
    if is_in_service(phase) && is_due(day, deadline) {
        Phase::Locked
    } else {
        phase
    }
}

fn kind_of(pending: &Option<Request>) -> Option<Kind>
    ensures { result ≡ waiting_kind pending.now }
{
    match pending {
        Some(request) => Some(request.kind),
        None => None,
    }
}
