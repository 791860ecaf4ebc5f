//! The calls of a device. Money is in mills, and a day counts from 1970-01-01.
//!
//! A call that commits answers `Store` with `Failed`, before every refusal, if and only if an earlier call of this value
//! answered Power or Fault. After every refusal it answers Power or Fault if its commit failed, and Worn if the storage has
//! 4,294,967,295 commits. A refusal, Worn, and an answer that needs no commit leave the device and its storage as they
//! were. The other calls never answer `Store`.
ghost use Rattle.std.specs.Prelude.{◌≡◌};
ghost use Rattle.node_acts.specs.Results.{answer_of};
ghost use Rattle.psd_state.specs.Acts.{resend_act, ack_act, status_act};

use crate::device::Device;
use bench_base::bytes::Note;
use bench_base::numbers::DayNo;
use bench_base::refusals::DevFail;
use bench_base::words::{Key, Kind};
use node_storage::answer;
use nv_model::Nv;
use psd_state::{DevStatus, Franked, Taken, acts};
use psd_wire::DebitMsg;

impl<N: Nv> Device<N> {
    ghost use Rattle.psd_device.specs.DeviceView.{seen_of, make_of, debit_of, ask_of, take_of, Performs};

    /// Makes the device under a key. `Made` if and only if it was made before.
    pub fn make(&mut self, key: &Key) -> Result<(), DevFail>
        ensures { Performs (make_of self.old key.now) self.old self.new result }
    {
        let act = acts::make_act(self.running.node.number(), key, self.running.node.record());
        self.perform(act)
    }

    /// Marks a piece: see `DevRec::debit`. `Blank`, before its refusals, if and only if there is no record. The mark of the last
    /// piece is given once more without a commit.
    pub fn debit(&mut self, command: &DebitMsg, day: DayNo) -> Result<Franked, DevFail>
        ensures { Performs (debit_of self.old command.now day) self.old self.new result }
    {
        let act = acts::debit_act(
            self.running.node.number(),
            command,
            day,
            self.running.node.record(),
        );
        self.perform(act)
    }

    /// Asks for a transaction: see `DevRec::ask`. `Blank`, before its refusals, if and only if there is no record. The customer
    /// counts for an enrolment only, and the amount, in mills, for a reset only.
    pub fn ask(
        &mut self,
        kind: Kind,
        customer: u32,
        amount: u32,
        day: DayNo,
    ) -> Result<Note, DevFail>
        ensures { Performs (ask_of self.old kind customer amount day) self.old self.new result }
    {
        let act = acts::ask_act(
            self.running.node.number(),
            kind,
            customer,
            amount,
            day,
            self.running.node.record(),
        );
        self.perform(act)
    }

    /// Takes a Reply or a Debit. The first refusal that holds is answered:
    ///
    /// 1. `Unread` of `read_message`.
    /// 2. `Unread` with `Tag` for another message.
    /// 3. For a Debit those of `debit`.
    /// 4. For a Reply `Blank`, `WrongDevice` with the Reply's device, `BadCode` if and only if its code is not of this
    ///    device's key, and then those of `DevRec::apply`.
    pub fn take(&mut self, bytes: &[u8], day: DayNo) -> Result<Taken, DevFail>
        ensures { Performs (take_of self.old bytes.now day) self.old self.new result }
    {
        let act = acts::take_act(
            self.running.node.number(),
            bytes,
            day,
            self.running.node.record(),
        );
        self.perform(act)
    }

    /// The request that is outstanding, byte for byte as it was sent. `Blank`, then `NothingPending`.
    pub fn resend(&self) -> Result<Note, DevFail>
        ensures { result ≡ answer_of (resend_act (seen_of self.now).state) }
    {
        answer(acts::resend_act(self.running.node.record()))
    }

    /// The message that the last transaction was applied. `Blank`, then `NothingDone`.
    pub fn ack(&self) -> Result<Note, DevFail>
        ensures { result ≡ answer_of (ack_act (seen_of self.now).state) }
    {
        answer(acts::ack_act(self.running.node.record()))
    }

    /// What the device shows of its record on that day. `Blank` if there is no record.
    pub fn status(&self, day: DayNo) -> Result<DevStatus, DevFail>
        ensures { result ≡ answer_of (status_act day (seen_of self.now).state) }
    {
        answer(acts::status_act(day, self.running.node.record()))
    }
}
