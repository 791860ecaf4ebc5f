//! The calls of the host. Postage is in mills.
//!
//! A call that commits may answer `Store`. It answers `Store` with `Failed`, before every refusal, if and only if an earlier
//! call of this value answered Power or Fault. After every refusal it answers Power or Fault if its commit failed, and Worn
//! if the cell of the job has 4,294,967,295 commits. A refusal and Worn leave the host and its storage as they were. Calls
//! that don't commit never answer `Store`.
ghost use Rattle.std.specs.Prelude.{◌≡◌};
ghost use Rattle.node_acts.specs.Results.{answer_of};
ghost use Rattle.host_jobs.specs.ActLaws.{IsPrice};
ghost use Rattle.host_jobs.specs.Acts as act_of;

use crate::host::Host;
use bench_base::bytes::Note;
use bench_base::numbers::DevNo;
use bench_base::refusals::{HostFail, RateRefusal};
use host_jobs::{Ordered, begin_print_act, close_act, debit_message_act, order_act, take_act};
use node_storage::answer;
use nv_model::Nv;

impl<N: Nv> Host<N> {
    ghost use Rattle.host_node.specs.HostView.{rows_of, Performs};

    /// Orders a piece of the device in this class, for what `price` says: there are no rates, they refuse, or the postage,
    /// which is 1 to 100,000 mills. See `host_jobs::order_act`.
    pub fn order(
        &mut self,
        price: Option<Result<u32, RateRefusal>>,
        device: DevNo,
        piece: u32,
        class: u16,
    ) -> Result<Ordered, HostFail>
        requires price { IsPrice price }
        ensures { Performs (act_of.order_act device piece class price (rows_of self.old)) self.old self.new result }
    {
        let _number = device.get();
        let act = order_act(device, piece, class, price, self.jobs(), self.kept());
        self.perform(act)
    }

    /// The message that asks the device of the job for its mark. `NoJob` where no cell holds the job; `State` where it is not
    /// ordered.
    pub fn debit_message(&self, job: u32) -> Result<Note, HostFail>
        ensures { result ≡ answer_of (act_of.debit_message_act job (rows_of self.now)) }
    {
        answer(debit_message_act(job, self.jobs()))
    }

    /// Takes a Release, with a mark of either version, and answers the job that holds it: see `host_jobs::take_act`.
    pub fn take(&mut self, bytes: &[u8]) -> Result<u32, HostFail>
        ensures { Performs (act_of.take_act bytes.now (rows_of self.old)) self.old self.new result }
    {
        let act = take_act(bytes, self.jobs(), self.kept());
        self.perform(act)
    }

    /// Begins the print of the job, and answers the mark that is to be printed. `NoJob` where no cell holds the job;
    /// `State` where it is not held.
    pub fn begin_print(&mut self, job: u32) -> Result<[u8; 64], HostFail>
        ensures { Performs (act_of.begin_print_act job (rows_of self.old)) self.old self.new result }
    {
        let act = begin_print_act(job, self.jobs(), self.kept());
        self.perform(act)
    }

    /// Closes the job. `NoJob` where no cell holds it; `State` where it is closed.
    pub fn close_job(&mut self, job: u32) -> Result<(), HostFail>
        ensures { Performs (act_of.close_act job (rows_of self.old)) self.old self.new result }
    {
        let act = close_act(job, self.jobs(), self.kept());
        self.perform(act)
    }
}
