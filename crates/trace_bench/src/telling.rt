//! What an auditor reports of each node, by what it has after the runs that were judged.
ghost use Rattle.std.specs.Prelude.{◌≡◌, ◌-◌, ◌+◌, length, is_some, slice_get, option_map, Some};
ghost use Rattle.std.specs.Option.{option_copied};
ghost use Rattle.bench_base.specs.Ranges.{IsDevice};
ghost use Rattle.bench_base.specs.Ledger.{Ledger, counted, torn_of};
ghost use Rattle.ledger_terms.specs.Devices.{key_of};
ghost use Rattle.host_jobs.specs.Seen.{rows_in};
ghost use Rattle.host_jobs.specs.Rows.{last_in};
ghost use Rattle.psd_state.specs.Answers.{status_of as status_in};
ghost use Rattle.trace_device.specs.Records.{seen_of};
ghost use Rattle.trace_centre.specs.Cells.{cells_of};
ghost use Rattle.trace_host.specs.Cells as host_cells;
ghost use Rattle.trace_bench.specs.Seeing.{IsReady, Sees, audit_of};
ghost use Rattle.trace_bench.specs.Telling.{OfDevice, Counts, Opens, done_by, status_by, balance_by, shown_by, left_by, reconcile_by, device_row_by, customer_row_by, device_in, centre_in, host_in, count_in, SaysStatus, SaysBalance};

use crate::auditor::Auditor;
use bench_abstraction::laws::nodes_follow;
use bench_abstraction::{BalanceCall, CentreCall, DeviceCall};
use bench_base::bytes::Note;
use bench_base::events::{DevView, Reply};
use bench_base::numbers::{Customer, DayNo, DevNo};
use bench_base::words::Node;
use call_handlers::compared;
use centre_ledger::{CustomerRow, DeviceRow, standing_act};
use host_jobs::JobsOf;
use node_acts::{Act, Said};
use psd_state::{DevRec, ReadyRecord};
use trace_centre::{CentreRecord, centre_act};
use trace_device::{DeviceRecord, device_act, is_known};
use trace_nodes::{Record, Traced};

// The reply of an act that is done.
fn done<X>(act: &Act<X, Reply, Said>) -> Option<Reply>
    ensures { result ≡ done_by act.now }
{
    match act {
        Act::Refuse(_) => None,
        Act::Tell(said) | Act::Commits(_, _, said) => Some(said.reply),
    }
}

// What a device shows on that day.
fn shown(state: &Option<ReadyRecord>, day: DayNo) -> Option<DevView>
    ensures { result ≡ option_map (λ x. status_in x day) state.now }
{
    match state {
        Some(kept) => Some(kept.record().status(day)),
        None => None,
    }
}

// The traced node of the device.
pub(crate) fn traced_of(
    devices: &[Traced<DeviceRecord, DevRec>],
    device: DevNo,
) -> &Traced<DeviceRecord, DevRec>
    requires eight { length devices.now ≡ 8 }
    ensures at { slice_get devices.now (device - 1) ≡ Some result.now }
    ensures named { device ≡ device - 1 + 1 }
    ensures ranged { IsDevice device }
{
    let place = device.get() as usize - 1;
    &devices[place]
}

impl Auditor {
    /// The day of the run that was judged last. None if that run has set no day.
    pub fn day(&self) -> Option<DayNo>
        ensures { result ≡ (audit_of self.now).day }
    {
        self.day
    }

    /// What the device answers to `status` on that day where it is on, by the commits that count. None if and only if it was not made.
    pub fn status_of(&self, device: DevNo, day: DayNo) -> Option<Reply>
        requires ready { IsReady (audit_of self.now) }
        ensures by_record { OfDevice device (audit_of self.now) (λ s. result ≡ status_by device day (seen_of s.record)) }
        ensures by_ledger { (H : Ledger) → Sees (audit_of self.now) H → result ≡ status_by device day (device_in device H) }
        ensures answered { SaysStatus (audit_of self.now) device day result }
    {
        // What is seen of the nodes follows from the ledger.
        nodes_follow();
        let traced = traced_of(&self.devices, device);
        is_known(&traced.record);
        done(&device_act(device, day, &DeviceCall::Status, &traced.record.state))
    }

    /// What the centre answers to `balance` where it is on, in mills, by the commits that count. None if and only if the customer is not open.
    pub fn balance_of(&self, customer: Customer) -> Option<Reply>
        ensures by_record { result ≡ balance_by customer (cells_of (audit_of self.now).centre.record) }
        ensures by_ledger { (H : Ledger) → Sees (audit_of self.now) H → result ≡ balance_by customer (centre_in H) }
        ensures answered { SaysBalance (audit_of self.now) customer result }
    {
        // What is seen of the nodes follows from the ledger.
        nodes_follow();
        trace_centre::is_known(&self.centre.record);
        done(&centre_act(
            &CentreCall::Balance(BalanceCall { customer }),
            &self.centre.record,
        ))
    }

    /// What the device shows of its record on that day, by the commits that count. None if and only if it was not made.
    pub fn shown_of(&self, device: DevNo, day: DayNo) -> Option<DevView>
        requires ready { IsReady (audit_of self.now) }
        ensures by_record { OfDevice device (audit_of self.now) (λ s. result ≡ shown_by day (seen_of s.record)) }
        ensures by_ledger { (H : Ledger) → Sees (audit_of self.now) H → result ≡ shown_by day (device_in device H) }
    {
        let traced = traced_of(&self.devices, device);
        shown(&traced.record.state, day)
    }

    /// What the customer has left, in mills, by the commits that count, and 0 where it is not open.
    pub fn left_of(&self, customer: Customer) -> u64
        ensures by_record { result ≡ left_by customer (cells_of (audit_of self.now).centre.record) }
        ensures by_ledger { (H : Ledger) → Sees (audit_of self.now) H → result ≡ left_by customer (centre_in H) }
    {
        self.centre.record.accounts().left(customer.get())
    }

    /// What `reconcile` answers of the device where it and the centre are on, in mills, by the commits that count.
    pub fn reconcile_of(&self, device: DevNo) -> Reply
        requires ready { IsReady (audit_of self.now) }
        ensures by_record { OfDevice device (audit_of self.now)
            (λ s. result ≡ reconcile_by device (seen_of s.record) (cells_of (audit_of self.now).centre.record)) }
        ensures by_ledger { (H : Ledger) → Sees (audit_of self.now) H → result ≡ reconcile_by device (device_in device H) (centre_in H) }
    {
        let traced = traced_of(&self.devices, device);
        compared(
            device,
            &traced.record.state,
            standing_act(device, self.centre.record.accounts()),
        )
    }

    /// What the centre keeps of the device, by the commits that count. None if and only if it is not registered.
    pub fn device_row(&self, device: DevNo) -> Option<&DeviceRow>
        ensures by_record { option_copied result ≡ device_row_by device (cells_of (audit_of self.now).centre.record) }
        ensures by_ledger { (H : Ledger) → Sees (audit_of self.now) H → option_copied result ≡ device_row_by device (centre_in H) }
    {
        self.centre.record.accounts().device(device.get())
    }

    /// What the centre keeps of the customer, by the commits that count. None if and only if it is not open.
    pub fn customer_row(&self, customer: Customer) -> Option<&CustomerRow>
        ensures by_record { option_copied result ≡ customer_row_by customer (cells_of (audit_of self.now).centre.record) }
        ensures by_ledger { (H : Ledger) → Sees (audit_of self.now) H → option_copied result ≡ customer_row_by customer (centre_in H) }
    {
        self.centre.record.accounts().customer(customer.get())
    }

    /// The last job that was ordered, by the commits of the host that count; 0 if no job was ordered.
    pub fn last_job(&self) -> u32
        ensures by_record { result ≡ last_in (rows_in (host_cells.cells_of (audit_of self.now).host.record)) }
        ensures by_ledger { (H : Ledger) → Sees (audit_of self.now) H → result ≡ last_in (rows_in (host_in H)) }
    {
        self.host.record.kept().last
    }

    /// How many messages were sent in the run that was judged last.
    pub fn message_count(&self) -> usize
        ensures { result ≡ length (audit_of self.now).messages }
    {
        self.messages.len()
    }

    /// The message that was sent last in that run; None if none was sent.
    pub fn last_message(&self) -> Option<Note>
        ensures { result ≡ slice_get (audit_of self.now).messages (length (audit_of self.now).messages - 1) }
    {
        let count = self.messages.len();
        if count == 0 {
            return None;
        }
        Some(self.messages[count - 1])
    }

    /// Whether the device was made, by the commits that count.
    pub fn is_made(&self, device: DevNo) -> bool
        requires ready { IsReady (audit_of self.now) }
        ensures by_record { OfDevice device (audit_of self.now) (λ s. result ≡ is_some s.record.state) }
        ensures by_ledger { (H : Ledger) → Sees (audit_of self.now) H → result ≡ is_some (key_of device (counted H)) }
    {
        traced_of(&self.devices, device).record.state.is_some()
    }

    /// How many commits of the node count.
    pub fn commits_of(&self, node: &Node) -> u64
        requires ready { IsReady (audit_of self.now) }
        ensures by_record { Counts node.now (audit_of self.now) result }
        ensures by_ledger { (H : Ledger) → Sees (audit_of self.now) H → result ≡ count_in node.now H }
    {
        match node {
            Node::Device(device) => traced_of(&self.devices, *device).record.commits(),
            Node::Centre => self.centre.record.commits(),
            Node::Host => self.host.record.commits(),
            Node::Verifier => self.verifier.record.commits(),
        }
    }

    /// Whether a commit of the node is open: it failed, and the node has not come on since.
    pub fn is_open(&self, node: &Node) -> bool
        requires ready { IsReady (audit_of self.now) }
        ensures by_record { Opens node.now (audit_of self.now) result }
        ensures by_ledger { (H : Ledger) → Sees (audit_of self.now) H → result ≡ is_some (torn_of node.now H) }
    {
        match node {
            Node::Device(device) => traced_of(&self.devices, *device).open.is_some(),
            Node::Centre => self.centre.open.is_some(),
            Node::Host => self.host.open.is_some(),
            Node::Verifier => self.verifier.open.is_some(),
        }
    }
}
