//! Marks that were seen on mail: each is recorded as debited once its debit counts.
ghost use Rattle.std.specs.Prelude.{◌≡◌, [], Some, IfOk, OnOk, length};
ghost use Rattle.bench_base.specs.Ledger.{Ledger};
ghost use Rattle.trace_seen.specs.Marks.{Adds, Ticks, asked, first_line, seen_as};
ghost use Rattle.trace_bench.specs.Debits.{IsLastOf, TellsDebits};
ghost use Rattle.trace_bench.specs.Seeing.{IsReady, Sees, audit_of, keeps};

use crate::auditor::Auditor;
use crate::telling::traced_of;
use bench_base::numbers::DevNo;
use psd_state::{DevRec, last_mark};
use std::alloc::AllocError;
use trace_device::DeviceRecord;
use trace_nodes::Traced;
use trace_seen::SeenMarks;

// Tells this mark as debited, if there is one and it was seen.
fn tick(seen: &mut SeenMarks, mark: &Option<[u8; 64]>)
    ensures { Ticks (λ q. mark.now ≡ Some q) seen.old seen.new }
{
    if let Some(mark) = mark {
        seen.tick(mark);
    }
}

// Tells the mark of the last debit of this device as debited, if there is one and it was seen. Nothing is done where no mark was seen.
pub(crate) fn tick_last(
    seen: &mut SeenMarks,
    devices: &[Traced<DeviceRecord, DevRec>],
    device: Option<DevNo>,
)
    requires eight { length devices.now ≡ 8 }
    ensures { Ticks (λ q. IsLastOf device devices.now q) seen.old seen.new }
{
    let Some(device) = device else {
        return;
    };
    if seen.is_empty() {
        return;
    }
    let traced = traced_of(devices, device);
    tick(seen, &last_mark(&traced.record.state));
}

impl Auditor {
    /// Adds a mark that was seen, at this line. Whether it is debited is recorded from then on, so add all marks before the first run. If it was
    /// added before nothing changes, and the result is the first line that contains it. AllocError is lack of memory: nothing was added.
    pub fn see(&mut self, mark: &[u8; 64], line: u64) -> Result<Option<u64>, AllocError>
        requires ready { IsReady (audit_of self.old) }
        ensures ready { IsReady (audit_of self.new) }
        ensures first { IfOk result (λ first. first ≡ first_line (seen_as (audit_of self.old).known.seen mark.now)) }
        ensures adds { OnOk result (Adds mark.now line (audit_of self.old).known.seen (audit_of self.new).known.seen) }
        ensures blank { Sees (audit_of self.old) [] → Sees (audit_of self.new) [] }
    {
        self.known.seen.add(mark, line)
    }

    /// The marks that were seen, each with whether it was debited: whether a debit with this very mark counts. A debit with its commit in doubt
    /// counts once an `up` says so.
    pub fn seen(&self) -> &SeenMarks
        ensures asked { asked result.now ≡ (keeps (audit_of self.now)).seen }
        ensures by_ledger { (H : Ledger) → Sees (audit_of self.now) H → TellsDebits result.now H }
    {
        &self.known.seen
    }
}
