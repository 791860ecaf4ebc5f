//! Each node as the auditor has it.
ghost use Rattle.std.specs.Prelude.{◌≡◌, ◌-◌, Some, slice_get};
ghost use Rattle.trace_bench.specs.Seeing.{IsReady, audit_of};

use crate::auditor::Auditor;
use crate::telling::traced_of;
use bench_base::numbers::DevNo;
use centre_ledger::Row;
use host_jobs::JobRow;
use psd_state::DevRec;
use trace_centre::CentreRecord;
use trace_device::DeviceRecord;
use trace_host::HostRecord;
use trace_nodes::Traced;
use trace_verifier::ScanRecord;
use verifier::Change;

impl Auditor {
    /// The device, as the reports describe it.
    pub fn device_node(&self, device: DevNo) -> &Traced<DeviceRecord, DevRec>
        requires ready { IsReady (audit_of self.now) }
        ensures { slice_get (audit_of self.now).devices (device - 1) ≡ Some result.now }
    {
        traced_of(&self.devices, device)
    }

    /// The centre, as the reports describe it.
    pub fn centre_node(&self) -> &Traced<CentreRecord, Row>
        ensures { result.now ≡ (audit_of self.now).centre }
    {
        &self.centre
    }

    /// The host, as the reports describe it.
    pub fn host_node(&self) -> &Traced<HostRecord, JobRow>
        ensures { result.now ≡ (audit_of self.now).host }
    {
        &self.host
    }

    /// The verifier, as the reports describe it.
    pub fn verifier_node(&self) -> &Traced<ScanRecord, Change>
        ensures { result.now ≡ (audit_of self.now).verifier }
    {
        &self.verifier
    }
}
