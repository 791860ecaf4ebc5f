//! A start from records of the nodes.
ghost use Rattle.std.specs.Prelude.{◌≡◌, map, IfOk};
ghost use Rattle.trace_bench.specs.Starting.{at_rest};

use crate::auditor::Auditor;
use crate::known::Known;
use psd_state::DevRec;
use std::alloc::{AllocError, Global};
use trace_centre::CentreRecord;
use trace_device::DeviceRecord;
use trace_host::HostRecord;
use trace_nodes::Traced;
use trace_verifier::ScanRecord;

// A node that has this record, is off, and has no change open.
fn resting<R, X>(record: R) -> Traced<R, X>
    ensures { result ≡ at_rest «record» }
{
    Traced {
        record,
        open: None,
        on: false,
    }
}

// Such nodes of all devices.
fn resting_devices(
    alloc: Global,
    devices: [DeviceRecord; 8],
) -> Result<Vec<Traced<DeviceRecord, DevRec>>, AllocError>
    ensures { IfOk result (λ nodes. nodes.items ≡ map (λ r. at_rest r) devices) }
{
    let [a, b, c, d, e, f, g, h] = devices;
    let nodes = Vec::from_array(
        alloc,
        [
            resting(a),
            resting(b),
            resting(c),
            resting(d),
            resting(e),
            resting(f),
            resting(g),
            resting(h),
        ],
    )?;
    Ok(nodes)
}

impl Auditor {
    ghost use Rattle.trace_bench.specs.Seeing.{IsReady, audit_of};
    ghost use Rattle.trace_bench.specs.Starting.{StartsFrom};

    /// An auditor of nodes that are off, have these records and no change open. There is no day, no rates and no message, and what was sent and released
    /// before isn't known. AllocError is lack of memory.
    pub fn of_records(
        alloc: Global,
        devices: [DeviceRecord; 8],
        centre: CentreRecord,
        host: HostRecord,
        verifier: ScanRecord,
    ) -> Result<Auditor, AllocError>
        ensures ready { IfOk result (λ a. IsReady (audit_of a)) }
        ensures starts { IfOk result (λ a. StartsFrom devices centre host verifier (audit_of a)) }
    {
        let devices = resting_devices(alloc, devices)?;
        Ok(Auditor {
            devices,
            centre: resting(centre),
            host: resting(host),
            verifier: resting(verifier),
            day: None,
            rates: None,
            messages: Vec::new(alloc),
            known: Known::new(alloc, false),
        })
    }
}
