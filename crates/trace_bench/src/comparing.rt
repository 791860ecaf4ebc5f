//! How a device and the centre compare. Sums are in mills.
ghost use Rattle.std.specs.Prelude.{◌≡◌};
ghost use Rattle.bench_abstraction.specs.Comparing as compares;
ghost use Rattle.trace_device.specs.Records as seen_device;
ghost use Rattle.trace_centre.specs.Cells as seen_centre;

use bench_base::events::Reply;
use bench_base::numbers::DevNo;
use bench_base::words::Node;
use call_handlers::compared;
use centre_ledger::{Row, standing_act};
use psd_state::DevRec;
use trace_centre::CentreRecord;
use trace_device::DeviceRecord;
use trace_nodes::Traced;

/// What the device holds beside what the centre says of it. The device answers before the centre.
pub(crate) fn compare(
    device: DevNo,
    place: &Traced<DeviceRecord, DevRec>,
    centre: &Traced<CentreRecord, Row>,
) -> Reply
    ensures { result ≡ compares.compare device (seen_device.view_of place.now) (seen_centre.view_of centre.now) }
{
    if !place.on {
        return Reply::OffNode(Node::Device(device));
    }
    if !centre.on {
        return Reply::OffNode(Node::Centre);
    }
    compared(
        device,
        &place.record.state,
        standing_act(device, centre.record.accounts()),
    )
}
