//! How a device and the centre compare. Sums are in mills.
ghost use Rattle.std.specs.Prelude.{◌≡◌, length};
ghost use Rattle.bench.specs.Comparing.{Shows, ShowsAt};

use bench_base::events::Reply;
use bench_base::numbers::DevNo;
use bench_base::words::Node as NodeNo;
use call_handlers::compared;
use centre_ledger::{BooksOf, standing_act};
use centre_protocol::CentreNode;
use node_storage::Node;
use nv_model::Fuse;
use psd_device::DeviceNode;

// Compares a device in its place with the centre. The device answers before the centre.
fn compare_place<M: Fuse + Drop>(
    device: DevNo,
    place: &DeviceNode<M>,
    centre: &CentreNode<M>,
) -> Reply
    ensures { Shows device place.now centre.now result }
{
    if !place.is_on() {
        return Reply::OffNode(NodeNo::Device(device));
    }
    if !centre.is_on() {
        return Reply::OffNode(NodeNo::Centre);
    }
    compared(device, place.record(), standing_act(device, centre.books()))
}

/// What the device holds beside what the centre says of it.
#[inline(never)]
pub fn compare<M: Fuse + Drop>(
    device: DevNo,
    devices: &[DeviceNode<M>],
    centre: &CentreNode<M>,
) -> Reply
    requires eight { length devices.now ≡ 8 }
    ensures { ShowsAt device devices.now centre.now result }
{
    let place = device.get() as usize - 1;
    compare_place(device, &devices[place], centre)
}
