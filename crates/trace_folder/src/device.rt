//! A device's storage, by the auditor's record.
ghost use Rattle.std.specs.Prelude.{◌≡◌, ◌≤◌, length, take, IfSome, IfOk, OnErr};
ghost use Rattle.bench_base.specs.declared.sizes.TheConstants.{DEVICE_BYTES};
ghost use Rattle.trace_device.specs.Records.{IsSettled, seen_of};
ghost use Rattle.node_images.specs.Cells.{IsWhat};
ghost use Rattle.node_images.specs.Devices.{DeviceIs};
ghost use Rattle.trace_folder.specs.Images.{DeviceImageIs};
ghost use Rattle.trace_folder.specs.Sources.{IsUnread};
ghost use Rattle.trace_folder.specs.Walks.{image_of};

use crate::due::Due;
use crate::filling::fill_whole;
use crate::shows::{MOST_CELL, Shows};
use bench_base::numbers::DevNo;
use bench_base::stream::{ReadFail, Source};
use node_images::{CellShows, device_image};
use psd_state::DevRec;
use trace_device::DeviceRecord;
use trace_nodes::Traced;

/// What the image of a device's storage shows.
pub fn device_cell(traced: &Traced<DeviceRecord, DevRec>, device: DevNo, image: &[u8]) -> CellShows
    requires settled { IsSettled traced.now }
    requires long { length image.now ≡ 3424 }
    ensures { DeviceIs device (seen_of traced.now.record) traced.now.open image.now result }
{
    let kept = &traced.record;
    device_image(device, image, kept.count, &kept.state, &traced.open)
}

// What an image of one cell shows.
fn of_cell(cell: CellShows) -> Shows
    ensures { result ≡ image_of cell }
{
    match cell {
        CellShows::Counted => Shows::Counted,
        CellShows::Open => Shows::Open,
        CellShows::Other => Shows::Other(0),
    }
}

/// What the image of the device's storage shows, which is read into the buffer. ReadFail if the source fails or has too few bytes.
pub fn device_shows<S: Source>(
    traced: &Traced<DeviceRecord, DevRec>,
    device: DevNo,
    image: &mut S,
    buffer: &mut [u8; MOST_CELL],
) -> Result<Shows, ReadFail>
    requires settled { IsSettled traced.now }
    ensures shows { IfSome (S.left image.old) (λ bytes. IfOk result (DeviceImageIs device traced.now (take DEVICE_BYTES bytes))) }
    ensures later { S.faults image.old ≤ S.faults image.new }
    ensures failed { OnErr result (IsUnread DEVICE_BYTES (S.faults image.old) (S.faults image.new) (S.left image.old)) }
{
    let cell = &mut buffer[..3_424];
    match fill_whole(image, cell) {
        Ok(()) => Ok(of_cell(device_cell(traced, device, cell))),
        Err(fail) => Err(fail),
    }
}

/// What the storage should hold.
pub fn device_due(traced: &Traced<DeviceRecord, DevRec>) -> Due {
    Due {
        count: traced.record.count,
        is_open: traced.open.is_some(),
    }
}
