//! A device's record out of an image of its storage.
ghost use Rattle.std.specs.Prelude.{◌≡◌, IfSome, IfNone, length};
ghost use Rattle.psd_state.specs.Seen.{Seen};
ghost use Rattle.psd_device.specs.Shown.{ShowsSeen};
ghost use Rattle.psd_device.specs.Sound.{IsSound};
ghost use Rattle.trace_device.specs.Records.{seen_of};

use crate::slots::{Newest, read_newest};
use bench_base::numbers::DevNo;
use bench_base::sizes::{RECORD_BYTES, SLOTS};
use psd_state::{DevRec, ReadyRecord};
use trace_device::DeviceRecord;

/// The device's record that an image of its storage shows, as a boot reads it. None if and only if the image shows none: it is mixed, or its payload is no
/// record of this device.
pub fn device_record(device: DevNo, image: &[u8]) -> Option<DeviceRecord>
    requires long { length image.now ≡ 3424 }
    ensures some { IfSome result (λ r. IsSound device (seen_of r) × ShowsSeen (seen_of r) image.now) }
    ensures none { IfNone result ((s : Seen) → IsSound device s → ShowsSeen s image.now → ⊥) }
{
    let mut payload = [0; RECORD_BYTES];
    match read_newest(image, SLOTS as usize, RECORD_BYTES, &mut payload) {
        Newest::Mixed => None,
        Newest::Blank => Some(DeviceRecord {
            count: 0,
            state: None,
        }),
        Newest::Commits(count) => match DevRec::read_payload(device, &payload, &None) {
            Some(kept) => Some(DeviceRecord {
                count,
                state: Some(ReadyRecord::new(&kept)),
            }),
            None => None,
        },
    }
}
