//! What an image of a device's storage shows.
ghost use Rattle.std.specs.Prelude.{◌≡◌, ◌<◌, None, Some, true, false, length, IfSome};
ghost use Rattle.bench_base.specs.declared.sizes.TheConstants.{MOST_COMMITS};
ghost use Rattle.psd_state.specs.Seen.{counting};
ghost use Rattle.psd_device.specs.Boots.{IsOwn};
ghost use Rattle.psd_device.specs.Shown.{IsShown, IsStorable};
ghost use Rattle.psd_device.specs.Sound.{IsSound};
ghost use Rattle.node_images.specs.Devices.{AreSound, ShowsChanged, DeviceIs};

use crate::cell::CellShows;
use bench_base::numbers::DevNo;
use bench_base::sizes::{RECORD_BYTES, SLOTS};
use nv_bytes::{copy_newest, is_blank};
use payload_rows::{is_own, reads_as_record};
use psd_state::{DevRec, ReadyRecord};

// Each record can be kept.
fn is_storable(kept: &DevRec)
    ensures { IsStorable kept.now }
{
    let _payload = kept.write_payload();
}

// Whether the record is one of this device.
fn is_of(device: DevNo, kept: &DevRec) -> bool
    ensures yes { result ≡ true → IsOwn device kept.now }
    ensures no { result ≡ false → IsOwn device kept.now → ⊥ }
{
    is_storable(kept);
    is_own(device, kept)
}

// Whether the storage of the device can show so many commits and this record.
fn is_sound(device: DevNo, count: u32, state: &Option<ReadyRecord>) -> bool
    ensures yes { result ≡ true → IsSound device (record { count = count; state = state.now }) }
    ensures no { result ≡ false → IsSound device (record { count = count; state = state.now }) → ⊥ }
{
    match state {
        None => count == 0,
        Some(kept) => count != 0 && is_of(device, kept.record()),
    }
}

// Whether it can show them with the change in doubt, if there is one.
fn is_sound_after(
    device: DevNo,
    count: u32,
    state: &Option<ReadyRecord>,
    changed: &Option<DevRec>,
) -> bool
    requires fresh { IfSome changed.now (λ x. count < MOST_COMMITS) }
    ensures yes { result ≡ true
        → IfSome changed.now (λ x. IsSound device (counting.after (record { count = count; state = state.now }) x)) }
    ensures no { result ≡ false
        → IfSome changed.now (λ x. IsSound device (counting.after (record { count = count; state = state.now }) x)) → ⊥ }
{
    let _state = state;
    match changed {
        None => true,
        Some(kept) => is_of(device, kept),
    }
}

// Whether both are so.
fn are_sound(
    device: DevNo,
    count: u32,
    state: &Option<ReadyRecord>,
    changed: &Option<DevRec>,
) -> bool
    requires fresh { IfSome changed.now (λ x. count < MOST_COMMITS) }
    ensures yes { result ≡ true → AreSound device (record { count = count; state = state.now }) changed.now }
    ensures no { result ≡ false → AreSound device (record { count = count; state = state.now }) changed.now → ⊥ }
{
    if !is_sound(device, count, state) {
        return false;
    }
    is_sound_after(device, count, state, changed)
}

// Whether the image shows no commit.
fn shows_none(image: &[u8]) -> bool
    requires long { length image.now ≡ 3424 }
    ensures yes { result ≡ true → IsShown 0 None image.now }
    ensures no { result ≡ false → IsShown 0 None image.now → ⊥ }
{
    is_blank(image, SLOTS as usize, RECORD_BYTES)
}

// Whether the image shows so many commits and this record of the device, in either version.
fn shows_record(device: DevNo, image: &[u8], count: u32, kept: &DevRec) -> bool
    requires own { IsOwn device kept.now }
    requires long { length image.now ≡ 3424 }
    ensures yes { result ≡ true → IsShown count (Some kept.now) image.now }
    ensures no { result ≡ false → IsShown count (Some kept.now) image.now → ⊥ }
{
    let mut payload = [0; RECORD_BYTES];
    if !copy_newest(image, SLOTS as usize, RECORD_BYTES, count, &mut payload) {
        return false;
    }
    reads_as_record(device, &payload, kept)
}

// Whether the image shows what was counted.
fn shows_state(device: DevNo, image: &[u8], count: u32, state: &Option<ReadyRecord>) -> bool
    requires sound { IsSound device (record { count = count; state = state.now }) }
    requires long { length image.now ≡ 3424 }
    ensures yes { result ≡ true → IsShown count state.now image.now }
    ensures no { result ≡ false → IsShown count state.now image.now → ⊥ }
{
    match state {
        None => shows_none(image),
        Some(kept) => shows_record(device, image, count, kept.record()),
    }
}

// Whether the image shows that with the change in doubt, if there is one.
fn shows_changed(
    device: DevNo,
    image: &[u8],
    count: u32,
    state: &Option<ReadyRecord>,
    changed: &Option<DevRec>,
) -> bool
    requires sound { AreSound device (record { count = count; state = state.now }) changed.now }
    requires long { length image.now ≡ 3424 }
    requires fresh { IfSome changed.now (λ x. count < MOST_COMMITS) }
    ensures yes { result ≡ true → ShowsChanged (record { count = count; state = state.now }) changed.now image.now }
    ensures no { result ≡ false → ShowsChanged (record { count = count; state = state.now }) changed.now image.now → ⊥ }
{
    let _state = state;
    match changed {
        None => false,
        Some(kept) => shows_record(device, image, count + 1, kept),
    }
}

/// What an image of the device's storage shows, by its commits and its record, and by the change in doubt, if there is one. `Other` also if these are no
/// record of the device.
pub fn device_image(
    device: DevNo,
    image: &[u8],
    count: u32,
    state: &Option<ReadyRecord>,
    changed: &Option<DevRec>,
) -> CellShows
    requires long { length image.now ≡ 3424 }
    requires fresh { IfSome changed.now (λ x. count < MOST_COMMITS) }
    ensures { DeviceIs device (record { count = count; state = state.now }) changed.now image.now result }
{
    if !are_sound(device, count, state, changed) {
        return CellShows::Other;
    }
    if shows_state(device, image, count, state) {
        return CellShows::Counted;
    }
    if shows_changed(device, image, count, state, changed) {
        return CellShows::Open;
    }
    CellShows::Other
}
