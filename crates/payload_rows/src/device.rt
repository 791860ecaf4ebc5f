//! A device's record in a payload.
ghost use Rattle.std.specs.Prelude.{◌≡◌, ◌≢◌, true, false};
ghost use Rattle.psd_state.specs.Payload.{ReadsAs};

use bench_base::numbers::DevNo;
use bench_base::sizes::RECORD_BYTES;
use psd_state::{DevRec, one_payload};

fn same_record(one: &DevRec, other: &DevRec) -> bool
    ensures yes { result ≡ true → one.now ≡ other.now }
    ensures no { result ≡ false → one.now ≢ other.now }
{
    one_payload();
    one.write_payload() == other.write_payload()
}

/// Whether a payload reads as this record of the device.
pub fn reads_as_record(device: DevNo, payload: &[u8; RECORD_BYTES], kept: &DevRec) -> bool
    requires own { kept.now.device ≡ device }
    ensures yes { result ≡ true → ReadsAs payload.now kept.now }
    ensures no { result ≡ false → ReadsAs payload.now kept.now → ⊥ }
{
    match DevRec::read_payload(device, payload, &None) {
        Some(read) => same_record(&read, kept),
        None => false,
    }
}

/// Whether the record is one of this device.
pub fn is_own(device: DevNo, kept: &DevRec) -> bool
    ensures yes { result ≡ true → kept.now.device ≡ device }
    ensures no { result ≡ false → kept.now.device ≡ device → ⊥ }
{
    match DevRec::read_payload(device, &kept.write_payload(), &None) {
        Some(read) => same_record(&read, kept),
        None => false,
    }
}
