//! The record of a device, with the count of its commits.
ghost use Rattle.std.specs.Prelude.{◌≡◌, ℕ, []};
ghost use Rattle.psd_state.specs.Seen as device;
ghost use Rattle.bench_abstraction.specs.Devices.{seen_in};
ghost use Rattle.trace_device.specs.Records as records;

use bench_base::sizes::MOST_COMMITS;
use psd_state::{DevRec, ReadyRecord, keep};
use trace_nodes::Record;

/// How many commits a device has, and its record, where it was made.
#[derive(Drop)]
pub struct DeviceRecord {
    pub count: u32,
    pub state: Option<ReadyRecord>,
}

impl DeviceRecord {
    /// A device that wasn't made: as each is seen before the first commit.
    pub fn blank() -> DeviceRecord
        ensures { (d : ℕ) → records.seen_of result ≡ seen_in d [] }
    {
        DeviceRecord {
            count: 0,
            state: None,
        }
    }
}

impl Record<DevRec> for DeviceRecord {
    ghost Seen = { device.Seen };

    ghost counting = { device.counting };

    ghost IsFit = { λ s x. Unit {0} };

    ghost seen = { λ r. records.seen_of r };

    fn commits(&self) -> u64 {
        u64::from(self.count)
    }

    fn is_worn(&self, _change: &DevRec) -> bool {
        self.count == MOST_COMMITS
    }

    fn put(&mut self, change: &DevRec) {
        self.count += 1;
        keep(&mut self.state, change);
    }
}
