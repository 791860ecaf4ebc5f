//! The keys of trusted devices, made ready for codes.
ghost use Rattle.std.specs.Prelude.{◌≡◌, IfSome};

use bench_base::numbers::DevNo;
use bench_base::words::Key;
use hmac_core::ReadyKey;

/// A ready key for each device that has one. It is never stored, and what it has of a device is looked up by the key that the
/// rows hold, so it can save time and change nothing.
#[derive(Drop)]
pub struct ReadyKeys {
    keys: [Option<ReadyKey>; 8],
}

impl ReadyKeys {
    /// No key.
    pub fn none() -> ReadyKeys {
        ReadyKeys {
            keys: [None, None, None, None, None, None, None, None],
        }
    }

    /// Makes the key of a device ready.
    pub fn put(&mut self, device: DevNo, key: &Key) {
        if self.find(device.get(), key).is_none() {
            self.keys[device.get() as usize - 1] = Some(ReadyKey::new(key));
        }
    }

    /// The ready key of the device, where it is this key.
    pub fn find(&self, device: u32, key: &Key) -> Option<&ReadyKey>
        ensures { IfSome result (λ ready. ready.now ≡ key.now) }
    {
        let slots = &self.keys;
        let place = (device as usize).checked_sub(1)?;
        let ready = slots.get(place)?.as_ref()?;
        if ready.key() == key {
            Some(ready)
        } else {
            None
        }
    }
}
