//! The slot of a device or a customer among the cells.
use bench_base::numbers::{Customer, DevNo};

/// The slot of what was accepted.
pub const ACCEPTED: usize = 72;

/// How many slots there are: eight devices, 64 customers, and what was accepted.
pub(crate) const SLOTS: usize = 73;

/// The slot of a device.
pub fn device_slot(device: DevNo) -> usize {
    device.get() as usize - 1
}

/// The slot of a customer.
pub fn customer_slot(customer: Customer) -> usize {
    customer.get() as usize + 7
}

/// The place of the device whose name the text begins with, from 0 on.
pub(crate) fn device_at(text: &[u8]) -> Option<usize> {
    if text.len() < 3 || text[0] != b'd' || text[2] != b' ' {
        return None;
    }
    let digit = text[1];
    if digit >= b'1' && digit <= b'8' {
        Some((digit - b'1') as usize)
    } else {
        None
    }
}
