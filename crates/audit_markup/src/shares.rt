//! Shares of a whole.

/// The value out of this whole on this scale, rounded down.
pub fn part(value: u64, whole: u64, scale: u64) -> u64 {
    let scaled = (value as u128).saturating_mul(scale as u128);
    u64::try_from(scaled / (whole as u128).max(1)).unwrap_or(u64::MAX)
}

/// What a part is of the whole if the parts before it come to this, so that all shares together come to the scale.
pub fn share(before: u64, value: u64, whole: u64, scale: u64) -> u64 {
    part(before.saturating_add(value), whole, scale).saturating_sub(part(before, whole, scale))
}
