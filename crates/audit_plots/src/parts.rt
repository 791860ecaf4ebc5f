//! Heights in a curve, and the ticks of an axis.
use audit_markup::part;

/// How far below the top a value is, in thousandths of the height.
pub fn level(value: u64, top: u64) -> u64 {
    if top == 0 {
        return 1000;
    }
    1000u64.saturating_sub(part(value, top, 1000))
}

/// The greatest value of an axis, and the distance of its lines.
#[derive(Clone, Copy)]
pub struct Ticks {
    pub top: u64,
    pub step: u64,
}

// The ticks of this step, if at most four of them reach the value.
fn ticks_of(step: u64, most: u64) -> Option<Ticks> {
    let step = step.max(1);
    if step.saturating_mul(4) < most {
        return None;
    }
    let steps = (most / step).saturating_add(u64::from(most % step != 0));
    Some(Ticks {
        top: steps.max(1).saturating_mul(step),
        step,
    })
}

// The ticks whose step is 1, 2 or 5 times this power of ten, if they reach the value.
fn ticks_by(power: u64, most: u64) -> Option<Ticks> {
    for factor in [1u64, 2, 5] {
        if let Some(ticks) = ticks_of(power.saturating_mul(factor), most) {
            return Some(ticks);
        }
    }
    None
}

/// The least axis that reaches the value: a multiple of a step 1, 2 or 5 times a power of ten, with at most four steps.
pub fn ticks_for(most: u64) -> Ticks {
    let mut power = 1u64;
    for _ in 0..20 {
        if let Some(ticks) = ticks_by(power, most) {
            return ticks;
        }
        power = power.saturating_mul(10);
    }
    Ticks {
        top: u64::MAX,
        step: u64::MAX,
    }
}

/// The greatest of the values.
pub fn greatest(values: &[u64], none: u64) -> u64 {
    let mut most = 0;
    for value in values.iter() {
        if *value != none && *value > most {
            most = *value;
        }
    }
    most
}
