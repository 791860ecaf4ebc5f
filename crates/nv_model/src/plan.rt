//! The calls that a storage in memory is set to fail.
ghost use Rattle.std.specs.Prelude.{◌≡◌};
ghost use Rattle.nv_model.specs.Plans.{planned};

use crate::nv::NvFail;

/// A call of read, write or sync that is to fail. A write or a sync that fails tears its range: the first `keep` bytes
/// are those written, and all others are `byte`. A read tears nothing.
#[derive(Clone, Copy)]
pub struct Failure {
    /// The number of the call, counted from 0.
    pub call: u64,
    pub kind: NvFail,
    pub keep: u32,
    pub byte: u8,
}

/// The first entry for the call of a number.
pub fn find(plan: &[Failure], call: u64) -> Option<Failure>
    ensures { result ≡ planned plan.now call }
{
    for failure in plan {
        if failure.call == call {
            return Some(*failure);
        }
    }
    None
}
