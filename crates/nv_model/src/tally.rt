//! What a storage counts.
ghost use Rattle.std.specs.Prelude.{◌≡◌, ◌-◌, Err, true, false};
ghost use Rattle.nv_model.specs.Meters.{Answers, Restarts};

use crate::nv::NvFail;

/// What a storage counts, and whether its power is lost.
#[derive(Clone, Copy)]
pub struct Tally {
    /// How often power was cut.
    pub cuts: u64,
    /// How often a call answered Fault.
    pub faults: u64,
    /// Whether power is lost.
    pub lost: bool,
}

impl Tally {
    ghost use Rattle.nv_model.specs.Plans.{after_failure};
    ghost use Rattle.nv_model.specs.Tallies.{meters_of};

    /// Counts a failure, and answers it.
    pub fn fail(&mut self, kind: NvFail) -> Result<(), NvFail>
        ensures answers { self.old.lost ≡ false → Answers (meters_of self.old) (meters_of self.new) result }
        ensures restarts { kind ≡ NvFail.Fault → Restarts (meters_of self.old) (meters_of self.new) result }
        ensures answer { result ≡ Err kind }
        ensures counts { meters_of self.new ≡ after_failure (meters_of self.old) kind }
    {
        match kind {
            NvFail::Power => {
                self.cuts = self.cuts.saturating_add(1);
                self.lost = true;
            }
            NvFail::Fault => self.faults = self.faults.saturating_add(1),
        }
        Err(kind)
    }
}
