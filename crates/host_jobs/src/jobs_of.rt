//! What has the jobs of the host that calls are asked of, wherever they lie: in the host's storage, or beside it.
ghost use Rattle.std.specs.Prelude.{◌≡◌};
ghost use Rattle.host_jobs.specs.Soundness.{IsDerived};

use crate::kept::{JobRows, Kept};

/// What has the jobs of the host, as B lays them out.
pub trait JobsOf<B> {
    ghost use Rattle.host_jobs.specs.Rows.{Jobs};

    ghost jobs: { Self → Jobs };

    /// The jobs.
    fn jobs(&self) -> &JobRows
        ensures { result.now ≡ jobs self.now };

    /// What is kept of them.
    fn kept(&self) -> &Kept
        ensures { IsDerived (jobs self.now) result.now };
}
