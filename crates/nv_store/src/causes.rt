//! Why a mount or a commit failed, from what the storage answered.
ghost use Rattle.std.specs.Prelude.{◌≡◌};
ghost use Rattle.bench_base.specs.declared.refusals.StoreFail.{StoreFail};
ghost use Rattle.nv_model.specs.declared.nv.NvFail.{NvFail};
ghost use Rattle.nv_store.specs.Fails.{store_fail, mount_fail, ends_failed};

use bench_base::refusals::StoreFail;
use nv_model::NvFail;

/// Why storage was not mounted.
#[derive(Clone, Copy, Debug, PartialEq, Eq)]
pub enum MountCause {
    /// Power was cut.
    Power,
    /// The storage failed.
    Fault,
    /// The size of the storage in bytes, which is not the one that its cells need. The storage was not used.
    Size(u32),
    /// The first cell that has an open slot of count 0, or two open slots of equal count.
    Mixed(u32),
}

impl From<NvFail> for MountCause {
    ghost from_gives = { λ f c. c ≡ mount_fail f };

    fn from(fail: NvFail) -> Self {
        match fail {
            NvFail::Power => MountCause::Power,
            NvFail::Fault => MountCause::Fault,
        }
    }
}

/// What a commit answers where its storage failed.
pub fn store_fail(fail: NvFail) -> StoreFail
    ensures { result ≡ store_fail fail }
{
    match fail {
        NvFail::Power => StoreFail::Power,
        NvFail::Fault => StoreFail::Fault,
    }
}

/// Whether a commit ended in a failure of the storage, so that the value is no longer used.
pub fn ends_failed(answer: &Result<(), StoreFail>) -> bool
    ensures { result ≡ ends_failed answer.now }
{
    matches!(answer, Err(StoreFail::Power | StoreFail::Fault))
}
