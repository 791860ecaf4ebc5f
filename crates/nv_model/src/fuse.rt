//! Storage with a fuse that can cut its power.
ghost use Rattle.std.specs.Prelude.{◌≡◌};
ghost use Rattle.nv_model.specs.Fuses as fuses;
ghost use Rattle.nv_model.specs.Still.{SameTimes, armed, with_fuse};

use crate::fused::Fused;
use crate::nv::Nv;

/// Storage with a fuse.
pub trait Fuse: Nv {
    ghost use Rattle.nv_model.specs.Fuses.{FuseState};

    /// The fuse, and what it tears.
    ghost fuse_of: { Self → FuseState };

    /// Arms the fuse: see `Fused::arm`. Only the fuse changes.
    fn arm(&mut self, calls: u32, keep: u32, byte: u8)
        ensures armed { fuse_of self.new ≡ armed calls keep byte (fuse_of self.old) }
        ensures times { SameTimes (Self.times self.old) (Self.times self.new) }
        ensures content { Self.content self.new ≡ Self.content self.old }
        ensures size { Self.size self.new ≡ Self.size self.old }
        ensures meters { Self.meters self.new ≡ with_fuse calls (Self.meters self.old) };
}

impl<N: Nv> Fuse for Fused<N> {
    ghost fuse_of = { λ s. fuses.state_of s };

    fn arm(&mut self, calls: u32, keep: u32, byte: u8) {
        Fused::arm(self, calls, keep, byte);
    }
}
