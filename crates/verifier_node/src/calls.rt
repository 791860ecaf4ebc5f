//! The calls of the verifier. Days are since 1970-01-01.
//!
//! A call may answer `Store`. It answers `Store` with `Failed`, before every refusal, if and only if an earlier call of this
//! value answered Power or Fault. After every refusal it answers Power or Fault if its commit failed, and Worn if the cell of
//! its change has 4,294,967,295 commits. A refusal, Worn, and an answer that needs no commit leave the verifier and its
//! storage as they were.
ghost use Rattle.std.specs.Prelude.{◌≤◌};
ghost use Rattle.verifier.specs.Acts as act_of;

use crate::lookups::{scanning, trusting};
use crate::running::Verifier;
use bench_base::numbers::{DayNo, DevNo};
use bench_base::refusals::ScanFail;
use bench_base::words::Key;
use nv_model::Nv;
use verifier::Accepted;

impl<N: Nv> Verifier<N> {
    ghost use Rattle.verifier_node.specs.VerifierView.{seen_of, Performs};

    /// Trusts marks of the device under the key. `Known` if and only if they are trusted.
    pub fn trust(&mut self, device: DevNo, key: &Key) -> Result<(), ScanFail>
        ensures { Performs (act_of.trust_act device key.now (seen_of self.old)) self.old self.new result }
    {
        let act = trusting(self.rows.node(), device, key);
        self.perform(act)
    }

    /// Scans the bytes of a mark, of either version, under this number, at least 1: see `scan_act`. A piece that was accepted
    /// under the same number is reported once more, without a commit.
    pub fn scan(&mut self, number: u32, bytes: &[u8], day: DayNo) -> Result<Accepted, ScanFail>
        requires { 1 ≤ number }
        ensures { Performs (act_of.scan_act number bytes.now day (seen_of self.old)) self.old self.new result }
    {
        let act = scanning(self.rows.node(), number, bytes, day);
        self.perform(act)
    }
}
