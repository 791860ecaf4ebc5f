//! What has the rows of the verifier that calls are asked of, wherever they lie: in the verifier's storage, or beside it.
ghost use Rattle.std.specs.Prelude.{◌≡◌};
ghost use Rattle.verifier.specs.Acts as acts;
ghost use Rattle.verifier.specs.Seen.{AreSound};

use crate::acts::{Accepted, ScanAct};
use bench_base::numbers::{DayNo, DevNo};
use bench_base::words::Key;

/// What has the rows of the verifier, as B lays them out, and looks them up.
pub trait RowsOf<B> {
    ghost use Rattle.verifier.specs.Seen.{Seen};

    ghost rows: { Self → Seen };

    /// What trusting marks of the device under the key does.
    fn trusting(&self, device: DevNo, key: &Key) -> ScanAct<()>
        ensures act { result ≡ acts.trust_act device key.now (rows self.now) }
        ensures sound { AreSound (rows self.now) };

    /// What scanning bytes under this number does.
    fn scanning(&self, number: u32, bytes: &[u8], today: DayNo) -> ScanAct<Accepted>
        ensures act { result ≡ acts.scan_act number bytes.now today (rows self.now) }
        ensures sound { AreSound (rows self.now) };
}
