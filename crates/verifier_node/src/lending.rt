//! What the verifier lends to its calls.
use crate::lookups::{scanning, trusting};
use crate::rows::{VerifierNode, VerifierRows};
use bench_base::numbers::{DayNo, DevNo};
use bench_base::words::Key;
use nv_model::Nv;
use verifier::{Accepted, RowsOf, ScanAct};

impl<N: Nv> RowsOf<VerifierRows> for VerifierNode<N> {
    ghost use Rattle.row_node.specs.NodeView.{seen_in};

    ghost rows = { λ k. seen_in k };

    fn trusting(&self, device: DevNo, key: &Key) -> ScanAct<()> {
        trusting(self, device, key)
    }

    fn scanning(&self, number: u32, bytes: &[u8], today: DayNo) -> ScanAct<Accepted> {
        scanning(self, number, bytes, today)
    }
}
