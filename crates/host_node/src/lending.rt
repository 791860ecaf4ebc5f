//! What the host lends to its calls.
use crate::rows::{HostNode, HostRows};
use host_jobs::{JobRows, JobsOf, Kept};
use nv_model::Nv;

impl<N: Nv> JobsOf<HostRows> for HostNode<N> {
    ghost use Rattle.host_jobs.specs.Seen.{rows_in};
    ghost use Rattle.row_node.specs.NodeView.{seen_in};

    ghost jobs = { λ k. rows_in (seen_in k) };

    fn jobs(&self) -> &JobRows {
        &self.rows().jobs
    }

    fn kept(&self) -> &Kept {
        &self.rows().kept
    }
}
