//! A node of rows as a node of the bench.
ghost use Rattle.row_node.specs.Tables as tables;
ghost use Rattle.row_node.specs.NodeView as node_view;
ghost use Rattle.row_node.specs.Knows as known;
ghost use Rattle.row_node.specs.NodeLaws as laws;

use crate::node::RowNode;
use crate::room::RowRoom;
use crate::rows::Rows;
use bench_base::refusals::{BootFail, StoreFail};
use node_acts::Holds;
use node_storage::{Arms, Node};
use nv_model::{Fuse, Nv, NvFail};

impl<N: Nv, R: Rows> Node for RowNode<N, R> {
    ghost use Rattle.node_acts.specs.RowList.{RowList};

    type Storage = N;

    type Name = ();

    type Change = R::Change;

    type Spare = RowRoom<R>;

    ghost Seen = { RowList R.table.Row };

    ghost bytes = { tables.bytes_of R.table R.Memory.size };

    ghost counting = { tables.counting R.table };

    ghost fill = { λ s x. tables.fill_of R.table R.Memory.size s x };

    ghost IsStorable = { λ x. R.table.HasCell x };

    ghost IsFit = { λ s x. R.table.IsFit s x };

    ghost IsFrom = { λ d s x. R.table.IsFit s x };

    ghost IsSound = { λ d s. R.table.IsSound s };

    ghost IsShown = { λ s c. tables.IsShown R.table R.Memory.size s c };

    ghost IsDamaged = { λ d nv. tables.IsDamaged R.table R.Memory.size N.Nv.own nv };

    ghost Stays = { λ j k. Unit {0} };

    ghost name = { λ k. tt };

    ghost seen = { λ k. node_view.seen_in k };

    ghost is_on = { λ k. node_view.is_on k };

    ghost storage = { λ k. node_view.storage_in k };

    ghost stays_same = { λ k. tt };

    ghost sized = { λ k on. known.size k on };

    ghost knows = { λ k tells on. known.shows k tells on };

    ghost one_shown = { λ d a b c. laws.one_shown R.laws a b c };

    ghost keeps = { λ d s x sound kept. R.laws.stays_sound s x sound kept };

    ghost counts = { λ d s x. laws.counts R.laws s x };

    ghost intact = { λ d s nv. laws.intact R.laws N.Nv.own s nv };

    fn off(_number: (), nv: N, spare: RowRoom<R>) -> RowNode<N, R> {
        RowNode::new(nv, spare)
    }

    fn is_on(&self) -> bool {
        self.on
    }

    fn restart(&mut self) -> Result<(), NvFail> {
        self.restart_storage()
    }

    fn boot(&mut self, _number: ()) -> Result<(), BootFail> {
        self.boot_rows()
    }

    fn commit(&mut self, change: &R::Change) -> Result<(), StoreFail> {
        self.commit_change(change)
    }

    fn commits(&self) -> u64 {
        self.count()
    }

    fn shut(&mut self) {
        self.on = false;
    }

    fn into_parts(self) -> (N, RowRoom<R>) {
        self.into_storage()
    }
}

impl<N: Nv, R: Rows> Holds for RowNode<N, R> {
    type By = R;
}

impl<N: Fuse, R: Rows> Arms for RowNode<N, R> {
    ghost fuse = { N.Fuse.own };

    fn arm(&mut self, calls: u32, keep: u32, byte: u8) {
        self.nv.arm(calls, keep, byte);
    }
}
