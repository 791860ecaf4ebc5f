//! A node of rows out of its storage.
ghost use Rattle.std.specs.Prelude.{◌≡◌, ◌≢◌, OnOk, IsErrOf, Err, false, is_ok};
ghost use Rattle.nv_store.specs.RoomView.{cells_of, kept_in};
ghost use Rattle.nv_store.specs.Rooms.{RoomRuns};
ghost use Rattle.node_storage.specs.Does.{Reads, Spends, SyncsOnce};
ghost use Rattle.node_storage.specs.Ends.{end_of_boot};
ghost use Rattle.row_node.specs.Tables.{IsDamaged, bytes_of};
ghost use Rattle.row_node.specs.Boots.{Found};

use crate::cells::Cells;
use crate::node::RowNode;
use crate::rows::Rows;
use bench_base::refusals::BootFail;
use nv_model::Nv;
use nv_store::MountCause;

// Mounts the cells and reads their rows. Nothing is written.
fn mount_rows<N: Nv, R: Rows>(
    nv: &mut N,
    cells: &mut R::Memory,
    rows: &mut R,
) -> Result<(), BootFail>
    requires many { cells_of (R.Memory.room cells.old) ≡ R.table.cells }
    requires powered { (N.meters nv.old).lost ≡ false }
    ensures many { cells_of (R.Memory.room cells.new) ≡ R.table.cells }
    ensures found { OnOk result (Found R.table rows.new (kept_in (R.Memory.room cells.new))) }
    ensures runs { OnOk result (RoomRuns N.Nv (R.Memory.room cells.new) nv.new) }
    ensures exact { OnOk result (N.size nv.new ≡ bytes_of R.table R.Memory.size) }
    ensures reads { Reads N.Nv nv.old nv.new }
    ensures size { N.size nv.old ≢ bytes_of R.table R.Memory.size → (result ≡ Err BootFail.Damaged) × (nv.new ≡ nv.old) }
    ensures damaged { N.tells → IsErrOf result BootFail.Damaged → IsDamaged R.table R.Memory.size N.Nv nv.new }
    ensures spent { Spends N.Nv 1 nv.old nv.new (end_of_boot result) }
    ensures once { SyncsOnce N.Nv (bytes_of R.table R.Memory.size) nv.old nv.new result }
{
    match cells.mount(nv) {
        Ok(()) => {}
        Err(MountCause::Power) => return Err(BootFail::Power),
        Err(MountCause::Fault) => return Err(BootFail::Fault),
        Err(MountCause::Size(_)) => return Err(BootFail::Damaged),
        Err(MountCause::Mixed(_)) => return Err(BootFail::Damaged),
    }
    if rows.read(cells) {
        Ok(())
    } else {
        Err(BootFail::Damaged)
    }
}

impl<N: Nv, R: Rows> RowNode<N, R> {
    ghost use Rattle.row_node.specs.NodeView.{storage_in, seen_in, is_on};

    /// Switches a node that is off on, from what its storage shows, or leaves it off. Power is not lost. Nothing is written.
    pub fn boot_rows(&mut self) -> Result<(), BootFail>
        requires off { is_on self.old ≡ false }
        requires powered { (N.meters (storage_in self.old)).lost ≡ false }
        ensures leaves { is_on self.new ≡ is_ok result }
        ensures starts { OnOk result (R.table.IsSound (seen_in self.new)) }
        ensures reads { Reads N.Nv (storage_in self.old) (storage_in self.new) }
        ensures size { N.size (storage_in self.old) ≢ bytes_of R.table R.Memory.size
            → (result ≡ Err BootFail.Damaged) × (storage_in self.new ≡ storage_in self.old) }
        ensures damaged { N.tells → IsErrOf result BootFail.Damaged
            → IsDamaged R.table R.Memory.size N.Nv (storage_in self.new) }
        ensures spent { Spends N.Nv 1 (storage_in self.old) (storage_in self.new) (end_of_boot result) }
        ensures once { SyncsOnce N.Nv (bytes_of R.table R.Memory.size) (storage_in self.old) (storage_in self.new) result }
    {
        match mount_rows(&mut self.nv, &mut self.cells, &mut self.rows) {
            Ok(()) => {
                self.on = true;
                Ok(())
            }
            Err(fail) => {
                self.cells.clear();
                self.rows.clear();
                Err(fail)
            }
        }
    }
}
