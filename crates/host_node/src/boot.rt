//! The jobs of the host out of its cells.
ghost use Rattle.std.specs.Prelude.{◌≡◌, ◌<◌, OnOk, IfOk, IfErr, length};
ghost use Rattle.host_jobs.specs.declared.sizes.TheConstants.{HOST_CELLS};
ghost use Rattle.nv_store.specs.RoomView.{cells_of, kept_in};
ghost use Rattle.row_node.specs.Kept.{HoldsForeign};
ghost use Rattle.host_node.specs.Payloads.{IsPayloadOf};
ghost use Rattle.host_node.specs.Boots.{JobRead, JobsRead};

use host_jobs::{HOST_CELLS, JOB_BYTES, JobRow, JobRows};
use nv_store::{Room, get_room};

// The job that a cell holds: None where it is blank, and Err where the payload reads as none of this cell.
fn job_in(room: &Room<JOB_BYTES>, cell: u32) -> Result<Option<JobRow>, ()>
    requires cells { cells_of room.now ≡ HOST_CELLS }
    requires inside { cell < HOST_CELLS }
    ensures read { IfOk result (JobRead (kept_in room.now) cell) }
    ensures foreign { IfErr result (λ x. HoldsForeign HOST_CELLS IsPayloadOf (kept_in room.now)) }
{
    let Some(payload) = get_room(room, cell) else {
        return Ok(None);
    };
    match JobRow::read_payload(cell, payload) {
        Some(row) => Ok(Some(row)),
        None => Err(()),
    }
}

/// Reads the jobs of all cells.
pub fn read_jobs(room: &Room<JOB_BYTES>, rows: &mut JobRows) -> Result<(), ()>
    requires cells { cells_of room.now ≡ HOST_CELLS }
    requires long { length rows.old ≡ HOST_CELLS }
    ensures read { OnOk result (JobsRead (kept_in room.now) HOST_CELLS rows.new) }
    ensures long { length rows.new ≡ HOST_CELLS }
    ensures foreign { IfErr result (λ x. HoldsForeign HOST_CELLS IsPayloadOf (kept_in room.now)) }
{
    for cell in 0..HOST_CELLS {
        let row = job_in(room, cell)?;
        rows.set(cell, row);
    }
    Ok(())
}
