//! The host's record out of an image of its storage.
ghost use Rattle.std.specs.Prelude.{◌≡◌, ◌<◌, ℕ, Option, IfOk, IfErr, IfSome, IfNone, length};
ghost use Rattle.host_jobs.specs.declared.{rows.JobRow.JobRow as TheRow, sizes.TheConstants.HOST_CELLS};
ghost use Rattle.host_jobs.specs.Seen.{Seen, IsKnown};
ghost use Rattle.host_node.specs.Payloads.{IsPayloadOf};
ghost use Rattle.row_node.specs.Shows.{ShowsRows};
ghost use Rattle.node_images.specs.Cells.{ShowsCell};
ghost use Rattle.trace_host.specs.Cells.{cells_of};
ghost use Rattle.trace_images.specs.Host.{JobShown, JobsShown};

use crate::slots::{Newest, cell_bytes, read_newest};
use host_jobs::{HOST_CELLS, JOB_BYTES, JobRow};
use std::alloc::{AllocError, Global};
use trace_host::HostRecord;

// What the bytes of the cell at this place show. Err if that is nothing that a cell of the host can show.
fn job_in(cell: &[u8], place: u32) -> Result<Option<(u32, JobRow)>, ()>
    requires long { length cell.now ≡ 240 }
    ensures shows { IfOk result (λ seen. JobShown place seen cell.now) }
    ensures none { IfErr result (λ x. (seen : Option (ℕ × TheRow)) → ShowsCell 115 (IsPayloadOf place) seen cell.now → ⊥) }
{
    let mut payload = [0; JOB_BYTES];
    match read_newest(cell, 2, JOB_BYTES, &mut payload) {
        Newest::Mixed => Err(()),
        Newest::Blank => Ok(None),
        Newest::Commits(count) => match JobRow::read_payload(place, &payload) {
            Some(row) => Ok(Some((count, row))),
            None => Err(()),
        },
    }
}

// The jobs of all cells. None if a cell shows none.
fn read_jobs(alloc: Global, image: &[u8]) -> Result<Option<Vec<Option<(u32, JobRow)>>>, AllocError>
    requires long { length image.now ≡ 245760 }
    ensures some { IfOk result (λ found. IfSome found (λ cells. JobsShown HOST_CELLS cells.items image.now)) }
    ensures none { IfOk result (λ found. IfNone found ((s : Seen) → ShowsRows 115 1024 IsPayloadOf s image.now → ⊥)) }
{
    let mut cells = Vec::with_capacity(alloc, HOST_CELLS as usize)?;
    for place in 0..HOST_CELLS {
        let Ok(seen) = job_in(cell_bytes(image, JOB_BYTES, place), place) else {
            return Ok(None);
        };
        cells.push(seen)?;
    }
    Ok(Some(cells))
}

/// The host's record that an image of its storage shows, as a boot reads it. None if and only if the image shows none: a cell is mixed, a payload is no job of
/// its cell, or the jobs do not agree. AllocError is lack of memory for the record.
pub fn host_record(alloc: Global, image: &[u8]) -> Result<Option<HostRecord>, AllocError>
    requires long { length image.now ≡ 245760 }
    ensures some { IfOk result (λ found. IfSome found (λ r. IsKnown (cells_of r) × ShowsRows 115 1024 IsPayloadOf (cells_of r) image.now)) }
    ensures none { IfOk result (λ found. IfNone found ((s : Seen) → IsKnown s → ShowsRows 115 1024 IsPayloadOf s image.now → ⊥)) }
{
    let Some(cells) = read_jobs(alloc, image)? else {
        return Ok(None);
    };
    HostRecord::of(alloc, cells)
}
