//! The host's jobs in the bytes of a cell.
ghost use Rattle.std.specs.Prelude.{◌≡◌, ◌<◌, None, Some, true, false, length, IfSome};
ghost use Rattle.host_jobs.specs.Seen as host;
ghost use Rattle.host_node.specs.Payloads.{IsPayloadOf};
ghost use Rattle.bench_base.specs.declared.sizes.TheConstants.{MOST_COMMITS};
ghost use Rattle.node_acts.specs.RowList.{commits_at};
ghost use Rattle.node_images.specs.Cells.{ShowsCell, ShowsOpen, CellIs};

use crate::cell::CellShows;
use host_jobs::{JOB_BYTES, JobRow, cell_of};
use nv_bytes::{copy_newest, is_blank};
use payload_rows::reads_as_job;

// Whether the bytes of a cell of the host show no commit.
fn shows_no_job(cell: &[u8], place: usize) -> bool
    requires long { length cell.now ≡ 240 }
    ensures yes { result ≡ true → ShowsCell 115 (IsPayloadOf place) None cell.now }
    ensures no { result ≡ false → ShowsCell 115 (IsPayloadOf place) None cell.now → ⊥ }
{
    is_blank(cell, 2, JOB_BYTES)
}

// Whether the job lies in the cell at this place.
fn is_in(place: usize, due: &JobRow) -> bool
    requires { place < 1024 }
    ensures yes { result ≡ true → host.cell_of due.now ≡ place }
    ensures no { result ≡ false → host.cell_of due.now ≡ place → ⊥ }
{
    cell_of(due.job) as usize == place
}

// Whether the bytes of the cell at this place show so many commits and this job.
fn shows_job(cell: &[u8], place: usize, count: u32, due: &JobRow) -> bool
    requires long { length cell.now ≡ 240 }
    requires inside { place < 1024 }
    ensures yes { result ≡ true → ShowsCell 115 (IsPayloadOf place) (Some (count, due.now)) cell.now }
    ensures no { result ≡ false → ShowsCell 115 (IsPayloadOf place) (Some (count, due.now)) cell.now → ⊥ }
{
    if !is_in(place, due) {
        return false;
    }
    let mut payload = [0; JOB_BYTES];
    if !copy_newest(cell, 2, JOB_BYTES, count, &mut payload) {
        return false;
    }
    reads_as_job(place as u32, &payload, due)
}

// Whether the cell at this place shows this.
fn shows_seen(cell: &[u8], place: usize, seen: &Option<(u32, JobRow)>) -> bool
    requires long { length cell.now ≡ 240 }
    requires inside { place < 1024 }
    ensures yes { result ≡ true → ShowsCell 115 (IsPayloadOf place) seen.now cell.now }
    ensures no { result ≡ false → ShowsCell 115 (IsPayloadOf place) seen.now cell.now → ⊥ }
{
    match seen {
        None => shows_no_job(cell, place),
        Some((count, row)) => shows_job(cell, place, *count, row),
    }
}

fn count_of(seen: &Option<(u32, JobRow)>) -> u32
    ensures { result ≡ commits_at seen.now }
{
    match seen {
        None => 0,
        Some((count, _)) => *count,
    }
}

// Whether the cell shows what was counted, with the job that is in doubt, if there is one.
fn shows_changed(
    cell: &[u8],
    place: usize,
    seen: &Option<(u32, JobRow)>,
    changed: &Option<JobRow>,
) -> bool
    requires long { length cell.now ≡ 240 }
    requires inside { place < 1024 }
    requires fresh { IfSome changed.now (λ x. commits_at seen.now < MOST_COMMITS) }
    ensures yes { result ≡ true → ShowsOpen 115 (IsPayloadOf place) seen.now changed.now cell.now }
    ensures no { result ≡ false → ShowsOpen 115 (IsPayloadOf place) seen.now changed.now cell.now → ⊥ }
{
    match changed {
        None => false,
        Some(row) => shows_seen(cell, place, &Some((count_of(seen) + 1, *row))),
    }
}

/// What the bytes of the host's cell at this place show, by its commits and its job, and by the job in doubt of this cell, if there is one.
pub fn host_cell(
    cell: &[u8],
    place: usize,
    seen: &Option<(u32, JobRow)>,
    changed: &Option<JobRow>,
) -> CellShows
    requires long { length cell.now ≡ 240 }
    requires inside { place < 1024 }
    requires fresh { IfSome changed.now (λ x. commits_at seen.now < MOST_COMMITS) }
    ensures { CellIs 115 (IsPayloadOf place) seen.now changed.now cell.now result }
{
    if shows_seen(cell, place, seen) {
        return CellShows::Counted;
    }
    if shows_changed(cell, place, seen, changed) {
        CellShows::Open
    } else {
        CellShows::Other
    }
}
