//! The cells of the centre and those of the host, by the auditor's rows and jobs.
ghost use Rattle.std.specs.Prelude.{◌≡◌, ◌≤◌, ◌<◌, length, take, IfSome, IfOk, OnErr};
ghost use Rattle.bench_base.specs.declared.sizes.TheConstants.{CENTRE_BYTES};
ghost use Rattle.host_jobs.specs.declared.sizes.TheConstants.{HOST_BYTES};
ghost use Rattle.node_acts.specs.RowList.{row_at};
ghost use Rattle.centre_protocol.specs.Payloads as centre_rows;
ghost use Rattle.host_node.specs.Payloads as host_rows;
ghost use Rattle.trace_centre.specs.Cells as centre_cells;
ghost use Rattle.trace_host.specs.Cells as host_cells;
ghost use Rattle.node_images.specs.Cells.{CellIs, ShowsCell, ShowsOpen};
ghost use Rattle.centre_ledger.specs.Seen as centre;
ghost use Rattle.host_jobs.specs.Seen as host;
ghost use Rattle.trace_folder.specs.Changes.{at_place};
ghost use Rattle.trace_folder.specs.Images.{CentreImageIs, HostImageIs};
ghost use Rattle.trace_folder.specs.Sources.{IsUnread};

use crate::due::{Due, due_by};
use crate::shows::{MOST_CELL, Shows};
use crate::walk::{Cells, image_shows};
use bench_base::sizes::CENTRE_CELLS;
use bench_base::stream::{ReadFail, Source};
use centre_ledger::Row;
use host_jobs::{HOST_CELLS, JobRow, cell_of as cell_of_job};
use node_images::{CellShows, centre_cell as centre_shown, host_cell as host_shown};
use trace_centre::{CentreRecord, cell_of};
use trace_host::HostRecord;
use trace_nodes::Traced;

// How many commits are seen of a cell.
fn count_of<R>(seen: &Option<(u32, R)>) -> u32 {
    match seen {
        None => 0,
        Some((count, _)) => *count,
    }
}

// The row in doubt, if it is one of the cell at this place.
fn changed_row(changed: &Option<Row>, place: usize) -> Option<Row>
    ensures { result ≡ at_place centre.cell_of (λ x. x) place changed.now }
{
    match changed {
        Some(row) if cell_of(row) == place => Some(*row),
        _ => None,
    }
}

/// What the cell at this place shows.
pub fn centre_cell(traced: &Traced<CentreRecord, Row>, place: usize, cell: &[u8]) -> CellShows
    requires settled { centre_cells.IsSettled traced.now }
    requires inside { place < 72 }
    requires long { length cell.now ≡ 394 }
    ensures { CellIs 192 (centre_rows.IsPayloadOf place) (row_at (centre_cells.cells_of traced.now.record) place)
        (at_place centre.cell_of (λ x. x) place traced.now.open) cell.now result }
{
    let changed = changed_row(&traced.open, place);
    centre_shown(cell, place, &traced.record.cells()[place], &changed)
}

impl Cells for Traced<CentreRecord, Row> {
    ghost COUNT = { 72 };

    const COUNT: u32 = CENTRE_CELLS;

    ghost SIZE = { 394 };

    const SIZE: usize = 394;

    ghost IsSettled = { λ t. centre_cells.IsSettled t };

    ghost counted = { λ t place cell. ShowsCell 192 (centre_rows.IsPayloadOf place) (row_at (centre_cells.cells_of t.record) place) cell };

    ghost opened = { λ t place cell. ShowsOpen 192 (centre_rows.IsPayloadOf place) (row_at (centre_cells.cells_of t.record) place)
        (at_place centre.cell_of (λ x. x) place t.open) cell };

    fn cell_shows(&self, place: usize, cell: &[u8]) -> CellShows {
        centre_cell(self, place, cell)
    }
}

/// What the image of the centre's storage shows, which is read cell by cell into the buffer, up to the first cell that shows neither. The bytes of that cell
/// are then in the buffer. ReadFail if the source fails or has too few bytes.
pub fn centre_shows<S: Source>(
    traced: &Traced<CentreRecord, Row>,
    image: &mut S,
    buffer: &mut [u8; MOST_CELL],
) -> Result<Shows, ReadFail>
    requires settled { centre_cells.IsSettled traced.now }
    ensures shows { IfSome (S.left image.old) (λ bytes. IfOk result (CentreImageIs traced.now (take CENTRE_BYTES bytes))) }
    ensures later { S.faults image.old ≤ S.faults image.new }
    ensures failed { OnErr result (IsUnread CENTRE_BYTES (S.faults image.old) (S.faults image.new) (S.left image.old)) }
{
    image_shows(traced, image, buffer)
}

/// What the cell at this place should hold.
pub fn centre_due(traced: &Traced<CentreRecord, Row>, place: u32) -> Due {
    let cell = match &traced.open {
        Some(row) => Some(cell_of(row)),
        None => None,
    };
    let place = place as usize;
    let cells = traced.record.cells();
    let count = if place < cells.len() {
        count_of(&cells[place])
    } else {
        0
    };
    due_by(count, cell, place)
}

// The job in doubt, if it is one of the cell at this place.
fn changed_job(changed: &Option<JobRow>, place: usize) -> Option<JobRow>
    ensures { result ≡ at_place host.cell_of (λ x. x) place changed.now }
{
    match changed {
        Some(row) if cell_of_job(row.job) as usize == place => Some(*row),
        _ => None,
    }
}

/// What the cell at this place shows.
pub fn host_cell(traced: &Traced<HostRecord, JobRow>, place: usize, cell: &[u8]) -> CellShows
    requires settled { host_cells.IsSettled traced.now }
    requires inside { place < 1024 }
    requires long { length cell.now ≡ 240 }
    ensures { CellIs 115 (host_rows.IsPayloadOf place) (row_at (host_cells.cells_of traced.now.record) place)
        (at_place host.cell_of (λ x. x) place traced.now.open) cell.now result }
{
    let changed = changed_job(&traced.open, place);
    host_shown(cell, place, &traced.record.cells()[place], &changed)
}

impl Cells for Traced<HostRecord, JobRow> {
    ghost COUNT = { 1024 };

    const COUNT: u32 = HOST_CELLS;

    ghost SIZE = { 240 };

    const SIZE: usize = 240;

    ghost IsSettled = { λ t. host_cells.IsSettled t };

    ghost counted = { λ t place cell. ShowsCell 115 (host_rows.IsPayloadOf place) (row_at (host_cells.cells_of t.record) place) cell };

    ghost opened = { λ t place cell. ShowsOpen 115 (host_rows.IsPayloadOf place) (row_at (host_cells.cells_of t.record) place)
        (at_place host.cell_of (λ x. x) place t.open) cell };

    fn cell_shows(&self, place: usize, cell: &[u8]) -> CellShows {
        host_cell(self, place, cell)
    }
}

/// What the image of the host's storage shows, which is read cell by cell into the buffer, up to the first cell that shows neither. The bytes of that cell
/// are then in the buffer. ReadFail if the source fails or has too few bytes.
pub fn host_shows<S: Source>(
    traced: &Traced<HostRecord, JobRow>,
    image: &mut S,
    buffer: &mut [u8; MOST_CELL],
) -> Result<Shows, ReadFail>
    requires settled { host_cells.IsSettled traced.now }
    ensures shows { IfSome (S.left image.old) (λ bytes. IfOk result (HostImageIs traced.now (take HOST_BYTES bytes))) }
    ensures later { S.faults image.old ≤ S.faults image.new }
    ensures failed { OnErr result (IsUnread HOST_BYTES (S.faults image.old) (S.faults image.new) (S.left image.old)) }
{
    image_shows(traced, image, buffer)
}

/// What the cell at this place should hold.
pub fn host_due(traced: &Traced<HostRecord, JobRow>, place: u32) -> Due {
    let cell = match &traced.open {
        Some(row) => Some(cell_of_job(row.job) as usize),
        None => None,
    };
    let place = place as usize;
    let cells = traced.record.cells();
    let count = if place < cells.len() {
        count_of(&cells[place])
    } else {
        0
    };
    due_by(count, cell, place)
}
