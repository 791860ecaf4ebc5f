//! The verifier's cells, by the auditor's rows.
ghost use Rattle.std.specs.Prelude.{◌≡◌, ◌+◌, ◌≤◌, ◌<◌, Some, true, false, length, take, IfSome, IfOk, OnErr};
ghost use Rattle.bench_base.specs.declared.sizes.TheConstants.{MOST_COMMITS, VERIFIER_BYTES};
ghost use Rattle.node_acts.specs.RowList.{commits_at, row_at, row_of};
ghost use Rattle.verifier.specs.Payload.{IsPayloadOf};
ghost use Rattle.verifier.specs.Seen as scans;
ghost use Rattle.trace_verifier.specs.Cells.{IsSettled, cells_of};
ghost use Rattle.trace_verifier.specs.Helds.{row_held, seen_cell};
ghost use Rattle.trace_verifier.specs.Records.{IsPlaced, row_by};
ghost use Rattle.node_images.specs.Cells.{ShowsCell, ShowsOpen, CellIs};
ghost use Rattle.trace_folder.specs.Changes.{at_place};
ghost use Rattle.trace_folder.specs.Images.{VerifierImageIs};
ghost use Rattle.trace_folder.specs.Sources.{IsUnread};

use crate::due::{Due, due_by};
use crate::shows::{MOST_CELL, Shows};
use crate::walk::{Cells, image_shows};
use bench_base::sizes::VERIFIER_CELLS;
use bench_base::stream::{ReadFail, Source};
use node_images::{CellShows, shows_block, shows_no_block, shows_trust};
use trace_nodes::Traced;
use trace_verifier::{Held, ScanRecord, cell_of, held_with};
use verifier::Change;

// Whether the cell at this place shows so many commits and this row.
fn shows_row(cell: &[u8], place: usize, count: u32, held: &Held) -> bool
    requires long { length cell.now ≡ 4122 }
    ensures yes { result ≡ true → ShowsCell 2056 (IsPayloadOf place) (Some (count, row_held held.now)) cell.now }
    ensures no { result ≡ false → ShowsCell 2056 (IsPayloadOf place) (Some (count, row_held held.now)) cell.now → ⊥ }
{
    match held {
        Held::Trust(device, key) => shows_trust(cell, place, count, *device, key.key()),
        Held::Block(device, block, scans) => {
            shows_block(cell, place, count, *device, *block, scans)
        }
    }
}

// Whether the cell at this place shows this.
fn shows_seen(cell: &[u8], place: usize, seen: &Option<(u32, Held)>) -> bool
    requires long { length cell.now ≡ 4122 }
    ensures yes { result ≡ true → ShowsCell 2056 (IsPayloadOf place) (seen_cell seen.now) cell.now }
    ensures no { result ≡ false → ShowsCell 2056 (IsPayloadOf place) (seen_cell seen.now) cell.now → ⊥ }
{
    match seen {
        None => shows_no_block(cell, place),
        Some((count, held)) => shows_row(cell, place, *count, held),
    }
}

fn count_of(seen: &Option<(u32, Held)>) -> u32
    ensures { result ≡ commits_at (seen_cell seen.now) }
{
    match seen {
        None => 0,
        Some((count, _)) => *count,
    }
}

// Whether the cell at this place shows what the change leaves there.
fn shows_change(cell: &[u8], place: usize, seen: &Option<(u32, Held)>, change: &Change) -> bool
    requires long { length cell.now ≡ 4122 }
    requires placed { IsPlaced change.now }
    requires fresh { commits_at (seen_cell seen.now) < MOST_COMMITS }
    ensures yes { result ≡ true → ShowsCell 2056 (IsPayloadOf place)
        (Some (commits_at (seen_cell seen.now) + 1, row_by (row_of (seen_cell seen.now)) change.now)) cell.now }
    ensures no { result ≡ false → ShowsCell 2056 (IsPayloadOf place)
        (Some (commits_at (seen_cell seen.now) + 1, row_by (row_of (seen_cell seen.now)) change.now)) cell.now → ⊥ }
{
    shows_row(cell, place, count_of(seen) + 1, &held_with(seen, change))
}

/// What the cell at this place shows.
pub fn verifier_cell(traced: &Traced<ScanRecord, Change>, place: usize, cell: &[u8]) -> CellShows
    requires settled { IsSettled traced.now }
    requires inside { place < 1032 }
    requires long { length cell.now ≡ 4122 }
    ensures { CellIs 2056 (IsPayloadOf place) (row_at (cells_of traced.now.record) place)
        (at_place scans.cell_of (λ x. scans.row_with (cells_of traced.now.record) x) place traced.now.open) cell.now result }
{
    let seen = &traced.record.cells()[place];
    if shows_seen(cell, place, seen) {
        return CellShows::Counted;
    }
    match &traced.open {
        Some(change) if cell_of(change) == place && shows_change(cell, place, seen, change) => {
            CellShows::Open
        }
        _ => CellShows::Other,
    }
}

impl Cells for Traced<ScanRecord, Change> {
    ghost COUNT = { 1032 };

    const COUNT: u32 = VERIFIER_CELLS;

    ghost SIZE = { 4122 };

    const SIZE: usize = 4122;

    ghost IsSettled = { λ t. IsSettled t };

    ghost counted = { λ t place cell. ShowsCell 2056 (IsPayloadOf place) (row_at (cells_of t.record) place) cell };

    ghost opened = { λ t place cell. ShowsOpen 2056 (IsPayloadOf place) (row_at (cells_of t.record) place)
        (at_place scans.cell_of (λ x. scans.row_with (cells_of t.record) x) place t.open) cell };

    fn cell_shows(&self, place: usize, cell: &[u8]) -> CellShows {
        verifier_cell(self, place, cell)
    }
}

/// What the image of the verifier's storage shows, which is read cell by cell into the buffer, up to the first cell that shows neither. The bytes of that cell
/// are then in the buffer. ReadFail if the source fails or has too few bytes.
pub fn verifier_shows<S: Source>(
    traced: &Traced<ScanRecord, Change>,
    image: &mut S,
    buffer: &mut [u8; MOST_CELL],
) -> Result<Shows, ReadFail>
    requires settled { IsSettled traced.now }
    ensures shows { IfSome (S.left image.old) (λ bytes. IfOk result (VerifierImageIs traced.now (take VERIFIER_BYTES bytes))) }
    ensures later { S.faults image.old ≤ S.faults image.new }
    ensures failed { OnErr result (IsUnread VERIFIER_BYTES (S.faults image.old) (S.faults image.new) (S.left image.old)) }
{
    image_shows(traced, image, buffer)
}

/// What the cell at this place should hold.
pub fn verifier_due(traced: &Traced<ScanRecord, Change>, place: u32) -> Due {
    let cell = match &traced.open {
        Some(change) => Some(cell_of(change)),
        None => None,
    };
    let place = place as usize;
    let cells = traced.record.cells();
    let count = if place < cells.len() {
        count_of(&cells[place])
    } else {
        0
    };
    due_by(count, cell, place)
}
