//! The record of the verifier, with the count of each of its cells.
ghost use Rattle.std.specs.Prelude.{◌≡◌, [], false, IfOk};
ghost use Rattle.std.specs.Option.{option_copied};
ghost use Rattle.node_acts.specs.RowList.{commits_at, is_worn, row_at};
ghost use Rattle.verifier.specs.ActLaws.{IsFit};
ghost use Rattle.verifier.specs.Records.{seen_after};
ghost use Rattle.verifier.specs.Seen as seen;
ghost use Rattle.verifier_node.specs.Indexes.{CanIndex, Indexes};
ghost use Rattle.trace_verifier.specs.Helds.{seen_by};
ghost use Rattle.trace_verifier.specs.Unique.{indexed_prop};
ghost use Rattle.trace_verifier.specs.Records.{AreIndexed};

use crate::held::{Held, count_of, held_with, key_of, scans_of};
use bench_base::numbers::{DayNo, DevNo};
use bench_base::refusals::ScanRefusal;
use bench_base::sizes::{BLOCK_PIECES, FIRST_BLOCK, MOST_COMMITS, VERIFIER_CELLS};
use bench_base::words::Key;
use hmac_core::ReadyKey;
use indicium::read_indicium;
use node_acts::{Act, Holds};
use std::alloc::{AllocError, Global};
use trace_nodes::Record;
use verifier::{Accepted, BlockIndex, Change, RowsOf, ScanAct, Spot, scan_act, trust_act};

/// The rows of the verifier in their cells, with the commits of each, and the index of the blocks beside.
#[derive(Drop)]
pub struct ScanRecord {
    pub(crate) cells: Vec<Option<(u32, Held)>>,
    pub(crate) index: BlockIndex,
    pub(crate) total: u64,
    ghost kept: { AreIndexed (seen_by cells.items) index total } by { indexed_prop (seen_by cells.items) index total },
}

/// The cell of a change: device d in cell d - 1, and a block in its own.
pub fn cell_of(change: &Change) -> usize
    ensures { result ≡ seen.cell_of change.now }
{
    match change {
        Change::Trust(device, _) => device.get() as usize - 1,
        Change::Accept { cell, .. } => *cell as usize,
    }
}

// Adds the block of a change to a cell that was blank.
fn index_change(index: &mut BlockIndex, change: &Change, fresh: bool)
    requires { CanIndex fresh index.old change.now }
    ensures { Indexes fresh index.old index.new change.now }
{
    match change {
        Change::Trust(_, _) => {}
        Change::Accept {
            cell,
            device,
            block,
            ..
        } => {
            if fresh {
                index.insert(device.get(), *block, *cell);
            }
        }
    }
}

// Puts the row that the change leaves into its cell, and its block into the index.
fn put_in(
    cells: &mut Vec<Option<(u32, Held)>>,
    index: &mut BlockIndex,
    total: &mut u64,
    change: &Change,
)
    requires kept { AreIndexed (seen_by cells.old.items) index.old total.old }
    requires fits { IsFit (seen_by cells.old.items) change.now }
    requires room { is_worn (seen_by cells.old.items) (seen.cell_of change.now) ≡ false }
    ensures put { seen_by cells.new.items ≡ seen.counting.after (seen_by cells.old.items) change.now }
    ensures kept { AreIndexed (seen_by cells.new.items) index.new total.new }
{
    let cell = cell_of(change);
    let count = count_of(&cells[cell]);
    let fresh = cells[cell].is_none();
    let held = held_with(&cells[cell], change);
    cells[cell] = Some((count + 1, held));
    index_change(index, change, fresh);
    *total += 1;
}

// How many commits a cell has, 0 past the last.
fn count_at(cells: &[Option<(u32, Held)>], cell: usize) -> u32
    ensures { result ≡ commits_at (row_at (seen_by cells.now) cell) }
{
    if cell < cells.len() {
        count_of(&cells[cell])
    } else {
        0
    }
}

// The key under which marks of the device are trusted.
pub(crate) fn key_at(cells: &[Option<(u32, Held)>], device: u32) -> Option<&ReadyKey>
    ensures { option_copied result ≡ seen.key_at (seen_by cells.now) device }
{
    if device == 0 {
        return None;
    }
    let cell = device as usize - 1;
    if cell < cells.len() {
        key_of(&cells[cell])
    } else {
        None
    }
}

// The cells of a verifier without a row.
fn no_cells(alloc: Global) -> Result<Vec<Option<(u32, Held)>>, AllocError>
    ensures { IfOk result (λ cells. seen_by cells.items ≡ seen_after []) }
{
    let mut cells = Vec::with_capacity(alloc, VERIFIER_CELLS as usize)?;
    for _cell in 0..VERIFIER_CELLS {
        cells.push(None)?;
    }
    Ok(cells)
}

impl ScanRecord {
    ghost use Rattle.trace_verifier.specs.Cells.{cells_of};

    /// The cells: None of a blank one, otherwise its commits and what is kept of its row.
    pub fn cells(&self) -> &[Option<(u32, Held)>]
        ensures { seen_by result.now ≡ cells_of self.now }
    {
        self.cells.as_slice()
    }

    /// A verifier without a row: as it is seen before the first commit. AllocError is lack of memory.
    pub fn blank(alloc: Global) -> Result<ScanRecord, AllocError>
        ensures { IfOk result (λ r. cells_of r ≡ seen_after []) }
    {
        let cells = no_cells(alloc)?;
        Ok(ScanRecord {
            cells,
            index: BlockIndex::new(),
            total: 0,
        })
    }

    /// The key under which marks of the device are trusted.
    pub fn key(&self, device: u32) -> Option<&ReadyKey>
        ensures { option_copied result ≡ seen.key_at (cells_of self.now) device }
    {
        key_at(self.cells.as_slice(), device)
    }

    // The place at which a piece of a device is looked up.
    fn spot(&self, device: u32, piece: u32) -> Spot
        ensures { result ≡ seen.spot_in (cells_of self.now) device piece }
    {
        match self.index.find(device, piece / BLOCK_PIECES) {
            Some(cell) => {
                let scans = scans_of(&self.cells[cell as usize]);
                let scan = scans[(piece % BLOCK_PIECES) as usize];
                Spot {
                    cell,
                    accepted: if scan == 0 { None } else { Some(scan) },
                }
            }
            None => Spot {
                cell: FIRST_BLOCK + self.index.len() as u32,
                accepted: None,
            },
        }
    }
}

impl Holds for ScanRecord {
    type By = ScanRecord;
}

impl RowsOf<ScanRecord> for ScanRecord {
    ghost use Rattle.trace_verifier.specs.Cells.{cells_of};

    ghost rows = { λ r. cells_of r };

    fn trusting(&self, device: DevNo, key: &Key) -> ScanAct<()> {
        let known = self.key(device.get()).is_some();
        trust_act(device, key, known)
    }

    fn scanning(&self, number: u32, bytes: &[u8], today: DayNo) -> ScanAct<Accepted> {
        match read_indicium(bytes) {
            Err(fault) => Act::Refuse(ScanRefusal::Unread(fault)),
            Ok((mark, _)) => {
                let key = self.key(mark.device);
                let spot = self.spot(mark.device, mark.piece);
                scan_act(number, bytes, &mark, today, key, spot)
            }
        }
    }
}

impl Record<Change> for ScanRecord {
    ghost Seen = { seen.Seen };

    ghost counting = { seen.counting };

    ghost IsFit = { λ s x. IsFit s x };

    ghost seen = { λ r. seen_by r.cells.items };

    fn commits(&self) -> u64 {
        self.total
    }

    fn is_worn(&self, change: &Change) -> bool {
        count_at(self.cells.as_slice(), cell_of(change)) == MOST_COMMITS
    }

    fn put(&mut self, change: &Change) {
        put_in(&mut self.cells, &mut self.index, &mut self.total, change);
    }
}
