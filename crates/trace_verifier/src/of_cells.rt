//! The record of the verifier, by what its cells have.
ghost use Rattle.std.specs.Prelude.{◌≡◌, ◌+◌, ◌<◌, ◌≤◌, ℕ, None, IfSome, IfNone, IsSome, MatchBool, length, is_some};
ghost use Rattle.bench_base.specs.declared.sizes.TheConstants.{MOST_COMMITS, VERIFIER_CELLS};
ghost use Rattle.node_acts.specs.RowList.{commits_at, commits_in, row_at};
ghost use Rattle.verifier.specs.Index.{IsIndexOf};
ghost use Rattle.verifier.specs.Seen.{AreTogether, IsKnown};
ghost use Rattle.verifier.specs.Seen as seen;
ghost use Rattle.trace_verifier.specs.Helds.{seen_by, seen_cell};
ghost use Rattle.trace_verifier.specs.Listed.{AreRows, AreListed, AreBlank, HasGap, block_of, block_shown};

use crate::held::{Held, count_of};
use crate::record::{ScanRecord, key_at};
use bench_base::sizes::{FIRST_BLOCK, VERIFIER_CELLS};
use verifier::BlockIndex;

// How many commits the cells have.
fn count_all(cells: &[Option<(u32, Held)>]) -> u64
    requires { length cells.now ≡ VERIFIER_CELLS }
    ensures value { result ≡ commits_in (seen_by cells.now) }
    ensures few { (k : ℕ) → commits_at (row_at (seen_by cells.now) k) ≤ MOST_COMMITS }
{
    let mut total = 0;
    for cell in cells {
        total += u64::from(count_of(cell));
    }
    total
}

fn is_blank(cells: &[Option<(u32, Held)>], cell: u32) -> bool
    requires { cell < length cells.now }
    ensures { MatchBool result (row_at (seen_by cells.now) cell ≡ None) (IsSome (row_at (seen_by cells.now) cell)) }
{
    cells[cell as usize].is_none()
}

fn block_in(cell: &Option<(u32, Held)>) -> (u32, u32)
    ensures { result ≡ block_of (seen_cell cell.now) }
{
    match cell {
        Some((_, Held::Block(device, block, _))) => (*device, *block),
        Some((_, Held::Trust(_, _))) => (0, 0),
        None => (0, 0),
    }
}

// Device and number of the block in a cell; 0 and 0 if it has none.
fn block_at(cells: &[Option<(u32, Held)>], cell: u32) -> (u32, u32)
    requires { cell < length cells.now }
    ensures { result ≡ block_shown (seen_by cells.now) cell }
{
    block_in(&cells[cell as usize])
}

// Whether the device of the block in a cell is trusted.
fn is_listed(cells: &[Option<(u32, Held)>], cell: u32) -> bool
    requires rows { AreRows (seen_by cells.now) }
    requires inside { cell < VERIFIER_CELLS }
    requires used { IsSome (row_at (seen_by cells.now) cell) }
    requires listed { AreListed (seen_by cells.now) cell }
    ensures { MatchBool result (AreListed (seen_by cells.now) (cell + 1)) (AreTogether (seen_by cells.now) → ⊥) }
{
    let block = block_at(cells, cell);
    key_at(cells, block.0).is_some()
}

// The first blank cell after the blocks, or the number of cells. None if the device of a block before it is not trusted.
fn end_of_blocks(cells: &[Option<(u32, Held)>]) -> Option<u32>
    requires rows { AreRows (seen_by cells.now) }
    ensures listed { IfSome result (AreListed (seen_by cells.now)) }
    ensures inside { IfSome result (λ end. end ≤ VERIFIER_CELLS) }
    ensures blank { IfSome result (λ end. row_at (seen_by cells.now) end ≡ None) }
    ensures breaks { IfNone result (AreTogether (seen_by cells.now) → ⊥) }
{
    for cell in FIRST_BLOCK..VERIFIER_CELLS {
        if is_blank(cells, cell) {
            return Some(cell);
        }
        if !is_listed(cells, cell) {
            return None;
        }
    }
    Some(VERIFIER_CELLS)
}

// Whether the cells from this one on are blank.
fn are_blank(cells: &[Option<(u32, Held)>], first: u32) -> bool
    requires { length cells.now ≡ VERIFIER_CELLS }
    ensures { MatchBool result (AreBlank (seen_by cells.now) first) (HasGap (seen_by cells.now) first) }
{
    for cell in first..VERIFIER_CELLS {
        if !is_blank(cells, cell) {
            return false;
        }
    }
    true
}

// The index of the blocks. None if the rows break a condition together.
fn index_of(cells: &[Option<(u32, Held)>]) -> Option<BlockIndex>
    requires { AreRows (seen_by cells.now) }
    ensures some { IfSome result (λ index. AreTogether (seen_by cells.now) × IsIndexOf index (seen_by cells.now)) }
    ensures none { IfNone result (AreTogether (seen_by cells.now) → ⊥) }
{
    let end = end_of_blocks(cells)?;
    let mut index = BlockIndex::new();
    if !index.fill(end, |cell| block_at(cells, cell)) {
        return None;
    }
    if are_blank(cells, end) {
        Some(index)
    } else {
        None
    }
}

impl ScanRecord {
    ghost use Rattle.trace_verifier.specs.Cells.{cells_of};

    /// The verifier whose cells have these commits and rows, each row sound and in its own cell. None if and only if the rows break a condition together: the
    /// device of a block is not trusted, two cells have one block, or a blank cell stands before a block.
    pub fn of(cells: Vec<Option<(u32, Held)>>) -> Option<ScanRecord>
        requires rows { AreRows (seen_by cells.items) }
        ensures some { IfSome result (λ r. (cells_of r ≡ seen_by cells.items) × IsKnown (seen_by cells.items)) }
        ensures none { IfNone result (IsKnown (seen_by cells.items) → ⊥) }
    {
        let index = index_of(cells.as_slice())?;
        let total = count_all(cells.as_slice());
        Some(ScanRecord {
            cells,
            index,
            total,
        })
    }
}
