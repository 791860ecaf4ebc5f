//! The cells of a table over lent parts: committing to one, and reading all.
ghost use Rattle.std.specs.Prelude.{◌≡◌, ◌≢◌, ◌+◌, ◌*◌, ◌≤◌, ◌<◌, ◌^◌, List, ℕ, length, OnOk, OnErr, IfOk, IfSome, IfNone, true, false, is_ok};
ghost use Rattle.nv_model.specs.Meters.{Went, UsesExactly};
ghost use Rattle.nv_model.specs.Moments.{Only, Elapses, Rests};
ghost use Rattle.nv_store.specs.Slot.{slots_at, IsClear};
ghost use Rattle.nv_store.specs.Scans.{IsMixed};
ghost use Rattle.nv_store.specs.Store.{Between, UsesCommit, count_of, after_commit, commit_calls};
ghost use Rattle.nv_store.specs.Fills.{Fills, cell_fill, told};
ghost use Rattle.nv_store.specs.Mounts.{Mounts};
ghost use Rattle.nv_store.specs.Tables.{TableKnown, PlacesInside, table_held, cell_is_open};

use crate::MOST_BYTES;
use crate::commit::commit_at;
use crate::head::Head;
use crate::scan::find_cell;
use nv_model::{Nv, NvFail};

/// Commits a payload to a cell of a table.
pub fn commit_cell<N: Nv, const L: usize>(
    nv: &mut N,
    heads: &mut Vec<Head>,
    payloads: &mut Vec<[u8; L]>,
    cell: u32,
    payload: &[u8; L],
) -> Result<(), NvFail>
    requires small { L ≤ MOST_BYTES }
    requires inside { cell < length heads.old.items }
    requires same { length payloads.old.items ≡ length heads.old.items }
    requires room { length heads.old.items * (2 * (5 + L)) ≤ N.size nv.old }
    requires fits { length heads.old.items * (2 * (5 + L)) < 2 ^ 32 }
    requires powered { (N.meters nv.old).lost ≡ false }
    requires next { count_of (table_held heads.old.items payloads.old.items cell) < 4294967295 }
    requires places { PlacesInside 2 (length heads.old.items) heads.old.items }
    requires alone { N.tells → Only (N.times nv.old) (N.content nv.old) }
    requires known { N.tells
        → TableKnown L 2 (length heads.old.items) (N.content nv.old) heads.old.items payloads.old.items }
    ensures any_moment { N.tells → (c : List ℕ) → (N.times nv.new).since (N.times nv.old).moment c
        → Between L 2 (length heads.old.items) cell (table_held heads.old.items payloads.old.items) payload.now c }
    ensures here { OnOk result (table_held heads.new.items payloads.new.items cell ≡ after_commit
        (table_held heads.old.items payloads.old.items cell) payload.now) }
    ensures others { (k : ℕ) → k ≢ cell
        → table_held heads.new.items payloads.new.items k ≡ table_held heads.old.items payloads.old.items k }
    ensures unchanged { OnErr result (table_held heads.new.items payloads.new.items cell ≡ table_held heads.old.items
        payloads.old.items cell) }
    ensures known { N.tells
        → OnOk result (TableKnown L 2 (length heads.old.items) (N.content nv.new) heads.new.items payloads.new.items) }
    ensures places { PlacesInside 2 (length heads.old.items) heads.new.items }
    ensures long { length heads.new.items ≡ length heads.old.items }
    ensures same { length payloads.new.items ≡ length payloads.old.items }
    ensures durable { N.tells → OnOk result (Only (N.times nv.new) (N.content nv.new)) }
    ensures time { N.tells → Elapses (N.times nv.old) (N.times nv.new) }
    ensures fills { N.tells
        → Fills (cell_fill L 2 cell (count_of (table_held heads.old.items payloads.old.items cell) + 1, payload.now))
        (told N.Nv nv.old) (told N.Nv nv.new) (is_ok result) }
    ensures went { Went 6 (N.meters nv.old) (N.meters nv.new) result }
    ensures uses { OnOk result (UsesCommit (N.meters nv.old).fuse (N.meters nv.new).fuse) }
    ensures calls { OnOk result (UsesExactly (commit_calls (cell_is_open heads.old.items cell)) (N.meters nv.old).fuse
        (N.meters nv.new).fuse) }
    ensures size { N.size nv.new ≡ N.size nv.old }
{
    let at = cell * (2 * (5 + L as u32));
    commit_at(
        nv,
        at,
        2,
        &mut heads[cell as usize],
        &mut payloads[cell as usize],
        payload,
    )
}

/// Reads a cell of a table into its head and its payload. False where the cell is mixed.
fn read_cell<N: Nv, const L: usize>(
    nv: &mut N,
    heads: &mut Vec<Head>,
    payloads: &mut Vec<[u8; L]>,
    cell: u32,
) -> Result<bool, NvFail>
    requires small { L ≤ MOST_BYTES }
    requires inside { cell < length heads.old.items }
    requires same { length payloads.old.items ≡ length heads.old.items }
    requires room { length heads.old.items * (2 * (5 + L)) ≤ N.size nv.old }
    requires fits { length heads.old.items * (2 * (5 + L)) < 2 ^ 32 }
    requires powered { (N.meters nv.old).lost ≡ false }
    ensures rests { N.tells → Rests (N.content nv.old) (N.content nv.new) (N.times nv.old) (N.times nv.new) }
    ensures went { Went 0 (N.meters nv.old) (N.meters nv.new) result }
    ensures size { N.size nv.new ≡ N.size nv.old }
    ensures long { length heads.new.items ≡ length heads.old.items }
    ensures same { length payloads.new.items ≡ length payloads.old.items }
    ensures places { IfOk result (λ clear. clear ≡ true → PlacesInside 2 cell heads.old.items
        → PlacesInside 2 (cell + 1) heads.new.items) }
    ensures known { N.tells
        → IfOk result (λ clear. clear ≡ true → TableKnown L 2 cell (N.content nv.old) heads.old.items payloads.old.items
        → TableKnown L 2 (cell + 1) (N.content nv.old) heads.new.items payloads.new.items) }
    ensures clear { N.tells
        → IfOk result (λ clear. clear ≡ true → IsClear 2 (slots_at L (cell * (2 * (5 + L))) (N.content nv.old))) }
    ensures mixed { N.tells
        → IfOk result (λ clear. clear ≡ false → IsMixed 2 (slots_at L (cell * (2 * (5 + L))) (N.content nv.old))) }
{
    let at = cell * (2 * (5 + L as u32));
    match find_cell(nv, at, 2, &mut payloads[cell as usize])? {
        None => Ok(false),
        Some(head) => {
            heads[cell as usize] = head;
            Ok(true)
        }
    }
}

/// Reads the cells of a table, up to the first that is mixed, which it answers.
fn find_cells<N: Nv, const L: usize>(
    nv: &mut N,
    heads: &mut Vec<Head>,
    payloads: &mut Vec<[u8; L]>,
) -> Result<Option<u32>, NvFail>
    requires small { L ≤ MOST_BYTES }
    requires same { length payloads.old.items ≡ length heads.old.items }
    requires room { length heads.old.items * (2 * (5 + L)) ≤ N.size nv.old }
    requires fits { length heads.old.items * (2 * (5 + L)) < 2 ^ 32 }
    requires powered { (N.meters nv.old).lost ≡ false }
    ensures rests { N.tells → Rests (N.content nv.old) (N.content nv.new) (N.times nv.old) (N.times nv.new) }
    ensures went { Went 0 (N.meters nv.old) (N.meters nv.new) result }
    ensures size { N.size nv.new ≡ N.size nv.old }
    ensures long { length heads.new.items ≡ length heads.old.items }
    ensures same { length payloads.new.items ≡ length payloads.old.items }
    ensures places { IfOk result (λ mixed. IfNone mixed (PlacesInside 2 (length heads.old.items) heads.new.items)) }
    ensures known { N.tells
        → IfOk result (λ mixed. IfNone mixed (TableKnown L 2 (length heads.old.items)
        (N.content nv.old) heads.new.items payloads.new.items)) }
    ensures mixed { N.tells
        → IfOk result (λ mixed. IfSome mixed (λ cell. (cell < length heads.old.items)
        × IsMixed 2 (slots_at L (cell * (2 * (5 + L))) (N.content nv.old)))) }
    ensures least { N.tells
        → IfOk result (λ mixed. IfSome mixed (λ cell. (j : ℕ) → j < cell
        → IsClear 2 (slots_at L (j * (2 * (5 + L))) (N.content nv.old)))) }
{
    let cells = heads.len() as u32;
    for cell in 0..cells {
        if !read_cell(nv, heads, payloads, cell)? {
            return Ok(Some(cell));
        }
    }
    Ok(None)
}

/// Makes sure of the storage, and reads its cells, up to the first that is mixed, which it answers.
pub fn settle<N: Nv, const L: usize>(
    nv: &mut N,
    heads: &mut Vec<Head>,
    payloads: &mut Vec<[u8; L]>,
) -> Result<Option<u32>, NvFail>
    requires small { L ≤ MOST_BYTES }
    requires same { length payloads.old.items ≡ length heads.old.items }
    requires room { length heads.old.items * (2 * (5 + L)) ≤ N.size nv.old }
    requires fits { length heads.old.items * (2 * (5 + L)) < 2 ^ 32 }
    requires powered { (N.meters nv.old).lost ≡ false }
    ensures mounts { N.tells → Mounts (N.times nv.old) (N.times nv.new) }
    ensures alone { N.tells → OnOk result (Only (N.times nv.new) (N.content nv.new)) }
    ensures went { Went 1 (N.meters nv.old) (N.meters nv.new) result }
    ensures once { OnOk result (UsesExactly 1 (N.meters nv.old).fuse (N.meters nv.new).fuse) }
    ensures size { N.size nv.new ≡ N.size nv.old }
    ensures long { length heads.new.items ≡ length heads.old.items }
    ensures same { length payloads.new.items ≡ length payloads.old.items }
    ensures places { IfOk result (λ mixed. IfNone mixed (PlacesInside 2 (length heads.old.items) heads.new.items)) }
    ensures known { N.tells
        → IfOk result (λ mixed. IfNone mixed (TableKnown L 2 (length heads.old.items)
        (N.content nv.new) heads.new.items payloads.new.items)) }
    ensures mixed { N.tells
        → IfOk result (λ mixed. IfSome mixed (λ cell. (cell < length heads.old.items)
        × IsMixed 2 (slots_at L (cell * (2 * (5 + L))) (N.content nv.new)))) }
    ensures least { N.tells
        → IfOk result (λ mixed. IfSome mixed (λ cell. (j : ℕ) → j < cell
        → IsClear 2 (slots_at L (j * (2 * (5 + L))) (N.content nv.new)))) }
{
    nv.sync()?;
    find_cells(nv, heads, payloads)
}
