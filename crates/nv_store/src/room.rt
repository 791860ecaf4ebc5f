//! Memory for the cells of a table.
ghost use Rattle.std.specs.Prelude.{◌≡◌, ◌+◌, ◌<◌, ◌≤◌, ◌^◌, length, option_map, IfOk, true, false};
ghost use Rattle.nv_store.specs.Store.{count_of, count_sum, payload_of};
ghost use Rattle.nv_store.specs.Tables.{table_held};

use crate::head::Head;
use bench_base::sizes::MOST_COMMITS;
use std::alloc::{AllocError, Global};

/// Memory for the heads and the payloads of a number of cells.
#[derive(Drop)]
pub struct Room<const L: usize> {
    pub(crate) heads: Vec<Head>,
    pub(crate) payloads: Vec<[u8; L]>,
    ghost same: { length payloads.items ≡ length heads.items },
    ghost short: { length heads.items < 2 ^ 32 },
}

impl<const L: usize> Room<L> {
    ghost use Rattle.nv_store.specs.RoomView.{cells_of};

    /// Takes the memory for so many cells. AllocError is lack of memory.
    pub fn new(alloc: Global, cells: u32) -> Result<Room<L>, AllocError>
        ensures { IfOk result (λ room. cells_of room ≡ cells) }
    {
        let mut heads = Vec::with_capacity(alloc, cells as usize)?;
        let mut payloads = Vec::with_capacity(alloc, cells as usize)?;
        for _made in 0..cells {
            heads.push(Head::blank())?;
            payloads.push([0; L])?;
        }
        Ok(Room { heads, payloads })
    }
}

/// Whether the cell has as many commits as can be counted.
pub fn is_worn<const L: usize>(room: &Room<L>, cell: u32) -> bool
    requires { cell < length room.now.heads.items }
    ensures worn { result ≡ true
        → count_of (table_held room.now.heads.items room.now.payloads.items cell) ≡ MOST_COMMITS }
    ensures less { result ≡ false
        → count_of (table_held room.now.heads.items room.now.payloads.items cell) < MOST_COMMITS }
{
    room.heads[cell as usize].count == MOST_COMMITS
}

/// The sum of the counts.
pub fn sum_counts<const L: usize>(room: &Room<L>) -> u64
    ensures { result ≡ count_sum (length room.now.heads.items)
        (table_held room.now.heads.items room.now.payloads.items) }
{
    let mut total = 0;
    for cell in 0..room.heads.len() {
        total += u64::from(room.heads[cell].count);
    }
    total
}

/// The payload of a cell, None where it is blank.
pub fn payload_at<const L: usize>(room: &Room<L>, cell: u32) -> Option<&[u8; L]>
    requires inside { cell < length room.now.heads.items }
    ensures payload { option_map (λ x. x.now) result ≡ payload_of
        (table_held room.now.heads.items room.now.payloads.items cell) }
    ensures few { count_of (table_held room.now.heads.items room.now.payloads.items cell) ≤ MOST_COMMITS }
{
    if room.heads[cell as usize].count == 0 {
        None
    } else {
        Some(&room.payloads[cell as usize])
    }
}
