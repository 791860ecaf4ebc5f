//! The blocks in use, by number and device.
ghost use Rattle.std.specs.Prelude.{◌≡◌, ◌↔◌, ◌+◌, ◌<◌, ◌≤◌, ℕ, List, [], IsTrue, None, MatchBool, IsPermutation, length, take, get_or};
ghost use Rattle.std.specs.List.Sorted.{IsNonDecreasingBy};
ghost use Rattle.bench_base.specs.declared.sizes.TheConstants.{MOST_BLOCKS, VERIFIER_CELLS, FIRST_BLOCK};
ghost use Rattle.verifier.specs.Index.{cell_in, with_cell, rank, rank_of, AreOrdered, AreRising, HaveTie, IsEntryOf, HasBlocks, HasTwice, nothing};
ghost use Rattle.verifier.specs.Index as index;

use bench_base::sizes::{FIRST_BLOCK, MOST_BLOCKS};
use std::marker::Model;

// How many numbers a device can have.
const DEVICES: u64 = 0x1_0000_0000;

/// A block in use.
#[derive(Clone, Copy)]
pub struct Entry {
    pub device: u32,
    /// The number of the block.
    pub block: u32,
    /// The cell that it lies in.
    pub cell: u32,
}

/// At most 1,024 blocks, in the order of their numbers and devices, so that no call walks them. Pieces come about in the order of their numbers, so a new
/// block mostly goes after the others.
#[derive(Drop)]
pub struct BlockIndex {
    entries: [Entry; MOST_BLOCKS],
    len: usize,
}

impl Model for BlockIndex {
    ghost use Rattle.std.specs.Prelude.{List, take};
    ghost use Rattle.verifier.specs.declared.index.Entry.{Entry};

    ghost Value = { List Entry };

    ghost use Rattle.verifier.specs.Index.{IsIndexArray};

    ghost view = { λ i. take i.len i.entries };

    ghost invariant = { λ i. IsIndexArray i.entries i.len };
}

// Whether the entry comes before this block.
fn precedes(entry: &Entry, device: u32, block: u32) -> bool
    ensures { IsTrue result ↔ (rank_of entry.now < rank device block) }
{
    let holder = entry.device;
    entry.block < block || entry.block == block && holder < device
}

fn is_of(entry: &Entry, device: u32, block: u32) -> bool
    ensures { result ≡ index.is_of device block entry.now }
{
    entry.device == device && entry.block == block
}

// The rank of the entry's block in the order.
fn entry_rank(entry: &Entry) -> u64
    ensures { result ≡ rank_of entry.now }
{
    u64::from(entry.block) * DEVICES + u64::from(entry.device)
}

// Writes the entries of the cells before `end` to the front of the array. How many they are.
fn write_entries<F: Fn(u32) -> (u32, u32)>(
    entries: &mut [Entry; MOST_BLOCKS],
    end: u32,
    block_of: F,
) -> usize
    requires from { FIRST_BLOCK ≤ end }
    requires room { end ≤ VERIFIER_CELLS }
    requires callable { (cell : ℕ) → cell < end → F.pre block_of cell }
    ensures size { length entries.new ≡ MOST_BLOCKS }
    ensures many { FIRST_BLOCK + result ≡ end }
    ensures written { (i : ℕ) → i < result → IsEntryOf (F.post block_of) (FIRST_BLOCK + i) (get_or entries.new i nothing) }
{
    for cell in FIRST_BLOCK..end {
        let block = block_of(cell);
        entries[(cell - FIRST_BLOCK) as usize] = Entry {
            device: block.0,
            block: block.1,
            cell,
        };
    }
    (end - FIRST_BLOCK) as usize
}

// Whether no two of the entries, which are sorted, are of one block.
fn are_apart(entries: &[Entry]) -> bool
    requires { IsNonDecreasingBy rank_of entries.now }
    ensures { MatchBool result (AreRising entries.now) (HaveTie entries.now) }
{
    for later in 1..entries.len() {
        let before = entry_rank(&entries[later - 1]);
        let rank = entry_rank(&entries[later]);
        if before == rank {
            return false;
        }
    }
    true
}

// Brings the entries in order.
fn sort(entries: &mut [Entry])
    ensures moved { IsPermutation entries.old entries.new }
    ensures len { length entries.new ≡ length entries.old }
    ensures sorted { IsNonDecreasingBy rank_of entries.new }
{
    entries.sort_unstable_by_key(|entry| entry_rank(entry));
}

// Brings the first entries of the array in order. Whether no two of them are of one block.
fn settle(entries: &mut [Entry; MOST_BLOCKS], len: usize) -> bool
    requires { len ≤ MOST_BLOCKS }
    ensures size { length entries.new ≡ MOST_BLOCKS }
    ensures moved { IsPermutation (take len entries.old) (take len entries.new) }
    ensures apart { MatchBool result (AreRising (take len entries.new)) (HaveTie (take len entries.new)) }
{
    sort(&mut entries[..len]);
    are_apart(&entries[..len])
}

// How many entries come before this block.
fn rank_in(entries: &[Entry], device: u32, block: u32) -> usize
    requires { AreOrdered entries.now }
    ensures inside { result ≤ length entries.now }
    ensures before { (k : ℕ) → k < result → rank_of (get_or entries.now k nothing) < rank device block }
    ensures behind { (k : ℕ) → result ≤ k → k < length entries.now → rank device block ≤ rank_of (get_or entries.now k nothing) }
{
    let len = entries.len();
    if len == 0 || precedes(&entries[len - 1], device, block) {
        return len;
    }
    let mut low = 0;
    let mut high = len;
    while low < high {
        let middle = low + (high - low) / 2;
        if precedes(&entries[middle], device, block) {
            low = middle + 1;
        } else {
            high = middle;
        }
    }
    low
}

impl BlockIndex {
    /// No block.
    pub fn new() -> BlockIndex
        ensures { result ≡ [] }
    {
        let none = Entry {
            device: 0,
            block: 0,
            cell: 0,
        };
        BlockIndex {
            entries: [none; MOST_BLOCKS],
            len: 0,
        }
    }

    /// Forgets all blocks.
    pub fn clear(&mut self)
        ensures { self.new ≡ [] }
    {
        self.len = 0;
    }

    /// The number of blocks, at most 1,024.
    pub fn len(&self) -> usize
        ensures value { result ≡ length self.now }
        ensures room { result ≤ MOST_BLOCKS }
        ensures ordered { AreOrdered self.now }
    {
        self.len
    }

    /// The cell of the block; None if and only if it is not in the index.
    pub fn find(&self, device: u32, block: u32) -> Option<u32>
        ensures { result ≡ cell_in self.now device block }
    {
        let entries = &self.entries[..self.len];
        let place = rank_in(entries, device, block);
        if place < entries.len() && is_of(&entries[place], device, block) {
            Some(entries[place].cell)
        } else {
            None
        }
    }

    /// Has the blocks of the cells before `end`, in any order, in the place of all others. Device and number of the block
    /// of a cell are what `block_of` answers. False if two cells hold one block.
    pub fn fill<F: Fn(u32) -> (u32, u32)>(&mut self, end: u32, block_of: F) -> bool
        requires from { FIRST_BLOCK ≤ end }
        requires room { end ≤ VERIFIER_CELLS }
        requires callable { (cell : ℕ) → cell < end → F.pre block_of cell }
        ensures { (blocks : ℕ → ℕ × ℕ) → ((cell : ℕ) (block : ℕ × ℕ) → cell < end → F.post block_of cell block → block ≡ blocks cell)
            → MatchBool result (HasBlocks self.new blocks end) (HasTwice blocks end) }
    {
        let len = write_entries(&mut self.entries, end, block_of);
        if settle(&mut self.entries, len) {
            self.len = len;
            true
        } else {
            self.len = 0;
            false
        }
    }

    /// Adds a block that is not in the index, which has room; all others stay.
    pub fn insert(&mut self, device: u32, block: u32, cell: u32)
        requires fresh { cell_in self.old device block ≡ None }
        requires room { length self.old < MOST_BLOCKS }
        ensures added { (d b : ℕ) → cell_in self.new d b ≡ with_cell device block cell self.old d b }
        ensures more { length self.new ≡ length self.old + 1 }
    {
        let len = self.len;
        let place = rank_in(&self.entries[..len], device, block);
        self.entries.copy_within(place..len, place + 1);
        self.entries[place] = Entry {
            device,
            block,
            cell,
        };
        self.len = len + 1;
    }
}
