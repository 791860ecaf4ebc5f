//! What the verifier keeps of its rows beside the memory of its cells, and its node.
ghost use Rattle.verifier_node.specs.Indexes.{CanIndex, Indexes};

use crate::boot::{index_rows, ready_keys};
use crate::cells::{cell_of, payload_with};
use bench_base::sizes::{BLOCK_BYTES, VERIFIER_CELLS};
use nv_store::Room;
use row_node::{RowNode, RowRoom, Rows};
use std::alloc::{AllocError, Global};
use verifier::{BlockIndex, Change, ReadyKeys};

/// The index of the blocks that the cells hold, and the keys of the devices that they trust, made ready.
#[derive(Drop)]
pub struct VerifierRows {
    pub(crate) index: BlockIndex,
    pub(crate) keys: ReadyKeys,
}

/// Memory for the 1,032 cells of the verifier, and for what it keeps of them.
pub type VerifierRoom = RowRoom<VerifierRows>;

/// The verifier over storage of 4,253,904 bytes: a cell of two slots for each device and each block, with its row as
/// payload. While it is off, what it knew of its storage counts for nothing.
pub type VerifierNode<N> = RowNode<N, VerifierRows>;

impl VerifierRows {
    /// No rows.
    pub(crate) fn none() -> VerifierRows {
        VerifierRows {
            index: BlockIndex::new(),
            keys: ReadyKeys::none(),
        }
    }
}

// Adds the block of a change whose cell was blank.
fn index_change(index: &mut BlockIndex, change: &Change, fresh: bool)
    requires { CanIndex fresh index.old change.now }
    ensures { Indexes fresh index.old index.new change.now }
{
    match change {
        Change::Trust(_, _) => {}
        Change::Accept {
            cell,
            device,
            block,
            ..
        } => {
            if fresh {
                index.insert(device.get(), *block, *cell);
            }
        }
    }
}

// Makes a key ready that is trusted now.
fn ready_change(keys: &mut ReadyKeys, change: &Change) {
    match change {
        Change::Trust(device, key) => keys.put(*device, key),
        Change::Accept { .. } => {}
    }
}

impl Rows for VerifierRows {
    ghost use Rattle.verifier_node.specs.Table.{verifier_table, verifier_laws};

    type Change = Change;

    type Memory = Room<BLOCK_BYTES>;

    ghost table = { verifier_table };

    ghost laws = { verifier_laws };

    fn cells() -> u32 {
        VERIFIER_CELLS
    }

    fn new(_alloc: Global) -> Result<VerifierRows, AllocError> {
        Ok(VerifierRows::none())
    }

    fn clear(&mut self) {
        self.index.clear();
        self.keys = ReadyKeys::none();
    }

    fn cell_of(change: &Change) -> u32 {
        cell_of(change)
    }

    fn payload_with(&self, cells: &Room<BLOCK_BYTES>, change: &Change) -> [u8; BLOCK_BYTES] {
        payload_with(cells, change)
    }

    fn take(&mut self, _cells: &Room<BLOCK_BYTES>, change: &Change, blank: bool) {
        index_change(&mut self.index, change, blank);
        ready_change(&mut self.keys, change);
    }

    fn read(&mut self, cells: &Room<BLOCK_BYTES>) -> bool {
        if index_rows(cells, &mut self.index).is_err() {
            return false;
        }
        ready_keys(cells, &mut self.keys);
        true
    }
}
