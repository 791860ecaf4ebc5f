//! How much is kept where.

/// The most commits that a cell of storage can count.
pub const MOST_COMMITS: u32 = 4_294_967_295;

/// The bytes of a device's record as it is stored.
pub const RECORD_BYTES: usize = 209;

/// The slots of a device's one cell.
pub const SLOTS: u32 = 16;

/// The bytes of a device's storage: a gate, a count and a record for each slot.
pub const DEVICE_BYTES: u32 = 3_424;

/// The bytes of a row of the centre as it is stored.
pub const ROW_BYTES: usize = 192;

/// The cells of the centre: of devices 1 to 8, and then of customers 1 to 64.
pub const CENTRE_CELLS: u32 = 72;

/// The bytes of the centre's storage: for each cell two slots of a gate, a count and a row.
pub const CENTRE_BYTES: u32 = 28_368;

/// The bytes of a row of the verifier as it is stored.
pub const BLOCK_BYTES: usize = 2_056;

/// The cells of the verifier: of devices 1 to 8, and then of blocks.
pub const VERIFIER_CELLS: u32 = 1_032;

/// The bytes of the verifier's storage: for each cell two slots of a gate, a count and a row.
pub const VERIFIER_BYTES: u32 = 4_253_904;

/// The cell of the verifier's first block.
pub const FIRST_BLOCK: u32 = 8;

/// The pieces of a block.
pub const BLOCK_PIECES: u32 = 512;

/// The greatest number of a block.
pub const LAST_BLOCK: u32 = 8_388_607;

/// The most blocks that can be in use.
pub const MOST_BLOCKS: usize = 1_024;
