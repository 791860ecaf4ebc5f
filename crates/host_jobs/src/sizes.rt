//! How much the host keeps.

/// How many jobs the host keeps, each in a cell.
pub const HOST_CELLS: u32 = 1_024;

/// The bytes of a job as it is stored.
pub const JOB_BYTES: usize = 115;

/// The bytes of the host's storage: for each cell two slots of a gate, a count and a job.
pub const HOST_BYTES: u32 = 245_760;
