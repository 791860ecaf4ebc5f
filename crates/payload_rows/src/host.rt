//! A job in a payload.
ghost use Rattle.std.specs.Prelude.{◌≡◌, ◌≢◌, true, false};
ghost use Rattle.host_jobs.specs.Payload.{JobReadsAs};
ghost use Rattle.host_jobs.specs.Seen as host;

use host_jobs::{JOB_BYTES, JobRow};

fn same_mark(one: &Option<[u8; 64]>, other: &Option<[u8; 64]>) -> bool
    ensures yes { result ≡ true → one.now ≡ other.now }
    ensures no { result ≡ false → one.now ≢ other.now }
{
    match (one, other) {
        (Some(one), Some(other)) => *one == *other,
        (None, None) => true,
        _ => false,
    }
}

// Whether what was ordered is the same.
fn same_order(one: &JobRow, other: &JobRow) -> bool
    ensures yes { result ≡ true → (one.now.job ≡ other.now.job) × (one.now.device ≡ other.now.device) × (one.now.piece ≡ other.now.piece)
        × (one.now.postage ≡ other.now.postage) × (one.now.class ≡ other.now.class) }
    ensures no { result ≡ false → one.now ≢ other.now }
{
    one.job == other.job
        && one.device.get() == other.device.get()
        && one.piece == other.piece
        && one.postage == other.postage
        && one.class == other.class
}

fn same_job(one: &JobRow, other: &JobRow) -> bool
    ensures yes { result ≡ true → one.now ≡ other.now }
    ensures no { result ≡ false → one.now ≢ other.now }
{
    same_order(one, other)
        && one.state == other.state
        && one.tops == other.tops
        && same_mark(&one.indicium, &other.indicium)
}

/// Whether a payload of this cell reads as this job.
pub fn reads_as_job(cell: u32, payload: &[u8; JOB_BYTES], due: &JobRow) -> bool
    requires own { host.cell_of due.now ≡ cell }
    ensures yes { result ≡ true → JobReadsAs payload.now due.now }
    ensures no { result ≡ false → JobReadsAs payload.now due.now → ⊥ }
{
    match JobRow::read_payload(cell, payload) {
        Some(found) => same_job(&found, due),
        None => false,
    }
}
