//! Whether a job that was read meets its conditions.
ghost use Rattle.std.specs.Prelude.{◌↔◌, ◌-◌, IsTrue};
ghost use Rattle.host_jobs.specs.Order.{IsMarkOf};
ghost use Rattle.host_jobs.specs.Rows.{job_in};
ghost use Rattle.host_jobs.specs.Soundness.{IsMarked, Holds, IsSoundJob};

use crate::rows::JobRow;
use bench_base::words::JobState;
use indicium::read_indicium;

/// The greatest postage of a piece, in mills.
const POSTAGE_LIMIT: u32 = 100_000;

fn is_marked(state: JobState, mark: &Option<[u8; 64]>) -> bool
    ensures { IsTrue result ↔ IsMarked state mark.now }
{
    match state {
        JobState::Ordered => mark.is_none(),
        JobState::Held | JobState::Begun => mark.is_some(),
        JobState::Closed => true,
    }
}

// Whether the bytes are a mark, of either version, of the job's device, piece, postage and class.
fn is_mark_of(row: &JobRow, bytes: &[u8; 64]) -> bool
    ensures { IsTrue result ↔ IsMarkOf (job_in row.now) bytes.now }
{
    let Ok((mark, _)) = read_indicium(bytes) else {
        return false;
    };
    mark.device == row.device.get()
        && mark.piece == row.piece
        && mark.postage == row.postage
        && mark.class == row.class
}

fn holds(row: &JobRow, bytes: &[u8; 64]) -> bool
    ensures { IsTrue result ↔ Holds row.now bytes.now }
{
    let place = row.device.get() as usize - 1;
    is_mark_of(row, bytes) && row.piece <= row.tops[place]
}

/// Whether a job meets its conditions.
pub fn is_sound_job(row: &JobRow) -> bool
    ensures { IsTrue result ↔ IsSoundJob row.now }
{
    let device = row.device.get();
    let fits = 1 <= device
        && 1 <= row.job
        && 1 <= row.piece
        && 1 <= row.postage
        && row.postage <= POSTAGE_LIMIT;
    if !fits || !is_marked(row.state, &row.indicium) {
        return false;
    }
    match &row.indicium {
        Some(bytes) => holds(row, bytes),
        None => true,
    }
}
