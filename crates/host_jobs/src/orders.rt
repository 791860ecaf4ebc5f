//! Whether a piece may be ordered, and whether a mark is the one that a job waits for. Postage is in mills.
ghost use Rattle.std.specs.Prelude.{◌≡◌};
ghost use Rattle.host_jobs.specs.Answers as answers;
ghost use Rattle.host_jobs.specs.Answers.{order_answer, hold_answer};

use bench_base::refusals::HostRefusal;
use bench_base::words::JobState;
use indicium::Mark;

/// How many cells of jobs there are.
const CELLS: u32 = 1024;

/// What the host holds when a piece of a device is ordered.
#[derive(Clone, Copy)]
pub struct Shelf {
    /// The last job, from 1; 0 before the first.
    pub last: u32,
    /// The device's job that is ordered and neither held nor closed.
    pub open_job: Option<u32>,
    /// The greatest piece of the device that was ever held; 0 where none was.
    pub top: u32,
    /// The state of the job in the cell of the next one.
    pub oldest: Option<JobState>,
}

fn is_open(state: Option<JobState>) -> bool
    ensures { result ≡ answers.is_open state }
{
    match state {
        Some(state) => !matches!(state, JobState::Closed),
        None => false,
    }
}

/// The number of the new job for this piece of the device.
///
/// The first refusal that holds is returned. `OpenJob` if the device has a job that is ordered and neither held nor closed;
/// then `Used` if the piece is not above all that were held. Then `NumberFull` after job 4,294,967,295, and `JobsFull` if
/// the cell of the new job holds one that isn't closed.
pub fn order(shelf: &Shelf, piece: u32) -> Result<u32, HostRefusal>
    ensures exact { result ≡ order_answer piece shelf.now shelf.now.open_job }
{
    if let Some(job) = shelf.open_job {
        return Err(HostRefusal::OpenJob(job));
    }
    if piece <= shelf.top {
        return Err(HostRefusal::Used(shelf.top));
    }
    if shelf.last == u32::MAX {
        return Err(HostRefusal::NumberFull);
    }
    if shelf.last >= CELLS && is_open(shelf.oldest) {
        return Err(HostRefusal::JobsFull(shelf.last - (CELLS - 1)));
    }
    Ok(shelf.last + 1)
}

/// Why a job of this piece, postage and class doesn't take the mark: the first of these that differs. None if the job
/// takes the mark.
pub fn hold(mark: &Mark, piece: u32, postage: u32, class: u16) -> Option<HostRefusal>
    ensures exact { result ≡ hold_answer mark.now piece postage class }
{
    if mark.piece != piece {
        return Some(HostRefusal::OtherPiece(piece));
    }
    if mark.postage != postage {
        return Some(HostRefusal::OtherPostage(postage));
    }
    if mark.class != class {
        return Some(HostRefusal::OtherClass(class));
    }
    None
}
