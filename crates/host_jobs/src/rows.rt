//! What the host keeps of a job. Postage is in mills.
use bench_base::numbers::DevNo;
use bench_base::words::JobState;

/// A job, as its last commit left it.
#[derive(Clone, Copy)]
pub struct JobRow {
    /// The number of the job, from 1.
    pub job: u32,
    /// What was ordered: the device that is to frank, the piece, from 1, its postage, 1 to 100,000, and its class.
    pub device: DevNo,
    pub piece: u32,
    pub postage: u32,
    pub class: u16,
    pub state: JobState,
    /// The greatest piece of each of the devices 1 to 8 that was ever held, as it was after that commit; 0 where none was.
    pub tops: [u32; 8],
    /// The mark of the piece, once it is held.
    pub indicium: Option<[u8; 64]>,
}
