//! What is kept of rows that were read, which have to agree.
ghost use Rattle.std.specs.Prelude.{◌≡◌, ◌↔◌, ◌+◌, ◌-◌, ◌<◌, ◌≤◌, ℕ, true, IfSome, IsSome, IsTrue, get_or, max, length, None, Some};
ghost use Rattle.std.specs.Option.{option_copied};
ghost use Rattle.bench_base.specs.Ranges.{IsDevice};
ghost use Rattle.bench_base.specs.Rows.{first_of};
ghost use Rattle.host_jobs.specs.Rows.{row_in, number_in, top_at, is_ordered, waiting, last_in, tops_in, opens_in};
ghost use Rattle.host_jobs.specs.Soundness.{AreGapless, WaitOnce, AreFresh, ArePlaced, AreJoined, IsDerived};

use crate::kept::{JobRows, Kept};
use crate::rows::JobRow;
use crate::sizes::HOST_CELLS;
use bench_base::words::JobState;

fn number_of(rows: &JobRows, cell: u32) -> u32
    requires { cell < HOST_CELLS }
    ensures { result ≡ number_in (row_in rows.now cell) }
{
    match rows.get(cell) {
        Some(row) => row.job,
        None => 0,
    }
}

fn last_of(rows: &JobRows) -> u32
    requires { length rows.now ≡ HOST_CELLS }
    ensures { result ≡ last_in rows.now }
{
    let mut last = 0;
    for cell in 0..HOST_CELLS {
        let number = number_of(rows, cell);
        if last < number {
            last = number;
        }
    }
    last
}

// How many of the last jobs are in cells.
fn many(last: u32) -> u32
    ensures cells { result ≤ HOST_CELLS }
    ensures jobs { result ≤ last }
    ensures all { (j : ℕ) → 1 ≤ j → j ≤ last → last < j + 1024 → last < j + result }
{
    if last < HOST_CELLS { last } else { HOST_CELLS }
}

// Whether the last jobs, downwards from this one, are all there.
fn are_gapless(rows: &JobRows, last: u32) -> bool
    requires { last ≡ last_in rows.now }
    ensures { IsTrue result ↔ AreGapless rows.now }
{
    for back in 0..many(last) {
        if rows.job(last - back).is_none() {
            return false;
        }
    }
    true
}

// The tops with those of one more row.
fn raise(tops: &mut [u32; 8], slot: Option<&JobRow>)
    ensures { (i : ℕ) → i < 8 → get_or tops.new i 0 ≡ max (get_or tops.old i 0) (top_at (i + 1) (option_copied slot.entry)) }
{
    if let Some(row) = slot {
        for place in 0..8 {
            let top = row.tops[place];
            if tops[place] < top {
                tops[place] = top;
            }
        }
    }
}

fn tops_of(rows: &JobRows) -> [u32; 8]
    requires { length rows.now ≡ HOST_CELLS }
    ensures { result ≡ tops_in rows.now }
{
    let mut tops = [0; 8];
    for cell in 0..HOST_CELLS {
        raise(&mut tops, rows.get(cell));
    }
    tops
}

// Keeps the job of the row where it waits for its mark. False where another job of its device waits, or its piece is not
// above the device's top.
fn keep_open(open_jobs: &mut [Option<u32>; 8], row: &JobRow, tops: &[u32; 8]) -> bool
    ensures kept { IsTrue result → (i : ℕ) → i < 8 → get_or open_jobs.new i None ≡ first_of (get_or open_jobs.old i None) (waiting (i + 1) (Some row.now)) }
    ensures fits { IsTrue result ↔ (is_ordered row.now.state ≡ true
        → (get_or open_jobs.old (row.now.device - 1) None ≡ None) × (get_or tops.now (row.now.device - 1) 0 < row.now.piece)) }
    ensures device { IsDevice row.now.device }
{
    let place = row.device.get() as usize - 1;
    if !matches!(row.state, JobState::Ordered) {
        return true;
    }
    if open_jobs[place].is_some() || row.piece <= tops[place] {
        return false;
    }
    open_jobs[place] = Some(row.job);
    true
}

fn open_jobs_of(rows: &JobRows, tops: &[u32; 8]) -> Option<[Option<u32>; 8]>
    requires long { length rows.now ≡ HOST_CELLS }
    requires tops { tops.now ≡ tops_in rows.now }
    ensures joined { IsSome result ↔ (WaitOnce rows.now × AreFresh rows.now) }
    ensures value { IfSome result (λ open_jobs. open_jobs ≡ opens_in rows.now) }
{
    let mut open_jobs = [None; 8];
    for cell in 0..HOST_CELLS {
        if let Some(row) = rows.get(cell) {
            if !keep_open(&mut open_jobs, row, tops) {
                return None;
            }
        }
    }
    Some(open_jobs)
}

impl Kept {
    /// What is kept of these rows. Each row is sound and in its own cell. None if and only if they do not agree: one of the
    /// last 1,024 jobs is missing, two jobs of a device wait for a mark, or one waits for a piece that is not above the
    /// device's top.
    pub fn of(rows: &JobRows) -> Option<Kept>
        requires placed { ArePlaced rows.now }
        ensures joined { IsSome result ↔ AreJoined rows.now }
        ensures kept { IfSome result (IsDerived rows.now) }
    {
        let last = last_of(rows);
        if !are_gapless(rows, last) {
            return None;
        }
        let tops = tops_of(rows);
        let open_jobs = open_jobs_of(rows, &tops)?;
        Some(Kept {
            last,
            open_jobs,
            tops,
        })
    }
}
