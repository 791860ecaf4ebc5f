//! What the host does in a call, decided by its rows and what is kept of them. Postage is in mills.
ghost use Rattle.std.specs.Prelude.{◌≡◌, ◌%◌, Ok, Some};
ghost use Rattle.bench_base.specs.Ranges.{IsDevice};
ghost use Rattle.indicium.specs.Marks.{read_mark};
ghost use Rattle.host_jobs.specs.Acts as act_of;
ghost use Rattle.host_jobs.specs.Rows as told;
ghost use Rattle.host_jobs.specs.Soundness.{IsDerived};

use crate::kept::{JobRows, Kept};
use crate::orders::{Shelf, hold, order};
use crate::rows::JobRow;
use crate::sizes::HOST_CELLS;
use crate::states::{refuses_close, refuses_print, refuses_send};
use bench_base::bytes::Note;
use bench_base::ledger::Commit;
use bench_base::numbers::DevNo;
use bench_base::refusals::{HostRefusal, RateRefusal, Unread};
use bench_base::words::JobState;
use indicium::{Mark, read_indicium};
use node_acts::Act;
use psd_wire::{DebitMsg, Message, read_message, write_message};

/// What a call of the host does.
pub type HostAct<A> = Act<JobRow, HostRefusal, A>;

/// The number of the new job, and its postage in mills.
#[derive(Clone, Copy)]
pub struct Ordered {
    pub job: u32,
    pub postage: u32,
}

// == order ==

fn oldest(rows: &JobRows, last: u32) -> Option<JobState>
    ensures { result ≡ told.state_in (told.row_in rows.now (last % 1024)) }
{
    match rows.get(last % HOST_CELLS) {
        Some(row) => Some(row.state),
        None => None,
    }
}

fn shelf_in(device: DevNo, rows: &JobRows, kept: &Kept) -> Shelf
    requires { IsDerived rows.now kept.now }
    ensures value { result ≡ act_of.shelf_in device rows.now }
    ensures number { IsDevice device }
{
    let place = device.get() as usize - 1;
    Shelf {
        last: kept.last,
        open_job: kept.open_jobs[place],
        top: kept.tops[place],
        oldest: oldest(rows, kept.last),
    }
}

// The piece of the device is ordered for this postage.
fn ordered_act(
    device: DevNo,
    piece: u32,
    class: u16,
    postage: u32,
    rows: &JobRows,
    kept: &Kept,
) -> HostAct<Ordered>
    requires { IsDerived rows.now kept.now }
    ensures act { result ≡ act_of.order_act device piece class (Some (Ok postage)) rows.now }
    ensures number { IsDevice device }
{
    let shelf = shelf_in(device, rows, kept);
    match order(&shelf, piece) {
        Err(refusal) => Act::Refuse(refusal),
        Ok(job) => Act::Commits(
            Commit::Ordered {
                job,
                device,
                piece,
                postage,
                class,
            },
            JobRow {
                job,
                device,
                piece,
                postage,
                class,
                state: JobState::Ordered,
                tops: kept.tops,
                indicium: None,
            },
            Ordered { job, postage },
        ),
    }
}

/// Orders a piece of the device in this class. `price` says that there are no rates, that the rates refuse, or the postage.
///
/// The first refusal that holds is returned. `NoRates` if there are no rates; `Rate` with the rates' own refusal if they refuse. Then
/// `OpenJob` if the device has a job that is ordered and neither held nor closed, and `Used` if the piece is not above all that
/// were held. Then `NumberFull` after job 4,294,967,295, and `JobsFull` if the cell of the new job holds one that isn't closed.
pub fn order_act(
    device: DevNo,
    piece: u32,
    class: u16,
    price: Option<Result<u32, RateRefusal>>,
    rows: &JobRows,
    kept: &Kept,
) -> HostAct<Ordered>
    requires { IsDerived rows.now kept.now }
    ensures { result ≡ act_of.order_act device piece class price rows.now }
{
    match price {
        None => Act::Refuse(HostRefusal::NoRates),
        Some(Err(refusal)) => Act::Refuse(HostRefusal::Rate(refusal)),
        Some(Ok(postage)) => ordered_act(device, piece, class, postage, rows, kept),
    }
}

// == a job in its cell ==

/// The message that asks the device of the job for its mark. `NoJob` where no cell holds the job; `State` where it is not
/// ordered.
pub fn debit_message_act(job: u32, rows: &JobRows) -> HostAct<Note>
    ensures { result ≡ act_of.debit_message_act job rows.now }
{
    let Some(row) = rows.job(job) else {
        return Act::Refuse(HostRefusal::NoJob);
    };
    match refuses_send(Some(row.state)) {
        Some(refusal) => Act::Refuse(refusal),
        None => Act::Tell(debit_note(row)),
    }
}

fn debit_note(row: &JobRow) -> Note
    ensures { result ≡ act_of.debit_note row.now }
{
    let (piece, postage, class) = (row.piece, row.postage, row.class);
    let debit = DebitMsg {
        device: row.device.get(),
        piece,
        postage,
        class,
    };
    write_message(&Message::Debit(debit), &[0; 32])
}

// The row in this state, with the present tops.
fn moved(row: &JobRow, state: JobState, rows: &JobRows, kept: &Kept) -> JobRow
    requires { IsDerived rows.now kept.now }
    ensures { result ≡ act_of.moved row.now state (told.tops_in rows.now) }
{
    JobRow {
        state,
        tops: kept.tops,
        ..*row
    }
}

/// Begins the print of the job, and reports its mark. `NoJob` if no cell holds the job; `State` if it is not held.
pub fn begin_print_act(job: u32, rows: &JobRows, kept: &Kept) -> HostAct<[u8; 64]>
    requires { IsDerived rows.now kept.now }
    ensures { result ≡ act_of.begin_print_act job rows.now }
{
    let Some(row) = rows.job(job) else {
        return Act::Refuse(HostRefusal::NoJob);
    };
    if let Some(refusal) = refuses_print(Some(row.state)) {
        return Act::Refuse(refusal);
    }
    match row.indicium {
        None => Act::Refuse(HostRefusal::NoJob),
        Some(mark) => Act::Commits(
            Commit::Began(row.job),
            moved(row, JobState::Begun, rows, kept),
            mark,
        ),
    }
}

/// Closes the job. `NoJob` where no cell holds it; `State` where it is closed.
pub fn close_act(job: u32, rows: &JobRows, kept: &Kept) -> HostAct<()>
    requires { IsDerived rows.now kept.now }
    ensures { result ≡ act_of.close_act job rows.now }
{
    let Some(row) = rows.job(job) else {
        return Act::Refuse(HostRefusal::NoJob);
    };
    match refuses_close(Some(row.state)) {
        Some(refusal) => Act::Refuse(refusal),
        None => Act::Commits(
            Commit::Closed(row.job),
            moved(row, JobState::Closed, rows, kept),
            (),
        ),
    }
}

// == a Release ==

// The row with the mark, and its piece among the tops.
fn held_row(row: &JobRow, mark: &[u8; 64], rows: &JobRows, kept: &Kept) -> JobRow
    requires { IsDerived rows.now kept.now }
    ensures { result ≡ act_of.held_row row.now mark.now (told.tops_in rows.now) }
{
    let place = row.device.get() as usize - 1;
    let mut tops = kept.tops;
    if tops[place] < row.piece {
        tops[place] = row.piece;
    }
    JobRow {
        state: JobState::Held,
        tops,
        indicium: Some(*mark),
        ..*row
    }
}

// The job of the device that waits for its mark. No device outside 1 to 8 has one.
fn open_job(device: u32, rows: &JobRows, kept: &Kept) -> Option<u32>
    requires { IsDerived rows.now kept.now }
    ensures { result ≡ told.open_in device rows.now }
{
    match DevNo::new(device) {
        Some(number) => kept.open_jobs[number.get() as usize - 1],
        None => None,
    }
}

fn held_act(bytes: &[u8; 64], mark: &Mark, job: u32, rows: &JobRows, kept: &Kept) -> HostAct<u32>
    requires { IsDerived rows.now kept.now }
    ensures { result ≡ act_of.held_act bytes.now mark.now (told.job_row rows.now job) (told.tops_in rows.now) }
{
    let Some(row) = rows.job(job) else {
        return Act::Refuse(HostRefusal::NoJob);
    };
    match hold(mark, row.piece, row.postage, row.class) {
        Some(refusal) => Act::Refuse(refusal),
        None => Act::Commits(
            Commit::Held {
                job: row.job,
                mark: *bytes,
            },
            held_row(row, bytes, rows, kept),
            row.job,
        ),
    }
}

fn mark_act(bytes: &[u8; 64], rows: &JobRows, kept: &Kept) -> HostAct<u32>
    requires { IsDerived rows.now kept.now }
    ensures { result ≡ act_of.mark_act bytes.now (read_mark bytes.now) (act_of.in_rows rows.now) }
{
    let Ok((mark, _)) = read_indicium(bytes) else {
        return Act::Refuse(HostRefusal::Unread(Unread::Mark));
    };
    match open_job(mark.device, rows, kept) {
        None => Act::Refuse(HostRefusal::NoJob),
        Some(job) => held_act(bytes, &mark, job, rows, kept),
    }
}

/// Takes a Release, with a mark of either version, and reports its job. The MAC of the mark is not checked.
///
/// The first refusal that holds is returned. `Unread` of `read_message`; `Unread` with `Tag` for another message; `NoJob` if the
/// mark's device has no job that is ordered. Then `OtherPiece`, `OtherPostage` and `OtherClass`, with the job's value, if the
/// mark's differs.
pub fn take_act(bytes: &[u8], rows: &JobRows, kept: &Kept) -> HostAct<u32>
    requires { IsDerived rows.now kept.now }
    ensures { result ≡ act_of.take_act bytes.now rows.now }
{
    match read_message(bytes) {
        Err(fault) => Act::Refuse(HostRefusal::Unread(fault)),
        Ok(Message::Release(mark)) => mark_act(&mark, rows, kept),
        Ok(_) => Act::Refuse(HostRefusal::Unread(Unread::Tag)),
    }
}
