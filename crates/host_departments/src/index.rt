//! The index of jobs: places for cells by the numbers of their jobs, so that no line walks the cells. They are memory alone, made at a boot.
ghost use Rattle.std.specs.Prelude.{◌≡◌, ◌<◌, ◌≤◌, ℕ, IfSome, IfNone, IsTrue, ◌↔◌};
ghost use Rattle.nv_store.specs.RoomView.{cells_of};
ghost use Rattle.host_departments.specs.Index.{place_of, IsFound, IsIndexed, Keep};
ghost use Rattle.host_departments.specs.Kept.{AllFilled, rows_in};
ghost use Rattle.host_departments.specs.Rows.{Keeps};
ghost use Rattle.host_departments.specs.declared.row.DepartmentRow.TheVariants as row;

use crate::kept::{cell_of, job_in, row_in};
use crate::row::DepartmentRow;
use nv_store::Room;

/// How many places there are: twice as many as jobs.
const PLACES: u32 = 2048;

// The place of a job that is so many after the first of its number.
fn place_of(job: u32, step: u32) -> usize
    requires few { step < 2048 }
    ensures is { result ≡ place_of job step }
    ensures inside { result < 2048 }
{
    ((job % PLACES + step) % PLACES) as usize
}

// Whether a cell keeps this job.
fn keeps(room: &Room<12>, cells: u32, cell: u32, job: u32) -> bool
    requires all { cells ≡ cells_of room.now }
    requires filled { AllFilled room.now }
    ensures { IsTrue result ↔ Keeps (rows_in room.now) cell job }
{
    job_in(&row_in(room, cells, cell)) == Some(job)
}

/// The cell that keeps a job: no place before its own is empty.
pub(crate) fn indexed_cell(
    room: &Room<12>,
    cells: u32,
    index: &[u16; 2048],
    job: u32,
) -> Option<u32>
    requires all { cells ≡ cells_of room.now }
    requires filled { AllFilled room.now }
    requires indexed { IsIndexed index.now (rows_in room.now) }
    ensures found { IfSome result (λ k. Keeps (rows_in room.now) k job × (k < cells)) }
    ensures none { IfNone result ((k : ℕ) → Keeps (rows_in room.now) k job → ⊥) }
{
    for step in 0..PLACES {
        let place = index[place_of(job, step)];
        if place == 0 {
            return None;
        }
        let cell = u32::from(place) - 1;
        if keeps(room, cells, cell, job) {
            return Some(cell);
        }
    }
    cell_of(room, cells, job)
}

// Notes the cell of a job at its first empty place.
fn note(index: &mut [u16; 2048], job: u32, cell: u32)
    requires small { cell < 1040 }
    ensures found { IsFound index.new job cell }
    ensures keep { Keep index.old index.new }
{
    for step in 0..PLACES {
        let place = place_of(job, step);
        if index[place] == 0 {
            index[place] = (cell + 1) as u16;
            return;
        }
    }
}

/// Notes the cell of a row, where that is a job.
pub(crate) fn note_row(index: &mut [u16; 2048], cell: u32, kept: &DepartmentRow)
    requires small { cell < 1040 }
    ensures found { (j p : ℕ) → kept.now ≡ row.Job j p → IsFound index.new j cell }
    ensures keep { Keep index.old index.new }
{
    match kept {
        DepartmentRow::Job(job, _) => note(index, *job, cell),
        DepartmentRow::Quota(_) => {}
    }
}

/// The places of all jobs that are kept.
pub(crate) fn index_of(room: &Room<12>, cells: u32) -> [u16; 2048]
    requires all { cells ≡ cells_of room.now }
    requires few { cells ≤ 1040 }
    requires filled { AllFilled room.now }
    ensures indexed { IsIndexed result (rows_in room.now) }
{
    let mut index = [0; 2048];
    for cell in 0..cells {
        if let Some(job) = job_in(&row_in(room, cells, cell)) {
            note(&mut index, job, cell);
        }
    }
    index
}
