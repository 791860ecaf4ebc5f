//! What the cells of a table keep: quotas and jobs, and whether they agree.
ghost use Rattle.std.specs.Prelude.{◌≡◌, ◌<◌, ◌≤◌, ◌+◌, ◌↔◌, ℕ, IsTrue, IsSome, IfSome, IfNone};
ghost use Rattle.nv_store.specs.RoomView.{cells_of};
ghost use Rattle.host_departments.specs.Kept.{AllFilled, rows_in};
ghost use Rattle.host_departments.specs.Rows.{row_in, job_in, quota, spent, or_zero, first_cell, postage_in, Keeps, HasJobs, IsDepartment, AreInOrder, IsSoundAt};

use crate::payload::read_row;
use crate::row::{DEPARTMENTS, DepartmentRow, JOBS};
use nv_store::{Room, get_room};

/// What a cell keeps; nothing after the last one.
pub(crate) fn row_in(room: &Room<12>, cells: u32, cell: u32) -> Option<DepartmentRow>
    requires all { cells ≡ cells_of room.now }
    requires filled { AllFilled room.now }
    ensures { result ≡ row_in (rows_in room.now) cell }
{
    if cell >= cells {
        return None;
    }
    match get_room(room, cell) {
        None => None,
        Some(payload) => read_row(cell, payload),
    }
}

// The first cell of the jobs of a department.
pub(crate) fn first_cell(department: u32) -> u32
    requires is { IsDepartment department }
    ensures is { result ≡ first_cell department }
    ensures few { result ≤ 976 }
{
    DEPARTMENTS + JOBS * (department - 1)
}

/// The quota of a department, in mills, if one was set.
pub(crate) fn quota(room: &Room<12>, cells: u32, department: u32) -> Option<u32>
    requires all { cells ≡ cells_of room.now }
    requires filled { AllFilled room.now }
    requires is { IsDepartment department }
    ensures { result ≡ quota (rows_in room.now) department }
{
    match row_in(room, cells, department - 1) {
        Some(DepartmentRow::Quota(quota)) => Some(quota),
        Some(DepartmentRow::Job(_, _)) | None => None,
    }
}

fn postage_in(row: &Option<DepartmentRow>) -> u32
    ensures { result ≡ postage_in row.now }
{
    match row {
        Some(DepartmentRow::Job(_, postage)) => *postage,
        Some(DepartmentRow::Quota(_)) | None => 0,
    }
}

pub(crate) fn job_in(row: &Option<DepartmentRow>) -> Option<u32>
    ensures { result ≡ job_in row.now }
{
    match row {
        Some(DepartmentRow::Job(job, _)) => Some(*job),
        Some(DepartmentRow::Quota(_)) | None => None,
    }
}

/// The postage of the jobs of a department, in mills.
pub(crate) fn spent(room: &Room<12>, cells: u32, department: u32) -> u64
    requires all { cells ≡ cells_of room.now }
    requires filled { AllFilled room.now }
    requires is { IsDepartment department }
    ensures { result ≡ spent (rows_in room.now) department }
{
    let first = first_cell(department);
    let mut sum = 0;
    for place in 0..JOBS {
        sum += u64::from(postage_in(&row_in(room, cells, first + place)));
    }
    sum
}

/// How many jobs a department has, in order from its first cell.
pub(crate) fn jobs(room: &Room<12>, cells: u32, department: u32) -> u32
    requires all { cells ≡ cells_of room.now }
    requires filled { AllFilled room.now }
    requires is { IsDepartment department }
    ensures { HasJobs (rows_in room.now) department result }
{
    let first = first_cell(department);
    for place in 0..JOBS {
        if row_in(room, cells, first + place).is_none() {
            return place;
        }
    }
    JOBS
}

// Whether a cell keeps something where the next one does.
fn is_before(room: &Room<12>, cells: u32, cell: u32) -> bool
    requires all { cells ≡ cells_of room.now }
    requires filled { AllFilled room.now }
    requires few { cell ≤ 1040 }
    ensures { IsTrue result ↔ (IsSome (row_in (rows_in room.now) (cell + 1)) → IsSome (row_in (rows_in room.now) cell)) }
{
    match row_in(room, cells, cell) {
        Some(_) => true,
        None => row_in(room, cells, cell + 1).is_none(),
    }
}

// Whether the jobs of a department lie in order.
fn are_in_order(room: &Room<12>, cells: u32, department: u32) -> bool
    requires all { cells ≡ cells_of room.now }
    requires filled { AllFilled room.now }
    requires is { IsDepartment department }
    ensures { IsTrue result ↔ AreInOrder (rows_in room.now) department }
{
    let first = first_cell(department);
    for place in 0..JOBS - 1 {
        if !is_before(room, cells, first + place) {
            return false;
        }
    }
    true
}

// Whether a department has spent at most its quota: nothing, where it has none.
fn is_within(room: &Room<12>, cells: u32, department: u32) -> bool
    requires all { cells ≡ cells_of room.now }
    requires filled { AllFilled room.now }
    requires is { IsDepartment department }
    ensures { IsTrue result ↔ (spent (rows_in room.now) department ≤ or_zero (quota (rows_in room.now) department)) }
{
    let sum = spent(room, cells, department);
    match quota(room, cells, department) {
        Some(quota) => sum <= u64::from(quota),
        None => sum == 0,
    }
}

fn is_sound(room: &Room<12>, cells: u32, department: u32) -> bool
    requires all { cells ≡ cells_of room.now }
    requires filled { AllFilled room.now }
    requires is { IsDepartment department }
    ensures { IsTrue result ↔ IsSoundAt (rows_in room.now) department }
{
    are_in_order(room, cells, department) && is_within(room, cells, department)
}

/// Whether each department's jobs lie in order and their postage is within its quota.
pub(crate) fn are_sound(room: &Room<12>, cells: u32) -> bool
    requires all { cells ≡ cells_of room.now }
    requires filled { AllFilled room.now }
    ensures { IsTrue result ↔ ((d : ℕ) → IsDepartment d → IsSoundAt (rows_in room.now) d) }
{
    for before in 0..DEPARTMENTS {
        if !is_sound(room, cells, before + 1) {
            return false;
        }
    }
    true
}

/// The cell that keeps a job.
pub(crate) fn cell_of(room: &Room<12>, cells: u32, job: u32) -> Option<u32>
    requires all { cells ≡ cells_of room.now }
    requires filled { AllFilled room.now }
    ensures found { IfSome result (λ k. Keeps (rows_in room.now) k job × (k < cells)) }
    ensures none { IfNone result ((k : ℕ) → Keeps (rows_in room.now) k job → ⊥) }
{
    for cell in 0..cells {
        if job_in(&row_in(room, cells, cell)) == Some(job) {
            return Some(cell);
        }
    }
    None
}

// Whether no cell after this one keeps the job.
fn is_lone(room: &Room<12>, cells: u32, cell: u32, job: u32) -> bool
    requires all { cells ≡ cells_of room.now }
    requires filled { AllFilled room.now }
    requires inside { cell < cells }
    ensures { IsTrue result ↔ ((k : ℕ) → cell < k → Keeps (rows_in room.now) k job → ⊥) }
{
    for other in cell + 1..cells {
        if job_in(&row_in(room, cells, other)) == Some(job) {
            return false;
        }
    }
    true
}

// Whether no cell after this one keeps its job.
fn keeps_alone(room: &Room<12>, cells: u32, cell: u32) -> bool
    requires all { cells ≡ cells_of room.now }
    requires filled { AllFilled room.now }
    requires inside { cell < cells }
    ensures { IsTrue result ↔ ((j k : ℕ) → cell < k → Keeps (rows_in room.now) cell j → Keeps (rows_in room.now) k j → ⊥) }
{
    match job_in(&row_in(room, cells, cell)) {
        Some(job) => is_lone(room, cells, cell, job),
        None => true,
    }
}

/// Whether each job is in one cell.
pub(crate) fn are_lone(room: &Room<12>, cells: u32) -> bool
    requires all { cells ≡ cells_of room.now }
    requires filled { AllFilled room.now }
    ensures { IsTrue result ↔ ((j k l : ℕ) → Keeps (rows_in room.now) k j → Keeps (rows_in room.now) l j → k ≡ l) }
{
    for cell in 0..cells {
        if !keeps_alone(room, cells, cell) {
            return false;
        }
    }
    true
}
