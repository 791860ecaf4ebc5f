//! A quota or a job as the 12 bytes that are kept in storage.
ghost use Rattle.std.specs.Prelude.{◌≡◌, ◌<◌, ◌≤◌, [], ◌∷◌};
ghost use Rattle.bench_base.specs.Table.{Fit, values};
ghost use Rattle.host_departments.specs.Payload as layout;
ghost use Rattle.host_departments.specs.Payload.{cell_table, cell_bytes};
ghost use Rattle.host_departments.specs.Rows as rows;
ghost use Rattle.host_departments.specs.Rows.{department_of};

use crate::kept::{are_lone, are_sound};
use crate::row::{DEPARTMENTS, DepartmentRow, JOBS, MOST_POSTAGE};
use bench_base::fields::{put_u32, u32_at};
use nv_store::Room;
use row_store::Rows;

/// The department of the job that a cell after the quotas keeps.
pub(crate) fn department_of(cell: u32) -> u32
    requires behind { 16 ≤ cell }
    ensures { result ≡ department_of cell }
{
    (cell - DEPARTMENTS) / JOBS + 1
}

#[tactic(auto, unfolding(bench_base::specs::Table::number))]
fn numbers_in(payload: &[u8; 12]) -> [u32; 3]
    ensures { result ≡ values 0 cell_table payload.now }
{
    [u32_at(payload, 0), u32_at(payload, 4), u32_at(payload, 8)]
}

// The quota of the department of a cell that these numbers are.
#[tactic(auto, unfolding(crate::specs::Payload::quota_from))]
fn quota_from(cell: u32, numbers: &[u32; 3]) -> Option<DepartmentRow>
    requires prefix { cell < 16 }
    ensures { result ≡ layout.quota_from cell numbers.now }
{
    if numbers[0] == cell + 1 {
        if numbers[2] == 0 {
            return Some(DepartmentRow::Quota(numbers[1]));
        }
        return None;
    }
    None
}

// The job of the department of a cell that these numbers are.
#[tactic(auto, unfolding(crate::specs::Payload::job_from))]
fn job_from(cell: u32, numbers: &[u32; 3]) -> Option<DepartmentRow>
    requires behind { 16 ≤ cell }
    ensures { result ≡ layout.job_from cell numbers.now }
{
    if numbers[1] == department_of(cell) {
        if 1 <= numbers[0] && 1 <= numbers[2] && numbers[2] <= MOST_POSTAGE {
            return Some(DepartmentRow::Job(numbers[0], numbers[2]));
        }
        return None;
    }
    None
}

// The row that the payload of a cell reads as.
#[tactic(auto, unfolding(crate::specs::Payload::decoded))]
pub(crate) fn read_row(cell: u32, payload: &[u8; 12]) -> Option<DepartmentRow>
    ensures { result ≡ layout.decoded cell payload.now }
{
    let numbers = numbers_in(payload);
    if cell < DEPARTMENTS {
        quota_from(cell, &numbers)
    } else {
        job_from(cell, &numbers)
    }
}

// Three numbers in a row.
#[tactic(auto, unfolding(bench_base::specs::Table::spelled, crate::specs::Payload::cell_bytes))]
fn bytes_of(first: u32, second: u32, third: u32) -> [u8; 12]
    ensures value { result ≡ cell_bytes first second third }
    ensures fits { Fit cell_table (first ∷ second ∷ third ∷ []) }
{
    let mut bytes = [0; 12];
    put_u32(&mut bytes, 0, first);
    put_u32(&mut bytes, 4, second);
    put_u32(&mut bytes, 8, third);
    bytes
}

/// The rows of `departments.nv`.
pub struct DepartmentRows;

impl Rows<12> for DepartmentRows {
    type Row = DepartmentRow;

    ghost decoded = { layout.decoded };

    ghost spelled = { layout.spelled };

    ghost IsFit = { layout.IsFit };

    ghost IsSound = { rows.IsSound };

    fn read(cell: u32, payload: &[u8; 12]) -> Option<DepartmentRow> {
        read_row(cell, payload)
    }

    fn write(cell: u32, kept: &DepartmentRow) -> [u8; 12] {
        match kept {
            DepartmentRow::Quota(quota) => bytes_of(cell + 1, *quota, 0),
            DepartmentRow::Job(job, postage) => bytes_of(*job, department_of(cell), *postage),
        }
    }

    fn agree(room: &Room<12>, cells: u32) -> bool {
        are_sound(room, cells) && are_lone(room, cells)
    }
}
