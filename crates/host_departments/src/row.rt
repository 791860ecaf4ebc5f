//! Quotas and jobs as they are kept, and how many.

/// How many departments there are, from 1.
pub const DEPARTMENTS: u32 = 16;

/// The most jobs of a department.
pub const JOBS: u32 = 64;

/// The cells: one a department for its quota, and after them those of the jobs of each.
pub const CELLS: u32 = 1040;

/// The size of their storage, in bytes: each cell has two slots of 17.
pub const DEPARTMENT_BYTES: u32 = 35_360;

/// The most postage of a job, in mills.
pub const MOST_POSTAGE: u32 = 100_000;

/// What a cell keeps.
#[derive(Clone, Copy)]
pub enum DepartmentRow {
    /// The quota of the department of the cell, in mills.
    Quota(u32),
    /// A job of the department of the cell, and its postage in mills.
    Job(u32, u32),
}

/// A line about departments.
#[derive(Clone, Copy)]
pub enum DepartmentLine {
    /// Department, and its quota in mills.
    Quota(u32, u32),
    /// Department and job.
    Assign(u32, u32),
    Spent(u32),
    /// The job that is to be printed.
    Print(u32),
}
