//! Departments: each has a quota, and only jobs that a department has taken are printed.
#![tactic(auto)]

mod answer;
mod boot;
mod courses;
mod desk;
mod heard;
mod index;
mod kept;
pub mod laws;
mod lines;
mod own;
mod payload;
mod row;
mod run;

pub use answer::Answer;
pub use desk::Departments;
pub use heard::Heard;
pub use payload::DepartmentRows;
pub use row::{CELLS, DEPARTMENT_BYTES, DEPARTMENTS, DepartmentLine, DepartmentRow, JOBS};
pub use run::{run_departments, run_fresh_departments};
