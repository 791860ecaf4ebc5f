//! The audit of a run with lines of its own: an extension beside the auditor says what their answers are.
#![tactic(auto)]

mod asking;
pub mod claims_law;
mod comparing;
pub mod departments_law;
mod extension;
mod handler;
pub mod laws;
mod papers;
mod plain;
mod rates;
mod run;
mod stopping;
mod stored;
mod taking;
mod transcript;
mod words;

pub use extension::TracedExtension;
pub use host_departments::{DEPARTMENT_BYTES, DEPARTMENTS, DepartmentRow, JOBS};
pub use papers::{Papers, Reach, SideVerdict};
pub use rates::RatesLeft;
pub use run::judge_side;
pub use spoil_claims::{CLAIM_BYTES, ClaimRow};
pub use stored::{
    ClaimDiffers, RowDiffers, StoredFault, claims_differ, claims_over, departments_differ,
    departments_over,
};
pub use transcript::{OwnAnswer, Transcript};
pub use words::{
    AuditedClaims, AuditedDepartments, blank_claims, blank_departments, no_manifest, no_statement,
};
