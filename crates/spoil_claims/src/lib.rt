//! Claims for spoiled pieces: a claim is credited by using up its piece at the verifier, so that a piece is mail or credited, never both.
#![tactic(auto)]

mod answer;
mod boot;
mod claim;
mod courses;
mod desk;
pub mod laws;
mod lines;
mod own;
mod payload;
mod run;

pub use answer::Answer;
pub use claim::{CLAIM_BYTES, CLAIM_CELLS, ClaimLine, ClaimRow};
pub use desk::Desk;
pub use payload::ClaimRows;
pub use run::{run_claims, run_fresh_claims};
