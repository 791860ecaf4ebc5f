//! Bulk manifests: a list of marks is good if and only if every piece on it is accepted.
#![tactic(auto)]

mod answer;
mod checker;
mod courses;
mod lines;
mod manifest;
mod opening;
mod own;
mod pieces;
mod run;

pub use answer::Answer;
pub use checker::Checker;
pub use manifest::Manifest;
pub use opening::{MOST_PIECES, ManifestLine, Opening};
pub use run::{run_fresh_manifest, run_manifest};
