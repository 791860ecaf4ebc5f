//! A folder whose storages show what an auditor has: a bench can be made of it.
#![tactic(auto)]

mod folder;

pub use folder::{blank_folder, folder_stands};
