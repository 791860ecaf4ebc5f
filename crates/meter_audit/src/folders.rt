//! The runs in a folder.
use crate::faults::{Fault, or_memory};
use crate::files::unusable;
use audit_words::shown_text;
use std::fs;

/// The ending of the file that makes a run.
const SCRIPT: &str = ".script";

// The folder's name with a slash after it.
fn with_slash(rt: &HostRuntime, folder: &str) -> Result<String, Fault> {
    let mut prefix = or_memory(String::from_str(rt.alloc(), folder))?;
    if !folder.ends_with('/') {
        or_memory(prefix.push('/'))?;
    }
    Ok(prefix)
}

// Adds the run of this file, if it is the script of one.
fn add_run(
    rt: &HostRuntime,
    prefix: &str,
    file: &str,
    names: &mut Vec<String>,
) -> Result<(), Fault> {
    let Some(run) = file.strip_suffix(SCRIPT) else {
        return Ok(());
    };
    if run.is_empty() {
        return Ok(());
    }
    let mut name = or_memory(String::from_str(rt.alloc(), prefix))?;
    or_memory(name.push_str(run))?;
    or_memory(names.push(name))
}

// The runs in the folder, in the order of the folder.
fn listed(rt: &HostRuntime, folder: &str) -> Result<Vec<String>, Fault> {
    let prefix = with_slash(rt, folder)?;
    let mut names = Vec::new(rt.alloc());
    let Ok(entries) = fs::read_dir(rt, folder) else {
        return Err(unusable(rt, folder));
    };
    for entry in entries {
        let Ok(entry) = entry else {
            return Err(unusable(rt, folder));
        };
        add_run(rt, prefix.as_str(), entry.file_name(), &mut names)?;
    }
    Ok(names)
}

/// The runs in the folder, in the order of the bytes of their names. The fault says if there is no run.
pub fn runs_in(rt: &HostRuntime, folder: &str) -> Result<Vec<String>, Fault> {
    let mut names = listed(rt, folder)?;
    or_memory(names.sort())?;
    if names.is_empty() {
        return Err(Fault::Folder(or_memory(shown_text(rt.alloc(), folder))?));
    }
    Ok(names)
}
