//! A folder that is held, so that no meter writes its storages meanwhile.
use crate::faults::{Fault, or_memory};
use crate::files::unusable;
use audit_words::shown_text;
use std::fs::File;

/// A folder under its lock.
#[derive(Drop)]
pub struct HeldFolder {
    pub name: String,
    /// The folder, opened: it is locked until this is let go.
    lock: File,
}

/// Opens the folder and takes its lock, as a meter does that runs in it. The fault says if another program has it.
pub fn hold(rt: &HostRuntime, name: String) -> Result<HeldFolder, Fault> {
    let Ok(lock) = File::open(rt, name.as_str()) else {
        return Err(unusable(rt, name.as_str()));
    };
    let is_folder = match lock.metadata() {
        Ok(found) => found.is_dir(),
        Err(_) => false,
    };
    if !is_folder {
        return Err(unusable(rt, name.as_str()));
    }
    if lock.try_lock().is_err() {
        return Err(Fault::InUse(or_memory(shown_text(rt.alloc(), name.as_str()))?));
    }
    Ok(HeldFolder { name, lock })
}
