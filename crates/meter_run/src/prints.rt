//! The file that the prints go to.
use crate::store_files::{is_store, is_store_name};
use bench_base::stream::IoSink;
use program_calls::OpenFault;
use std::fs::{self, File, OpenOptions};
use std::io;
use std::os::unix::fs::{MetadataExt, OpenOptionsExt};
use std::path::PathBuf;

/// The marks that the host printed, a line each. What is there stays.
const PRINTS_FILE: &str = "prints.txt";

/// The most links that the system follows.
const MOST_LINKS: u32 = 40;

// The name that a chain of links ends in. There need be no file of that name.
fn end_of_links(rt: &HostRuntime, name: &str) -> io::Result<PathBuf> {
    let mut at = PathBuf::from_str(rt.alloc(), name)?;
    for _ in 0..MOST_LINKS {
        match fs::symlink_metadata(rt, &at) {
            Ok(found) if found.is_symlink() => {}
            _ => break,
        }
        let link = fs::read_link(rt, &at)?;
        at.pop();
        at.push(&link)?;
    }
    Ok(at)
}

// Whether a name is that of a storage in the current folder.
fn is_place_of_store(rt: &HostRuntime, at: &PathBuf) -> bool {
    let folder = match at.parent() {
        Some(folder) if !folder.as_str().is_empty() => folder.as_str(),
        _ => ".",
    };
    let (Ok(folder), Ok(current)) = (fs::metadata(rt, folder), fs::metadata(rt, ".")) else {
        return false;
    };
    let is_current = folder.dev() == current.dev() && folder.ino() == current.ino();
    match at.file_name() {
        Some(name) => is_current && is_store_name(name),
        None => false,
    }
}

/// Looks whether the prints would go to a storage: to one that is there, or that this start or another would make.
pub fn look_at_prints(rt: &HostRuntime) -> Result<(), OpenFault> {
    let goes_to_store = match fs::metadata(rt, PRINTS_FILE) {
        Ok(found) => is_store(rt, &found)?,
        Err(_) => match end_of_links(rt, PRINTS_FILE) {
            Ok(at) => is_place_of_store(rt, &at),
            Err(_) => false,
        },
    };
    if goes_to_store {
        return Err(OpenFault::File(PRINTS_FILE));
    }
    Ok(())
}

/// The printer. Only the owner may read what it prints, since a line of it is postage.
pub fn open_printer(rt: &HostRuntime) -> Result<IoSink<File>, OpenFault> {
    let fault = Err(OpenFault::File(PRINTS_FILE));
    let mut options = OpenOptions::new();
    options.append(true).create(true);
    options.mode(0o600);
    let Ok(file) = options.open(rt, PRINTS_FILE) else {
        return fault;
    };
    // Somebody may have changed a link since it was looked at.
    match file.metadata() {
        Ok(found) if !is_store(rt, &found)? => Ok(IoSink::new(file)),
        _ => fault,
    }
}
