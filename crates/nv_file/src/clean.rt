//! What is remembered of a clean end, after which a start uses the storages as they are.
use crate::starting::StoreFile;
use crate::whole::{create, sync_folder};
use std::fs::{self, File, Files};
use std::io::{self, Read, Write};
use std::os::unix::fs::MetadataExt;

/// The file that remembers a clean end.
pub const CLEAN: &str = ".clean";

/// Its first line, which names its form.
const FORM: &str = "storages at a clean end, form 1";

/// The most bytes that it may have.
const MOST: u64 = 4096;

/// The line of a storage: its name, size and inode, and when its bytes and what the system keeps of it changed last.
fn line_of<R: Files<File = File> + AllocGlobal>(rt: &R, name: &str) -> io::Result<String> {
    let found = fs::symlink_metadata(rt, name)?;
    let (size, inode) = (found.size(), found.ino());
    let (written, written_nanos) = (found.mtime(), found.mtime_nsec());
    let (changed, changed_nanos) = (found.ctime(), found.ctime_nsec());
    Ok(format!(in rt.alloc();
        "{name} size {size} inode {inode} mtime {written} {written_nanos} ctime {changed} {changed_nanos}"
    )?)
}

/// What is remembered of the last clean end. None if there is no such file, if it can't be read, if it has more than 4,096 bytes, or if it is of another form.
pub fn recall<R: Files<File = File> + AllocGlobal>(rt: &R) -> Option<String> {
    let named = fs::symlink_metadata(rt, CLEAN).ok()?;
    if !named.is_file() || named.len() > MOST {
        return None;
    }
    let mut text = String::new(rt.alloc());
    let mut file = File::open(rt, CLEAN).ok()?.take(MOST);
    file.read_to_string(&mut text).ok()?;
    if text.lines().next() == Some(FORM) {
        Some(text)
    } else {
        None
    }
}

/// Whether each of these storages is what it was at the clean end that is remembered.
pub fn are_as_remembered<R: Files<File = File> + AllocGlobal>(
    rt: &R,
    files: &[StoreFile],
    remembered: &str,
) -> bool {
    files.iter().all(|file| match line_of(rt, file.name) {
        Ok(wanted) => remembered.lines().any(|line| line == wanted.as_str()),
        Err(_) => false,
    })
}

/// Forgets the clean end. This is on the disk before a storage is written.
pub fn forget<R: Files<File = File>>(rt: &R) -> io::Result<()> {
    fs::remove_file(rt, CLEAN)?;
    sync_folder(rt, CLEAN)
}

// Adds a line to the text.
fn add_line(text: &mut String, line: &str) -> io::Result<()> {
    text.push_str(line)?;
    text.push_str("\n")?;
    Ok(())
}

// Whether the line is of one of these storages.
fn is_of(line: &str, files: &[StoreFile]) -> bool {
    let name = line.split(' ').next();
    files.iter().any(|file| name == Some(file.name))
}

// Adds the lines of these storages.
fn add_storages<R: Files<File = File> + AllocGlobal>(
    rt: &R,
    text: &mut String,
    files: &[StoreFile],
) -> io::Result<()> {
    for file in files {
        add_line(text, line_of(rt, file.name)?.as_str())?;
    }
    Ok(())
}

// Adds what was remembered of other storages than these.
fn add_others(text: &mut String, files: &[StoreFile], before: &str) -> io::Result<()> {
    for line in before.lines().skip(1) {
        if !is_of(line, files) {
            add_line(text, line)?;
        }
    }
    Ok(())
}

// Writes the text, so that it is on the disk.
fn write_clean<R: Files<File = File>>(rt: &R, text: &str) -> io::Result<()> {
    let mut file = create(rt, CLEAN)?;
    file.write_all(text.as_bytes())?;
    file.sync_all()?;
    sync_folder(rt, CLEAN)
}

/// Remembers that these storages are on the disk as they are, and what was remembered of others. If that fails a later start writes the storages again.
pub fn remember<R: Files<File = File> + AllocGlobal>(
    rt: &R,
    files: &[StoreFile],
    before: &str,
) -> io::Result<()> {
    let mut text = String::new(rt.alloc());
    add_line(&mut text, FORM)?;
    add_storages(rt, &mut text, files)?;
    add_others(&mut text, files, before)?;
    write_clean(rt, text.as_str())
}
