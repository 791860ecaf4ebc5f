//! Files that are made whole or not at all.
use std::fs::{File, Files, Metadata, OpenOptions};
use std::io::{Read, Write};
use std::os::unix::fs::{MetadataExt, OpenOptionsExt, fchown};
use std::path::Path;
use std::{fs, io};

/// What the name of a file in the making ends in.
pub const PART: &str = ".part";

/// How many bytes are copied at once.
const PIECE_BYTES: u32 = 65_536;

/// A new file with all its bytes on the disk, beside the place that it is to take.
#[derive(Drop)]
pub struct Part {
    pub file: File,
    pub size: u32,
    /// Whether no file had the name before.
    pub is_first: bool,
}

/// Writes the bytes of the file of a name, or `size` zero bytes if there is no such file, to a new file beside its place,
/// with a name that ends in `PART`. They are on the disk then; if that fails, no part is left. What was there may be bytes
/// that the system shows and the disk hasn't got, and what may be on the disk is never written over.
pub fn prepare<R: Files<File = File> + AllocGlobal>(
    rt: &R,
    path: &str,
    size: u32,
) -> io::Result<Part> {
    let found = find(rt, path)?;
    let is_first = found.is_none();
    let part = part_of(rt, path)?;
    let mut piece = vec![in rt.alloc(); 0; size.min(PIECE_BYTES) as usize]?;
    let piece = piece.as_mut_slice();
    let made = match found {
        Some(old) => copy(rt, part.as_str(), old, piece),
        None => make(rt, part.as_str(), size, piece),
    };
    match made {
        Ok((file, size)) => Ok(Part {
            file,
            size,
            is_first,
        }),
        Err(error) => {
            let _ = fs::remove_file(rt, part.as_str());
            Err(error)
        }
    }
}

/// Gives what was prepared for a name that name. It is there after a cut of power only once the folder is on the disk.
pub fn give_name<R: Files<File = File> + AllocGlobal>(rt: &R, path: &str) -> io::Result<()> {
    fs::rename(rt, part_of(rt, path)?.as_str(), path)
}

/// Removes what was prepared for a name, or what a start that was stopped left there, if it can be removed.
pub fn discard<R: Files<File = File> + AllocGlobal>(rt: &R, path: &str) {
    if let Ok(part) = part_of(rt, path) {
        let _ = fs::remove_file(rt, part.as_str());
    }
}

/// Makes sure of the names in the folder of a path.
pub fn sync_folder<R: Files<File = File>>(rt: &R, path: &str) -> io::Result<()> {
    let folder = match Path::new(path).parent() {
        Some(folder) if !folder.as_str().is_empty() => folder.as_str(),
        _ => ".",
    };
    File::open(rt, folder)?.sync_all()
}

fn part_of<R: AllocGlobal>(rt: &R, path: &str) -> io::Result<String> {
    Ok(format!(in rt.alloc(); "{path}{PART}")?)
}

fn refused() -> io::Error {
    io::Error::from(io::ErrorKind::InvalidInput)
}

/// The file of a name; None if there is no such file. A symbolic link is refused, also one that leads nowhere, and anything
/// that is not a file. A file with another name is refused too: that would keep the old bytes, and whoever starts over it
/// would have the same money again.
pub(crate) fn find<R: Files<File = File>>(rt: &R, path: &str) -> io::Result<Option<File>> {
    let named = match fs::symlink_metadata(rt, path) {
        Ok(named) => named,
        Err(error) if error.kind() == io::ErrorKind::NotFound => return Ok(None),
        Err(error) => return Err(error),
    };
    if !named.is_file() {
        return Err(refused());
    }
    let file = OpenOptions::new().read(true).write(true).open(rt, path)?;
    // Opening follows a link that took the name meanwhile.
    let opened = file.metadata()?;
    if opened.dev() != named.dev() || opened.ino() != named.ino() || opened.nlink() > 1 {
        return Err(refused());
    }
    Ok(Some(file))
}

/// A new file that others can't read. What has the name is removed before.
pub(crate) fn create<R: Files<File = File>>(rt: &R, path: &str) -> io::Result<File> {
    match fs::remove_file(rt, path) {
        Err(error) if error.kind() != io::ErrorKind::NotFound => return Err(error),
        _ => {}
    }
    let mut options = OpenOptions::new();
    options.read(true).write(true).create_new(true);
    options.mode(0o600);
    options.open(rt, path)
}

/// Writes all that a reader gives to a new file, to the disk. It has to be so many bytes.
fn fill(file: &mut File, from: &mut impl Read, len: u64, piece: &mut [u8]) -> io::Result<()> {
    let mut total: u64 = 0;
    for _ in 0..u64::MAX {
        let count = from.read(piece)?;
        if count == 0 {
            break;
        }
        file.write_all(&piece[..count])?;
        total = total.saturating_add(count as u64);
    }
    if total != len {
        return Err(refused());
    }
    file.sync_all()
}

/// A new file of zero bytes. They are written, so that the disk has room for what will be written over them.
fn make<R: Files<File = File>>(
    rt: &R,
    path: &str,
    size: u32,
    piece: &mut [u8],
) -> io::Result<(File, u32)> {
    let mut file = create(rt, path)?;
    let len = u64::from(size);
    fill(&mut file, &mut io::repeat(0).take(len), len, piece)?;
    Ok((file, size))
}

/// A new file with the bytes of another, which belongs to whom that one belongs to.
fn copy<R: Files<File = File>>(
    rt: &R,
    path: &str,
    old: File,
    piece: &mut [u8],
) -> io::Result<(File, u32)> {
    let found = old.metadata()?;
    let size = u32::try_from(found.len()).map_err(|_| refused())?;
    let mut old = old;
    let mut file = create(rt, path)?;
    hand_over(&file, &found)?;
    fill(&mut file, &mut old, found.len(), piece)?;
    Ok((file, size))
}

/// Gives a new file the owner, the group and the mode of another. It is refused if its owner or group still differs.
fn hand_over(file: &File, old: &Metadata) -> io::Result<()> {
    if holders(&file.metadata()?) != holders(old) {
        fchown(file, Some(old.uid()), Some(old.gid()))?;
        // A file system without owners may answer that all went well.
        if holders(&file.metadata()?) != holders(old) {
            return Err(refused());
        }
    }
    file.set_permissions(old.permissions())
}

/// The owner and the group of a file.
fn holders(found: &Metadata) -> (u32, u32) {
    (found.uid(), found.gid())
}
