//! The files of the storages of a folder.
use crate::faults::Fault;
use crate::files::unusable;
use bench_base::numbers::DevNo;
use bench_base::sizes::{CENTRE_BYTES, DEVICE_BYTES, VERIFIER_BYTES};
use bench_base::words::Node;
use host_jobs::HOST_BYTES;
use std::alloc::{AllocError, Global};
use std::{fs, io};
use trace_extensions::{CLAIM_BYTES, DEPARTMENT_BYTES};

/// How many storages a bench has.
pub const STORAGES: u32 = 11;

/// What is wrong with the file of a storage as such.
#[derive(Clone, Copy)]
pub enum FileFault {
    Missing,
    Link,
    Irregular,
    /// It has so many bytes, and not its own number.
    Size(u64),
}

/// A storage that belongs to no node.
#[derive(Clone, Copy)]
pub enum OwnStorage {
    Claims,
    Departments,
}

/// Why the storages of a folder are not used.
#[derive(Drop)]
pub enum Halt {
    /// One of them is not as it is due: what is said of it.
    Finding(String),
    Fault(Fault),
}

/// What was done, or why it can't be.
pub fn or_halt<T>(done: Result<T, Fault>) -> Result<T, Halt> {
    match done {
        Ok(done) => Ok(done),
        Err(fault) => Err(Halt::Fault(fault)),
    }
}

/// The finding with this text.
pub fn finding(text: Result<String, AllocError>) -> Halt {
    match text {
        Ok(text) => Halt::Finding(text),
        Err(_) => Halt::Fault(Fault::Memory),
    }
}

/// The node of this number, from 1: the devices, the centre, the host and the verifier.
pub fn node_at(number: u32) -> Node {
    match DevNo::new(number) {
        Some(device) => Node::Device(device),
        None => match number {
            9 => Node::Centre,
            10 => Node::Host,
            _ => Node::Verifier,
        },
    }
}

/// The name of the node's storage.
pub fn storage_name(alloc: Global, node: &Node) -> Result<String, AllocError> {
    match node {
        Node::Device(device) => {
            let number = device.get();
            format!(in alloc; "device-{number}.nv")
        }
        Node::Centre => String::from_str(alloc, "centre.nv"),
        Node::Host => String::from_str(alloc, "host.nv"),
        Node::Verifier => String::from_str(alloc, "verifier.nv"),
    }
}

/// The path of a file in the folder.
pub fn path_in(alloc: Global, folder: &str, file: &str) -> Result<String, AllocError> {
    if folder.ends_with('/') {
        format!(in alloc; "{folder}{file}")
    } else {
        format!(in alloc; "{folder}/{file}")
    }
}

/// How many bytes the storage of the node has.
pub fn storage_bytes(node: &Node) -> u64 {
    u64::from(match node {
        Node::Device(_) => DEVICE_BYTES,
        Node::Centre => CENTRE_BYTES,
        Node::Host => HOST_BYTES,
        Node::Verifier => VERIFIER_BYTES,
    })
}

/// The name of a storage that belongs to no node.
pub fn own_name(storage: OwnStorage) -> &'static str {
    match storage {
        OwnStorage::Claims => "claims.nv",
        OwnStorage::Departments => "departments.nv",
    }
}

/// How many bytes it has.
pub fn own_bytes(storage: OwnStorage) -> u64 {
    u64::from(match storage {
        OwnStorage::Claims => CLAIM_BYTES,
        OwnStorage::Departments => DEPARTMENT_BYTES,
    })
}

/// What is wrong with the file of a storage of so many bytes as such, if something is.
pub fn file_fault(rt: &HostRuntime, path: &str, bytes: u64) -> Result<Option<FileFault>, Fault> {
    match fs::symlink_metadata(rt, path) {
        Ok(found) if found.file_type().is_symlink() => Ok(Some(FileFault::Link)),
        Ok(found) if !found.is_file() => Ok(Some(FileFault::Irregular)),
        Ok(found) if found.len() != bytes => Ok(Some(FileFault::Size(found.len()))),
        Ok(_) => Ok(None),
        Err(error) if error.kind() == io::ErrorKind::NotFound => Ok(Some(FileFault::Missing)),
        Err(_) => Err(unusable(rt, path)),
    }
}

/// What is said of the file of a storage of so many bytes.
pub fn file_fault_text(
    alloc: Global,
    file: &str,
    bytes: u64,
    fault: FileFault,
) -> Result<String, AllocError> {
    match fault {
        FileFault::Missing => format!(in alloc; "{file} is missing"),
        FileFault::Link => format!(in alloc; "{file} is a link"),
        FileFault::Irregular => format!(in alloc; "{file} is no regular file"),
        FileFault::Size(found) => format!(in alloc; "{file}: due {bytes} bytes, found {found}"),
    }
}

/// What is said of a storage whose bytes no meter leaves.
pub fn no_record_text(alloc: Global, file: &str) -> Result<String, AllocError> {
    format!(in alloc; "{file} shows no record that a meter leaves")
}
