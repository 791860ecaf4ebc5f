//! The files of the storages, in the current folder.
ghost use Rattle.std.specs.Prelude.{◌≡◌, length};

use bench::Stores;
use bench_base::sizes::{CENTRE_BYTES, DEVICE_BYTES, VERIFIER_BYTES};
use host_departments::DEPARTMENT_BYTES;
use host_jobs::HOST_BYTES;
use nv_file::{CLEAN, FileNv, PART, StoreFile};
use program_calls::OpenFault;
use spoil_claims::CLAIM_BYTES;
use std::fs;
use std::fs::Metadata;
use std::os::unix::fs::MetadataExt;

/// How many of the storages are those of a bench.
pub const BENCH_STORES: usize = 11;

/// The storage of the claims.
pub const CLAIMS: StoreFile = StoreFile {
    name: "claims.nv",
    bytes: CLAIM_BYTES,
};

/// The storage of the departments.
pub const DEPARTMENTS: StoreFile = StoreFile {
    name: "departments.nv",
    bytes: DEPARTMENT_BYTES,
};

/// The storages of devices 1 to 8, of the centre, of the host and of the verifier, in the order in which they are looked at. Those of the claims and
/// of the departments follow.
pub const STORES: [StoreFile; 13] = [
    StoreFile {
        name: "device-1.nv",
        bytes: DEVICE_BYTES,
    },
    StoreFile {
        name: "device-2.nv",
        bytes: DEVICE_BYTES,
    },
    StoreFile {
        name: "device-3.nv",
        bytes: DEVICE_BYTES,
    },
    StoreFile {
        name: "device-4.nv",
        bytes: DEVICE_BYTES,
    },
    StoreFile {
        name: "device-5.nv",
        bytes: DEVICE_BYTES,
    },
    StoreFile {
        name: "device-6.nv",
        bytes: DEVICE_BYTES,
    },
    StoreFile {
        name: "device-7.nv",
        bytes: DEVICE_BYTES,
    },
    StoreFile {
        name: "device-8.nv",
        bytes: DEVICE_BYTES,
    },
    StoreFile {
        name: "centre.nv",
        bytes: CENTRE_BYTES,
    },
    StoreFile {
        name: "host.nv",
        bytes: HOST_BYTES,
    },
    StoreFile {
        name: "verifier.nv",
        bytes: VERIFIER_BYTES,
    },
    CLAIMS,
    DEPARTMENTS,
];

/// The storages of a bench, and after them one of a desk's own.
pub fn with_own(own: StoreFile) -> [StoreFile; 12] {
    let mut files = [own; 12];
    files[..BENCH_STORES].copy_from_slice(&STORES[..BENCH_STORES]);
    files
}

// Whether this name is there, and names that file.
fn is_named(rt: &HostRuntime, found: &Metadata, name: &str) -> bool {
    match fs::symlink_metadata(rt, name) {
        Ok(named) => named.dev() == found.dev() && named.ino() == found.ino(),
        Err(_) => false,
    }
}

/// Whether a file is one of the storages, or one in the making, or that of a clean end, by whatever name it was found.
pub fn is_store(rt: &HostRuntime, found: &Metadata) -> Result<bool, OpenFault> {
    if is_named(rt, found, CLEAN) {
        return Ok(true);
    }
    for file in STORES {
        let Ok(part) = format!(in rt.alloc(); "{}{PART}", file.name) else {
            return Err(OpenFault::Memory);
        };
        if is_named(rt, found, file.name) || is_named(rt, found, part.as_str()) {
            return Ok(true);
        }
    }
    Ok(false)
}

/// Whether a name is one that a storage has, or one in the making, or the file of a clean end.
pub fn is_store_name(name: &str) -> bool {
    let name = name.strip_suffix(PART).unwrap_or(name);
    name == CLEAN || STORES.iter().any(|file| file.name == name)
}

/// The storages by what they are of, where they come in the order of `STORES`.
pub fn split_stores(stores: Vec<FileNv>) -> Stores<FileNv>
    requires eleven { length stores.items ≡ 11 }
    ensures eight { length result.devices.items ≡ 8 }
{
    let mut devices = stores;
    let (Some(verifier), Some(host), Some(centre)) = (devices.pop(), devices.pop(), devices.pop())
    else {
        unreachable!()
    };
    Stores {
        devices,
        centre,
        host,
        verifier,
    }
}
