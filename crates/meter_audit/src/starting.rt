//! A start from the storages of a folder: the auditor's records are what they show.
ghost use Rattle.std.specs.Prelude.{◌<◌, IfOk};
ghost use Rattle.trace_bench.specs.Seeing.{IsReady, audit_of};

use crate::digest::Sum;
use crate::faults::{Fault, or_memory};
use crate::files::unusable;
use crate::held::hold;
use crate::own_storages::{Kept, OwnDigests, stored_claims, stored_departments, tell_own_digests};
use crate::runs::say_finding;
use crate::storage_files::{
    Halt, file_fault, file_fault_text, finding, no_record_text, or_halt, path_in, storage_bytes,
    storage_name,
};
use crate::storages::tell_digest;
use audit_words::{Asked, shown_text};
use bench_base::numbers::DevNo;
use bench_base::words::Node;
use sha2::{Digest, Sha256};
use std::fs;
use trace_bench::Auditor;
use trace_images::{
    CentreRecord, DeviceRecord, HostRecord, ScanRecord, centre_record, device_record, host_record,
    verifier_record,
};

/// An auditor that starts from the storages of a folder, and the digest of these.
#[derive(Drop)]
struct Start {
    auditor: Auditor,
    digest: Sum,
}

/// What starts from the storages of a folder: the auditor of the verdicts, that which goes over the runs once more, and the claims and departments.
#[derive(Drop)]
pub struct Starts {
    pub auditor: Auditor,
    pub second: Auditor,
    pub kept: Kept,
}

/// The storages of a folder, as they are read.
#[derive(Drop)]
struct Reader<'a> {
    folder: &'a str,
    hasher: Sha256,
}

// What is said of the node's storage that shows no record.
fn no_record(rt: &HostRuntime, node: &Node) -> Halt {
    match storage_name(rt.alloc(), node) {
        Ok(file) => finding(no_record_text(rt.alloc(), file.as_str())),
        Err(_) => Halt::Fault(Fault::Memory),
    }
}

// What is said of a folder whose storages are others than before.
fn changed(rt: &HostRuntime, folder: &str) -> Halt {
    match shown_text(rt.alloc(), folder) {
        Ok(shown) => Halt::Fault(Fault::Changed(shown)),
        Err(_) => Halt::Fault(Fault::Memory),
    }
}

// Refuses the file of the node's storage if something is wrong with it as such.
fn want_fit(rt: &HostRuntime, file: &str, path: &str, node: &Node) -> Result<(), Halt> {
    let bytes = storage_bytes(node);
    match or_halt(file_fault(rt, path, bytes))? {
        Some(fault) => Err(finding(file_fault_text(rt.alloc(), file, bytes, fault))),
        None => Ok(()),
    }
}

impl<'a> Reader<'a> {
    // The bytes of the node's storage, which are hashed.
    fn image(&mut self, rt: &HostRuntime, node: &Node) -> Result<Vec<u8>, Halt> {
        let file = or_halt(or_memory(storage_name(rt.alloc(), node)))?;
        let path = or_halt(or_memory(path_in(rt.alloc(), self.folder, file.as_str())))?;
        want_fit(rt, file.as_str(), path.as_str(), node)?;
        let Ok(image) = fs::read(rt, path.as_str()) else {
            return Err(Halt::Fault(unusable(rt, path.as_str())));
        };
        self.hasher.update(image.as_slice());
        Ok(image)
    }

    // The record of the device in this place.
    fn device(&mut self, rt: &HostRuntime, place: u32) -> Result<DeviceRecord, Halt>
        requires few { place < 8 }
    {
        let Some(device) = DevNo::new(place + 1) else {
            unreachable!();
        };
        let node = Node::Device(device);
        let image = self.image(rt, &node)?;
        if image.len() != 3_424 {
            return Err(changed(rt, self.folder));
        }
        match device_record(device, image.as_slice()) {
            Some(record) => Ok(record),
            None => Err(no_record(rt, &node)),
        }
    }

    // The records of all devices.
    fn devices(&mut self, rt: &HostRuntime) -> Result<[DeviceRecord; 8], Halt> {
        Ok([
            self.device(rt, 0)?,
            self.device(rt, 1)?,
            self.device(rt, 2)?,
            self.device(rt, 3)?,
            self.device(rt, 4)?,
            self.device(rt, 5)?,
            self.device(rt, 6)?,
            self.device(rt, 7)?,
        ])
    }

    fn centre(&mut self, rt: &HostRuntime) -> Result<CentreRecord, Halt> {
        let image = self.image(rt, &Node::Centre)?;
        if image.len() != 28_368 {
            return Err(changed(rt, self.folder));
        }
        match centre_record(image.as_slice()) {
            Some(record) => Ok(record),
            None => Err(no_record(rt, &Node::Centre)),
        }
    }

    fn host(&mut self, rt: &HostRuntime) -> Result<HostRecord, Halt> {
        let image = self.image(rt, &Node::Host)?;
        if image.len() != 245_760 {
            return Err(changed(rt, self.folder));
        }
        match host_record(rt.alloc(), image.as_slice()) {
            Ok(Some(record)) => Ok(record),
            Ok(None) => Err(no_record(rt, &Node::Host)),
            Err(_) => Err(Halt::Fault(Fault::Memory)),
        }
    }

    fn verifier(&mut self, rt: &HostRuntime) -> Result<ScanRecord, Halt> {
        let image = self.image(rt, &Node::Verifier)?;
        if image.len() != 4_253_904 {
            return Err(changed(rt, self.folder));
        }
        match verifier_record(rt.alloc(), image.as_slice()) {
            Ok(Some(record)) => Ok(record),
            Ok(None) => Err(no_record(rt, &Node::Verifier)),
            Err(_) => Err(Halt::Fault(Fault::Memory)),
        }
    }
}

// An auditor that starts from the storages of this folder.
fn start_of(rt: &HostRuntime, folder: &str) -> Result<Start, Halt>
    ensures ready { IfOk result (λ s. IsReady (audit_of s.auditor)) }
{
    let mut reader = Reader {
        folder,
        hasher: Sha256::new(),
    };
    let devices = reader.devices(rt)?;
    let centre = reader.centre(rt)?;
    let host = reader.host(rt)?;
    let verifier = reader.verifier(rt)?;
    let Ok(auditor) = Auditor::of_records(rt.alloc(), devices, centre, host, verifier) else {
        return Err(Halt::Fault(Fault::Memory));
    };
    let digest = reader.hasher.finalize();
    Ok(Start { auditor, digest })
}

// The auditor that goes over the runs once more. It starts from the same storages, if what was due is asked for, and is never asked otherwise.
fn second_of(rt: &HostRuntime, asked: Asked, folder: &str, sum: &Sum) -> Result<Auditor, Halt>
    ensures ready { IfOk result (λ a. IsReady (audit_of a)) }
{
    if asked != Asked::Due {
        return match Auditor::new(rt.alloc(), false) {
            Ok(auditor) => Ok(auditor),
            Err(_) => Err(Halt::Fault(Fault::Memory)),
        };
    }
    let start = start_of(rt, folder)?;
    if start.digest != *sum {
        return Err(changed(rt, folder));
    }
    Ok(start.auditor)
}

/// What starts from the storages of this folder, whose digests are printed. The folder is held while they are read.
pub fn starts_of(rt: &HostRuntime, asked: Asked, folder: &str) -> Result<Starts, Halt>
    ensures ready { IfOk result (λ s. IsReady (audit_of s.auditor)) }
    ensures ready_second { IfOk result (λ s. IsReady (audit_of s.second)) }
{
    let name = or_halt(or_memory(String::from_str(rt.alloc(), folder)))?;
    let _held = or_halt(hold(rt, name))?;
    let start = start_of(rt, folder)?;
    let second = second_of(rt, asked, folder, &start.digest)?;
    let claims = stored_claims(rt, folder)?;
    let departments = stored_departments(rt, folder)?;
    let sums = OwnDigests {
        claims: claims.sum,
        departments: departments.sum,
    };
    let shown = or_halt(or_memory(shown_text(rt.alloc(), folder)))?;
    or_halt(tell_digest(rt, asked, shown.as_str(), &start.digest))?;
    or_halt(tell_own_digests(rt, asked, shown.as_str(), &sums))?;
    Ok(Starts {
        auditor: start.auditor,
        second,
        kept: Kept {
            claims: claims.kept,
            departments: departments.kept,
        },
    })
}

/// What comes of a start that is none: the exit status of a finding, which is printed, or the fault.
pub fn halted(rt: &HostRuntime, asked: Asked, halt: Halt) -> Result<u8, Fault> {
    match halt {
        Halt::Finding(text) => Ok(say_finding(rt, asked, text.as_str())),
        Halt::Fault(fault) => Err(fault),
    }
}
