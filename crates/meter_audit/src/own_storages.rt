//! The storages of claims and of departments, which belong to no node: read, and compared with what the runs left.
use crate::digest::{Sum, sum_text};
use crate::faults::{Fault, or_memory};
use crate::files::unusable;
use crate::runs::{say, say_finding};
use crate::storage_files::{
    FileFault, Halt, OwnStorage, file_fault, file_fault_text, finding, no_record_text, or_halt,
    own_bytes, own_name, path_in,
};
use audit_words::Asked;
use sha2::{Digest, Sha256};
use std::alloc::{AllocError, Global};
use std::fs;
use trace_extensions::{
    AuditedClaims, AuditedDepartments, ClaimDiffers, ClaimRow, DEPARTMENTS, DepartmentRow, JOBS,
    RowDiffers, StoredFault, claims_differ, claims_over, departments_differ, departments_over,
};

/// The claims and the departments that runs begin with: None of what is blank.
#[derive(Drop)]
pub struct Kept {
    pub claims: Option<AuditedClaims>,
    pub departments: Option<AuditedDepartments>,
}

impl Kept {
    /// Over blank storages.
    pub fn nothing() -> Kept {
        Kept {
            claims: None,
            departments: None,
        }
    }
}

/// What a storage of a folder shows, and the digest of its bytes: None if it is missing.
#[derive(Drop)]
pub struct Stored<D> {
    pub kept: Option<D>,
    pub sum: Option<Sum>,
}

impl<D> Stored<D> {
    // Of a storage that is missing.
    fn missing() -> Stored<D> {
        Stored {
            kept: None,
            sum: None,
        }
    }

    // Of one with this digest.
    fn found(kept: D, sum: Sum) -> Stored<D> {
        Stored {
            kept: Some(kept),
            sum: Some(sum),
        }
    }
}

/// The digests of these storages, of those that are there.
#[derive(Clone, Copy)]
pub struct OwnDigests {
    pub claims: Option<Sum>,
    pub departments: Option<Sum>,
}

// The bytes of a storage of the folder; None if it is missing.
fn bytes_of(rt: &HostRuntime, folder: &str, storage: OwnStorage) -> Result<Option<Vec<u8>>, Halt> {
    let (file, bytes) = (own_name(storage), own_bytes(storage));
    let path = or_halt(or_memory(path_in(rt.alloc(), folder, file)))?;
    match or_halt(file_fault(rt, path.as_str(), bytes))? {
        Some(FileFault::Missing) => Ok(None),
        Some(fault) => Err(finding(file_fault_text(rt.alloc(), file, bytes, fault))),
        None => match fs::read(rt, path.as_str()) {
            Ok(image) => Ok(Some(image)),
            Err(_) => Err(Halt::Fault(unusable(rt, path.as_str()))),
        },
    }
}

fn sum_of(bytes: &[u8]) -> Sum {
    let mut hasher = Sha256::new();
    hasher.update(bytes);
    hasher.finalize()
}

// Why nothing starts from a storage.
fn halt_of(rt: &HostRuntime, storage: OwnStorage, fault: StoredFault) -> Halt {
    match fault {
        StoredFault::Damaged => finding(no_record_text(rt.alloc(), own_name(storage))),
        StoredFault::Memory => Halt::Fault(Fault::Memory),
    }
}

/// The claims that the storage of the folder shows.
pub fn stored_claims(rt: &HostRuntime, folder: &str) -> Result<Stored<AuditedClaims>, Halt> {
    let Some(bytes) = bytes_of(rt, folder, OwnStorage::Claims)? else {
        return Ok(Stored::missing());
    };
    let sum = sum_of(bytes.as_slice());
    match claims_over(rt.alloc(), bytes) {
        Ok(claims) => Ok(Stored::found(claims, sum)),
        Err(fault) => Err(halt_of(rt, OwnStorage::Claims, fault)),
    }
}

/// The departments that the storage of the folder shows.
pub fn stored_departments(
    rt: &HostRuntime,
    folder: &str,
) -> Result<Stored<AuditedDepartments>, Halt> {
    let Some(bytes) = bytes_of(rt, folder, OwnStorage::Departments)? else {
        return Ok(Stored::missing());
    };
    let sum = sum_of(bytes.as_slice());
    match departments_over(rt.alloc(), bytes) {
        Ok(departments) => Ok(Stored::found(departments, sum)),
        Err(fault) => Err(halt_of(rt, OwnStorage::Departments, fault)),
    }
}

// What is kept of a claim.
fn claim_text(alloc: Global, row: &Option<ClaimRow>) -> Result<String, AllocError> {
    match row {
        Some(row) => {
            let state = if row.credited {
                "credited to"
            } else {
                "open for"
            };
            format!(in alloc; "{state} customer {}", row.customer.get())
        }
        None => String::from_str(alloc, "no claim"),
    }
}

// The line of a claim that the storage shows otherwise than it is due.
fn claim_line(alloc: Global, differs: &ClaimDiffers) -> Result<String, AllocError> {
    let number = differs.number;
    let due = claim_text(alloc, &differs.due)?;
    let found = claim_text(alloc, &differs.found)?;
    if due.as_str() == found.as_str() {
        return format!(in alloc; "claims.nv claim {number}: due {due}, found another mark");
    }
    format!(in alloc; "claims.nv claim {number}: due {due}, found {found}")
}

// What a cell keeps of a department.
fn row_text(alloc: Global, cell: u32, row: &Option<DepartmentRow>) -> Result<String, AllocError> {
    match row {
        Some(DepartmentRow::Quota(quota)) => format!(in alloc; "quota {quota}"),
        Some(DepartmentRow::Job(job, postage)) => {
            format!(in alloc; "job {job} with postage {postage}")
        }
        None if cell < DEPARTMENTS => String::from_str(alloc, "no quota"),
        None => String::from_str(alloc, "no job"),
    }
}

// The department of a cell.
fn department_of(cell: u32) -> u32 {
    if cell < DEPARTMENTS {
        cell + 1
    } else {
        (cell - DEPARTMENTS) / JOBS + 1
    }
}

// The line of a cell of departments that keeps something else than is due.
fn row_line(alloc: Global, differs: &RowDiffers) -> Result<String, AllocError> {
    let department = department_of(differs.cell);
    let due = row_text(alloc, differs.cell, &differs.due)?;
    let found = row_text(alloc, differs.cell, &differs.found)?;
    format!(in alloc; "departments.nv department {department}: due {due}, found {found}")
}

// What is said of a storage that is missing, although it is due to keep something.
fn missing(rt: &HostRuntime, storage: OwnStorage) -> Halt {
    let (file, bytes) = (own_name(storage), own_bytes(storage));
    finding(file_fault_text(rt.alloc(), file, bytes, FileFault::Missing))
}

// Compares the storage of the claims in the folder with those that are due: its digest, if it is there.
fn compare_claims(
    rt: &HostRuntime,
    folder: &str,
    due: &Option<AuditedClaims>,
) -> Result<Option<Sum>, Halt> {
    let stored = stored_claims(rt, folder)?;
    match claims_differ(due, &stored.kept) {
        None => Ok(stored.sum),
        Some(_) if stored.sum.is_none() => Err(missing(rt, OwnStorage::Claims)),
        Some(differs) => Err(finding(claim_line(rt.alloc(), &differs))),
    }
}

// Compares the storage of the departments in the folder with those that are due: its digest, if it is there.
fn compare_departments(
    rt: &HostRuntime,
    folder: &str,
    due: &Option<AuditedDepartments>,
) -> Result<Option<Sum>, Halt> {
    let stored = stored_departments(rt, folder)?;
    match departments_differ(due, &stored.kept) {
        None => Ok(stored.sum),
        Some(_) if stored.sum.is_none() => Err(missing(rt, OwnStorage::Departments)),
        Some(differs) => Err(finding(row_line(rt.alloc(), &differs))),
    }
}

/// What comes of comparing a storage.
#[derive(Clone, Copy)]
enum Compared {
    /// It shows what is due. Its digest, if it is there.
    Same(Option<Sum>),
    Other,
}

// Prints what was found of a storage, if something was.
fn tell_compared(
    rt: &HostRuntime,
    asked: Asked,
    compared: Result<Option<Sum>, Halt>,
) -> Result<Compared, Fault> {
    match compared {
        Ok(sum) => Ok(Compared::Same(sum)),
        Err(Halt::Finding(text)) => {
            say_finding(rt, asked, text.as_str());
            Ok(Compared::Other)
        }
        Err(Halt::Fault(fault)) => Err(fault),
    }
}

/// Compares the storages of claims and of departments in the folder with what the runs left, and prints what is found: their digests, or None if
/// something is.
pub fn compare_own(
    rt: &HostRuntime,
    asked: Asked,
    folder: &str,
    claims: &Option<AuditedClaims>,
    departments: &Option<AuditedDepartments>,
) -> Result<Option<OwnDigests>, Fault> {
    let claims = tell_compared(rt, asked, compare_claims(rt, folder, claims))?;
    let departments = tell_compared(rt, asked, compare_departments(rt, folder, departments))?;
    match (claims, departments) {
        (Compared::Same(claims), Compared::Same(departments)) => Ok(Some(OwnDigests {
            claims,
            departments,
        })),
        (Compared::Other, _) | (_, Compared::Other) => Ok(None),
    }
}

// Whether a storage shows what is due.
fn is_same(compared: Result<Option<Sum>, Halt>) -> Result<bool, Fault> {
    match compared {
        Ok(_) => Ok(true),
        Err(Halt::Finding(_)) => Ok(false),
        Err(Halt::Fault(fault)) => Err(fault),
    }
}

/// Whether the storages of claims and of departments in the folder show what the runs left.
pub fn are_own_as_left(
    rt: &HostRuntime,
    folder: &str,
    claims: &Option<AuditedClaims>,
    departments: &Option<AuditedDepartments>,
) -> Result<bool, Fault> {
    if !is_same(compare_claims(rt, folder, claims))? {
        return Ok(false);
    }
    is_same(compare_departments(rt, folder, departments))
}

// Prints the digest of a storage, if it is there.
fn tell_own_digest(
    rt: &HostRuntime,
    asked: Asked,
    shown: &str,
    storage: OwnStorage,
    sum: &Option<Sum>,
) -> Result<(), Fault> {
    let Some(sum) = sum else {
        return Ok(());
    };
    let digits = or_memory(sum_text(rt.alloc(), sum))?;
    let file = own_name(storage);
    let text = or_memory(format!(in rt.alloc(); "folder {shown} has {file} with digest {digits}"))?;
    say(rt, asked, text.as_str())
}

/// Prints the digests of these storages in the folder of this name, as it is shown.
pub fn tell_own_digests(
    rt: &HostRuntime,
    asked: Asked,
    shown: &str,
    sums: &OwnDigests,
) -> Result<(), Fault> {
    tell_own_digest(rt, asked, shown, OwnStorage::Claims, &sums.claims)?;
    tell_own_digest(rt, asked, shown, OwnStorage::Departments, &sums.departments)
}
