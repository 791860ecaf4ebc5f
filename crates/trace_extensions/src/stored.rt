//! Claims and departments out of the bytes of their storages, and compared with those of an audit.
ghost use Rattle.std.specs.Prelude.{◌≡◌, ◌≢◌, ◌↔◌, ◌<◌, ◌≤◌, ℕ, IfNone, IfOk, IfSome, IsTrue};
ghost use Rattle.host_departments.specs.Payload.{decoded as row_decoded};
ghost use Rattle.host_departments.specs.View.{rows_of as departments_of};
ghost use Rattle.host_departments.specs.declared.row.TheConstants.{CELLS};
ghost use Rattle.row_node.specs.Shows.{ShowsRows};
ghost use Rattle.row_store.specs.Seen.{ReadsAs};
ghost use Rattle.spoil_claims.specs.Payload.{decoded as claim_decoded};
ghost use Rattle.spoil_claims.specs.View.{rows_of as claims_of};
ghost use Rattle.spoil_claims.specs.declared.claim.TheConstants.{CLAIM_CELLS};
ghost use Rattle.trace_extensions.specs.Kept.{claim_by, row_by};

use crate::words::{AuditedClaims, AuditedDepartments, store_of};
use bench_base::refusals::BootFail;
use host_departments::{CELLS, DEPARTMENT_BYTES, DepartmentRow, Departments};
use nv_store::Room;
use spoil_claims::{CLAIM_BYTES, CLAIM_CELLS, ClaimRow, Desk};
use std::alloc::Global;

/// Why the bytes of a storage give no claims or departments.
#[derive(Clone, Copy, Debug, PartialEq, Eq)]
pub enum StoredFault {
    /// They are no storage that a run leaves.
    Damaged,
    /// There was no memory.
    Memory,
}

// Why nothing starts over bytes in memory: no call of that storage fails.
fn fault_of(fail: BootFail) -> StoredFault {
    match fail {
        BootFail::Damaged => StoredFault::Damaged,
        BootFail::Power | BootFail::Fault => StoredFault::Memory,
    }
}

/// The claims that a storage with these bytes shows. It is damaged if it has not 159,744 bytes, or as `Desk::boot` says.
pub fn claims_over(alloc: Global, bytes: Vec<u8>) -> Result<AuditedClaims, StoredFault>
    ensures shows { IfOk result (λ desk. ShowsRows 73 CLAIM_CELLS (ReadsAs claim_decoded) (claims_of desk) bytes.items) }
{
    if bytes.len() != CLAIM_BYTES as usize {
        return Err(StoredFault::Damaged);
    }
    let Some(nv) = store_of(alloc, bytes) else {
        return Err(StoredFault::Memory);
    };
    let Ok(room) = Room::new(alloc, CLAIM_CELLS) else {
        return Err(StoredFault::Memory);
    };
    match Desk::boot(nv, room) {
        Ok(desk) => Ok(desk),
        Err((_, _, fail)) => Err(fault_of(fail)),
    }
}

/// The departments that a storage with these bytes shows. It is damaged if it has not 35,360 bytes, or as `Departments::boot` says.
pub fn departments_over(alloc: Global, bytes: Vec<u8>) -> Result<AuditedDepartments, StoredFault>
    ensures shows { IfOk result (λ desk. ShowsRows 12 CELLS (ReadsAs row_decoded) (departments_of desk) bytes.items) }
{
    if bytes.len() != DEPARTMENT_BYTES as usize {
        return Err(StoredFault::Damaged);
    }
    let Some(nv) = store_of(alloc, bytes) else {
        return Err(StoredFault::Memory);
    };
    let Ok(room) = Room::new(alloc, CELLS) else {
        return Err(StoredFault::Memory);
    };
    match Departments::boot(nv, room) {
        Ok(departments) => Ok(departments),
        Err((_, _, fail)) => Err(fault_of(fail)),
    }
}

/// A claim that is kept otherwise than it is due, or not at all.
#[derive(Clone, Copy)]
pub struct ClaimDiffers {
    /// Its number, from 1.
    pub number: u32,
    pub due: Option<ClaimRow>,
    pub found: Option<ClaimRow>,
}

// Whether these are the same claim, or none.
fn is_same_claim(due: &Option<ClaimRow>, found: &Option<ClaimRow>) -> bool
    ensures { IsTrue result ↔ (due.now ≡ found.now) }
{
    match (due, found) {
        (Some(due), Some(found)) => {
            due.claim == found.claim
                && due.customer == found.customer
                && due.credited == found.credited
                && due.mark.as_slice() == found.mark.as_slice()
        }
        (None, None) => true,
        (Some(_), None) | (None, Some(_)) => false,
    }
}

// What is kept of a claim: nothing, without claims.
fn claim_of(claims: &Option<AuditedClaims>, number: u32) -> Option<ClaimRow>
    requires first { 1 ≤ number }
    ensures { result ≡ claim_by claims.now number }
{
    match claims {
        Some(claims) => claims.claim(number),
        None => None,
    }
}

/// The first claim that is not kept as it is due. None keeps no claim.
pub fn claims_differ(
    due: &Option<AuditedClaims>,
    found: &Option<AuditedClaims>,
) -> Option<ClaimDiffers>
    ensures same { IfNone result ((c : ℕ) → 1 ≤ c → c ≤ CLAIM_CELLS → claim_by due.now c ≡ claim_by found.now c) }
    ensures differs { IfSome result (λ d. d.due ≢ d.found) }
    ensures due { IfSome result (λ d. d.due ≡ claim_by due.now d.number) }
    ensures found { IfSome result (λ d. d.found ≡ claim_by found.now d.number) }
{
    for number in 1..CLAIM_CELLS + 1 {
        let (due, found) = (claim_of(due, number), claim_of(found, number));
        if !is_same_claim(&due, &found) {
            return Some(ClaimDiffers { number, due, found });
        }
    }
    None
}

/// A cell that keeps another quota or job than it is due to keep, or none.
#[derive(Clone, Copy)]
pub struct RowDiffers {
    /// Its number, from 0.
    pub cell: u32,
    pub due: Option<DepartmentRow>,
    pub found: Option<DepartmentRow>,
}

// Whether these are the same quota, the same job, or nothing.
fn is_same_row(due: &Option<DepartmentRow>, found: &Option<DepartmentRow>) -> bool
    ensures { IsTrue result ↔ (due.now ≡ found.now) }
{
    match (due, found) {
        (Some(DepartmentRow::Quota(due)), Some(DepartmentRow::Quota(found))) => due == found,
        (Some(DepartmentRow::Job(due, postage)), Some(DepartmentRow::Job(found, paid))) => {
            due == found && postage == paid
        }
        (None, None) => true,
        _ => false,
    }
}

// What a cell keeps: nothing, without departments.
fn row_of(departments: &Option<AuditedDepartments>, cell: u32) -> Option<DepartmentRow>
    ensures { result ≡ row_by departments.now cell }
{
    match departments {
        Some(departments) => departments.row(cell),
        None => None,
    }
}

/// The first cell that does not keep what it is due to keep. None keeps no quota and no job. Cells of quotas are the first 16.
pub fn departments_differ(
    due: &Option<AuditedDepartments>,
    found: &Option<AuditedDepartments>,
) -> Option<RowDiffers>
    ensures same { IfNone result ((k : ℕ) → k < CELLS → row_by due.now k ≡ row_by found.now k) }
    ensures differs { IfSome result (λ d. d.due ≢ d.found) }
    ensures due { IfSome result (λ d. d.due ≡ row_by due.now d.cell) }
    ensures found { IfSome result (λ d. d.found ≡ row_by found.now d.cell) }
{
    for cell in 0..CELLS {
        let (due, found) = (row_of(due, cell), row_of(found, cell));
        if !is_same_row(&due, &found) {
            return Some(RowDiffers { cell, due, found });
        }
    }
    None
}
