//! What an audit has after a run, as far as later runs can show it.
ghost use Rattle.trace_bench.specs.Seeing.{IsReady, audit_of};

use crate::desks::Desks;
use crate::storage_files::node_at;
use sha2::{Digest, Sha256};
use std::alloc::{AllocError, Global};
use trace_bench::Auditor;
use trace_extensions::{AuditedClaims, AuditedDepartments, DEPARTMENTS, DepartmentRow, JOBS};

/// The numbers of claims are below this one.
const CLAIMS: u32 = 1_025;

// Adds how many commits of each node count, and whether one is in doubt.
fn put_nodes(hasher: &mut Sha256, auditor: &Auditor)
    requires ready { IsReady (audit_of auditor.now) }
{
    for number in 1..12 {
        let node = node_at(number);
        hasher.update(&auditor.commits_of(&node).to_be_bytes());
        hasher.update(&[u8::from(auditor.is_open(&node))]);
    }
}

// Adds the claims, whose numbers have no gap.
fn put_claims(hasher: &mut Sha256, claims: &AuditedClaims) {
    for number in 1..CLAIMS {
        let Some(row) = claims.claim(number) else {
            return;
        };
        hasher.update(b"c");
        hasher.update(&row.customer.get().to_be_bytes());
        hasher.update(&[u8::from(row.credited)]);
        hasher.update(&row.mark);
    }
}

// Adds the quotas and the jobs of departments, with the cells that keep them.
fn put_departments(hasher: &mut Sha256, departments: &AuditedDepartments) {
    for cell in 0..DEPARTMENTS * (JOBS + 1) {
        let Some(row) = departments.row(cell) else {
            continue;
        };
        let (quota, job, postage) = match row {
            DepartmentRow::Quota(quota) => (quota, 0, 0),
            DepartmentRow::Job(job, postage) => (0, job, postage),
        };
        hasher.update(b"d");
        hasher.update(&cell.to_be_bytes());
        hasher.update(&quota.to_be_bytes());
        hasher.update(&job.to_be_bytes());
        hasher.update(&postage.to_be_bytes());
    }
}

/// A digest of what auditor and desks have after the run of this place: of the commits of each node, the claims and the departments. If it is the same after
/// the same reports, later runs are judged alike. AllocError is lack of memory.
pub fn state_of(
    alloc: Global,
    place: usize,
    auditor: &Auditor,
    desks: &Desks,
) -> Result<Vec<u8>, AllocError>
    requires ready { IsReady (audit_of auditor.now) }
{
    let mut hasher = Sha256::new();
    hasher.update(&(place as u64).to_be_bytes());
    put_nodes(&mut hasher, auditor);
    if let Some(claims) = &desks.claims {
        put_claims(&mut hasher, claims);
    }
    if let Some(departments) = &desks.departments {
        put_departments(&mut hasher, departments);
    }
    Vec::from_slice(alloc, &hasher.finalize())
}
