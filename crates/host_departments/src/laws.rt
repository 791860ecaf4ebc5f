//! Laws of the definitions: each is the contract of a call that does nothing.
ghost use Rattle.std.specs.Prelude.{◌≡◌, ℕ, List, None, length, replicate};
ghost use Rattle.bench_base.specs.Ledger.{Ledger};
ghost use Rattle.node_acts.specs.RowList.{row_at};
ghost use Rattle.row_store.specs.Seen.{ReadsAs};
ghost use Rattle.row_node.specs.Shows.{ShowsRows};
ghost use Rattle.host_departments.specs.Holds.{AreBacked};
ghost use Rattle.host_departments.specs.Isolation.{AreIsolated};
ghost use Rattle.host_departments.specs.Payload.{decoded};
ghost use Rattle.host_departments.specs.Rows.{Agree, Rows, row_in};
ghost use Rattle.host_departments.specs.View.{rows_of};
ghost use Rattle.host_departments.specs.declared.desk.Departments.{Departments as TheDepartments};
ghost use Rattle.host_departments.specs.declared.row.TheConstants.{CELLS};

use nv_model::Nv;

/// A department does not see the others' quotas and postage. Each line of it has the same answer if the same was committed of it, the
/// same jobs are others', and the messages were answered by the same texts with the same postage.
pub fn isolated()
    ensures law { AreIsolated }
{}

/// What a run with departments needs of earlier runs holds before the first one: if no quota and no job is kept, jobs are backed by any ledger.
pub fn first_jobs_are_backed()
    ensures first { (rows : Rows) (H : Ledger) → ((k : ℕ) → row_in rows k ≡ None) → AreBacked rows H }
{}

/// An image shows one list of 1,040 quotas and jobs: so a boot after a run finds those that its storage shows, without the commit that failed or with it.
pub fn one_list_is_shown()
    ensures { (a b : Rows) (image : List ℕ) → length a ≡ CELLS → length b ≡ CELLS
        → ShowsRows 12 CELLS (ReadsAs decoded) a image → ShowsRows 12 CELLS (ReadsAs decoded) b image
        → a ≡ b }
{}

/// Blank storage shows the empty list. Zeros, however many, show cells without quotas and jobs (`shows`); and no list of 1,040
/// cells that they show has one (`none`).
pub fn blank_shows_no_rows()
    ensures shows { (rows : Rows) (bytes : ℕ) → ((k : ℕ) → row_at rows k ≡ None)
        → ShowsRows 12 CELLS (ReadsAs decoded) rows (replicate bytes 0) }
    ensures none { (rows : Rows) (bytes : ℕ) → length rows ≡ CELLS
        → ShowsRows 12 CELLS (ReadsAs decoded) rows (replicate bytes 0) → (k : ℕ) → row_in rows k ≡ None }
{}

/// What departments keep agrees, whatever was committed: 1,040 cells, the jobs of each department in order behind the quotas and within its quota, and each
/// job in one cell. So does a list in which nothing is kept (`none`).
pub fn kept_agrees<N: Nv>()
    ensures kept { (desk : TheDepartments N N.Nv) → Agree (rows_of desk) }
    ensures none { (rows : Rows) → length rows ≡ CELLS → ((k : ℕ) → row_in rows k ≡ None) → Agree rows }
{}
