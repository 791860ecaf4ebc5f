//! What is done for a line about departments: before its message, and after it.
ghost use Rattle.std.specs.Prelude.{◌≡◌, ◌≤◌, ◌<◌, ℕ, ◌+◌, ◌-◌, Some, None, IfSome, IfNone, IsSome};
ghost use Rattle.bench_base.specs.Ranges.{IsPostage, IsWord};
ghost use Rattle.line_extensions.specs.Wants.{MayAsk, IsStep};
ghost use Rattle.node_acts.specs.RowList.{put};
ghost use Rattle.host_departments.specs.Courses.{Says, Tries, Assigns, Free, Begins, Hears, Sent, TakesBy};
ghost use Rattle.host_departments.specs.DepartmentLines.{IsLine};
ghost use Rattle.host_departments.specs.Payload.{IsFit};
ghost use Rattle.host_departments.specs.Rows.{quota, row_in, spent, IsDepartment, Has, IsAssigned, Keeps, IsSound};
ghost use Rattle.host_departments.specs.View.{rows_of};
ghost use Rattle.host_departments.specs.Waits.{IsWaiting, MayTake};
ghost use Rattle.host_departments.specs.declared.row.TheConstants.{CELLS};
ghost use Rattle.host_departments.specs.declared.row.DepartmentLine.TheVariants as line;

use crate::answer::Answer;
use crate::desk::Departments;
use crate::heard::{Heard, postage_taken};
use crate::index::{indexed_cell, note_row};
use crate::kept::{first_cell, jobs, quota, row_in, spent};
use crate::payload::{DepartmentRows, department_of};
use crate::row::{CELLS, DepartmentLine, DepartmentRow, JOBS};
use bench_base::events::Event;
use bench_base::refusals::StoreFail;
use line_extensions::Next;
use nv_model::Nv;
use row_store::commit_row;

impl<N: Nv> Departments<N> {
    /// What this cell keeps, of 0 to 1,039; nothing after these.
    pub fn row(&self, cell: u32) -> Option<DepartmentRow>
        ensures { result ≡ row_in (rows_of self.now) cell }
    {
        row_in(&self.room, CELLS, cell)
    }

    // The quota of a department, in mills, if one was set.
    fn quota(&self, department: u32) -> Option<u32>
        requires is { IsDepartment department }
        ensures { result ≡ quota (rows_of self.now) department }
    {
        quota(&self.room, CELLS, department)
    }

    // What a department has spent, in mills.
    fn spent(&self, department: u32) -> u64
        requires is { IsDepartment department }
        ensures { result ≡ spent (rows_of self.now) department }
    {
        spent(&self.room, CELLS, department)
    }

    /// The department that has a job.
    pub(crate) fn department(&self, job: u32) -> Option<u32>
        ensures found { IfSome result (λ d. IsDepartment d × Has (rows_of self.now) d job) }
        ensures none { IfNone result ((k : ℕ) → Keeps (rows_of self.now) k job → ⊥) }
    {
        match indexed_cell(&self.room, CELLS, &self.index, job) {
            Some(cell) => Some(department_of(cell)),
            None => None,
        }
    }

    // Answers so.
    pub(crate) fn say(&mut self, said: Answer) -> Next
        requires waits { IsWaiting (rows_of self.old) said }
        ensures says { Says said self.old result self.new }
        ensures last { IsStep result → ⊥ }
    {
        self.said = said;
        Next::Say
    }

    // Commits a row to a cell. What is meant is answered once that is done.
    fn commit(&mut self, cell: u32, row: &DepartmentRow, meant: Answer) -> Next
        requires inside { cell < CELLS }
        requires fits { IsFit cell row.now }
        requires sound { IsSound (put (rows_of self.old) cell row.now) }
        requires waits { IsWaiting (put (rows_of self.old) cell row.now) meant }
        ensures tries { Tries cell row.now meant self.old result self.new }
        ensures last { IsStep result → ⊥ }
    {
        if self.failed {
            self.said = Answer::Nothing;
            return Next::Stop;
        }
        note_row(&mut self.index, cell, row);
        match commit_row::<DepartmentRows, N, 12>(&mut self.nv, &mut self.room, cell, row) {
            Ok(()) => {
                self.said = meant;
                Next::Say
            }
            Err(StoreFail::Worn) => {
                self.said = Answer::Worn;
                Next::Say
            }
            Err(_) => {
                self.failed = true;
                self.said = Answer::Nothing;
                Next::Stop
            }
        }
    }

    // Sets the quota of a department, unless it has spent more.
    fn set_quota(&mut self, department: u32, quota: u32) -> Next
        requires is { IsDepartment department }
        ensures begins { Begins self.old (line.Quota department quota) result self.new }
        ensures last { IsStep result → ⊥ }
    {
        let spent = self.spent(department);
        if u64::from(quota) < spent {
            return self.say(Answer::Below(spent));
        }
        let row = DepartmentRow::Quota(quota);
        self.commit(department - 1, &row, Answer::Quota(department, quota))
    }

    // Asks for the message of a job that no department has, where there is room for it.
    fn send(&mut self, department: u32, job: u32) -> Next
        requires is { IsDepartment department }
        requires word { IsWord job }
        requires limit { IsSome (quota (rows_of self.old) department) }
        requires free { (k : ℕ) → Keeps (rows_of self.old) k job → ⊥ }
        ensures free { Free department job self.old result self.new }
        ensures may { MayAsk result 0 }
    {
        if jobs(&self.room, CELLS, department) == JOBS {
            return self.say(Answer::Full);
        }
        self.said = Answer::Sending(department, job);
        Next::Step(Event::Send(job))
    }

    // A job for a department that has a quota.
    fn assign(&mut self, department: u32, job: u32) -> Next
        requires is { IsDepartment department }
        requires word { IsWord job }
        requires limit { IsSome (quota (rows_of self.old) department) }
        ensures assigns { Assigns department job self.old result self.new }
        ensures may { MayAsk result 0 }
    {
        match self.department(job) {
            None => self.send(department, job),
            Some(owner) => {
                if owner == department {
                    return self.say(Answer::Again(job, department));
                }
                self.say(Answer::Taken(job))
            }
        }
    }

    // A job for a department.
    fn begin_assign(&mut self, department: u32, job: u32) -> Next
        requires is { IsDepartment department }
        requires word { IsWord job }
        ensures begins { Begins self.old (line.Assign department job) result self.new }
        ensures may { MayAsk result 0 }
    {
        match self.quota(department) {
            Some(_) => self.assign(department, job),
            None => self.say(Answer::Unknown(department)),
        }
    }

    fn begin_spent(&mut self, department: u32) -> Next
        requires is { IsDepartment department }
        ensures begins { Begins self.old (line.Spent department) result self.new }
        ensures last { IsStep result → ⊥ }
    {
        match self.quota(department) {
            Some(quota) => {
                let spent = self.spent(department);
                self.say(Answer::Spent(department, spent, quota))
            }
            None => self.say(Answer::Unknown(department)),
        }
    }

    /// What a line of its own begins with. A `print` is one where no department has its job.
    pub(crate) fn begin_own(&mut self, own: &DepartmentLine) -> Next
        requires line { IsLine own.now }
        requires print { (j : ℕ) → own.now ≡ line.Print j → IsAssigned (rows_of self.old) j → ⊥ }
        ensures begins { IsLine own.now × Begins self.old own.now result self.new }
        ensures may { MayAsk result 0 }
    {
        match own {
            DepartmentLine::Quota(department, quota) => self.set_quota(*department, *quota),
            DepartmentLine::Assign(department, job) => self.begin_assign(*department, *job),
            DepartmentLine::Spent(department) => self.begin_spent(*department),
            DepartmentLine::Print(job) => self.say(Answer::Unassigned(*job)),
        }
    }

    // Commits a job after those that its department has, if the postage is within what is left.
    fn take(&mut self, department: u32, job: u32, postage: u32, left: u64) -> Next
        requires may { MayTake (rows_of self.old) department job }
        requires counted { 1 ≤ job }
        requires in_range { IsPostage postage }
        requires left { IfSome (quota (rows_of self.old) department)
            (λ q. left + spent (rows_of self.old) department ≡ q) }
        ensures takes { TakesBy department job postage left self.old result self.new }
        ensures last { IsStep result → ⊥ }
    {
        if left < u64::from(postage) {
            return self.say(Answer::OverQuota(left));
        }
        let cell = first_cell(department) + jobs(&self.room, CELLS, department);
        let row = DepartmentRow::Job(job, postage);
        let meant = Answer::Assigned(job, department, left - u64::from(postage));
        self.commit(cell, &row, meant)
    }

    // After the message of a job with this postage.
    fn sent(&mut self, department: u32, job: u32, postage: u32) -> Next
        requires may { MayTake (rows_of self.old) department job }
        requires counted { 1 ≤ job }
        requires in_range { IsPostage postage }
        ensures sent { Sent department job postage self.old result self.new }
        ensures last { IsStep result → ⊥ }
    {
        let Some(quota) = self.quota(department) else {
            unreachable!()
        };
        let left = u64::from(quota) - self.spent(department);
        self.take(department, job, postage, left)
    }

    /// After the step that was asked for.
    pub(crate) fn hears(&mut self, department: u32, job: u32, told: &Heard) -> Next
        requires may { MayTake (rows_of self.old) department job }
        ensures hears { Hears department job told.now.reply told.now.sent self.old result self.new }
        ensures last { IsStep result → ⊥ }
    {
        match postage_taken(told, job) {
            Some(postage) => self.sent(department, job, postage),
            None => self.say(Answer::Sent(told.reply)),
        }
    }
}
