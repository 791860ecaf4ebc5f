//! What is answered to a line about departments, and its text.
ghost use Rattle.std.specs.Prelude.{◌≡◌, ◌<◌, ◌≤◌, [], ◌∷◌, length};
ghost use Rattle.host_departments.specs.Texts.{said_texts, numbered, quota_text, assigned_text, again_text, spent_text};

use bench_base::events::Reply;
use script_text::put_reply;
use script_words::Line;

/// What the last line was answered, or what is waited for.
#[derive(Clone, Copy)]
pub enum Answer {
    Nothing,
    /// The message of this job is awaited, for this department.
    Sending(u32, u32),
    /// Department and quota.
    Quota(u32, u32),
    /// What the department has spent is above the quota.
    Below(u64),
    /// Job and department, and what is left of the quota.
    Assigned(u32, u32, u64),
    /// Job and department: it had the job.
    Again(u32, u32),
    /// The department has no quota.
    Unknown(u32),
    /// Another department has the job.
    Taken(u32),
    Full,
    /// The message was refused, or there is no message: this is what the bench replied.
    Sent(Reply),
    /// What is left of the quota is below the postage.
    OverQuota(u64),
    /// Department, what it has spent, and its quota.
    Spent(u32, u64, u32),
    /// No department has the job.
    Unassigned(u32),
    Worn,
}

fn put_numbered(line: &mut Line, words: &[u8], number: u64)
    requires empty { line.old ≡ [] }
    requires few { length words.now ≤ 30 }
    ensures value { line.new ≡ numbered words.now number }
    ensures short { length line.new < 256 }
{
    line.put(words);
    line.number(number);
}

#[tactic(auto, unfolding(crate::specs::Texts::quota_text))]
fn put_quota(line: &mut Line, department: u32, quota: u32)
    requires empty { line.old ≡ [] }
    ensures value { line.new ≡ quota_text department quota }
    ensures short { length line.new < 256 }
{
    line.put(b"quota");
    line.number(department);
    line.number(quota);
}

#[tactic(auto, unfolding(crate::specs::Texts::assigned_text))]
fn put_assigned(line: &mut Line, job: u32, department: u32, left: u64)
    requires empty { line.old ≡ [] }
    ensures value { line.new ≡ assigned_text job department left }
    ensures short { length line.new < 256 }
{
    line.put(b"assigned");
    line.number(job);
    line.number(department);
    line.named(b"left", left);
}

#[tactic(auto, unfolding(crate::specs::Texts::again_text))]
fn put_again(line: &mut Line, job: u32, department: u32)
    requires empty { line.old ≡ [] }
    ensures value { line.new ≡ again_text job department }
    ensures short { length line.new < 256 }
{
    line.put(b"assigned");
    line.number(job);
    line.number(department);
    line.word(b"again");
}

#[tactic(auto, unfolding(crate::specs::Texts::spent_text))]
fn put_spent(line: &mut Line, department: u32, spent: u64, quota: u32)
    requires empty { line.old ≡ [] }
    ensures value { line.new ≡ spent_text department spent quota }
    ensures short { length line.new < 256 }
{
    line.put(b"spent");
    line.number(department);
    line.number(spent);
    line.named(b"quota", quota);
}

impl Answer {
    /// How many texts the answer has: one, or none while it waits.
    pub fn count(&self) -> u32
        ensures { result ≡ length (said_texts self.now) }
    {
        match self {
            Answer::Nothing | Answer::Sending(_, _) => 0,
            Answer::Quota(_, _)
            | Answer::Below(_)
            | Answer::Assigned(_, _, _)
            | Answer::Again(_, _)
            | Answer::Unknown(_)
            | Answer::Taken(_)
            | Answer::Full
            | Answer::Sent(_)
            | Answer::OverQuota(_)
            | Answer::Spent(_, _, _)
            | Answer::Unassigned(_)
            | Answer::Worn => 1,
        }
    }

    /// Writes the text of the answer.
    pub fn put(&self, line: &mut Line)
        requires some { 0 < length (said_texts self.now) }
        requires empty { line.old ≡ [] }
        ensures text { said_texts self.now ≡ line.new ∷ [] }
        ensures short { length line.new < 256 }
    {
        match self {
            Answer::Nothing | Answer::Sending(_, _) => unreachable!(),
            Answer::Quota(department, quota) => put_quota(line, *department, *quota),
            Answer::Below(spent) => put_numbered(line, b"refused dept below spent", *spent),
            Answer::Assigned(job, department, left) => put_assigned(line, *job, *department, *left),
            Answer::Again(job, department) => put_again(line, *job, *department),
            Answer::Unknown(department) => {
                put_numbered(line, b"refused dept unknown", u64::from(*department));
            }
            Answer::Taken(job) => put_numbered(line, b"refused dept assigned", u64::from(*job)),
            Answer::Full => line.put(b"refused dept full"),
            Answer::Sent(reply) => put_reply(line, reply),
            Answer::OverQuota(left) => put_numbered(line, b"refused dept quota", *left),
            Answer::Spent(department, spent, quota) => put_spent(line, *department, *spent, *quota),
            Answer::Unassigned(job) => {
                put_numbered(line, b"refused dept unassigned", u64::from(*job));
            }
            Answer::Worn => line.put(b"worn desk"),
        }
    }
}
