//! A job as the 115 bytes that are kept in storage.
ghost use Rattle.std.specs.Prelude.{◌≡◌, ◌↔◌, ◌≤◌, ◌<◌, ◌+◌, ◌++◌, IfSome, IfNone, IsTrue, length, replicate, take, drop};
ghost use Rattle.bench_base.specs.Table.{Fit, values};
ghost use Rattle.bench_base.specs.Jobs.{cell_of};
ghost use Rattle.host_jobs.specs.declared.rows.JobRow.{JobRow as TheRow};
ghost use Rattle.host_jobs.specs.Soundness.{IsSoundJob};
ghost use Rattle.host_jobs.specs.Payload as layout;
ghost use Rattle.host_jobs.specs.Payload.{JobReadsAs, job_bytes, state_byte, head, head_table, tops_table, mark_part};

use crate::kept;
use crate::rows::JobRow;
use crate::soundness::is_sound_job;
use bench_base::fields::{put_u16, put_u32, u16_at, u32_at};
use bench_base::numbers::DevNo;
use bench_base::words::JobState;

impl JobRow {
    /// The job's one spelling.
    pub fn write_payload(&self) -> [u8; 115]
        requires { IsSoundJob self.now }
        ensures value { result ≡ job_bytes self.now }
        ensures reads { JobReadsAs result self.now }
    {
        joined(
            &head_bytes(self),
            &tops_bytes(self),
            &mark_bytes(&self.indicium),
        )
    }

    /// The job of this cell that the bytes read as; None if and only if they read as none.
    pub fn read_payload(cell: u32, payload: &[u8; 115]) -> Option<JobRow>
        ensures found { IfSome result (λ r. (cell_of r.job ≡ cell) × JobReadsAs payload.now r) }
        ensures none { IfNone result ((r : TheRow) → cell_of r.job ≡ cell → JobReadsAs payload.now r → ⊥) }
    {
        let job = u32_at(payload, 0);
        if kept::cell_of(job) != cell {
            return None;
        }
        let Some(device) = DevNo::new(u32_at(payload, 4)) else {
            return None;
        };
        let Some(state) = state_from(payload[18]) else {
            return None;
        };
        let row = JobRow {
            job,
            device,
            piece: u32_at(payload, 8),
            postage: u32_at(payload, 12),
            class: u16_at(payload, 16),
            state,
            tops: tops_in(payload),
            indicium: mark_in(payload),
        };
        if is_sound_job(&row) { Some(row) } else { None }
    }
}

fn state_from(byte: u8) -> Option<JobState>
    ensures found { IfSome result (λ s. state_byte s ≡ byte) }
    ensures none { IfNone result (1 ≤ byte → byte ≤ 4 → ⊥) }
{
    match byte {
        1 => Some(JobState::Ordered),
        2 => Some(JobState::Held),
        3 => Some(JobState::Begun),
        4 => Some(JobState::Closed),
        _ => None,
    }
}

fn byte_of(state: JobState) -> u8
    ensures { result ≡ state_byte state }
{
    match state {
        JobState::Ordered => 1,
        JobState::Held => 2,
        JobState::Begun => 3,
        JobState::Closed => 4,
    }
}

fn is_zero(bytes: &[u8]) -> bool
    ensures { IsTrue result ↔ (replicate (length bytes.now) 0 ≡ bytes.now) }
{
    bytes.iter().all(|byte| *byte == 0)
}

// The tops of devices 1 to 8.
#[tactic(auto, unfolding(bench_base::specs::Table::number))]
fn tops_in(payload: &[u8; 115]) -> [u32; 8]
    ensures { result ≡ values 19 tops_table payload.now }
{
    [
        u32_at(payload, 19),
        u32_at(payload, 23),
        u32_at(payload, 27),
        u32_at(payload, 31),
        u32_at(payload, 35),
        u32_at(payload, 39),
        u32_at(payload, 43),
        u32_at(payload, 47),
    ]
}

// The mark; None where there are zeros.
#[tactic(auto, unfolding(crate::specs::Payload::mark_part))]
fn mark_in(payload: &[u8; 115]) -> Option<[u8; 64]>
    ensures value { mark_part result ≡ drop 51 payload.now }
    ensures some { IfSome result (λ mark. (replicate 64 0 ≡ mark → ⊥) × (length mark ≡ 64)) }
{
    if is_zero(&payload[51..]) {
        return None;
    }
    let mut mark = [0; 64];
    mark.copy_from_slice(&payload[51..]);
    Some(mark)
}

#[tactic(auto, unfolding(crate::specs::Payload::mark_part))]
fn mark_bytes(mark: &Option<[u8; 64]>) -> [u8; 64]
    ensures { result ≡ mark_part mark.now }
{
    match mark {
        Some(bytes) => *bytes,
        None => [0; 64],
    }
}

// Writes a part at its place; all other bytes stay.
fn put(bytes: &mut [u8; 115], at: usize, part: &[u8])
    requires { at + length part.now ≤ 115 }
    ensures { bytes.new ≡ take at bytes.old ++ (part.now ++ drop (at + length part.now) bytes.old) }
{
    bytes[at..at + part.len()].copy_from_slice(part);
}

// Three parts at their places.
fn joined(head: &[u8; 19], tops: &[u8; 32], mark: &[u8; 64]) -> [u8; 115]
    ensures { result ≡ head.now ++ (tops.now ++ mark.now) }
{
    let mut bytes = [0; 115];
    put(&mut bytes, 0, head);
    put(&mut bytes, 19, tops);
    put(&mut bytes, 51, mark);
    bytes
}

#[tactic(auto, unfolding(bench_base::specs::Table::spelled, crate::specs::Payload::head_part))]
fn head_bytes(row: &JobRow) -> [u8; 19]
    ensures value { result ≡ layout.head_part row.now }
    ensures fits { Fit head_table (head row.now) }
{
    let mut bytes = [0; 19];
    let (job, piece) = (row.job, row.piece);
    let (postage, class) = (row.postage, row.class);
    put_u32(&mut bytes, 0, job);
    put_u32(&mut bytes, 4, row.device.get());
    put_u32(&mut bytes, 8, piece);
    put_u32(&mut bytes, 12, postage);
    put_u16(&mut bytes, 16, class);
    bytes[18] = byte_of(row.state);
    bytes
}

#[tactic(auto, unfolding(bench_base::specs::Table::spelled, crate::specs::Payload::tops_part))]
fn tops_bytes(row: &JobRow) -> [u8; 32]
    ensures value { result ≡ layout.tops_part row.now }
    ensures fits { Fit tops_table row.now.tops }
{
    let mut bytes = [0; 32];
    let tops = row.tops;
    put_u32(&mut bytes, 0, tops[0]);
    put_u32(&mut bytes, 4, tops[1]);
    put_u32(&mut bytes, 8, tops[2]);
    put_u32(&mut bytes, 12, tops[3]);
    put_u32(&mut bytes, 16, tops[4]);
    put_u32(&mut bytes, 20, tops[5]);
    put_u32(&mut bytes, 24, tops[6]);
    put_u32(&mut bytes, 28, tops[7]);
    bytes
}
