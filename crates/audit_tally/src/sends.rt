//! The messages of a run: which message asks for the mark of which job.
use bench_base::events::Reply;
use bench_base::questions::Report;
use std::alloc::{AllocError, Global};

/// For each message of a run, from message 0 on, the job that it asks a mark for.
#[derive(Drop)]
pub struct Sends {
    jobs: Vec<Option<u32>>,
}

// The job that the message asks a mark for, if the reply sent a message.
fn sent_by(reply: &Reply) -> Option<Option<u32>> {
    match reply.report() {
        Report::Debit { job, .. } => Some(Some(job)),
        Report::Message(_) | Report::Ruling { .. } | Report::Release { .. } => Some(None),
        _ => None,
    }
}

impl Sends {
    /// Nothing was sent.
    pub fn new(alloc: Global) -> Sends {
        Sends {
            jobs: Vec::new(alloc),
        }
    }

    /// Begins a run: nothing was sent in it.
    pub fn begin(&mut self) {
        self.jobs.clear();
    }

    /// Keeps the message of a reply that was reported, if it sent one. AllocError is lack of memory.
    pub fn hear(&mut self, reply: &Reply) -> Result<(), AllocError> {
        if let Some(job) = sent_by(reply) {
            self.jobs.push(job)?;
        }
        Ok(())
    }

    /// The job that the message of this number asks a mark for, if it asks for one.
    pub fn job_of(&self, message: u32) -> Option<u32> {
        self.jobs.get(message as usize).copied()?
    }
}
