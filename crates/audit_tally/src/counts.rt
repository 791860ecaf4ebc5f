//! How often replies came.
ghost use Rattle.std.specs.Prelude.{◌≡◌, ◌+◌, ◌-◌, ◌^◌, min};

use bench_base::events::Reply;
use bench_base::questions::{Refusal, Report};
use bench_base::refusals::ScanRefusal;

/// How often replies came over all runs.
#[derive(Clone, Copy)]
pub struct Tally {
    pub released: u64,
    pub released_again: u64,
    pub accepted: u64,
    pub accepted_again: u64,
    pub duplicates: u64,
    pub printed: u64,
}

/// What is counted of a reply.
#[derive(Clone, Copy)]
enum Counted {
    Nothing,
    Released(bool),
    Accepted(bool),
    Duplicate,
    Printed,
}

fn scan_refused(refusal: &ScanRefusal) -> Counted {
    match refusal {
        ScanRefusal::Duplicate(_) => Counted::Duplicate,
        ScanRefusal::Unread(_)
        | ScanRefusal::Unknown(_)
        | ScanRefusal::BadCode
        | ScanRefusal::Future(_)
        | ScanRefusal::TooOld(_)
        | ScanRefusal::BlocksFull
        | ScanRefusal::Known => Counted::Nothing,
    }
}

// What is counted of a reply that was reported.
fn told_by(reply: &Reply) -> Counted {
    match reply.report() {
        Report::Mark { again, .. } | Report::Release { again, .. } => Counted::Released(again),
        Report::Acceptance(again) => Counted::Accepted(again),
        Report::Print(_) => Counted::Printed,
        Report::Refusal(Refusal::Verifier(refusal)) => scan_refused(&refusal),
        _ => Counted::Nothing,
    }
}

/// Whether the reply gives out a mark that was given out before.
pub fn is_given_again(reply: &Reply) -> bool {
    match told_by(reply) {
        Counted::Released(again) => again,
        Counted::Nothing | Counted::Accepted(_) | Counted::Duplicate | Counted::Printed => false,
    }
}

/// One more. Runs have at most 1,000,000 lines each, so the greatest number is never reached.
pub fn one_more(count: &mut u64)
    ensures { count.new ≡ min (count.old + 1) (2 ^ 64 - 1) }
{
    *count = count.saturating_add(1);
}

impl Tally {
    /// Nothing was counted.
    pub fn new() -> Tally
        ensures marks { (result.released ≡ 0) × (result.released_again ≡ 0) }
        ensures scans { (result.accepted ≡ 0) × (result.accepted_again ≡ 0) × (result.duplicates ≡ 0) }
        ensures prints { result.printed ≡ 0 }
    {
        Tally {
            released: 0,
            released_again: 0,
            accepted: 0,
            accepted_again: 0,
            duplicates: 0,
            printed: 0,
        }
    }

    /// Counts a reply that was reported.
    pub fn count(&mut self, reply: &Reply) {
        match told_by(reply) {
            Counted::Nothing => {}
            Counted::Released(false) => one_more(&mut self.released),
            Counted::Released(true) => one_more(&mut self.released_again),
            Counted::Accepted(false) => one_more(&mut self.accepted),
            Counted::Accepted(true) => one_more(&mut self.accepted_again),
            Counted::Duplicate => one_more(&mut self.duplicates),
            Counted::Printed => one_more(&mut self.printed),
        }
    }
}
