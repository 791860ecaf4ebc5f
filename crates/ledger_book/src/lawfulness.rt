//! Whether a ledger is lawful.
ghost use Rattle.std.specs.Prelude.{◌↔◌, ◌+◌, ◌<◌, length, take, reverse, IsTrue, IfOk};
ghost use Rattle.bench_base.specs.Rules.{todays_rules};
ghost use Rattle.bench_base.specs.Ledger.{counted};
ghost use Rattle.ledger_terms.specs.Lawful.{Always, LawfulAt, Lawful, Numbering, Debits, Refunds, Registers, Balances, Days};

use crate::clauses::{balances, days, debits, numbering, refunds, registers};
use crate::counting::counted;
use crate::releasing::{acceptances, held_once, printed_once, releases};
use bench_base::ledger::{Commit, Entry};
use std::alloc::{AllocError, Global};

// The clauses that speak of commits alone.
fn lawful_commits(commits: &[Commit]) -> bool
    ensures { IsTrue result
        ↔ (Numbering (reverse commits.now) × Debits todays_rules (reverse commits.now) × Refunds (reverse commits.now)
        × Registers (reverse commits.now) × Balances (reverse commits.now) × Days todays_rules (reverse commits.now)) }
{
    numbering(commits)
        && debits(commits)
        && refunds(commits)
        && registers(commits)
        && balances(commits)
        && days(commits)
}

// Whether the clauses hold of the entries up to and with this one, where they hold of those before it.
fn lawful_at(alloc: Global, book: &[Entry], end: usize) -> Result<bool, AllocError>
    requires within { end < length book.now }
    requires earlier { Always (LawfulAt todays_rules) (reverse (take end book.now)) }
    ensures { IfOk result (λ lawful. IsTrue lawful ↔ LawfulAt todays_rules (reverse (take (end + 1) book.now))) }
{
    let before = &book[..end];
    let prefix = &book[..end + 1];
    let earlier = counted(alloc, before)?;
    let commits = counted(alloc, prefix)?;
    Ok(
        lawful_commits(&commits)
            && releases(&book[end], &earlier)
            && acceptances(prefix, &commits)
            && printed_once(&book[end], before, &earlier)
            && held_once(prefix, &commits),
    )
}

/// Whether the ledger is lawful: each of its prefixes meets the nine clauses. Entries stand oldest first.
pub fn lawful(alloc: Global, book: &[Entry]) -> Result<bool, AllocError>
    ensures { IfOk result (λ lawful. IsTrue lawful ↔ Lawful todays_rules (reverse book.now)) }
{
    for end in 0..book.len() {
        if !lawful_at(alloc, book, end)? {
            return Ok(false);
        }
    }
    Ok(true)
}
