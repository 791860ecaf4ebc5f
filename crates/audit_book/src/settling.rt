//! What the journal has of a commit that counts, by what is known of its node after the line. Amounts are in mills.
ghost use Rattle.std.specs.Prelude.{◌≡◌, ◌+◌, ℕ, false, Some, None, IsSomeAnd, MatchBool, MatchOption};

use crate::seen::Seen;
use audit_journal::{Account, Amount, JournalEntry};
use audit_tally::{Ask, Job, Piece};
use bench_base::words::{Kind, Node};

// An amount that is not below 0.
fn paid(size: u64) -> Amount
    ensures { (result.minus ≡ false) × (result.size ≡ size) }
{
    Amount { minus: false, size }
}

// What was added to the balance; None if there was no balance before, as for a device with its enrolment ruled on.
fn moved(before: Option<u64>, after: Option<u64>) -> Option<Amount>
    ensures unknown { after ≡ None → result ≡ None }
    ensures added { (b a : ℕ) → before ≡ Some b → after ≡ Some a → IsSomeAnd result (λ m. MatchBool m.minus (b ≡ a + m.size) (b + m.size ≡ a)) }
{
    let after = after?;
    let before = before.unwrap_or(after);
    if after < before {
        Some(Amount {
            minus: true,
            size: before - after,
        })
    } else {
        Some(paid(after - before))
    }
}

// Whose balance the commit has.
fn account_of(entry: &JournalEntry) -> Option<Account> {
    match entry.node {
        Node::Device(device) => Some(Account::Device(device)),
        Node::Centre => match entry.customer {
            Some(customer) => Some(Account::Customer(customer)),
            None => None,
        },
        Node::Host | Node::Verifier => None,
    }
}

// What a commit of a device or of the centre moved. The amounts of the others are known before.
fn amount_of(entry: &JournalEntry, seen: &Seen) -> Option<Amount> {
    match entry.node {
        Node::Device(_) | Node::Centre => moved(seen.before.balance, seen.after.balance),
        Node::Host | Node::Verifier => entry.amount,
    }
}

/// The entry with the customer, and with what it moved.
pub fn with_money(entry: &JournalEntry, seen: &Seen) -> JournalEntry {
    let owned = JournalEntry {
        customer: seen.customer,
        ..*entry
    };
    JournalEntry {
        amount: amount_of(&owned, seen),
        account: account_of(&owned),
        balance: seen.after.balance,
        ..owned
    }
}

/// What is asked for: of a refund and of a withdrawal all that the device has left.
pub fn with_asked(entry: &JournalEntry, seen: &Seen) -> JournalEntry {
    match entry.request {
        Some(Kind::Refund | Kind::Withdraw) => JournalEntry {
            asked: seen.after.balance,
            ..*entry
        },
        Some(Kind::Enrol | Kind::Reset | Kind::Audit) | None => *entry,
    }
}

// What a request asks for, if it is one for money.
fn asked_for(kind: Kind, asked: u64) -> Option<u64> {
    match kind {
        Kind::Reset | Kind::Refund | Kind::Withdraw => Some(asked),
        Kind::Enrol | Kind::Audit => None,
    }
}

/// The entry with the request that was ruled on.
pub fn with_ruling(entry: &JournalEntry, seen: &Seen) -> JournalEntry
    ensures { MatchOption seen.now.ruling (result ≡ entry.now) (λ r. (result.request ≡ Some r.kind) × (result.verdict ≡ Some r.verdict)) }
{
    match seen.ruling {
        Some(ruling) => JournalEntry {
            request: Some(ruling.kind),
            verdict: Some(ruling.verdict),
            asked: asked_for(ruling.kind, ruling.asked),
            ..*entry
        },
        None => *entry,
    }
}

/// The entry with the request that the device has out.
pub fn with_request(entry: &JournalEntry, ask: Option<Ask>) -> JournalEntry
    ensures { MatchOption ask (result ≡ entry.now) (λ a. (result.request ≡ Some a.kind) × (result.asked ≡ a.asked)) }
{
    match ask {
        Some(ask) => JournalEntry {
            request: Some(ask.kind),
            asked: ask.asked,
            ..*entry
        },
        None => *entry,
    }
}

/// The entry with the piece of the job.
pub fn with_job(entry: &JournalEntry, job: Option<Job>) -> JournalEntry
    ensures { MatchOption job (result ≡ entry.now) (λ j. (result.device ≡ Some j.device) × (result.piece ≡ Some j.piece) × (result.class ≡ Some j.class)) }
{
    match job {
        Some(job) => JournalEntry {
            device: Some(job.device),
            piece: Some(job.piece),
            class: Some(job.class),
            ..*entry
        },
        None => *entry,
    }
}

/// The entry with the job of the piece, its class and its postage.
pub fn with_piece(entry: &JournalEntry, piece: Option<Piece>) -> JournalEntry
    ensures { MatchOption piece (result ≡ entry.now) (λ p. (result.job ≡ p.job) × (result.class ≡ p.class)) }
{
    match piece {
        Some(piece) => JournalEntry {
            job: piece.job,
            class: piece.class,
            amount: Some(paid(piece.postage)),
            ..*entry
        },
        None => *entry,
    }
}

/// The entry of a debit with the class of the job that it serves, if the event does not have it.
pub fn with_class(entry: &JournalEntry, job: Option<Job>) -> JournalEntry {
    match (entry.class, job) {
        (None, Some(job)) => JournalEntry {
            class: Some(job.class),
            ..*entry
        },
        _ => *entry,
    }
}
