//! Lines of a run's own, and what they did, by their answers. Amounts are in mills.
use audit_journal::{Amount, OwnAccount, OwnEntry, OwnKind};
use audit_tally::OwnSums;
use bench_base::numbers::{Customer, DevNo};
use script_words::{Word, after, four, split_word, two};

/// A line of a run's own that was answered.
#[derive(Drop)]
pub struct OwnLine {
    /// The line of the script, counted from 1.
    pub number: u32,
    /// How many lines of the run's events come before it.
    pub place: usize,
    pub line: Vec<u8>,
    /// The last text of the answer, without its line end.
    pub answer: Vec<u8>,
}

// From one sum to another.
fn change(old: u64, new: u64) -> Amount {
    Amount {
        minus: new < old,
        size: new.abs_diff(old),
    }
}

// The customer that is named in the line of a claim.
fn claimant(line: &[u8]) -> Option<Customer> {
    let words = after(line, b"claim ")?;
    let (_, rest) = split_word(words)?;
    let (word, _) = split_word(rest)?;
    Customer::read(word)
}

// An entry with a sum that was changed.
fn summed(entry: OwnEntry, account: OwnAccount, old: u64, new: u64) -> OwnEntry {
    OwnEntry {
        amount: Some(change(old, new)),
        account: Some(account),
        balance: Some(new),
        ..entry
    }
}

// An entry with the balance of a customer.
fn balanced(kind: OwnKind, customer: Customer, balance: u64) -> OwnEntry {
    OwnEntry {
        customer: Some(customer),
        account: Some(OwnAccount::Customer(customer)),
        balance: Some(balance),
        ..OwnEntry::new(kind, 0)
    }
}

// What a check of a manifest came to.
fn checked(answer: &[u8]) -> Option<OwnEntry> {
    let words = after(answer, b"manifest ")?;
    if words.starts_with(b"no ") {
        return Some(OwnEntry::new(OwnKind::ManifestNo, 0));
    }
    let Ok((count, size)) = two::<u32, u64>(after(words, b"yes ")?) else {
        return None;
    };
    let amount = Some(Amount { minus: false, size });
    Some(OwnEntry {
        amount,
        ..OwnEntry::new(OwnKind::ManifestYes, count)
    })
}

// A claim that was credited now.
fn credited(sums: &mut OwnSums, line: &[u8], answer: &[u8]) -> Option<OwnEntry> {
    let words = after(answer, b"credited ")?.strip_suffix(b" new".as_slice())?;
    let Ok((claim, device, piece, postage)) = four::<u32, DevNo, u32, u32>(words) else {
        return None;
    };
    let customer = claimant(line)?;
    let old = sums.credits_of(customer);
    sums.credit(customer, u64::from(postage));
    let entry = OwnEntry {
        device: Some(device),
        customer: Some(customer),
        piece: Some(piece),
        ..OwnEntry::new(OwnKind::Credited, claim)
    };
    let new = sums.credits_of(customer);
    Some(summed(entry, OwnAccount::Credits(customer), old, new))
}

// What is left to a department.
fn left_to(sums: &OwnSums, department: u32) -> u64 {
    match sums.budget_of(department) {
        Some(budget) => budget.left,
        None => 0,
    }
}

// A quota that was set.
fn quota_set(sums: &mut OwnSums, answer: &[u8]) -> Option<OwnEntry> {
    let Ok((department, quota)) = two::<u32, u32>(after(answer, b"quota ")?) else {
        return None;
    };
    let old = left_to(sums, department);
    sums.set_quota(department, u64::from(quota));
    let new = left_to(sums, department);
    let entry = OwnEntry::new(OwnKind::Quota, department);
    Some(summed(entry, OwnAccount::Department(department), old, new))
}

// A job that was given to a department now.
fn assigned(sums: &mut OwnSums, answer: &[u8]) -> Option<OwnEntry> {
    let (job, rest) = split_word(after(answer, b"assigned ")?)?;
    let (department, rest) = split_word(rest)?;
    let (job, department) = (u32::read(job)?, u32::read(department)?);
    let new = u64::read(after(rest, b"left ")?)?;
    let old = left_to(sums, department);
    sums.leave(department, new);
    let entry = OwnEntry {
        job: Some(job),
        ..OwnEntry::new(OwnKind::Assigned, job)
    };
    Some(summed(entry, OwnAccount::Department(department), old, new))
}

// A statement that was opened; its customer is kept.
fn opened(listed: &mut Option<Customer>, answer: &[u8]) -> Option<OwnEntry> {
    let (customer, rest) = split_word(after(answer, b"statement ")?)?;
    let balance = u64::read(after(rest, b"opening ")?)?;
    let customer = Customer::read(customer)?;
    *listed = Some(customer);
    Some(balanced(OwnKind::StatementOpened, customer, balance))
}

// A statement of this customer that was closed.
fn closed(listed: &Option<Customer>, answer: &[u8]) -> Option<OwnEntry> {
    let balance = u64::read(after(answer, b"closing ")?)?;
    match listed {
        Some(customer) => Some(balanced(OwnKind::StatementClosed, *customer, balance)),
        None => None,
    }
}

/// What the line with this answer did, if the journal shows it. Credits and budgets follow it, and the customer whose statement was opened last.
pub(crate) fn own_entry(
    sums: &mut OwnSums,
    listed: &mut Option<Customer>,
    line: &[u8],
    answer: &[u8],
) -> Option<OwnEntry> {
    let (word, _) = split_word(answer)?;
    match word {
        b"credited" => credited(sums, line, answer),
        b"quota" => quota_set(sums, answer),
        b"assigned" => assigned(sums, answer),
        b"manifest" => checked(answer),
        b"statement" => opened(listed, answer),
        b"closing" => closed(listed, answer),
        _ => None,
    }
}
