//! The two postings of a transaction: what moved, from which account to which, and the balance after it.
use crate::entry::{Account, Amount, CommitKind, JournalEntry};
use crate::texts::{dollars, signed_dollars};
use bench_base::numbers::{Customer, DevNo};
use std::alloc::{AllocError, Global};

/// The account beside the one of the entry.
#[derive(Clone, Copy)]
enum Other {
    Franked,
    Transit(DevNo),
    Deposits(Customer),
}

/// What a commit moved.
#[derive(Clone, Copy)]
struct Moving {
    account: Account,
    balance: Option<u64>,
    amount: Amount,
    other: Other,
}

// The other account of what the device's request moves.
fn transit(entry: &JournalEntry) -> Option<Other> {
    match entry.device {
        Some(device) => Some(Other::Transit(device)),
        None => None,
    }
}

// The account that the money is taken from, or goes to. None if the commit moves none.
fn other_of(entry: &JournalEntry) -> Option<Other> {
    match entry.commit {
        CommitKind::Debited => Some(Other::Franked),
        CommitKind::Ruled | CommitKind::Applied => transit(entry),
        CommitKind::Deposited => match entry.customer {
            Some(customer) => Some(Other::Deposits(customer)),
            None => None,
        },
        CommitKind::Made
        | CommitKind::Asked
        | CommitKind::Registered
        | CommitKind::Settled
        | CommitKind::Opened
        | CommitKind::Suspended
        | CommitKind::Resumed
        | CommitKind::Ordered
        | CommitKind::Held
        | CommitKind::Begun
        | CommitKind::Printed
        | CommitKind::PrinterFault
        | CommitKind::Closed
        | CommitKind::Trusted
        | CommitKind::Accepted => None,
    }
}

// What the commit moved, if anything.
fn moving_of(entry: &JournalEntry) -> Option<Moving> {
    let amount = entry.amount?;
    if amount.size == 0 {
        return None;
    }
    let account = entry.account?;
    let other = other_of(entry)?;
    Some(Moving {
        account,
        balance: entry.balance,
        amount,
        other,
    })
}

fn account_name(alloc: Global, account: Account) -> Result<String, AllocError> {
    match account {
        Account::Device(device) => format!(in alloc; "devices:d{}", device.get()),
        Account::Customer(customer) => format!(in alloc; "customers:{}", customer.get()),
    }
}

fn other_name(alloc: Global, other: Other) -> Result<String, AllocError> {
    match other {
        Other::Franked => format!(in alloc; "franked"),
        Other::Transit(device) => format!(in alloc; "in transit:d{}", device.get()),
        Other::Deposits(customer) => format!(in alloc; "deposits:{}", customer.get()),
    }
}

// The assertion that the account has this balance then.
fn assertion(alloc: Global, balance: Option<u64>) -> Result<String, AllocError> {
    match balance {
        Some(balance) => {
            let text = dollars(alloc, balance)?;
            format!(in alloc; " = {text}")
        }
        None => Ok(String::new(alloc)),
    }
}

// What the other account gets.
fn taken_from(amount: Amount) -> Amount {
    Amount {
        minus: !amount.minus,
        size: amount.size,
    }
}

// The posting of the entry's account, with its balance.
fn own_posting(alloc: Global, moving: &Moving) -> Result<String, AllocError> {
    let account = account_name(alloc, moving.account)?;
    let gets = signed_dollars(alloc, moving.amount)?;
    let balance = assertion(alloc, moving.balance)?;
    format!(in alloc; "    {account}  {gets}{balance}\n")
}

// The posting of the other account.
fn other_posting(alloc: Global, moving: &Moving) -> Result<String, AllocError> {
    let account = other_name(alloc, moving.other)?;
    let gives = signed_dollars(alloc, taken_from(moving.amount))?;
    format!(in alloc; "    {account}  {gives}\n")
}

// Both postings, a line each.
fn both_postings(alloc: Global, moving: &Moving) -> Result<String, AllocError> {
    let mut text = own_posting(alloc, moving)?;
    let other = other_posting(alloc, moving)?;
    text.push_str(other.as_str())?;
    Ok(text)
}

/// The postings of the entry, a line each; None if it moves no money. AllocError is lack of memory.
pub fn postings_of(alloc: Global, entry: &JournalEntry) -> Result<Option<String>, AllocError> {
    let Some(moving) = moving_of(entry) else {
        return Ok(None);
    };
    match both_postings(alloc, &moving) {
        Ok(text) => Ok(Some(text)),
        Err(fault) => Err(fault),
    }
}
