//! A commit that moves money as a transaction of a ledger in plain text, as hledger reads it.
use crate::cells::commit_text;
use crate::entry::{At, CommitKind, JournalEntry, Row};
use crate::postings::postings_of;
use crate::texts::date_text;
use audit_words::shown_text;
use bench_base::numbers::DayNo;
use std::alloc::{AllocError, Global};

/// What comes before the first transaction.
pub const HEAD: &str =
    "; The journal of a postage meter: a transaction for each commit that moves money.\n; An amount is in dollars: a mill is $0.001.\ndecimal-mark .\ncommodity $1.000\n\n";

// Whether such a commit may move money.
fn may_move(commit: CommitKind) -> bool {
    match commit {
        CommitKind::Applied | CommitKind::Debited | CommitKind::Ruled | CommitKind::Deposited =>
            true,
        CommitKind::Made
        | CommitKind::Asked
        | CommitKind::Registered
        | CommitKind::Settled
        | CommitKind::Opened
        | CommitKind::Suspended
        | CommitKind::Resumed
        | CommitKind::Ordered
        | CommitKind::Held
        | CommitKind::Begun
        | CommitKind::Printed
        | CommitKind::PrinterFault
        | CommitKind::Closed
        | CommitKind::Trusted
        | CommitKind::Accepted => false,
    }
}

// Whose commit it is.
fn whose(alloc: Global, entry: &JournalEntry) -> Result<String, AllocError> {
    if let Some(device) = entry.device {
        return format!(in alloc; "d{}", device.get());
    }
    match entry.customer {
        Some(customer) => format!(in alloc; "customer {}", customer.get()),
        None => Ok(String::new(alloc)),
    }
}

/// The line, with the name of its run as it is shown. AllocError is lack of memory.
pub fn place_text(alloc: Global, at: At<'_>) -> Result<String, AllocError> {
    let run = shown_text(alloc, at.run)?;
    format!(in alloc; "{run} line {}", at.line)
}

// What was done, to which account, under which number, and where.
fn description(alloc: Global, row: &Row<'_>) -> Result<String, AllocError> {
    let commit = commit_text(alloc, &row.entry)?;
    let who = whose(alloc, &row.entry)?;
    let place = place_text(alloc, row.at)?;
    format!(in alloc; "{commit} {who} {}, {place}", row.entry.number)
}

// What follows the description: the `up` that made the commit count.
fn remark(alloc: Global, counted: Option<At<'_>>) -> Result<String, AllocError> {
    match counted {
        Some(up) => {
            let place = place_text(alloc, up)?;
            format!(in alloc; "  ; counted at {place}")
        }
        None => Ok(String::new(alloc)),
    }
}

// What is said of a day in the script that is earlier than the transaction's.
fn told_day(alloc: Global, day: Option<DayNo>, dated: DayNo) -> Result<String, AllocError> {
    match day {
        Some(day) if day.get() != dated.get() => {
            let date = date_text(alloc, day.get())?;
            format!(in alloc; "    ; its day is {date}\n")
        }
        _ => Ok(String::new(alloc)),
    }
}

// The first line of a transaction: its date, what it is, and where it came to count if that was late.
fn headline(alloc: Global, row: &Row<'_>, dated: DayNo) -> Result<String, AllocError> {
    let date = date_text(alloc, dated.get())?;
    let what = description(alloc, row)?;
    let late = remark(alloc, row.counted)?;
    format!(in alloc; "{date} {what}{late}\n")
}

// The transaction of these postings.
fn posted(
    alloc: Global,
    row: &Row<'_>,
    dated: DayNo,
    postings: &str,
) -> Result<String, AllocError> {
    let head = headline(alloc, row, dated)?;
    let day = told_day(alloc, row.entry.day, dated)?;
    format!(in alloc; "{head}{day}{postings}\n")
}

/// The transaction of the row, dated so; None if it moves no money. AllocError is lack of memory.
pub fn transaction(
    alloc: Global,
    row: &Row<'_>,
    dated: DayNo,
) -> Result<Option<String>, AllocError> {
    let Some(postings) = postings_of(alloc, &row.entry)? else {
        return Ok(None);
    };
    match posted(alloc, row, dated, postings.as_str()) {
        Ok(text) => Ok(Some(text)),
        Err(fault) => Err(fault),
    }
}

/// The comment on a commit in doubt; None if such a commit moves no money. AllocError is lack of memory.
pub fn doubt_comment(alloc: Global, row: &Row<'_>) -> Result<Option<String>, AllocError> {
    if !may_move(row.entry.commit) {
        return Ok(None);
    }
    let what = description(alloc, row)?;
    Ok(Some(format!(in alloc; "; in doubt: {what}\n\n")?))
}

/// The comment on a commit that was in doubt, and does not count; None if such a commit moves no money. AllocError is lack of memory.
pub fn void_comment(
    alloc: Global,
    row: &Row<'_>,
    up: At<'_>,
) -> Result<Option<String>, AllocError> {
    if !may_move(row.entry.commit) {
        return Ok(None);
    }
    let what = description(alloc, row)?;
    let place = place_text(alloc, up)?;
    Ok(Some(format!(in alloc; "; not done: {what}; see {place}\n\n")?))
}
