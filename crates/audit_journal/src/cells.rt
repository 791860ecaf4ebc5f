//! What is in the columns of a row.
use crate::entry::{Account, Amount, At, CommitKind, JournalEntry, Row};
use crate::texts::date_text;
use crate::words::{commit_word, kind_word, node_text, verdict_word};
use bench_base::numbers::{Customer, DayNo, DevNo};
use bench_base::words::{Kind, Verdict};
use std::alloc::{AllocError, Global};

/// The names of the columns after the run.
pub const BEHIND_RUN: [&str; 17] = [
    "line", "day", "node", "kind", "request", "verdict", "device", "customer", "number", "piece",
    "job", "class", "asked", "amount", "account", "balance", "counted",
];

/// What is in a column.
#[derive(Drop)]
pub enum Cell {
    Empty,
    /// The digits of a number, which may have a minus.
    Number(String),
    Words(String),
}

pub(crate) fn number_cell(alloc: Global, number: Option<u64>) -> Result<Cell, AllocError> {
    match number {
        Some(number) => Ok(Cell::Number(format!(in alloc; "{number}")?)),
        None => Ok(Cell::Empty),
    }
}

// As wide as the others.
pub(crate) fn widened(number: Option<u32>) -> Option<u64> {
    match number {
        Some(number) => Some(number as u64),
        None => None,
    }
}

pub(crate) fn word_cell(alloc: Global, word: Option<&'static str>) -> Result<Cell, AllocError> {
    match word {
        Some(word) => Ok(Cell::Words(format!(in alloc; "{word}")?)),
        None => Ok(Cell::Empty),
    }
}

pub(crate) fn day_cell(alloc: Global, day: Option<DayNo>) -> Result<Cell, AllocError> {
    match day {
        Some(day) => Ok(Cell::Words(date_text(alloc, day.get())?)),
        None => Ok(Cell::Empty),
    }
}

pub(crate) fn device_cell(alloc: Global, device: Option<DevNo>) -> Result<Cell, AllocError> {
    match device {
        Some(device) => Ok(Cell::Words(format!(in alloc; "d{}", device.get())?)),
        None => Ok(Cell::Empty),
    }
}

pub(crate) fn amount_cell(alloc: Global, amount: Option<Amount>) -> Result<Cell, AllocError> {
    match amount {
        Some(Amount { minus: true, size }) => Ok(Cell::Number(format!(in alloc; "-{size}")?)),
        Some(Amount { minus: false, size }) => Ok(Cell::Number(format!(in alloc; "{size}")?)),
        None => Ok(Cell::Empty),
    }
}

fn account_text(alloc: Global, account: Account) -> Result<String, AllocError> {
    match account {
        Account::Device(device) => format!(in alloc; "d{}", device.get()),
        Account::Customer(customer) => format!(in alloc; "customer {}", customer.get()),
    }
}

fn account_cell(alloc: Global, account: Option<Account>) -> Result<Cell, AllocError> {
    match account {
        Some(account) => Ok(Cell::Words(account_text(alloc, account)?)),
        None => Ok(Cell::Empty),
    }
}

fn at_cell(alloc: Global, at: Option<At<'_>>) -> Result<Cell, AllocError> {
    match at {
        Some(at) => Ok(Cell::Words(format!(in alloc; "{}:{}", at.run, at.line)?)),
        None => Ok(Cell::Empty),
    }
}

/// What the node did, and of a device that asks for what. AllocError is lack of memory.
pub fn commit_text(alloc: Global, entry: &JournalEntry) -> Result<String, AllocError> {
    let word = commit_word(entry.commit);
    let CommitKind::Asked = entry.commit else {
        return format!(in alloc; "{word}");
    };
    match entry.request {
        Some(kind) => format!(in alloc; "{word} {}", kind_word(kind)),
        None => format!(in alloc; "{word}"),
    }
}

fn request_word(request: Option<Kind>) -> Option<&'static str> {
    match request {
        Some(kind) => Some(kind_word(kind)),
        None => None,
    }
}

fn ruling_word(verdict: Option<Verdict>) -> Option<&'static str> {
    match verdict {
        Some(verdict) => Some(verdict_word(verdict)),
        None => None,
    }
}

pub(crate) fn customer_number(customer: Option<Customer>) -> Option<u64> {
    match customer {
        Some(customer) => Some(customer.get() as u64),
        None => None,
    }
}

fn class_number(class: Option<u16>) -> Option<u64> {
    match class {
        Some(class) => Some(class as u64),
        None => None,
    }
}

// Adds a column, if there was memory for what is in it.
pub(crate) fn add_cell(
    cells: &mut Vec<Cell>,
    made: Result<Cell, AllocError>,
) -> Result<(), AllocError> {
    cells.push(made?)?;
    Ok(())
}

// A column of these words, if there was memory for them.
pub(crate) fn of_words(made: Result<String, AllocError>) -> Result<Cell, AllocError> {
    Ok(Cell::Words(made?))
}

// Adds where and when it was done, and by which node: line, day and node.
fn add_place(alloc: Global, cells: &mut Vec<Cell>, row: &Row<'_>) -> Result<(), AllocError> {
    add_cell(cells, number_cell(alloc, Some(row.at.line as u64)))?;
    add_cell(cells, day_cell(alloc, row.entry.day))?;
    add_cell(cells, of_words(node_text(alloc, &row.entry.node)))
}

// Adds what was done: kind, request and verdict.
fn add_commit(
    alloc: Global,
    cells: &mut Vec<Cell>,
    entry: &JournalEntry,
) -> Result<(), AllocError> {
    add_cell(cells, of_words(commit_text(alloc, entry)))?;
    add_cell(cells, word_cell(alloc, request_word(entry.request)))?;
    add_cell(cells, word_cell(alloc, ruling_word(entry.verdict)))
}

// Adds whose account it was done to: device, customer and number.
fn add_subject(
    alloc: Global,
    cells: &mut Vec<Cell>,
    entry: &JournalEntry,
) -> Result<(), AllocError> {
    add_cell(cells, device_cell(alloc, entry.device))?;
    add_cell(cells, number_cell(alloc, customer_number(entry.customer)))?;
    add_cell(cells, number_cell(alloc, Some(entry.number as u64)))
}

// Adds the mail that it was done to: piece, job and class.
fn add_mail(alloc: Global, cells: &mut Vec<Cell>, entry: &JournalEntry) -> Result<(), AllocError> {
    add_cell(cells, number_cell(alloc, widened(entry.piece)))?;
    add_cell(cells, number_cell(alloc, widened(entry.job)))?;
    add_cell(cells, number_cell(alloc, class_number(entry.class)))
}

// Adds what it moved: asked and amount.
fn add_amounts(
    alloc: Global,
    cells: &mut Vec<Cell>,
    entry: &JournalEntry,
) -> Result<(), AllocError> {
    add_cell(cells, number_cell(alloc, entry.asked))?;
    add_cell(cells, amount_cell(alloc, entry.amount))
}

// Adds the account that it moved it in: account and balance.
fn add_account(
    alloc: Global,
    cells: &mut Vec<Cell>,
    entry: &JournalEntry,
) -> Result<(), AllocError> {
    add_cell(cells, account_cell(alloc, entry.account))?;
    add_cell(cells, number_cell(alloc, entry.balance))
}

// Adds what was done, to which account and to which mail: the columns up to the class.
fn add_front(alloc: Global, cells: &mut Vec<Cell>, row: &Row<'_>) -> Result<(), AllocError> {
    add_place(alloc, cells, row)?;
    add_commit(alloc, cells, &row.entry)?;
    add_subject(alloc, cells, &row.entry)?;
    add_mail(alloc, cells, &row.entry)
}

// Adds what it moved, and where it came to count: the columns after the class.
fn add_back(alloc: Global, cells: &mut Vec<Cell>, row: &Row<'_>) -> Result<(), AllocError> {
    add_amounts(alloc, cells, &row.entry)?;
    add_account(alloc, cells, &row.entry)?;
    add_cell(cells, at_cell(alloc, row.counted))
}

/// What is in the columns after the run, in their order. AllocError is lack of memory.
pub fn cells_of(alloc: Global, row: &Row<'_>) -> Result<Vec<Cell>, AllocError> {
    let mut cells = Vec::new(alloc);
    add_front(alloc, &mut cells, row)?;
    add_back(alloc, &mut cells, row)?;
    Ok(cells)
}
