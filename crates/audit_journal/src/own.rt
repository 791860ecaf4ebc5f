//! What a line of its own did in a run of claims, departments, a manifest or statements, as the journal shows it. Amounts are in mills.
use crate::cells::{
    Cell, add_cell, amount_cell, customer_number, day_cell, device_cell, number_cell, of_words,
    widened, word_cell,
};
use crate::entry::Amount;
use bench_base::numbers::{Customer, DayNo, DevNo};
use std::alloc::{AllocError, Global};

/// What the line did.
#[derive(Clone, Copy)]
pub enum OwnKind {
    /// A claim was credited.
    Credited,
    /// A quota was set.
    Quota,
    /// A job was given to a department.
    Assigned,
    /// A manifest was checked: each of its pieces was accepted, or not.
    ManifestYes,
    ManifestNo,
    StatementOpened,
    StatementClosed,
}

/// Whose sum an entry has: the credits of a customer, what a department has left of its quota, or what a customer has left.
#[derive(Clone, Copy)]
pub enum OwnAccount {
    Credits(Customer),
    Department(u32),
    Customer(Customer),
}

/// What a line of its own did. What is not there is None.
#[derive(Clone, Copy)]
pub struct OwnEntry {
    pub kind: OwnKind,
    pub day: Option<DayNo>,
    pub device: Option<DevNo>,
    pub customer: Option<Customer>,
    /// The number of the claim, the department or the job, or of the pieces of a manifest; 0 if there is no number.
    pub number: u32,
    pub piece: Option<u32>,
    pub job: Option<u32>,
    /// What was added to the sum, or the postage of a manifest.
    pub amount: Option<Amount>,
    pub account: Option<OwnAccount>,
    /// The sum of the account after the line.
    pub balance: Option<u64>,
}

impl OwnEntry {
    /// An entry with only the kind and a number known.
    pub fn new(kind: OwnKind, number: u32) -> OwnEntry {
        OwnEntry {
            kind,
            day: None,
            device: None,
            customer: None,
            number,
            piece: None,
            job: None,
            amount: None,
            account: None,
            balance: None,
        }
    }
}

fn kind_word(kind: OwnKind) -> &'static str {
    match kind {
        OwnKind::Credited => "credited",
        OwnKind::Quota => "quota",
        OwnKind::Assigned => "assigned",
        OwnKind::ManifestYes => "manifest yes",
        OwnKind::ManifestNo => "manifest no",
        OwnKind::StatementOpened => "statement opened",
        OwnKind::StatementClosed => "statement closed",
    }
}

fn account_text(alloc: Global, account: OwnAccount) -> Result<String, AllocError> {
    match account {
        OwnAccount::Credits(customer) => format!(in alloc; "credits {}", customer.get()),
        OwnAccount::Department(department) => format!(in alloc; "department {department}"),
        OwnAccount::Customer(customer) => format!(in alloc; "customer {}", customer.get()),
    }
}

fn account_cell(alloc: Global, account: Option<OwnAccount>) -> Result<Cell, AllocError> {
    match account {
        Some(account) => of_words(account_text(alloc, account)),
        None => Ok(Cell::Empty),
    }
}

// Adds where, when and what was done: the columns up to the verdict. No node did it.
fn add_doing(
    alloc: Global,
    cells: &mut Vec<Cell>,
    line: u32,
    entry: &OwnEntry,
) -> Result<(), AllocError> {
    add_cell(cells, number_cell(alloc, Some(line as u64)))?;
    add_cell(cells, day_cell(alloc, entry.day))?;
    add_cell(cells, Ok(Cell::Empty))?;
    add_cell(cells, word_cell(alloc, Some(kind_word(entry.kind))))?;
    add_cell(cells, Ok(Cell::Empty))?;
    add_cell(cells, Ok(Cell::Empty))
}

// Adds whom and which mail it was done to: the columns from the device to the class.
fn add_subject(alloc: Global, cells: &mut Vec<Cell>, entry: &OwnEntry) -> Result<(), AllocError> {
    add_cell(cells, device_cell(alloc, entry.device))?;
    add_cell(cells, number_cell(alloc, customer_number(entry.customer)))?;
    add_cell(cells, number_cell(alloc, Some(entry.number as u64)))?;
    add_cell(cells, number_cell(alloc, widened(entry.piece)))?;
    add_cell(cells, number_cell(alloc, widened(entry.job)))?;
    add_cell(cells, Ok(Cell::Empty))
}

// Adds what it moved: the columns after the class.
fn add_sum(alloc: Global, cells: &mut Vec<Cell>, entry: &OwnEntry) -> Result<(), AllocError> {
    add_cell(cells, Ok(Cell::Empty))?;
    add_cell(cells, amount_cell(alloc, entry.amount))?;
    add_cell(cells, account_cell(alloc, entry.account))?;
    add_cell(cells, number_cell(alloc, entry.balance))?;
    add_cell(cells, Ok(Cell::Empty))
}

/// What is in the columns after the run, in their order, for what was done at this line. AllocError is lack of memory.
pub fn own_cells(alloc: Global, line: u32, entry: &OwnEntry) -> Result<Vec<Cell>, AllocError> {
    let mut cells = Vec::new(alloc);
    add_doing(alloc, &mut cells, line, entry)?;
    add_subject(alloc, &mut cells, entry)?;
    add_sum(alloc, &mut cells, entry)?;
    Ok(cells)
}
