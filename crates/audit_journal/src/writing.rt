//! The journal on its way to standard output.
use crate::cells::{Cell, cells_of};
use crate::entry::{At, Row, place_of};
use crate::fault::BookFault;
use crate::ledger::{HEAD, doubt_comment, transaction, void_comment};
use crate::objects::json_row;
use crate::own::{OwnEntry, own_cells};
use crate::records::{NAMES, csv_row};
use bench_base::numbers::DayNo;
use std::alloc::{AllocError, Global};
use std::io::{self, Write};

/// How much is kept before it is written, in bytes.
const KEPT: usize = 8192;

/// How the journal is written.
#[derive(Clone, Copy)]
pub enum Form {
    /// Not at all.
    None,
    /// RFC 4180, with a row of names.
    Csv,
    /// RFC 8259: an array of objects.
    Json,
    /// Transactions in plain text, as hledger reads them.
    Ledger,
}

/// Rows on their way to standard output.
#[derive(Drop)]
pub struct Journal {
    form: Form,
    kept: Vec<u8>,
    has_rows: bool,
    /// For each node, the date of its last transaction.
    dates: [Option<DayNo>; 11],
}

// The later of the two days. A script may go back in days; the transactions of a node do not, since their balances are asserted in the order of their dates.
fn later(day: DayNo, last: Option<DayNo>) -> DayNo {
    match last {
        Some(last) if last.get() > day.get() => last,
        _ => day,
    }
}

impl Journal {
    /// A journal without a row.
    pub fn new(alloc: Global, form: Form) -> Journal {
        Journal {
            form,
            kept: Vec::new(alloc),
            has_rows: false,
            dates: [None; 11],
        }
    }

    fn put(&mut self, bytes: &[u8]) -> Result<(), BookFault> {
        match self.kept.extend_from_slice(bytes) {
            Ok(()) => Ok(()),
            Err(_) => Err(BookFault::Memory),
        }
    }

    // Puts a text, if there is one.
    fn put_text(&mut self, text: Result<Option<String>, AllocError>) -> Result<(), BookFault> {
        match text {
            Ok(Some(text)) => self.put(text.as_bytes()),
            Ok(None) => Ok(()),
            Err(_) => Err(BookFault::Memory),
        }
    }

    // Writes what is kept.
    fn write(&mut self, rt: &HostRuntime) -> Result<(), BookFault> {
        let Ok(()) = io::writer(rt).write_all(self.kept.as_slice()) else {
            return Err(BookFault::Write);
        };
        self.kept.clear();
        Ok(())
    }

    // Writes what is kept, if it is much.
    fn write_much(&mut self, rt: &HostRuntime) -> Result<(), BookFault> {
        if self.kept.len() < KEPT {
            return Ok(());
        }
        self.write(rt)
    }

    /// Begins it: the names of the columns, the bracket of an array, or the head of a ledger. BookFault::Memory is lack of memory.
    pub fn begin(&mut self) -> Result<(), BookFault> {
        match self.form {
            Form::None => Ok(()),
            Form::Csv => self.put(NAMES),
            Form::Json => self.put(b"["),
            Form::Ledger => self.put(HEAD.as_bytes()),
        }
    }

    /// Ends it, and writes what is kept. BookFault::Write if standard output takes no more, BookFault::Memory is lack of memory.
    pub fn end(&mut self, rt: &HostRuntime) -> Result<(), BookFault> {
        match self.form {
            Form::None => Ok(()),
            Form::Csv | Form::Ledger => self.write(rt),
            Form::Json => {
                self.put(b"\n]\n")?;
                self.write(rt)
            }
        }
    }

    fn put_csv(&mut self, alloc: Global, run: &str, cells: &[Cell]) -> Result<(), BookFault> {
        let record = csv_row(alloc, run, cells)?;
        self.put(record.as_slice())
    }

    fn put_json(&mut self, alloc: Global, run: &str, cells: &[Cell]) -> Result<(), BookFault> {
        let Ok(object) = json_row(alloc, run, cells) else {
            return Err(BookFault::Memory);
        };
        let between: &[u8] = if self.has_rows { b",\n" } else { b"\n" };
        self.put(between)?;
        self.has_rows = true;
        self.put(object.as_bytes())
    }

    // Puts the transaction of a commit that moves money. Without a day nothing was done.
    fn put_transaction(&mut self, alloc: Global, row: &Row<'_>) -> Result<(), BookFault> {
        let Some(day) = row.entry.day else {
            return Ok(());
        };
        let place = place_of(&row.entry.node);
        let dated = later(day, self.dates[place]);
        self.dates[place] = Some(dated);
        self.put_text(transaction(alloc, row, dated))
    }

    // Puts a row of this run, with what is in the columns after it. A ledger has no rows.
    fn put_row(
        &mut self,
        alloc: Global,
        run: &str,
        cells: Result<Vec<Cell>, AllocError>,
    ) -> Result<(), BookFault> {
        let Ok(cells) = cells else {
            return Err(BookFault::Memory);
        };
        match self.form {
            Form::None | Form::Ledger => Ok(()),
            Form::Csv => self.put_csv(alloc, run, cells.as_slice()),
            Form::Json => self.put_json(alloc, run, cells.as_slice()),
        }
    }

    /// Adds a row after the others. BookFault::Write if standard output takes no more, BookFault::Memory is lack of memory.
    pub fn add(&mut self, rt: &HostRuntime, row: &Row<'_>) -> Result<(), BookFault> {
        match self.form {
            Form::None => return Ok(()),
            Form::Csv | Form::Json => {
                self.put_row(rt.alloc(), row.at.run, cells_of(rt.alloc(), row))?;
            }
            Form::Ledger => self.put_transaction(rt.alloc(), row)?,
        }
        self.write_much(rt)
    }

    /// Adds a row for what a line of a run's own did. A ledger has none: no node's money moved. Faults as of `add`.
    pub fn add_own(
        &mut self,
        rt: &HostRuntime,
        at: At<'_>,
        entry: &OwnEntry,
    ) -> Result<(), BookFault> {
        match self.form {
            Form::None | Form::Ledger => return Ok(()),
            Form::Csv | Form::Json => {
                self.put_row(rt.alloc(), at.run, own_cells(rt.alloc(), at.line, entry))?;
            }
        }
        self.write_much(rt)
    }

    /// Notes that the commit of the row is in doubt: in a ledger, by a comment. BookFault::Write if standard output takes no more,
    /// BookFault::Memory is lack of memory.
    pub fn doubt(&mut self, rt: &HostRuntime, row: &Row<'_>) -> Result<(), BookFault> {
        let Form::Ledger = self.form else {
            return Ok(());
        };
        self.put_text(doubt_comment(rt.alloc(), row))?;
        self.write_much(rt)
    }

    /// Notes that the commit of the row, which was in doubt, does not count by this `up`: in a ledger, by a comment. BookFault::Write if
    /// standard output takes no more, BookFault::Memory is lack of memory.
    pub fn void(&mut self, rt: &HostRuntime, row: &Row<'_>, up: At<'_>) -> Result<(), BookFault> {
        let Form::Ledger = self.form else {
            return Ok(());
        };
        self.put_text(void_comment(rt.alloc(), row, up))?;
        self.write_much(rt)
    }
}
