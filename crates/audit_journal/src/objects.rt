//! A row as an object of JSON: RFC 8259.
use crate::cells::{BEHIND_RUN, Cell};
use serde_json::json;
use std::alloc::{AllocError, Global};

// The text in quotes, with what may not be in them escaped.
fn quoted(alloc: Global, text: &str) -> Result<String, AllocError> {
    let text = json!(in alloc; text)?.to_string(alloc)?;
    Ok(text)
}

// What is in the column, as a JSON value.
fn value_of(alloc: Global, cell: &Cell) -> Result<String, AllocError> {
    match cell {
        Cell::Empty => format!(in alloc; "null"),
        Cell::Number(text) => format!(in alloc; "{text}"),
        Cell::Words(text) => quoted(alloc, text.as_str()),
    }
}

// Adds the name of a column to an object that has one.
fn add_name(object: &mut String, name: &str) -> Result<(), AllocError> {
    object.push_str(",\"")?;
    object.push_str(name)?;
    object.push_str("\":")
}

// Adds a column to an object that has one.
fn add_column(
    alloc: Global,
    object: &mut String,
    name: &str,
    cell: &Cell,
) -> Result<(), AllocError> {
    add_name(object, name)?;
    let value = value_of(alloc, cell)?;
    object.push_str(value.as_str())
}

// Adds the columns after the run.
fn add_columns(alloc: Global, object: &mut String, cells: &[Cell]) -> Result<(), AllocError> {
    for at in 0..cells.len() {
        if at < BEHIND_RUN.len() {
            add_column(alloc, object, BEHIND_RUN[at], &cells[at])?;
        }
    }
    Ok(())
}

// An object that has the name of the run, and no end.
fn begun(alloc: Global, run: &str) -> Result<String, AllocError> {
    let run = quoted(alloc, run)?;
    format!(in alloc; "{{\"run\":{run}")
}

/// The object of a row of this run, with what is in the columns after it. AllocError is lack of memory.
pub fn json_row(alloc: Global, run: &str, cells: &[Cell]) -> Result<String, AllocError> {
    let mut object = begun(alloc, run)?;
    add_columns(alloc, &mut object, cells)?;
    object.push('}')?;
    Ok(object)
}
