//! A row as comma-separated values: RFC 4180.
use crate::cells::Cell;
use crate::fault::BookFault;
use csv::{Terminator, WriterBuilder};
use std::alloc::Global;

/// The first row: the names of the columns.
pub const NAMES: &[u8] =
    b"run,line,day,node,kind,request,verdict,device,customer,number,piece,job,class,asked,amount,account,balance,counted\r\n";

// What is in the column, as bytes.
fn bytes_of(cell: &Cell) -> &[u8] {
    match cell {
        Cell::Empty => &[],
        Cell::Number(text) | Cell::Words(text) => text.as_bytes(),
    }
}

// The bytes of a record of these fields.
fn record_of(alloc: Global, fields: &[&[u8]]) -> Result<Vec<u8>, csv::Error> {
    let mut writer = WriterBuilder::new()
        .terminator(Terminator::CRLF)
        .from_writer(Vec::new(alloc));
    writer.write_fields(fields)?;
    match writer.into_inner() {
        Ok(bytes) => Ok(bytes),
        Err(fault) => Err(fault.into_error()),
    }
}

/// The record of a row of this run, with what is in the columns after it. BookFault::Memory is lack of memory.
pub fn csv_row(alloc: Global, run: &str, cells: &[Cell]) -> Result<Vec<u8>, BookFault> {
    let mut fields = Vec::new(alloc);
    let Ok(()) = fields.push(run.as_bytes()) else {
        return Err(BookFault::Memory);
    };
    for cell in cells.iter() {
        let Ok(()) = fields.push(bytes_of(cell)) else {
            return Err(BookFault::Memory);
        };
    }
    match record_of(alloc, fields.as_slice()) {
        Ok(bytes) => Ok(bytes),
        Err(_) => Err(BookFault::Memory),
    }
}
