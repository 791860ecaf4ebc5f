//! A line of a page.
use audit_journal::BookFault;
use audit_tally::Place;
use audit_words::{shown, shown_text};
use bench_base::events::Reply;
use script_text::{Line, put_reply};
use std::alloc::{AllocError, Global};

/// Prints the line. BookFault::Write if standard output takes no more, BookFault::Memory if there was no text for lack of memory.
pub fn say(rt: &HostRuntime, text: Result<String, AllocError>) -> Result<(), BookFault> {
    let Ok(text) = text else {
        return Err(BookFault::Memory);
    };
    match println!(rt; "{text}") {
        Ok(()) => Ok(()),
        Err(_) => Err(BookFault::Write),
    }
}

/// Prints the line that a report has for this reply. BookFault::Write if standard output takes no more, BookFault::Memory is lack of memory.
pub fn tell_reply(rt: &HostRuntime, reply: Reply) -> Result<(), BookFault> {
    let mut line = Line::new();
    put_reply(&mut line, &reply);
    say(rt, shown(rt.alloc(), line.as_slice()))
}

/// The line, with the name of its run as it is shown. AllocError is lack of memory.
pub fn place_text(alloc: Global, names: &[String], place: &Place) -> Result<String, AllocError> {
    match names.get(place.run) {
        Some(name) => {
            let run = shown_text(alloc, name.as_str())?;
            format!(in alloc; "{run} line {}", place.line)
        }
        None => format!(in alloc; "line {}", place.line),
    }
}
