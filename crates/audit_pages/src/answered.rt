//! What checks of manifests, and statements, were answered, on a page.
use crate::saying::{place_text, say};
use audit_book::Answered;
use audit_journal::BookFault;
use std::alloc::{AllocError, Global};

fn answered_text(
    alloc: Global,
    names: &[String],
    answered: &Answered,
) -> Result<String, AllocError> {
    let text = answered.text.as_str();
    let place = place_text(alloc, names, &answered.place)?;
    format!(in alloc; "answered {text} at {place}")
}

/// Prints these answers, a line each. BookFault::Write if standard output takes no more, BookFault::Memory is lack of memory.
pub fn tell_answered(
    rt: &HostRuntime,
    names: &[String],
    rows: &[Answered],
) -> Result<(), BookFault> {
    for answered in rows.iter() {
        say(rt, answered_text(rt.alloc(), names, answered))?;
    }
    Ok(())
}
