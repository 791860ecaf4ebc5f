//! The strip below the picture of a device: whether it and the centre agree at the end of each cell, or money is in flight.
use audit_markup::{part, put_hundredths};
use audit_plots::NONE;
use audit_sheet::Sheet;

/// What a part of the strip shows.
#[derive(Clone, Copy, PartialEq, Eq)]
enum Shown {
    Nothing,
    Agreement,
    Flight,
}

// What the strip shows of a cell.
fn shown_at(franked: &[u64], flight: &[u64], at: usize) -> Shown {
    let franked = franked.get(at).copied().unwrap_or(NONE);
    let flight = flight.get(at).copied().unwrap_or(NONE);
    if flight != NONE && flight > 0 {
        Shown::Flight
    } else if franked == NONE && flight == NONE {
        Shown::Nothing
    } else {
        Shown::Agreement
    }
}

// Puts a part of the strip, which is that of so many cells.
fn put_part(sheet: &mut Sheet, shown: Shown, from: usize, to: usize, cells: usize) {
    if shown == Shown::Nothing || from >= to {
        return;
    }
    let begin = part(from as u64, cells as u64, 10_000);
    let end = part(to as u64, cells as u64, 10_000);
    sheet.put_own(if shown == Shown::Flight {
        "<rect class=\"s-w\" x=\""
    } else {
        "<rect class=\"s-g\" x=\""
    });
    put_hundredths(sheet, begin);
    sheet.put_own("\" width=\"");
    put_hundredths(sheet, end.saturating_sub(begin));
    sheet.put_own("\" y=\"176\" height=\"6\"/>");
}

/// Puts the strip of a device, by what it franked and what was in flight at the end of each cell.
pub fn put_strip(sheet: &mut Sheet, franked: &[u64], flight: &[u64]) {
    let cells = franked.len();
    let mut from = 0usize;
    let mut shown = Shown::Nothing;
    sheet.put_own("<g>");
    for at in 0..cells {
        let next = shown_at(franked, flight, at);
        if next != shown {
            put_part(sheet, shown, from, at, cells);
            from = at;
            shown = next;
        }
    }
    put_part(sheet, shown, from, cells, cells);
    sheet.put_own("</g>");
}
