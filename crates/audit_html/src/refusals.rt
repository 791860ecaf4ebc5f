//! Refusals: a row for each cause, with what it means and what to do.
use crate::incidents::put_place;
use audit_facts::{
    PageContent, Refused, cause_words, is_alarm, is_of_device, meaning_of, remedy_for,
};
use audit_markup::{
    MOST_ROWS, begin_table, end_table, put_count, put_counted, put_head, put_more, put_number_head,
    put_time,
};
use audit_sheet::Sheet;

// Whether the first of the two comes before the other: alarms first, then the most frequent, then the earliest.
fn is_before(first: &Refused, at: usize, other: &Refused, other_at: usize) -> bool {
    let is_first_alarm = is_alarm(first.cause);
    if is_first_alarm != is_alarm(other.cause) {
        return is_first_alarm;
    }
    if first.count != other.count {
        return first.count > other.count;
    }
    at < other_at
}

// The place of the row after this one; without one of the first row.
fn next_of(rows: &[Refused], last: Option<usize>) -> Option<usize> {
    let mut found: Option<usize> = None;
    for at in 0..rows.len() {
        if is_after(rows, last, at) && is_nearer(rows, found, at) {
            found = Some(at);
        }
    }
    found
}

// Whether the row comes after this one, if there is one.
fn is_after(rows: &[Refused], last: Option<usize>, at: usize) -> bool {
    let Some(last) = last else {
        return true;
    };
    match (rows.get(last), rows.get(at)) {
        (Some(before), Some(row)) => is_before(before, last, row, at),
        _ => false,
    }
}

// Whether the row comes before the one that was found, if there is one.
fn is_nearer(rows: &[Refused], found: Option<usize>, at: usize) -> bool {
    let Some(found) = found else {
        return true;
    };
    match (rows.get(at), rows.get(found)) {
        (Some(row), Some(other)) => is_before(row, at, other, found),
        _ => false,
    }
}

// Puts who refuses, and why.
fn put_cause(sheet: &mut Sheet, row: &Refused) {
    if is_of_device(row.cause) {
        put_devices(sheet, row);
        sheet.put_own(" ");
    }
    sheet.put_own(cause_words(row.cause));
}

// Puts the devices that refused.
fn put_devices(sheet: &mut Sheet, row: &Refused) {
    let mut is_first = true;
    for at in 0..8 {
        if row.devices[at] {
            sheet.put_own(if is_first { "d" } else { ", d" });
            sheet.put_number(at as u64 + 1);
            is_first = false;
        }
    }
}

// Puts what a cause means, and what to do.
fn put_meaning(sheet: &mut Sheet, cause: usize) {
    sheet.put_own("</th><td>");
    if is_alarm(cause) {
        sheet.put_own("<b>");
    }
    sheet.put_own(meaning_of(cause));
    if is_alarm(cause) {
        sheet.put_own("</b>");
    }
    sheet.put_own("</td><td>");
    sheet.put_own(remedy_for(cause));
    sheet.put_own("</td><td class=\"n\">");
}

fn put_row(sheet: &mut Sheet, page: &PageContent<'_>, row: &Refused) {
    sheet.put_own("<tr><th scope=\"row\">");
    put_cause(sheet, row);
    put_meaning(sheet, row.cause);
    put_counted(sheet, row.count);
    sheet.put_own("&times;</td><td>");
    if let Some(day) = row.day {
        put_time(sheet, i64::from(day.get()));
    }
    sheet.put_own("</td>");
    put_place(sheet, page, &row.last);
    sheet.put_own("</tr>");
}

fn put_heads(sheet: &mut Sheet) {
    sheet.put_own("; nothing changes by one</small></h3>");
    begin_table(sheet, "nw");
    put_head(sheet, "who and why");
    put_head(sheet, "meaning");
    put_head(sheet, "what to do");
    put_number_head(sheet, "count");
    put_head(sheet, "first day");
    put_head(sheet, "last at");
    sheet.put_own("</tr></thead><tbody>");
}

fn put_rows(sheet: &mut Sheet, page: &PageContent<'_>, rows: &[Refused]) {
    let mut last = None;
    for _ in 0..MOST_ROWS {
        let Some(at) = next_of(rows, last) else {
            return;
        };
        if let Some(row) = rows.get(at) {
            put_row(sheet, page, row);
        }
        last = Some(at);
    }
}

/// Puts the refusals.
pub fn put_refusals(sheet: &mut Sheet, page: &PageContent<'_>, rows: &[Refused]) {
    if rows.is_empty() {
        return;
    }
    let mut count = 0u64;
    for row in rows.iter() {
        count = count.saturating_add(row.count);
    }
    sheet.put_own("<h3>Refusals <small>");
    put_count(sheet, count);
    put_heads(sheet);
    put_rows(sheet, page, rows);
    end_table(sheet);
    put_more(sheet, rows.len(), MOST_ROWS, "the causes after these");
}
