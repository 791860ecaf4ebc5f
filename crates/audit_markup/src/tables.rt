//! Tables: their heads and the cells in them.
use crate::amounts::{put_amount, put_count, put_counted};
use audit_sheet::Sheet;

/// The most rows of a list.
pub const MOST_ROWS: usize = 40;

/// Begins a table of this class, up to its heads.
pub fn begin_table(sheet: &mut Sheet, class: &'static str) {
    sheet.put_own("<div class=\"tw\"><table class=\"");
    sheet.put_own(class);
    sheet.put_own("\"><thead><tr>");
}

/// Puts the head of a column of words.
pub fn put_head(sheet: &mut Sheet, name: &'static str) {
    sheet.put_own("<th scope=\"col\">");
    sheet.put_own(name);
    sheet.put_own("</th>");
}

/// Puts the head of a column of numbers.
pub fn put_number_head(sheet: &mut Sheet, name: &'static str) {
    sheet.put_own("<th scope=\"col\" class=\"n\">");
    sheet.put_own(name);
    sheet.put_own("</th>");
}

/// Ends a table.
pub fn end_table(sheet: &mut Sheet) {
    sheet.put_own("</tbody></table></div>");
}

/// Puts a cell with an amount.
pub fn put_amount_cell(sheet: &mut Sheet, mills: u64) {
    sheet.put_own("<td class=\"n\">");
    put_amount(sheet, mills);
    sheet.put_own("</td>");
}

/// Puts a cell with a count.
pub fn put_count_cell(sheet: &mut Sheet, number: u64) {
    sheet.put_own("<td class=\"n\">");
    put_counted(sheet, number);
    sheet.put_own("</td>");
}

/// Says how many rows of a list are left out, if there are more of them than a list shows.
pub fn put_more(sheet: &mut Sheet, rows: usize, most: usize, what: &'static str) {
    if rows <= most {
        return;
    }
    sheet.put_own("<p class=\"q\">");
    put_count(sheet, (rows - most) as u64);
    sheet.put_own(" more, not listed: ");
    sheet.put_own(what);
    sheet.put_own(".</p>");
}
