//! Amounts and counts on a page, each beside its value for a program that reads it.
use audit_sheet::{Sheet, put_grouped};

/// Puts a number in groups of three digits.
pub fn put_count(sheet: &mut Sheet, number: u64) {
    put_grouped(sheet, number as u128);
}

/// Puts a count with its value.
pub fn put_counted(sheet: &mut Sheet, number: u64) {
    sheet.put_own("<data value=\"");
    sheet.put_number(number);
    sheet.put_own("\">");
    put_count(sheet, number);
    sheet.put_own("</data>");
}

/// Puts an amount in dollars with its value in mills.
pub fn put_amount(sheet: &mut Sheet, mills: u64) {
    sheet.put_own("<data value=\"");
    sheet.put_number(mills);
    sheet.put_own("\">");
    sheet.put_mills(mills as i128);
    sheet.put_own("</data>");
}

/// Puts an amount in whole dollars, if it is that.
pub fn put_whole(sheet: &mut Sheet, mills: u64) {
    if mills % 1000 != 0 {
        return sheet.put_mills(mills as i128);
    }
    sheet.put_own("$");
    put_count(sheet, mills / 1000);
}

/// Puts so many things: the number and the word for one, or for any other number.
pub fn many(sheet: &mut Sheet, number: u64, one: &'static str, more: &'static str) {
    put_count(sheet, number);
    sheet.put_own(" ");
    sheet.put_own(if number == 1 { one } else { more });
}

/// Puts tenths of a per cent, such as `39.0%`.
pub fn put_tenths(sheet: &mut Sheet, tenths: u64) {
    sheet.put_number(tenths / 10);
    sheet.put_own(".");
    sheet.put_number(tenths % 10);
    sheet.put_own("%");
}

// The ending of the number of a place.
fn ending(number: u64) -> &'static str {
    let tens = number % 100;
    if tens >= 10 && tens <= 20 {
        return "th";
    }
    match number % 10 {
        1 => "st",
        2 => "nd",
        3 => "rd",
        _ => "th",
    }
}

/// Puts a place among others, such as `45th`.
pub fn put_place(sheet: &mut Sheet, number: u64) {
    sheet.put_number(number);
    sheet.put_own(ending(number));
}

const DIGITS: [&str; 16] = [
    "0", "1", "2", "3", "4", "5", "6", "7", "8", "9", "a", "b", "c", "d", "e", "f",
];

/// Puts a digest of runs.
pub fn put_digest(sheet: &mut Sheet, digest: &[u8; 32]) {
    sheet.put_own("<code>");
    for byte in digest.iter() {
        sheet.put_own(DIGITS[(*byte / 16) as usize]);
        sheet.put_own(DIGITS[(*byte % 16) as usize]);
    }
    sheet.put_own("</code>");
}
