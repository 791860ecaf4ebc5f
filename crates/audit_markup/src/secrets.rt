//! Texts of inputs. A script holds keys, and a line of prints is postage: neither is shown whole.
use audit_sheet::Sheet;
use memchr::memchr;
use std::alloc::{AllocError, Global};

/// The most characters of the name of a run or a file.
const MOST_NAME: usize = 48;

/// The most characters of any other text.
const MOST_TEXT: usize = 240;

/// The digits of a key.
const KEY: usize = 64;

/// The most hexadecimal digits in a row that are shown.
const MOST_DIGITS: usize = 40;

/// How many of more digits are shown at either end.
const ENDS: usize = 8;

// Adds the digits of a long row: its first and its last ones, and how many there are.
fn add_ends(alloc: Global, shown: &mut Vec<u8>, digits: &[u8]) -> Result<(), AllocError> {
    let len = digits.len();
    let front = ENDS.min(len);
    let count = format!(in alloc; "({len} digits)")?;
    shown.extend_from_slice(&digits[..front])?;
    shown.extend_from_slice(b"..")?;
    shown.extend_from_slice(&digits[len - front..])?;
    shown.extend_from_slice(count.as_bytes())
}

// Adds a row of hexadecimal digits as it is shown.
fn add_digits(alloc: Global, shown: &mut Vec<u8>, digits: &[u8]) -> Result<(), AllocError> {
    if digits.len() == KEY {
        return shown.extend_from_slice(b"KEY");
    }
    if digits.len() > MOST_DIGITS {
        return add_ends(alloc, shown, digits);
    }
    shown.extend_from_slice(digits)
}

// Adds a byte to the row of digits, or ends the row by it.
fn add_byte(
    alloc: Global,
    shown: &mut Vec<u8>,
    digits: &mut Vec<u8>,
    byte: u8,
) -> Result<(), AllocError> {
    if byte.is_ascii_hexdigit() {
        digits.push(byte)?;
        return Ok(());
    }
    add_digits(alloc, shown, digits.as_slice())?;
    digits.clear();
    shown.push(byte)?;
    Ok(())
}

// The text without keys and whole marks.
fn masked(alloc: Global, text: &[u8]) -> Result<Vec<u8>, AllocError> {
    let mut shown = Vec::new(alloc);
    let mut digits = Vec::new(alloc);
    for at in 0..text.len() {
        add_byte(alloc, &mut shown, &mut digits, text[at])?;
    }
    add_digits(alloc, &mut shown, digits.as_slice())?;
    Ok(shown)
}

// Puts a text without keys and whole marks.
fn put_masked(sheet: &mut Sheet, text: &[u8], most: usize) {
    match masked(sheet.alloc(), text) {
        Ok(text) => sheet.put_text(text.as_slice(), most),
        Err(_) => sheet.lose(),
    }
}

/// Puts a line of a script or a report without keys and whole marks, cut to so many characters.
pub fn put_code(sheet: &mut Sheet, text: &[u8], most: usize) {
    sheet.put_own("<code>");
    put_masked(sheet, text, most);
    sheet.put_own("</code>");
}

/// Puts the name of a run or a file.
pub fn put_name(sheet: &mut Sheet, name: &str) {
    sheet.put_text(name.as_bytes(), MOST_NAME);
}

// The first word, what is after it, and whether it is the last.
fn next_word(text: &[u8]) -> (&[u8], &[u8], bool) {
    match memchr(b' ', text) {
        Some(at) if at < text.len() => (&text[..at], &text[at + 1..], false),
        _ => (text, &[], true),
    }
}

// Puts a word, marked unless it is the same as the other.
fn put_word(sheet: &mut Sheet, word: &[u8], is_same: bool) {
    if is_same {
        return put_masked(sheet, word, MOST_TEXT);
    }
    sheet.put_own("<mark>");
    put_masked(sheet, word, MOST_TEXT);
    sheet.put_own("</mark>");
}

/// Puts a line word by word. Words that differ from those of the other line are marked.
pub fn put_texts(sheet: &mut Sheet, text: &[u8], other: &[u8]) {
    let mut rest = text;
    let mut other_rest = other;
    let mut is_over = false;
    for _ in 0..text.len() + 1 {
        let (word, behind, is_last) = next_word(rest);
        let (against, other_behind, is_other_last) = next_word(other_rest);
        put_word(sheet, word, !is_over && word == against);
        if is_last {
            return;
        }
        sheet.put_own(" ");
        rest = behind;
        other_rest = other_behind;
        is_over = is_over || is_other_last;
    }
}
