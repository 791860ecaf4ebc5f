//! Days as dates.
use audit_sheet::Sheet;
use jiff_core::civil::Date;

const MONTHS: [&str; 12] = [
    "January",
    "February",
    "March",
    "April",
    "May",
    "June",
    "July",
    "August",
    "September",
    "October",
    "November",
    "December",
];

const SHORT_MONTHS: [&str; 12] = [
    "Jan", "Feb", "Mar", "Apr", "May", "Jun", "Jul", "Aug", "Sep", "Oct", "Nov", "Dec",
];

/// A date.
#[derive(Clone, Copy)]
pub struct Civil {
    pub year: u32,
    /// From 0 on.
    pub month: u32,
    pub day: u32,
}

/// The date of a day, counted from 1970-01-01; the first day of the year 0 if there is none.
pub fn civil_of(day: i64) -> Civil {
    match Date::from_unix_epoch_day(day) {
        Ok(date) => Civil {
            year: u32::try_from(date.year).unwrap_or(0),
            month: (date.month as u32).saturating_sub(1),
            day: date.day as u32,
        },
        Err(_) => Civil {
            year: 0,
            month: 0,
            day: 1,
        },
    }
}

/// The month of a day, counted from January of the year 0.
pub fn month_of(day: i64) -> u32 {
    let civil = civil_of(day);
    civil.year.saturating_mul(12).saturating_add(civil.month)
}

/// The first day of a month, which is counted from January of the year 0.
pub fn month_start(month: u32) -> i64 {
    let year = i16::try_from(month / 12).unwrap_or(0);
    match Date::new(year, (month % 12 + 1) as i8, 1) {
        Ok(date) => date.to_unix_epoch_day() as i64,
        Err(_) => 0,
    }
}

// Puts a number as at least two digits.
fn put_two(sheet: &mut Sheet, number: u32) {
    if number < 10 {
        sheet.put_own("0");
    }
    sheet.put_number(number as u64);
}

/// Puts a month, such as `2026-03`.
pub fn put_month(sheet: &mut Sheet, month: u32) {
    sheet.put_number((month / 12) as u64);
    sheet.put_own("-");
    put_two(sheet, month % 12 + 1);
}

/// Puts a date as digits alone, such as `2026-03-02`.
pub fn put_date(sheet: &mut Sheet, day: i64) {
    put_month(sheet, month_of(day));
    sheet.put_own("-");
    put_two(sheet, civil_of(day).day);
}

/// The short name of the month, which is counted from 0.
pub fn month_name(month: u32) -> &'static str {
    SHORT_MONTHS[(month % 12) as usize]
}

/// Puts a date in words, such as `2 March 2026`.
pub fn put_date_words(sheet: &mut Sheet, day: i64) {
    let civil = civil_of(day);
    sheet.put_number(civil.day as u64);
    sheet.put_own(" ");
    sheet.put_own(MONTHS[(civil.month % 12) as usize]);
    sheet.put_own(" ");
    sheet.put_number(civil.year as u64);
}

/// Puts a date as digits that a program can read.
pub fn put_time(sheet: &mut Sheet, day: i64) {
    sheet.put_own("<time>");
    put_date(sheet, day);
    sheet.put_own("</time>");
}
