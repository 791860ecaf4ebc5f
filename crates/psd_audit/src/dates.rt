//! A civil date out of its text.
ghost use Rattle.std.specs.Prelude.{◌≡◌, ℤ, pos, neg_ℤ, ◌≤ℤ◌, ◌≤◌, IfSome, IfNone, MatchOption, length, true, false};
ghost use Rattle.std.specs.Str.{all_ascii_digits};
ghost use Rattle.jiff_core.specs.Calendar.{IsDate, days_from_civil};
ghost use Rattle.psd_audit.specs.Dates.{IsDateText, read_on};

use bench_base::numbers::DayNo;
use jiff_core::civil::Date;

/// The number that these decimal digits write; None if and only if a byte is no digit.
pub fn digits(word: &[u8]) -> Option<u64>
    requires { length word.now ≤ 10 }
    ensures value { MatchOption result (all_ascii_digits word.now ≡ false)
        (λ n. (all_ascii_digits word.now ≡ true) × (n ≡ read_on 0 word.now)) }
{
    let mut value: u64 = 0;
    for (i, byte) in word.iter().enumerate() {
        if !byte.is_ascii_digit() {
            return None;
        }
        value = value * 10 + u64::from(*byte - b'0');
    }
    Some(value)
}

// The number of this civil day, if there is one.
fn day_number(year: u64, month: u64, day: u64) -> Option<i32>
    requires year { year ≤ 9999 }
    requires month { month ≤ 99 }
    requires day { day ≤ 99 }
    ensures found { IfSome result (λ n. IsDate (pos year) (pos month) (pos day) × (n ≡ days_from_civil (pos year) month day)) }
    ensures small { IfSome result (λ n. (neg_ℤ (pos 4371587) ≤ℤ n) × (n ≤ℤ pos 2932896)) }
    ensures none { IfNone result (IsDate (pos year) (pos month) (pos day) → ⊥) }
{
    match Date::new(year as i16, month as i8, day as i8) {
        Ok(date) => Some(date.to_unix_epoch_day()),
        Err(_) => None,
    }
}

/// The day of a date that is written `YYYY-MM-DD` in ten ASCII bytes; None if and only if the bytes are no civil
/// date from 2000-01-01 to 2199-12-31.
pub fn read_date(text: &[u8]) -> Option<DayNo>
    ensures found { IfSome result (λ d. IsDateText d text.now) }
    ensures none { IfNone result ((d : ℤ) → pos 10957 ≤ℤ d → d ≤ℤ pos 84005 → IsDateText d text.now → ⊥) }
{
    if text.len() != 10 || text[4] != b'-' || text[7] != b'-' {
        return None;
    }
    let year = digits(&text[..4])?;
    let month = digits(&text[5..7])?;
    let day = digits(&text[8..10])?;
    if year > 9999 || month > 99 || day > 99 {
        return None;
    }
    match day_number(year, month, day) {
        Some(number) => DayNo::new(number),
        None => None,
    }
}
