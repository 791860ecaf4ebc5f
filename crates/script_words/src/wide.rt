//! Decimal numbers of 64 bits.
ghost use Rattle.std.specs.Prelude.{◌≡◌, ◌≢◌, ◌<◌, ◌≤◌, ◌^◌, ℕ, length, decimal, true, false, IfSome, IfNone, MatchOption};
ghost use Rattle.std.specs.Str.{all_ascii_digits};
ghost use Rattle.psd_audit.specs.Dates.{read_on};

// The most digits of a number of 64 bits.
const WIDE_DIGITS: usize = 20;

// The number that these decimal digits write; None if and only if a byte is no digit.
fn wide_digits(word: &[u8]) -> Option<u128>
    requires { length word.now ≤ 20 }
    ensures value { MatchOption result (all_ascii_digits word.now ≡ false)
        (λ n. (all_ascii_digits word.now ≡ true) × (n ≡ read_on 0 word.now)) }
{
    let mut value: u128 = 0;
    for (i, byte) in word.iter().enumerate() {
        if !byte.is_ascii_digit() {
            return None;
        }
        value = value * 10 + u128::from(*byte - b'0');
    }
    Some(value)
}

// The number, where it has 64 bits.
fn narrow(value: u128) -> Option<u64>
    ensures found { IfSome result (λ n. (n ≡ value) × (value < 2 ^ 64)) }
    ensures none { IfNone result (2 ^ 64 ≤ value) }
{
    if value > u128::from(u64::MAX) {
        return None;
    }
    Some(value as u64)
}

/// The number of 64 bits that the word is, without a leading zero.
pub fn wide_number(word: &[u8]) -> Option<u64>
    ensures found { IfSome result (λ n. word.now ≡ decimal n) }
    ensures none { IfNone result ((n : ℕ) → n < 2 ^ 64 → word.now ≢ decimal n) }
{
    if word.is_empty() {
        return None;
    }
    if word.len() > WIDE_DIGITS {
        return None;
    }
    if word[0] == b'0' && word.len() > 1 {
        return None;
    }
    match wide_digits(word) {
        Some(value) => narrow(value),
        None => None,
    }
}
