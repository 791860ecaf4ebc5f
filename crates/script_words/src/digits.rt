//! Decimal and hexadecimal digits.
ghost use Rattle.std.specs.Prelude.{◌≡◌, ◌≢◌, ℕ, List, ◌<◌, ◌≤◌, ◌^◌, length, decimal, slice_index, IfSome, IfNone, MatchBool};
ghost use Rattle.hex.specs.Hex.{lower_digits};
ghost use Rattle.script_words.specs.Words.{hex_word, IsLowerDigit};
ghost use Rattle.bench_base.specs.Table.{IsBytes};

use psd_audit::digits;

/// The number of this word: decimal digits without a leading zero. None for any other word, and for every number
/// that has more than ten digits.
pub fn number(word: &[u8]) -> Option<u64>
    ensures found { IfSome result (λ n. (word.now ≡ decimal n) × (n < 10 ^ 10)) }
    ensures none { IfNone result ((n : ℕ) → n < 2 ^ 32 → word.now ≢ decimal n) }
{
    if word.is_empty() {
        return None;
    }
    if word.len() > 10 {
        return None;
    }
    if word[0] == b'0' && word.len() > 1 {
        return None;
    }
    digits(word)
}

// What a lower-case hexadecimal digit represents; 255 for any other byte.
fn value_of(digit: u8) -> u8
    ensures digit { result < 16 → slice_index lower_digits result ≡ digit }
    ensures other { 16 ≤ result → IsLowerDigit digit → ⊥ }
{
    match digit {
        b'0'..=b'9' => digit - b'0',
        b'a'..=b'f' => digit - b'a' + 10,
        _ => 255,
    }
}

/// Whether the word has two lower-case hexadecimal digits for each byte of the room; these are then its bytes.
pub fn read_hex(word: &[u8], room: &mut [u8]) -> bool
    ensures read { MatchBool result ((word.now ≡ hex_word room.new) × IsBytes room.new × (length room.new ≡ length room.old))
        ((bytes : List ℕ) → length bytes ≡ length room.old → IsBytes bytes → word.now ≢ hex_word bytes) }
{
    if word.len() % 2 != 0 || word.len() / 2 != room.len() {
        return false;
    }
    let mut greatest = 0;
    for at in 0..room.len() {
        let high = value_of(word[2 * at]);
        let low = value_of(word[2 * at + 1]);
        greatest = high.max(low).max(greatest);
        room[at] = high.wrapping_mul(16).wrapping_add(low);
    }
    greatest < 16
}
