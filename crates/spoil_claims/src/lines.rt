//! The lines of the desk out of their bytes.
ghost use Rattle.std.specs.Prelude.{◌≡◌, ◌<◌, ◌↔◌, ℕ, List, [], ◌∷◌, decimal, IfSome, IfNone, IsOk, IsTrue};
ghost use Rattle.bench_base.specs.Ranges.{IsCustomer};
ghost use Rattle.indicium.specs.Marks.{read_mark};
ghost use Rattle.script_words.specs.Words.{words_in, hex_word};
ghost use Rattle.spoil_claims.specs.ClaimLines.{IsClaim, IsClaimLine, IsScan};
ghost use Rattle.spoil_claims.specs.declared.claim.ClaimLine.{ClaimLine as TheLine};
ghost use Rattle.spoil_claims.specs.declared.claim.ClaimLine.TheVariants as own;

use crate::claim::ClaimLine;
use bench_base::bytes::Given;
use bench_base::numbers::Customer;
use indicium::read_indicium;
use script_text::read_event;
use script_words::{is_word, one, split_word, three};

/// Scans above this number are those of claims.
pub const LAST_SCAN: u32 = 3_000_000_000;

// The mark of these bytes, where they are as many and read as one.
fn mark_of(bytes: &Given) -> Option<[u8; 64]>
    ensures found { IfSome result (λ mark. (mark ≡ bytes.now) × IsOk (read_mark mark)) }
    ensures none { IfNone result (IsOk (read_mark bytes.now) → ⊥) }
{
    let bytes = bytes.as_slice();
    if read_indicium(bytes).is_err() {
        return None;
    }
    let mut mark = [0; 64];
    mark.copy_from_slice(bytes);
    Some(mark)
}

// The claim of the words after `claim`.
fn read_claim(rest: &[u8]) -> Option<ClaimLine>
    ensures found { IfSome result (λ line. (c w : ℕ) × (mark : List ℕ) × IsClaim c w mark × (line ≡ own.Claim c w mark)
        × (words_in rest.now ≡ decimal c ∷ decimal w ∷ hex_word mark ∷ [])) }
    ensures none { IfNone result ((c w : ℕ) (mark : List ℕ) → IsClaim c w mark
        → words_in rest.now ≡ decimal c ∷ decimal w ∷ hex_word mark ∷ [] → ⊥) }
{
    let Ok(read) = three::<u32, Customer, Given>(rest) else {
        return None;
    };
    if read.0 == 0 {
        return None;
    }
    match mark_of(&read.2) {
        Some(mark) => Some(ClaimLine::Claim(read.0, read.1, mark)),
        None => None,
    }
}

// The line of the words after `credits`.
fn read_credits(rest: &[u8]) -> Option<ClaimLine>
    ensures found { IfSome result (λ line. (w : ℕ) × IsCustomer w × (line ≡ own.Credits w)
        × (words_in rest.now ≡ decimal w ∷ [])) }
    ensures none { IfNone result ((w : ℕ) → IsCustomer w → words_in rest.now ≡ decimal w ∷ [] → ⊥) }
{
    match one::<Customer>(rest) {
        Ok(customer) => Some(ClaimLine::Credits(customer)),
        Err(_) => None,
    }
}

// The number of the scan that the line is.
fn scan_in(line: &[u8]) -> Option<u32>
    ensures found { IfSome result (λ n. IsScan n line.now × ((m : ℕ) → IsScan m line.now → m ≡ n)) }
    ensures none { IfNone result ((n : ℕ) → IsScan n line.now → ⊥) }
{
    match read_event(line) {
        Ok(event) => event.scan_number(),
        Err(_) => None,
    }
}

// Whether the line is a scan under a number that is a claim's.
fn is_reserved(line: &[u8]) -> bool
    ensures { IsTrue result ↔ ((n : ℕ) × (3000000000 < n) × IsScan n line.now) }
{
    match scan_in(line) {
        Some(number) => number > LAST_SCAN,
        None => false,
    }
}

// The line of the desk that begins with this word.
fn read_behind(line: &[u8], word: &[u8], rest: &[u8]) -> Option<ClaimLine>
    requires split { words_in line.now ≡ word.now ∷ words_in rest.now }
    ensures found { IfSome result (λ own. IsClaimLine own line.now) }
    ensures none { IfNone result ((own : TheLine) → IsClaimLine own line.now → ⊥) }
{
    if is_word(word, b"claim") {
        return read_claim(rest);
    }
    if is_word(word, b"credits") {
        return read_credits(rest);
    }
    if is_word(word, b"scan") && is_reserved(line) {
        return Some(ClaimLine::Reserved);
    }
    None
}

/// The line of the desk that the bytes are; None if and only if they are no such line.
pub fn read_claim_line(line: &[u8]) -> Option<ClaimLine>
    ensures found { IfSome result (λ own. IsClaimLine own line.now) }
    ensures none { IfNone result ((own : TheLine) → IsClaimLine own line.now → ⊥) }
{
    match split_word(line) {
        Some((word, rest)) => read_behind(line, word, rest),
        None => None,
    }
}
