//! The lines about the manifest out of their bytes.
ghost use Rattle.std.specs.Prelude.{◌≡◌, ◌≢◌, ◌↔◌, ℕ, List, [], ◌∷◌, length, IfSome, IfNone, IsTrue};
ghost use Rattle.bench_base.specs.Ranges.{IsKey};
ghost use Rattle.bench_base.specs.Table.{IsBytes};
ghost use Rattle.script_words.specs.Words.{words_in, hex_word};
ghost use Rattle.mail_manifest.specs.Listings.{IsOpening};
ghost use Rattle.mail_manifest.specs.ManifestLines.{IsOpenLine, IsInRange, IsManifestLine, open_words, line_words};
ghost use Rattle.mail_manifest.specs.declared.{opening.ManifestLine.ManifestLine as TheLine, opening.Opening.Opening as TheOpening};
ghost use Rattle.mail_manifest.specs.declared.opening.ManifestLine.TheVariants as own;

use crate::opening::{MOST_PIECES, ManifestLine, Opening};
use bench_base::bytes::Given;
use bench_base::words::Key;
use script_words::{four, is_word, one, split_word};

// How many numbers of 32 bits there are.
const WORDS: u64 = 4_294_967_296;

// Whether there is a piece, not too many, and a number for each.
fn is_opening(opening: &Opening) -> bool
    ensures { IsTrue result ↔ IsOpening opening.now }
{
    let count = opening.count;
    opening.first >= 1
        && count >= 1
        && count <= MOST_PIECES
        && u64::from(opening.first) + u64::from(count) <= WORDS
}

// The line of the words after `open`.
fn read_open(rest: &[u8]) -> Option<ManifestLine>
    ensures found { IfSome result (λ line. (o : TheOpening) × IsOpenLine o × (line ≡ own.Open o)
        × (words_in rest.now ≡ open_words o)) }
    ensures none { IfNone result ((o : TheOpening) → IsOpenLine o → words_in rest.now ≢ open_words o) }
{
    let Ok(read) = four::<u32, u16, u64, Key>(rest) else {
        return None;
    };
    let key = read.3;
    let opening = Opening {
        first: read.0,
        count: read.1,
        total: read.2,
        key,
    };
    if is_opening(&opening) {
        Some(ManifestLine::Open(opening))
    } else {
        None
    }
}

// These bytes, where they are 64.
fn mark_of(bytes: &Given) -> Option<[u8; 64]>
    ensures found { IfSome result (λ mark. mark ≡ bytes.now) }
    ensures none { IfNone result (length bytes.now ≢ 64) }
{
    let bytes = bytes.as_slice();
    if bytes.len() != 64 {
        return None;
    }
    let mut mark = [0; 64];
    mark.copy_from_slice(bytes);
    Some(mark)
}

// The line of the words after `piece`.
fn read_piece(rest: &[u8]) -> Option<ManifestLine>
    ensures found { IfSome result (λ line. (mark : List ℕ) × (length mark ≡ 64) × IsBytes mark × (line ≡ own.Piece mark)
        × (words_in rest.now ≡ hex_word mark ∷ [])) }
    ensures none { IfNone result ((mark : List ℕ) → length mark ≡ 64 → IsBytes mark
        → words_in rest.now ≢ hex_word mark ∷ []) }
{
    let Ok(read) = one::<Given>(rest) else {
        return None;
    };
    match mark_of(&read) {
        Some(mark) => Some(ManifestLine::Piece(mark)),
        None => None,
    }
}

// The line of the words after `check`.
fn read_check(rest: &[u8]) -> Option<ManifestLine>
    ensures found { IfSome result (λ line. (code : List ℕ) × IsKey code × (line ≡ own.Check code)
        × (words_in rest.now ≡ hex_word code ∷ [])) }
    ensures none { IfNone result ((code : List ℕ) → IsKey code → words_in rest.now ≢ hex_word code ∷ []) }
{
    match one::<Key>(rest) {
        Ok(code) => Some(ManifestLine::Check(code)),
        Err(_) => None,
    }
}

// The line that has this word after `manifest`, and more after the word.
fn read_long(word: &[u8], rest: &[u8]) -> Option<ManifestLine>
    ensures found { IfSome result (λ line. IsInRange line × (line_words line ≡ word.now ∷ words_in rest.now)) }
    ensures none { IfNone result ((line : TheLine) → IsInRange line → line_words line ≢ word.now ∷ words_in rest.now) }
{
    if is_word(word, b"open") {
        return read_open(rest);
    }
    if is_word(word, b"piece") {
        return read_piece(rest);
    }
    if is_word(word, b"check") {
        return read_check(rest);
    }
    None
}

// The line that has these words after `manifest`.
fn read_behind(bytes: &[u8]) -> Option<ManifestLine>
    ensures found { IfSome result (λ line. IsInRange line × (line_words line ≡ words_in bytes.now)) }
    ensures none { IfNone result ((line : TheLine) → IsInRange line → line_words line ≢ words_in bytes.now) }
{
    match split_word(bytes) {
        Some((word, rest)) => read_long(word, rest),
        None => {
            if is_word(bytes, b"code") {
                return Some(ManifestLine::Code);
            }
            None
        }
    }
}

/// The line about the manifest that the bytes are; None if and only if they are no such line.
pub fn read_manifest_line(line: &[u8]) -> Option<ManifestLine>
    ensures found { IfSome result (λ own. IsManifestLine own line.now) }
    ensures none { IfNone result ((own : TheLine) → IsManifestLine own line.now → ⊥) }
{
    let Some((word, rest)) = split_word(line) else {
        return None;
    };
    if is_word(word, b"manifest") {
        return read_behind(rest);
    }
    None
}
