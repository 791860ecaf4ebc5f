//! The first word of a line that no event has there.
ghost use Rattle.std.specs.Prelude.{◌≡◌, ◌↔◌, ◌+◌, ◌≤◌, ◌-◌, ◌⊎◌, [], ◌∷◌, slice_get, None, Some, IsNone, IfSome, MatchOption};
ghost use Rattle.bench_base.specs.declared.events.Event.{Event};
ghost use Rattle.bench_base.specs.Events.{IsWholeEvent};
ghost use Rattle.script_text.specs.Keywords.{keyword_word};
ghost use Rattle.script_check.specs.Wrong.{IsFirstWrong, IsWordAt, IsBehindAll};
ghost use Rattle.script_text.specs.Grammar.{Spells};
ghost use Rattle.script_words.specs.Words.{words_in};

use crate::fault::{Hint, Wanted, WordFault};
use crate::forms::{count_taken, form_behind, form_beside};
use crate::slots::Slot;
use script_text::{Keyword, read_event, read_keyword};
use script_words::split_word;

// The word after so many others.
fn word_behind(count: usize, words: &[u8]) -> Option<&[u8]>
    ensures { MatchOption result (slice_get (words_in words.now) count ≡ None) (λ w. slice_get (words_in words.now) count ≡ Some w.now) }
{
    let mut rest = words;
    for _at in 0..count {
        match split_word(rest) {
            Some((_, behind)) => rest = behind,
            None => return None,
        }
    }
    match split_word(rest) {
        Some((word, _)) => Some(word),
        None => Some(rest),
    }
}

fn begins_own_line(word: &[u8]) -> bool {
    match word {
        b"claim" | b"dept" | b"manifest" | b"statement" => true,
        _ => false,
    }
}

// What a word that no event has there looks like.
fn hint_of(place: usize, word: &[u8]) -> Hint {
    if word.is_empty() {
        return Hint::Space;
    }
    if place == 1 && word.starts_with(b"\xef\xbb\xbf") {
        return Hint::ByteOrderMark;
    }
    if word.contains(&b'\t') {
        return Hint::Tab;
    }
    if word[word.len() - 1] == b'\r' {
        return Hint::CarriageReturn;
    }
    if word.iter().any(|byte| byte.is_ascii_uppercase()) {
        return Hint::Capital;
    }
    if place == 1 && begins_own_line(word) {
        return Hint::OwnLine;
    }
    Hint::Nothing
}

// What one form or the other has there.
fn wanted_of(slot: Option<&Slot>, other: Option<&Slot>) -> Wanted {
    match (slot, other) {
        (Some(slot), Some(other)) => {
            if *slot == *other {
                Wanted::One(*slot)
            } else {
                Wanted::Either(*slot, *other)
            }
        }
        (Some(slot), None) => Wanted::One(*slot),
        (None, Some(other)) => Wanted::One(*other),
        (None, None) => Wanted::End,
    }
}

// What may follow so many words after the keyword, by the forms that take them.
fn wanted_behind(keyword: Keyword, count: usize, first: usize, second: usize) -> Wanted {
    let form = form_behind(keyword);
    let beside = form_beside(keyword);
    if second < count {
        return wanted_of(form.get(count), None);
    }
    if first < count {
        return wanted_of(None, beside.get(count));
    }
    wanted_of(form.get(count), beside.get(count))
}

fn fault_at(place: usize, found: Option<&[u8]>, wanted: Wanted) -> WordFault<'_>
    ensures place { result.place ≡ place }
    ensures found { result.found ≡ found.entry }
{
    let hint = match found {
        Some(word) => hint_of(place, word),
        None => Hint::Nothing,
    };
    WordFault {
        place,
        found,
        wanted,
        hint,
    }
}

fn greater(first: usize, second: usize) -> usize
    ensures first { first ≤ result }
    ensures second { second ≤ result }
    ensures one { (result ≡ first) ⊎ (result ≡ second) }
{
    if first < second { second } else { first }
}

// The first word after the keyword that no event has there.
fn first_behind(keyword: Keyword, rest: &[u8]) -> WordFault<'_>
    ensures first { IsFirstWrong result.place (keyword_word keyword ∷ words_in rest.now) }
    ensures found { MatchOption result.found (IsBehindAll result.place (keyword_word keyword ∷ words_in rest.now))
        (λ w. IsWordAt result.place (keyword_word keyword ∷ words_in rest.now) w.now) }
{
    let first = count_taken(form_behind(keyword), rest);
    let second = count_taken(form_beside(keyword), rest);
    let count = greater(first, second);
    fault_at(
        count + 2,
        word_behind(count, rest),
        wanted_behind(keyword, count, first, second),
    )
}

// The first word of a line of one word, or the one that is missing after it.
fn first_alone(word: &[u8]) -> WordFault<'_>
    ensures first { IsFirstWrong result.place (word.now ∷ []) }
    ensures found { MatchOption result.found (IsBehindAll result.place (word.now ∷ [])) (λ w. IsWordAt result.place (word.now ∷ []) w.now) }
{
    match read_keyword(word) {
        Some(keyword) => fault_at(2, None, wanted_behind(keyword, 0, 0, 0)),
        None => fault_at(1, Some(word), Wanted::Keyword),
    }
}

// The first word of a line that no event has there.
fn first_wrong(line: &[u8]) -> WordFault<'_>
    ensures first { IsFirstWrong result.place (words_in line.now) }
    ensures found { MatchOption result.found (IsBehindAll result.place (words_in line.now)) (λ w. IsWordAt result.place (words_in line.now) w.now) }
{
    match split_word(line) {
        Some((word, rest)) => match read_keyword(word) {
            Some(keyword) => first_behind(keyword, rest),
            None => fault_at(1, Some(word), Wanted::Keyword),
        },
        None => first_alone(line),
    }
}

/// What is wrong with a line; None if and only if the line is that of an event. Otherwise the place is that of the first word that no event has there,
/// given the words before it.
///
/// The line comes without its line end. An empty line, and one that begins with `#`, are no event, though a run skips them.
pub fn check_line(line: &[u8]) -> Option<WordFault<'_>>
    ensures none { IsNone result ↔ ((e : Event) × IsWholeEvent e × Spells e line.now) }
    ensures first { IfSome result (λ f. IsFirstWrong f.place (words_in line.now)) }
    ensures found { IfSome result (λ f. MatchOption f.found (IsBehindAll f.place (words_in line.now))
        (λ w. IsWordAt f.place (words_in line.now) w.now)) }
{
    match read_event(line) {
        Ok(_) => None,
        Err(_) => Some(first_wrong(line)),
    }
}
