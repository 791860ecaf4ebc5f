//! The word of each run, by which it is judged: what `--word` says of it, what NAME.word has, or `replay`.
use crate::faults::{Fault, or_memory};
use crate::files::word_bytes;
use audit_words::{Asked, NamedWord, shown, shown_text};

/// The word of a run that can be judged.
#[derive(Clone, Copy, Debug, PartialEq, Eq)]
pub enum Word {
    Replay,
    Claims,
    Departments,
    Manifest,
    Statement,
}

/// What a word says.
#[derive(Clone, Copy)]
enum Meaning {
    Judged(Word),
    /// A word of the meter whose runs are not judged.
    Unjudged,
    /// No word of the meter.
    Unknown,
}

// What the word says.
fn meaning_of(word: &[u8]) -> Meaning {
    match word {
        b"replay" => Meaning::Judged(Word::Replay),
        b"claims" => Meaning::Judged(Word::Claims),
        b"manifest" => Meaning::Judged(Word::Manifest),
        b"departments" => Meaning::Judged(Word::Departments),
        b"statement" => Meaning::Judged(Word::Statement),
        b"generate" | b"recompute" => Meaning::Unjudged,
        _ => Meaning::Unknown,
    }
}

// The word without the line end after it.
fn without_line_end(bytes: &[u8]) -> &[u8] {
    bytes.strip_suffix(b"\n".as_slice()).unwrap_or(bytes)
}

// The word of the run of this name, or why it can't be judged.
fn judged_word(rt: &HostRuntime, name: &str, word: &[u8]) -> Result<Word, Fault> {
    let meaning = meaning_of(word);
    if let Meaning::Judged(word) = meaning {
        return Ok(word);
    }
    let name = or_memory(shown_text(rt.alloc(), name))?;
    let word = or_memory(shown(rt.alloc(), word))?;
    match meaning {
        Meaning::Unknown => Err(Fault::NoWord(name, word)),
        Meaning::Unjudged | Meaning::Judged(_) => Err(Fault::Unjudged(name, word)),
    }
}

// The word that was given for the run of this name.
fn given_word<'a>(given: &'a [NamedWord], name: &str) -> Option<&'a str> {
    for at in 0..given.len() {
        if given[at].name.as_str() == name {
            return Some(given[at].word.as_str());
        }
    }
    None
}

// The word of the run of this name.
fn word_of(rt: &HostRuntime, given: &[NamedWord], name: &str) -> Result<Word, Fault> {
    if let Some(word) = given_word(given, name) {
        return judged_word(rt, name, word.as_bytes());
    }
    match word_bytes(rt, name)? {
        Some(bytes) => judged_word(rt, name, without_line_end(bytes.as_slice())),
        None => Ok(Word::Replay),
    }
}

fn has_name(names: &[String], name: &str) -> bool {
    for at in 0..names.len() {
        if names[at].as_str() == name {
            return true;
        }
    }
    false
}

// Refuses a word of no run.
fn want_runs(rt: &HostRuntime, given: &[NamedWord], names: &[String]) -> Result<(), Fault> {
    for at in 0..given.len() {
        let name = given[at].name.as_str();
        if !has_name(names, name) {
            return Err(Fault::NoRun(or_memory(shown_text(rt.alloc(), name))?));
        }
    }
    Ok(())
}

/// The words of these runs, each in the place of its run.
pub fn words_of(
    rt: &HostRuntime,
    given: &[NamedWord],
    names: &[String],
) -> Result<Vec<Word>, Fault> {
    want_runs(rt, given, names)?;
    let mut words = Vec::new(rt.alloc());
    for place in 0..names.len() {
        let word = word_of(rt, given, names[place].as_str())?;
        or_memory(words.push(word))?;
    }
    Ok(words)
}

/// Refuses the last run if it is of this word, and what is due after its stop is asked for: of lines of its own that is not known.
pub fn want_owing(rt: &HostRuntime, name: &str, word: Word, asked: Asked) -> Result<(), Fault> {
    if word == Word::Replay || asked != Asked::Due {
        return Ok(());
    }
    Err(Fault::ReplayAlone(or_memory(shown_text(rt.alloc(), name))?))
}

/// Whether a run has lines of its own.
pub fn have_own_lines(words: &[Word]) -> bool {
    for place in 0..words.len() {
        if words[place] != Word::Replay {
            return true;
        }
    }
    false
}
