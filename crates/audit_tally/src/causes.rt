//! Refusals, by their cause: how many, and where the first and the last were reported.
use crate::counts::one_more;
use crate::place::Place;
use audit_words::shown;
use script_words::split_word;
use std::alloc::{AllocError, Global};

/// Refusals of one cause.
#[derive(Drop)]
pub struct Cause {
    /// Who refused, and why: the line of the report without its first word and without numbers.
    pub words: String,
    pub count: u64,
    pub first: Place,
    pub last: Place,
}

/// All causes, in the order of the first refusals.
#[derive(Drop)]
pub struct Causes {
    rows: Vec<Cause>,
}

// Whether the word is a number.
fn is_number(word: &[u8]) -> bool {
    for at in 0..word.len() {
        if !word[at].is_ascii_digit() {
            return false;
        }
    }
    true
}

// Adds the word, unless it is a number.
fn add_word(alloc: Global, words: &mut String, word: &[u8]) -> Result<(), AllocError> {
    if is_number(word) {
        return Ok(());
    }
    if !words.as_str().is_empty() {
        words.push(' ')?;
    }
    let text = shown(alloc, word)?;
    words.push_str(text.as_str())?;
    Ok(())
}

// The words of the text without those that are numbers.
fn without_numbers(alloc: Global, text: &[u8]) -> Result<String, AllocError> {
    let mut words = String::new(alloc);
    let mut rest = text;
    for _ in 0..text.len() {
        match split_word(rest) {
            Some((word, behind)) => {
                add_word(alloc, &mut words, word)?;
                rest = behind;
            }
            None => break,
        }
    }
    add_word(alloc, &mut words, rest)?;
    Ok(words)
}

impl Causes {
    /// Nothing was refused.
    pub fn new(alloc: Global) -> Causes {
        Causes {
            rows: Vec::new(alloc),
        }
    }

    /// The causes, in the order of the first refusals.
    pub fn as_slice(&self) -> &[Cause] {
        self.rows.as_slice()
    }

    // The place of the cause of these words among all.
    fn find(&self, words: &str) -> Option<usize> {
        for at in 0..self.rows.len() {
            if self.rows[at].words.as_str() == words {
                return Some(at);
            }
        }
        None
    }

    // Counts one more refusal of the cause in this place.
    fn count(&mut self, at: usize, place: Place) {
        if let Some(row) = self.rows.get_mut(at) {
            one_more(&mut row.count);
            row.last = place;
        }
    }

    /// Counts the refusal of this line of a report. AllocError is lack of memory.
    pub fn note(&mut self, alloc: Global, place: Place, line: &[u8]) -> Result<(), AllocError> {
        let told = match split_word(line) {
            Some((_, behind)) => behind,
            None => line,
        };
        let words = without_numbers(alloc, told)?;
        if let Some(at) = self.find(words.as_str()) {
            self.count(at, place);
            return Ok(());
        }
        let cause = Cause {
            words,
            count: 1,
            first: place,
            last: place,
        };
        self.rows.push(cause)?;
        Ok(())
    }
}
