//! Words in the lines of a statement.
ghost use Rattle.std.specs.Prelude.{codes};

use script_words::Word;

/// The word `opening`.
#[derive(Clone, Copy)]
pub struct OpeningWord;

/// The word `balance`.
#[derive(Clone, Copy)]
pub struct BalanceWord;

impl Word for OpeningWord {
    ghost text = { λ w. codes "opening" };

    ghost fits = { λ w. Unit {0} };

    fn read(word: &[u8]) -> Option<OpeningWord> {
        if word == b"opening".as_slice() {
            Some(OpeningWord)
        } else {
            None
        }
    }
}

impl Word for BalanceWord {
    ghost text = { λ w. codes "balance" };

    ghost fits = { λ w. Unit {0} };

    fn read(word: &[u8]) -> Option<BalanceWord> {
        if word == b"balance".as_slice() {
            Some(BalanceWord)
        } else {
            None
        }
    }
}
