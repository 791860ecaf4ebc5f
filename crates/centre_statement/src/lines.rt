//! The lines of the desk out of their bytes.
ghost use Rattle.std.specs.Prelude.{◌≡◌, ◌≢◌, ◌↔◌, ℕ, [], ◌∷◌, codes, decimal, IfSome, IfNone, IsTrue};
ghost use Rattle.bench_base.specs.Ranges.{IsCustomer};
ghost use Rattle.script_words.specs.Words.{words_in};
ghost use Rattle.centre_statement.specs.OwnLines.{IsOwnLine};
ghost use Rattle.centre_statement.specs.declared.lines.OwnLine.{OwnLine as TheLine};
ghost use Rattle.centre_statement.specs.declared.lines.OwnLine.TheVariants as own;

use bench_base::numbers::Customer;
use script_words::{Word, one, split_word, two};

/// A line of the desk's own.
#[derive(Clone, Copy)]
pub enum OwnLine {
    /// `statement open CUSTOMER`
    Open(Customer),
    /// `statement close`
    Close,
}

/// The word `open`.
#[derive(Clone, Copy)]
pub struct OpenWord;

/// The word `close`.
#[derive(Clone, Copy)]
pub struct CloseWord;

impl Word for OpenWord {
    ghost text = { λ w. codes "open" };

    ghost fits = { λ w. Unit {0} };

    fn read(word: &[u8]) -> Option<OpenWord> {
        if word == b"open".as_slice() {
            Some(OpenWord)
        } else {
            None
        }
    }
}

impl Word for CloseWord {
    ghost text = { λ w. codes "close" };

    ghost fits = { λ w. Unit {0} };

    fn read(word: &[u8]) -> Option<CloseWord> {
        if word == b"close".as_slice() {
            Some(CloseWord)
        } else {
            None
        }
    }
}

// The customer of the words after `statement`, if they open one.
fn read_open(rest: &[u8]) -> Option<Customer>
    ensures found { IfSome result (λ w. IsCustomer w × (words_in rest.now ≡ codes "open" ∷ decimal w ∷ [])) }
    ensures none { IfNone result ((w : ℕ) → IsCustomer w → words_in rest.now ≢ codes "open" ∷ decimal w ∷ []) }
{
    match two::<OpenWord, Customer>(rest) {
        Ok(read) => Some(read.1),
        Err(_) => None,
    }
}

// Whether the words after `statement` close one.
fn is_close(rest: &[u8]) -> bool
    ensures { IsTrue result ↔ (words_in rest.now ≡ codes "close" ∷ []) }
{
    match one::<CloseWord>(rest) {
        Ok(_) => true,
        Err(_) => false,
    }
}

fn is_statement(word: &[u8]) -> bool
    ensures { IsTrue result ↔ (word.now ≡ codes "statement") }
{
    word == b"statement".as_slice()
}

// The line of the desk, by the words after its first, which is `statement`.
fn read_behind(line: &[u8], rest: &[u8]) -> Option<OwnLine>
    requires { words_in line.now ≡ codes "statement" ∷ words_in rest.now }
    ensures found { IfSome result (λ own. IsOwnLine own line.now) }
    ensures none { IfNone result ((own : TheLine) → IsOwnLine own line.now → ⊥) }
{
    match read_open(rest) {
        Some(customer) => Some(OwnLine::Open(customer)),
        None => {
            if is_close(rest) {
                Some(OwnLine::Close)
            } else {
                None
            }
        }
    }
}

/// The line of the desk that the bytes are; None if and only if they are no such line.
pub fn read_own_line(line: &[u8]) -> Option<OwnLine>
    ensures found { IfSome result (λ own. IsOwnLine own line.now) }
    ensures none { IfNone result ((own : TheLine) → IsOwnLine own line.now → ⊥) }
{
    match split_word(line) {
        Some((word, rest)) => {
            if is_statement(word) {
                return read_behind(line, rest);
            }
            None
        }
        None => None,
    }
}
