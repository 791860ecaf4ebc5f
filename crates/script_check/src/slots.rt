//! What a word has to be at its place, after the first word of a line.
ghost use Rattle.std.specs.Prelude.{◌≡◌, ◌↔◌, ◌≤◌, ◌<◌, ◌^◌, ◌⊎◌, ℕ, codes, decimal, IsTrue};
ghost use Rattle.bench_base.specs.Ranges.{TakesBytes};
ghost use Rattle.bench_base.specs.declared.words.Node.{Node as TheNode};
ghost use Rattle.script_check.specs.Slots.{Takes};
ghost use Rattle.script_words.specs.Words.{node_word};

use bench_base::bytes::Given;
use bench_base::numbers::{Customer, DevNo};
use bench_base::words::{Key, Node};
use psd_audit::read_date;
use script_words::Word;
use script_words::values::Byte;

/// What a word has to be at its place.
#[derive(Clone, Copy, Debug, PartialEq, Eq)]
pub enum Slot {
    /// A civil date from 2000-01-01 to 2199-12-31.
    Date,
    /// A device, `d1` to `d8`.
    Device,
    /// A device, `centre`, `host` or `verifier`.
    Node,
    /// A node that is given bytes: a device, `centre` or `host`.
    Taker,
    /// The 64 digits of a key.
    Key,
    /// A number of 32 bits.
    Number,
    /// A number of 16 bits.
    Class,
    /// A customer, 1 to 64.
    Customer,
    /// The two digits of a byte.
    Byte,
    /// The digits of up to 256 bytes, or a dash for none.
    Bytes,
    /// A number of 32 bits that is not 0.
    Scan,
    /// What is asked for with a number: `enrol` or `reset`.
    Numbered,
    /// What is asked for without one: `audit`, `refund` or `withdraw`.
    Plain,
    /// The word `msg`.
    Msg,
    /// The word `hex`.
    Hex,
}

fn is_text(word: &[u8], wanted: &[u8]) -> bool
    ensures { IsTrue result ↔ (word.now ≡ wanted.now) }
{
    word == wanted
}

// Whether the word is that of a value.
fn is_of<A: Word>(word: &[u8]) -> bool
    ensures { IsTrue result ↔ ((a : A) × A.fits a × (word.now ≡ A.text a)) }
{
    match A::read(word) {
        Some(_) => true,
        None => false,
    }
}

fn is_date(word: &[u8]) -> bool
    ensures { IsTrue result ↔ Takes Slot.Date word.now }
{
    match read_date(word) {
        Some(_) => true,
        None => false,
    }
}

fn is_taker(word: &[u8]) -> bool
    ensures { IsTrue result ↔ ((n : TheNode) × TakesBytes n × (word.now ≡ node_word n)) }
{
    !is_text(word, b"verifier") && is_of::<Node>(word)
}

fn is_scan(word: &[u8]) -> bool
    ensures { IsTrue result ↔ ((n : ℕ) × (1 ≤ n) × (n < 2 ^ 32) × (word.now ≡ decimal n)) }
{
    match u32::read(word) {
        Some(number) => {
            if number < 1 {
                return false;
            }
            true
        }
        None => false,
    }
}

fn is_numbered(word: &[u8]) -> bool
    ensures { IsTrue result ↔ ((word.now ≡ codes "enrol") ⊎ (word.now ≡ codes "reset")) }
{
    is_text(word, b"enrol") || is_text(word, b"reset")
}

fn is_plain(word: &[u8]) -> bool
    ensures { IsTrue result ↔ ((word.now ≡ codes "audit") ⊎ (word.now ≡ codes "refund") ⊎ (word.now ≡ codes "withdraw")) }
{
    is_text(word, b"audit") || is_text(word, b"refund") || is_text(word, b"withdraw")
}

/// Whether the word may be at this place.
pub fn takes(slot: Slot, word: &[u8]) -> bool
    ensures { IsTrue result ↔ Takes slot word.now }
{
    match slot {
        Slot::Date => is_date(word),
        Slot::Device => is_of::<DevNo>(word),
        Slot::Node => is_of::<Node>(word),
        Slot::Taker => is_taker(word),
        Slot::Key => is_of::<Key>(word),
        Slot::Number => is_of::<u32>(word),
        Slot::Class => is_of::<u16>(word),
        Slot::Customer => is_of::<Customer>(word),
        Slot::Byte => is_of::<Byte>(word),
        Slot::Bytes => is_of::<Given>(word),
        Slot::Scan => is_scan(word),
        Slot::Numbered => is_numbered(word),
        Slot::Plain => is_plain(word),
        Slot::Msg => is_text(word, b"msg"),
        Slot::Hex => is_text(word, b"hex"),
    }
}
