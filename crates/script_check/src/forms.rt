//! The words that may follow the first word of a line.
ghost use Rattle.std.specs.Prelude.{◌≡◌, ◌≤◌, length};
ghost use Rattle.script_check.specs.Forms.{first_form, second_form, IsTaken};
ghost use Rattle.script_words.specs.Words.{words_in};

use crate::slots::{Slot, takes};
use script_text::Keyword;
use script_words::split_word;

/// What follows the keyword.
pub fn form_behind(keyword: Keyword) -> &'static [Slot]
    ensures { result.now ≡ first_form keyword }
{
    match keyword {
        Keyword::Rates | Keyword::End => &[],
        Keyword::Day => &[Slot::Date],
        Keyword::Make | Keyword::Trust => &[Slot::Device, Slot::Key],
        Keyword::On | Keyword::Off => &[Slot::Node],
        Keyword::Cut => &[Slot::Node, Slot::Number, Slot::Number, Slot::Byte],
        Keyword::Debit => &[Slot::Device, Slot::Number, Slot::Number, Slot::Class],
        Keyword::Ask => &[Slot::Device, Slot::Numbered, Slot::Number],
        Keyword::Resend | Keyword::Ack | Keyword::Status | Keyword::Reconcile => &[Slot::Device],
        Keyword::Register => &[Slot::Device, Slot::Number, Slot::Key],
        Keyword::Customer | Keyword::Suspend | Keyword::Resume | Keyword::Balance => {
            &[Slot::Customer]
        }
        Keyword::Deposit => &[Slot::Customer, Slot::Number, Slot::Number],
        Keyword::Deliver | Keyword::Send | Keyword::Print | Keyword::Close => &[Slot::Number],
        Keyword::Give => &[Slot::Taker, Slot::Bytes],
        Keyword::Order => &[
            Slot::Device,
            Slot::Number,
            Slot::Class,
            Slot::Number,
            Slot::Number,
        ],
        Keyword::Scan => &[Slot::Scan, Slot::Msg, Slot::Number],
    }
}

/// The second form that may follow the keyword; the first form again, if there is only one.
pub fn form_beside(keyword: Keyword) -> &'static [Slot]
    ensures { result.now ≡ second_form keyword }
{
    match keyword {
        Keyword::Ask => &[Slot::Device, Slot::Plain],
        Keyword::Scan => &[Slot::Scan, Slot::Hex, Slot::Bytes],
        _ => form_behind(keyword),
    }
}

/// How many of these words, from the first one on, are taken, each at its place.
pub fn count_taken(form: &[Slot], words: &[u8]) -> usize
    ensures taken { IsTaken form.now (words_in words.now) result }
    ensures few { result ≤ length form.now }
{
    let Some((slot, slots)) = form.split_first() else {
        return 0;
    };
    match split_word(words) {
        None => { if takes(*slot, words) { 1 } else { 0 } }
        Some((word, rest)) => {
            if takes(*slot, word) {
                1 + count_taken(slots, rest)
            } else {
                0
            }
        }
    }
}
