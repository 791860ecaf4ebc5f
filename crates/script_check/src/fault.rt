//! What is wrong with a line, and the text of it.
ghost use Rattle.std.specs.Prelude.{Some, option_map};
ghost use Rattle.script_check.specs.Texts.{fault_text, found_text, hint_text, slot_text, wanted_text, word_text};

use crate::shown::Shown;
use crate::slots::Slot;
use std::fmt;

/// What events have at the place of a word.
#[derive(Clone, Copy, Debug, PartialEq, Eq)]
pub enum Wanted {
    /// The first word of an event.
    Keyword,
    One(Slot),
    Either(Slot, Slot),
    /// No word: the line ends before it.
    End,
}

/// Why a word is not valid although it looks so.
#[derive(Clone, Copy, Debug, PartialEq, Eq)]
pub enum Hint {
    /// Nothing is known of it.
    Nothing,
    /// It ends with byte 13, as lines of some editors do.
    CarriageReturn,
    /// It begins with the bytes ef bb bf, as files of some editors do.
    ByteOrderMark,
    /// It is empty: a space is before the line, after it, or beside another one.
    Space,
    /// It has a byte 9.
    Tab,
    /// It has a capital letter.
    Capital,
    /// It begins the lines of a word of the program other than `replay`.
    OwnLine,
}

/// The first word of a line that no event has there.
#[derive(Clone, Copy)]
pub struct WordFault<'a> {
    /// Which word of the line it is, counted from 1.
    pub place: usize,
    /// The word; None if the line ends before it.
    pub found: Option<&'a [u8]>,
    /// What events have there, given the words before it.
    pub wanted: Wanted,
    pub hint: Hint,
}

/// What is wrong at a line of a script.
#[derive(Clone, Copy)]
pub enum Fault<'a> {
    /// The line is no event.
    Word(WordFault<'a>),
    /// The line has more than 600 bytes. What follows is not looked at.
    Long,
    /// The script has ended without the line `end`.
    NoEnd,
    /// A line follows `end`, which no run reads. What follows is not looked at.
    BehindEnd,
    /// The last line has no line end.
    NoLineEnd,
    /// The script has a million lines, and no `end` among them. What follows is not looked at.
    TooLong,
}

impl fmt::Display for Slot {
    ghost output = { λ s. Some (slot_text s) };

    fn fmt<W: fmt::Write>(&self, f: &mut fmt::Formatter<W>) -> fmt::Result {
        f.write_str(match self {
            Slot::Date => "a date from 2000-01-01 to 2199-12-31",
            Slot::Device => "a device, d1 to d8",
            Slot::Node => "a device, `centre`, `host` or `verifier`",
            Slot::Taker => "a device, `centre` or `host`",
            Slot::Key => "64 hexadecimal digits in lower case",
            Slot::Number => "a number from 0 to 4294967295",
            Slot::Class => "a number from 0 to 65535",
            Slot::Customer => "a number from 1 to 64",
            Slot::Byte => "2 hexadecimal digits in lower case",
            Slot::Bytes => "1 to 256 bytes as hexadecimal digits in lower case, or `-`",
            Slot::Scan => "a number from 1 to 4294967295",
            Slot::Numbered => "`enrol` or `reset`",
            Slot::Plain => "`audit`, `refund` or `withdraw`",
            Slot::Msg => "`msg`",
            Slot::Hex => "`hex`",
        })
    }
}

impl fmt::Display for Wanted {
    ghost output = { λ w. Some (wanted_text w) };

    fn fmt<W: fmt::Write>(&self, f: &mut fmt::Formatter<W>) -> fmt::Result {
        match self {
            Wanted::Keyword => f.write_str("the first word of an event"),
            Wanted::One(slot) => write!(f, "{slot}"),
            Wanted::Either(slot, other) => write!(f, "{slot}, or {other}"),
            Wanted::End => f.write_str("the end of the line"),
        }
    }
}

impl fmt::Display for Hint {
    ghost output = { λ h. Some (hint_text h) };

    fn fmt<W: fmt::Write>(&self, f: &mut fmt::Formatter<W>) -> fmt::Result {
        f.write_str(match self {
            Hint::Nothing => "",
            Hint::CarriageReturn => ": a carriage return, byte 13, before the line end",
            Hint::ByteOrderMark => ": a byte-order mark",
            Hint::Space => ": a space too many",
            Hint::Tab => ": a tab",
            Hint::Capital => ": a capital letter",
            Hint::OwnLine => ": own line of no event",
        })
    }
}

// What is found at the place of a word: it, or the end of the line.
#[derive(Clone, Copy)]
struct Found<'a>(Option<&'a [u8]>);

impl<'a> fmt::Display for Found<'a> {
    ghost output = { λ f. Some (found_text (option_map (λ w. w.now) f.0)) };

    fn fmt<W: fmt::Write>(&self, f: &mut fmt::Formatter<W>) -> fmt::Result {
        match self.0 {
            Some(word) => write!(f, "{}", Shown(word)),
            None => f.write_str("the end of the line"),
        }
    }
}

impl<'a> fmt::Display for WordFault<'a> {
    ghost output = { λ f. Some (word_text f) };

    fn fmt<W: fmt::Write>(&self, f: &mut fmt::Formatter<W>) -> fmt::Result {
        let place = self.place;
        let wanted = self.wanted;
        let found = Found(self.found);
        let hint = self.hint;
        write!(f, "word {place}: expected {wanted}, found {found}{hint}")
    }
}

impl<'a> fmt::Display for Fault<'a> {
    ghost output = { λ f. Some (fault_text f) };

    fn fmt<W: fmt::Write>(&self, f: &mut fmt::Formatter<W>) -> fmt::Result {
        match self {
            Fault::Word(fault) => write!(f, "{fault}"),
            Fault::Long => f.write_str("more than 600 bytes; nothing after it was checked"),
            Fault::NoEnd => f.write_str("expected `end`, found the end of the script"),
            Fault::BehindEnd => f.write_str("a line after `end`, which no run reads"),
            Fault::NoLineEnd => f.write_str("the last line has no line end, byte 10"),
            Fault::TooLong => f.write_str("no `end` among the first 1000000 lines"),
        }
    }
}
