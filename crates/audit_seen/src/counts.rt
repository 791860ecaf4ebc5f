//! The word on a line of a file of marks, and how many lines have each.
ghost use Rattle.std.specs.Prelude.{◌≡◌, ◌↔◌, IsTrue};
ghost use Rattle.audit_seen.specs.Words.{HasOthers, word_by};

/// The word on a line.
#[derive(Clone, Copy, Debug, PartialEq, Eq)]
pub enum Word {
    /// Its mark was debited: a debit with this very mark counts.
    Debited,
    /// Its mark was never debited here, and names a device that was made.
    Never,
    /// Its mark is that of an earlier line.
    Twice,
    /// Its mark was never debited here, and names no device that was made.
    Unknown,
    /// It is no mark.
    NoMark,
}

/// How many lines have each word.
#[derive(Clone, Copy, Debug, PartialEq, Eq)]
pub struct Counts {
    pub debited: u64,
    pub never: u64,
    pub twice: u64,
    pub unknown: u64,
    pub no_mark: u64,
}

impl Counts {
    /// Before the first line.
    pub fn new() -> Counts {
        Counts {
            debited: 0,
            never: 0,
            twice: 0,
            unknown: 0,
            no_mark: 0,
        }
    }

    /// Counts so many lines more that have this word.
    pub fn add(&mut self, word: Word, lines: u64) {
        match word {
            Word::Debited => self.debited = self.debited.saturating_add(lines),
            Word::Never => self.never = self.never.saturating_add(lines),
            Word::Twice => self.twice = self.twice.saturating_add(lines),
            Word::Unknown => self.unknown = self.unknown.saturating_add(lines),
            Word::NoMark => self.no_mark = self.no_mark.saturating_add(lines),
        }
    }

    /// Whether a line has another word than `Debited`.
    pub fn has_others(&self) -> bool
        ensures { IsTrue result ↔ HasOthers self.now }
    {
        self.never != 0 || self.twice != 0 || self.unknown != 0 || self.no_mark != 0
    }
}

/// The word on the line that has a mark first: by whether the mark was debited, and whether the device that it names was made.
pub fn word_of(is_debited: bool, is_made: bool) -> Word
    ensures { result ≡ word_by is_debited is_made }
{
    if is_debited {
        return Word::Debited;
    }
    if is_made { Word::Never } else { Word::Unknown }
}
