//! Marks that were seen, and what is recorded of each.
ghost use Rattle.std.specs.Prelude.{◌≡◌, ℕ, List, [], length, IfOk, OnOk, OnErr, None, true};
ghost use Rattle.std.specs.List.Sorted.{IsPermutation};
ghost use Rattle.trace_seen.specs.Marks as seen;
ghost use Rattle.trace_seen.specs.Marks.{Adds, Ticks, first_line, missing_in, seen_as};

use std::alloc::{AllocError, Global};
use std::collections::BTreeMap;

/// What is recorded of a mark that was seen.
#[derive(Clone, Copy)]
pub struct Seen {
    /// The first line that contains it, counted from 1.
    pub line: u64,
    /// Whether it is recorded as debited.
    pub is_debited: bool,
}

/// A mark that was seen and is not recorded as debited, with the first line that contains it.
#[derive(Clone, Copy, PartialEq, Eq, PartialOrd, Ord)]
pub struct Missing {
    pub line: u64,
    pub mark: [u8; 64],
}

/// Marks that were seen, each once. No mark is kept but those that were added.
#[derive(Drop)]
pub struct SeenMarks {
    marks: BTreeMap<[u8; 64], Seen>,
}

impl SeenMarks {
    /// No mark was seen.
    pub fn new(alloc: Global) -> SeenMarks
        ensures empty { seen.asked result ≡ [] }
        ensures none { (mark : List ℕ) → seen_as result mark ≡ None }
    {
        SeenMarks {
            marks: BTreeMap::new(alloc),
        }
    }

    /// Whether no mark was seen.
    pub fn is_empty(&self) -> bool
        ensures { result ≡ true → (mark : List ℕ) → seen_as self.now mark ≡ None }
    {
        self.marks.is_empty()
    }

    /// How many marks were seen, each counted once.
    pub fn len(&self) -> usize
        ensures { result ≡ length (seen.asked self.now) }
    {
        self.marks.len()
    }

    /// Adds a mark that this line has, as one that is not debited. If it was added before it is unchanged, and the result is the first line that
    /// contains it. AllocError is lack of memory: nothing was added.
    pub fn add(&mut self, mark: &[u8; 64], line: u64) -> Result<Option<u64>, AllocError>
        ensures first { IfOk result (λ first. first ≡ first_line (seen_as self.old mark.now)) }
        ensures adds { OnOk result (Adds mark.now line self.old self.new) }
        ensures err { OnErr result ((q : List ℕ) → seen_as self.new q ≡ seen_as self.old q) }
    {
        if let Some(seen) = self.marks.get(mark) {
            return Ok(Some(seen.line));
        }
        let seen = Seen {
            line,
            is_debited: false,
        };
        match self.marks.insert(*mark, seen) {
            Ok(_) => Ok(None),
            Err(_) => Err(AllocError),
        }
    }

    /// Tells a mark as debited, if it was seen.
    pub fn tick(&mut self, mark: &[u8; 64])
        ensures { Ticks (λ q. mark.now ≡ q) self.old self.new }
    {
        if let Some(seen) = self.marks.get_mut(mark) {
            seen.is_debited = true;
        }
    }

    /// What is recorded of a mark; None if it was not seen.
    pub fn get(&self, mark: &[u8; 64]) -> Option<Seen>
        ensures { result ≡ seen_as self.now mark.now }
    {
        self.marks.get(mark).copied()
    }

    /// The marks that are not recorded as debited, in the order of their lines. AllocError is lack of memory.
    pub fn missing(&self, alloc: Global) -> Result<Vec<Missing>, AllocError>
        ensures { IfOk result (λ list. IsPermutation (missing_in self.now) list.items) }
    {
        let mut list = Vec::new(alloc);
        for (mark, seen) in &self.marks {
            if !seen.is_debited {
                list.push(Missing {
                    line: seen.line,
                    mark: *mark,
                })?;
            }
        }
        list.sort()?;
        Ok(list)
    }
}
