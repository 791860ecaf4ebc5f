//! Whether prints are those that reports show.
ghost use Rattle.std.specs.Prelude.{◌≡◌, ◌+◌, ◌<◌, ◌∷◌, IfOk, drop, length};
ghost use Rattle.trace_runs.specs.Prints.{Matches};

use crate::imprint::Imprint;
use crate::places::{Places, after, has, one_of};
use std::alloc::{AllocError, Global};

/// What is found of prints.
#[derive(Clone, Copy)]
pub enum Match {
    /// They are those of the imprints.
    Fit,
    /// They aren't, whatever is left of the lines that the printer did not take whole. The imprints before the one in this place, counted from 0, can fit,
    /// with the bytes left that follow so many; more imprints can't. If it is the number of imprints, all can fit, and bytes are left over.
    Differ(usize, usize),
}

// The imprint in this place, and those after it.
fn imprint_in(imprints: &[Imprint], place: usize) -> Imprint
    requires inside { place < length imprints.now }
    ensures { drop place imprints.now ≡ result ∷ drop (place + 1) imprints.now }
{
    imprints[place]
}

/// Whether the prints are those of the imprints of all runs, in order. If the printer did not take the whole line of a mark, some of its digits may be
/// there, none or all. A line end may follow them: somebody ended the line by hand.
///
/// It goes through the imprints once, with the places of the prints that can be reached so far. Places that follow each other are kept as one, in 16
/// bytes. There is mostly one such record, also after several lines that were not taken whole. There are more only if a whole line is at two places
/// that can be reached. AllocError is returned if there is no memory for them.
pub fn match_prints(alloc: Global, imprints: &[Imprint], prints: &[u8]) -> Result<Match, AllocError>
    ensures { IfOk result (Matches imprints.now prints.now) }
{
    let mut all = Vec::new(alloc);
    all.push(Places { first: 0, last: 0 })?;
    for place in 0..imprints.len() {
        let found = after(alloc, &imprint_in(imprints, place), prints, all.as_slice())?;
        if found.as_slice().is_empty() {
            return Ok(Match::Differ(place, one_of(all.as_slice(), prints.len())));
        }
        all = found;
    }
    if has(all.as_slice(), prints.len()) {
        Ok(Match::Fit)
    } else {
        Ok(Match::Differ(imprints.len(), one_of(all.as_slice(), prints.len())))
    }
}
