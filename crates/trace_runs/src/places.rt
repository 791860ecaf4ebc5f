//! Places of the prints that can be reached by what the printer may have taken.
ghost use Rattle.std.specs.Prelude.{◌≡◌, ◌↔◌, ◌+◌, ◌<◌, ◌≤◌, ◌∷◌, IfOk, IsTrue, OnOk, drop, length};
ghost use Rattle.trace_runs.specs.Places.{Adds, AreAfter, AreInside, Has};
ghost use Rattle.trace_runs.specs.declared.imprint.Printed.TheVariants.{Whole};

use crate::audit::behind;
use crate::imprint::{Imprint, Printed};
use crate::parts::{LINE, begins_whole, last_after};
use std::alloc::{AllocError, Global};

/// Places of the prints, each the number of bytes before it: from the first of these to the last.
#[derive(Clone, Copy)]
pub struct Places {
    pub first: usize,
    pub last: usize,
}

// Those in this place, and those after them.
fn places_in(all: &[Places], at: usize) -> Places
    requires inside { at < length all.now }
    ensures { drop at all.now ≡ result ∷ drop (at + 1) all.now }
{
    all[at]
}

// Whether the place is among these.
pub(crate) fn has(all: &[Places], place: usize) -> bool
    ensures { IsTrue result ↔ Has all.now place }
{
    for at in 0..all.len() {
        let places = places_in(all, at);
        if places.first <= place && place <= places.last {
            return true;
        }
    }
    false
}

// One of these places.
pub(crate) fn one_of(all: &[Places], size: usize) -> usize
    requires some { 0 < length all.now }
    requires inside { AreInside size all.now }
    ensures has { Has all.now result }
    ensures inside { result ≤ size }
{
    all[0].last
}

// Adds the place after the line of the mark, if that begins at this place.
fn add_line(
    found: &mut Vec<Places>,
    mark: &[u8; 64],
    prints: &[u8],
    place: usize,
) -> Result<(), AllocError>
    ensures { OnOk result (Adds Whole mark.now prints.now place (place + 1) found.old.items found.new.items) }
{
    if !begins_whole(mark, behind(prints, place)) {
        return Ok(());
    }
    let next = place + LINE;
    if has(found.as_slice(), next) {
        return Ok(());
    }
    found.push(Places {
        first: next,
        last: next,
    })?;
    Ok(())
}

// Adds the places after the line of the mark, if that begins at one of these.
fn add_lines(
    found: &mut Vec<Places>,
    mark: &[u8; 64],
    prints: &[u8],
    places: Places,
) -> Result<(), AllocError>
    requires some { places.first ≤ places.last }
    requires inside { places.last ≤ length prints.now }
    ensures { OnOk result (Adds Whole mark.now prints.now places.first (places.last + 1) found.old.items found.new.items) }
{
    for place in places.first..places.last + 1 {
        add_line(found, mark, prints, place)?;
    }
    Ok(())
}

// Adds the places after what the prints may have of the imprint from one of these on.
fn add(
    found: &mut Vec<Places>,
    imprint: &Imprint,
    prints: &[u8],
    places: Places,
) -> Result<(), AllocError>
    requires some { places.first ≤ places.last }
    requires inside { places.last ≤ length prints.now }
    ensures { OnOk result (Adds imprint.now.given.taken imprint.now.given.mark prints.now places.first (places.last + 1) found.old.items found.new.items) }
{
    let mark = &imprint.given.mark;
    match imprint.given.taken {
        Printed::Whole => add_lines(found, mark, prints, places),
        Printed::Part => {
            let last = last_after(mark, prints, places.first, places.last);
            found.push(Places {
                first: places.first,
                last,
            })?;
            Ok(())
        }
    }
}

// The places after what the prints may have of the imprint from one of these on.
pub(crate) fn after(
    alloc: Global,
    imprint: &Imprint,
    prints: &[u8],
    all: &[Places],
) -> Result<Vec<Places>, AllocError>
    requires inside { AreInside (length prints.now) all.now }
    ensures { IfOk result (λ found. AreAfter imprint.now.given.taken imprint.now.given.mark prints.now all.now found.items) }
{
    let mut found = Vec::new(alloc);
    for at in 0..all.len() {
        add(&mut found, imprint, prints, places_in(all, at))?;
    }
    Ok(found)
}
