//! The place of a generator: in its opening, or in a turn.
ghost use Rattle.std.specs.Prelude.{◌≡◌, ◌≢◌, ◌∷◌, [], slice_get, MatchOption, MatchBool};
ghost use Rattle.generator.specs.Turns.{HasRoom};
ghost use Rattle.generator.specs.Parts.{IsPlace, part_events, part_counted, left_of_part, to_come};

use crate::draws::draw_turn;
use crate::opening::opening_event;
use crate::turns::{Counts, Turn, count_turn, turn_event};
use bench_base::events::Event;

/// The part of a run whose events are given out.
#[derive(Clone, Copy)]
pub enum Part {
    Opening,
    Turning(Turn),
}

/// A place in a run.
#[derive(Clone, Copy)]
pub struct Place {
    pub part: Part,
    /// How many events of the part were given out.
    pub given: u32,
    /// What there was before the part.
    pub counts: Counts,
    /// The number that the next turn is drawn from.
    pub number: u32,
    /// How many turns come after the part.
    pub turns: u32,
}

// The event in this place of the part.
fn part_event(counts: &Counts, part: &Part, place: u32) -> Option<Event>
    requires room { HasRoom 1 counts.now }
    ensures value { result ≡ slice_get (part_events counts.now part.now) place }
{
    match part {
        Part::Opening => opening_event(place),
        Part::Turning(turn) => turn_event(counts, turn, place),
    }
}

// What there is after the part.
fn count_part(counts: &Counts, part: &Part) -> Counts
    requires room { HasRoom 1 counts.now }
    ensures value { result ≡ part_counted counts.now part.now }
{
    match part {
        Part::Opening => *counts,
        Part::Turning(turn) => count_turn(counts, turn),
    }
}

/// The next event of the part; None if no event is left.
pub fn take_event(place: &mut Place) -> Option<Event>
    requires place { IsPlace place.old }
    ensures place { IsPlace place.new }
    ensures taken { MatchOption result ((place.new ≡ place.old) × (left_of_part place.old ≡ [])) (λ e. (to_come place.old ≡ e ∷ to_come place.new)) }
{
    let event = part_event(&place.counts, &place.part, place.given)?;
    place.given += 1;
    Some(event)
}

/// Begins the next turn after a part with nothing left. False if no turn is left.
pub fn begin_turn(place: &mut Place) -> bool
    requires place { IsPlace place.old }
    requires done { left_of_part place.old ≡ [] }
    ensures place { IsPlace place.new }
    ensures same { to_come place.new ≡ to_come place.old }
    ensures begun { MatchBool result (left_of_part place.new ≢ []) (to_come place.new ≡ []) }
{
    if place.turns == 0 {
        return false;
    }
    place.counts = count_part(&place.counts, &place.part);
    place.part = Part::Turning(draw_turn(&mut place.number));
    place.given = 0;
    place.turns -= 1;
    true
}
