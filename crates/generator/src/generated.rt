//! A generated run, event by event.
ghost use Rattle.std.specs.Prelude.{◌≡◌, ◌≤◌, ◌∷◌, [], MatchOption};
ghost use Rattle.generator.specs.Events.{generated};

use crate::parts::{Part, Place, begin_turn, take_event};
use crate::turns::Counts;
use bench_base::events::Event;
use std::marker::Model;

/// The events of a run that are still to come. They follow from the seed and the number of turns.
#[derive(Drop)]
pub struct Generator {
    place: Place,
}

impl Model for Generator {
    ghost use Rattle.std.specs.Prelude.{List};
    ghost use Rattle.bench_base.specs.declared.events.Event.{Event};
    ghost use Rattle.generator.specs.Parts.{to_come, IsPlace};

    ghost Value = { List Event };

    ghost view = { λ g. to_come g.place };

    ghost invariant = { λ g. IsPlace g.place };
}

impl Generator {
    /// The run of this seed: its opening, and so many turns, at most 90,000.
    #[tactic(auto, unfolding(crate::specs::Parts::to_come))]
    pub fn new(seed: u32, count: u32) -> Generator
        requires few { count ≤ 90000 }
        ensures all { result ≡ generated seed count }
    {
        let counts = Counts {
            pieces: 10,
            messages: 6,
            scans: 0,
        };
        Generator {
            place: Place {
                part: Part::Opening,
                given: 0,
                counts,
                number: seed,
                turns: count,
            },
        }
    }

    /// The next event; None if and only if none is left.
    pub fn next(&mut self) -> Option<Event>
        ensures next { MatchOption result ((self.old ≡ []) × (self.new ≡ [])) (λ e. self.old ≡ e ∷ self.new) }
    {
        match take_event(&mut self.place) {
            Some(event) => Some(event),
            None => {
                if !begin_turn(&mut self.place) {
                    return None;
                }
                take_event(&mut self.place)
            }
        }
    }
}
