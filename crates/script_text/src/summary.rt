//! The summary of a generated run, and its text.
ghost use Rattle.std.specs.Prelude.{◌≡◌, ◌≤◌, ◌<◌, ◌-◌, ◌^◌, ◌++◌, ◌∷◌, [], List, length};
ghost use Rattle.bench_base.specs.declared.events.Reply.{Reply};
ghost use Rattle.script_text.specs.Summaries.{column_of, nothing, one_in, together, tally_of, summary_text};

use crate::column::{Column, column_of};
use bench_base::events::Reply;
use script_words::line::{Line, numbered};
use std::marker::Model;

/// How many events a run had, and how many of them were refused, lost power, met a fault of storage, released a mark, or had a
/// mark accepted for the first time.
#[derive(Clone, Copy)]
pub struct Summary {
    events: u32,
    refused: u32,
    power: u32,
    fault: u32,
    released: u32,
    accepted: u32,
}

impl Model for Summary {
    ghost use Rattle.script_text.specs.Summaries.{Tally, IsTally};

    ghost Value = { Tally };

    ghost view = { λ s. record { events = s.events; refused = s.refused; power = s.power; fault = s.fault; released = s.released; accepted = s.accepted } };

    ghost invariant = { λ s. IsTally (record {
      events = s.events;
      refused = s.refused;
      power = s.power;
      fault = s.fault;
      released = s.released;
      accepted = s.accepted;
    }) };

    ghost inverse = { λ s. record { events = s.events; refused = s.refused; power = s.power; fault = s.fault; released = s.released; accepted = s.accepted } };
}

impl Summary {
    /// Before the first event.
    pub fn new() -> Summary
        ensures { result ≡ nothing }
    {
        Summary {
            events: 0,
            refused: 0,
            power: 0,
            fault: 0,
            released: 0,
            accepted: 0,
        }
    }

    // Adds an event by its reply.
    fn add(&mut self, reply: &Reply)
        requires room { self.old.events < 2 ^ 32 - 1 }
        ensures added { self.new ≡ together self.old (one_in (column_of reply.now)) }
    {
        self.events += 1;
        match column_of(reply) {
            Column::Refused => self.refused += 1,
            Column::Power => self.power += 1,
            Column::Fault => self.fault += 1,
            Column::Released => self.released += 1,
            Column::Accepted => self.accepted += 1,
            Column::Uncounted => {}
        }
    }

    /// Counts an event by its reply.
    pub fn count(&mut self, reply: &Reply)
        requires room { self.old.events < 2 ^ 32 - 1 }
        ensures added { self.new ≡ together self.old (one_in (column_of reply.now)) }
        ensures replies { (replies : List Reply) → self.old ≡ tally_of replies → self.new ≡ tally_of (replies ++ reply.now ∷ []) }
    {
        self.add(reply);
    }
}

/// The text of the summary of a run with this seed and number of turns, without its line end.
#[tactic(auto, unfolding(crate::specs::Summaries::summary_text))]
pub fn write_summary(seed: u32, count: u32, summary: &Summary) -> Line
    ensures value { result ≡ summary_text seed count summary.now }
    ensures short { length result ≤ 255 }
{
    let mut line = Line::new();
    numbered(&mut line, b"generated", seed);
    line.number(count);
    line.named(b"lines", summary.events);
    line.named(b"refused", summary.refused);
    line.named(b"power", summary.power);
    line.named(b"fault", summary.fault);
    line.named(b"released", summary.released);
    line.named(b"accepted", summary.accepted);
    line
}
