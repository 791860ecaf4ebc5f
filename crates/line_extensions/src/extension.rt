//! Who has lines of its own, beside those that are events of the bench.
ghost use Rattle.std.specs.Prelude.{◌≡◌, ◌<◌, [], length, slice_get, IfOk, OnErr, IfSome, IfNone, Some};
ghost use Rattle.line_extensions.specs.Wants.{MayAsk, IsStep, IsEvent, IsAlone};

use crate::hear::Hear;
use bench_base::events::Event;
use script_words::Line;
use std::alloc::{AllocError, Global};

/// What an extension asks for next for a line of its own.
#[derive(Clone, Copy)]
pub enum Next {
    /// This event is to be done by a step. The extension then hears the turn of that step.
    Step(Event),
    /// Its answer is to be written. The run goes on.
    Say,
    /// A commit of its storage failed. The run ends.
    Stop,
}

/// An extension has lines of its own. It does them by steps of the bench, which it asks for and hears of, and by commits of a storage of its
/// own. It answers each line by texts.
pub trait Extension {
    ghost use Rattle.std.specs.Prelude.{ℕ, List};
    ghost use Rattle.bench_base.specs.declared.events.Event.{Event};
    ghost use Rattle.node_turns.specs.declared.turn.Turn.{Turn};
    ghost use Rattle.line_extensions.specs.declared.extension.Next.{Next};

    /// What it hears of a step.
    type Heard: Hear;

    /// Its own lines.
    ghost Own: { Type 0 };

    /// The line is this own one.
    ghost IsOwn: { Own → List ℕ → Type 0 };

    /// Memory may run out at it.
    ghost MayWant: { Own → Type 0 };

    /// It leaves this line to the bench.
    ghost Passes: { Self → List ℕ → Type 0 };

    /// What it asks for first for an own line, and what it is then.
    ghost Begins: { Self → Own → Next → Self → Type 0 };

    /// What it asks for after a step that it asked for, and what it is then.
    ghost Goes: { Self → Turn → Next → Self → Type 0 };

    /// What it is after an event of a line that it left to the bench.
    ghost Sees: { Self → Event → Turn → Self → Type 0 };

    /// The texts of its answer.
    ghost texts: { Self → List (List ℕ) };

    /// So many steps may follow the one that it asks for.
    ghost left: { Self → ℕ };

    /// Begins a line; None where it leaves it to the bench.
    fn begin(&mut self, alloc: Global, line: &[u8]) -> Result<Option<Next>, AllocError>
        ensures own { IfOk result (λ o. IfSome o (λ next. (own : Own) × IsOwn own line.now
            × Begins self.old own next self.new × MayAsk next (left self.new))) }
        ensures passes { IfOk result (λ o. IfNone o (Passes self.old line.now
            × ((own : Own) → IsOwn own line.now → IsEvent line.now) × (self.new ≡ self.old))) }
        ensures memory { OnErr result ((own : Own) × IsOwn own line.now × MayWant own × (self.new ≡ self.old)) };

    /// Goes on after a step that it asked for.
    fn go_on(&mut self, told: &Self::Heard) -> Next
        ensures goes { (turn : Turn) → Self.Heard.IsOf told.now turn → Goes self.old turn result self.new }
        ensures may { MayAsk result (left self.new) }
        ensures fewer { IsStep result → left self.new < left self.old };

    /// Sees an event of a line that it left to the bench.
    fn see(&mut self, event: &Event, told: &Self::Heard)
        ensures { (turn : Turn) → Self.Heard.IsOf told.now turn → Sees self.old event.now turn self.new };

    /// How many texts its answer has.
    fn count(&self) -> u32
        ensures { result ≡ length (texts self.now) };

    /// Writes the text of this number, counted from 0.
    fn put(&self, number: u32, line: &mut Line)
        requires inside { number < length (texts self.now) }
        requires empty { line.old ≡ [] }
        ensures text { slice_get (texts self.now) number ≡ Some line.new }
        ensures short { length line.new < 256 };

    ghost alone: { (own : Own) (line : List ℕ) → IsOwn own line → IsAlone line };
}
