//! Who does events by steps.
ghost use Rattle.std.specs.Prelude.{◌≡◌, ◌+◌, ◌≤◌, ◌<◌, IfOk, OnErr};
ghost use Rattle.bench_base.specs.declared.events.Event.TheVariants as ev;
ghost use Rattle.bench_base.specs.Events.{IsWholeEvent};
ghost use Rattle.line_extensions.specs.Wants.{IsQuiet};

use crate::hear::Hear;
use bench_base::events::Event;
use std::alloc::{AllocError, Global};

/// Does events by steps of a bench. It is a type alone: what it works on is lent to each call.
pub trait Stepper {
    ghost use Rattle.std.specs.Prelude.{ℕ};
    ghost use Rattle.node_turns.specs.declared.turn.Turn.{Turn};
    ghost use Rattle.line_extensions.specs.Trace.{StepRecord};

    type Bench;

    type Rates;

    type Printer;

    /// The bench and its streams, as contracts see them.
    ghost Scene: { Type 0 };

    ghost scene: { Self.Bench → Self.Rates → Self.Printer → Scene };

    /// A step may be done.
    ghost IsReady: { Scene → Type 0 };

    /// How many messages were sent in this run.
    ghost sent: { Scene → ℕ };

    /// This was done by a step with this turn.
    ghost Steps: { Scene → Scene → StepRecord → Turn → Type 0 };

    /// What is left if a `rates` ran out of memory.
    ghost Wants: { Scene → Scene → Type 0 };

    /// Does one event by a step, and reports it. Only a `rates` can run out of memory.
    fn step<T: Hear>(
        alloc: Global,
        event: &Event,
        bench: &mut Self::Bench,
        rates: &mut Self::Rates,
        printer: &mut Self::Printer,
    ) -> Result<T, AllocError>
        requires whole { IsWholeEvent event.now }
        requires ready { IsReady (scene bench.old rates.old printer.old) }
        requires room { sent (scene bench.old rates.old printer.old) < 1000000 }
        ensures ready { IsReady (scene bench.new rates.new printer.new) }
        ensures did { IfOk result (λ told. (d : StepRecord) × (turn : Turn) × (d.event ≡ event.now)
            × Steps (scene bench.old rates.old printer.old) (scene bench.new rates.new printer.new) d turn
            × T.IsOf told turn) }
        ensures memory { OnErr result ((event.now ≡ ev.Rates)
            × Wants (scene bench.old rates.old printer.old) (scene bench.new rates.new printer.new)) };

    ghost told: { (s t : Scene) (d : StepRecord) (turn : Turn) → Steps s t d turn → d.reply ≡ turn.reply };

    /// A step sends one message at most, and one of a quiet event none.
    ghost sends: { (s t : Scene) (d : StepRecord) (turn : Turn) → Steps s t d turn → sent t ≤ sent s + 1 };

    ghost quiet: { (s t : Scene) (d : StepRecord) (turn : Turn) → Steps s t d turn → IsQuiet d.event → sent t ≤ sent s };

    ghost wants_none: { (s t : Scene) → Wants s t → sent t ≤ sent s };
}
