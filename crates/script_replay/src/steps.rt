//! The bench, as an extension has steps of it done.
ghost use Rattle.std.specs.Prelude.{length};
ghost use Rattle.bench.specs.Benches.{IsReady};
ghost use Rattle.script_replay.specs.Chains.{scene_of, SceneOver};
ghost use Rattle.script_replay.specs.Run.{Leaves};
ghost use Rattle.script_replay.specs.Sides.{StepsBy};
ghost use Rattle.script_replay.specs.SideLaws as laws;
ghost use Rattle.line_runs.specs.declared.status.Status.TheVariants as status;
ghost use Rattle.line_runs.specs.declared.status.SideStatus.TheVariants as side;

use bench::{BenchOver, HasNodes, react};
use bench_base::events::Event;
use bench_base::stream::{Sink, Source};
use line_extensions::{Hear, Stepper};
use nv_model::{Fuse, Nv};
use std::alloc::{AllocError, Global};
use std::marker::PhantomData;

/// Does events by steps of a bench.
pub struct OnBench<M, N, R, P> {
    of: PhantomData<(M, N, R, P)>,
}

impl<M: Fuse + Drop, N: Nv, R: Source, P: Sink> Stepper for OnBench<M, N, R, P> {
    type Bench = BenchOver<M, N>;

    type Rates = R;

    type Printer = P;

    ghost Scene = { SceneOver M.Nv };

    ghost scene = { λ bench rates printer. scene_of R.Source P.Sink bench rates printer };

    ghost IsReady = { λ s. IsReady s.bench };

    ghost sent = { λ s. length s.bench.messages };

    ghost Steps = { StepsBy ⟦<BenchOver<M, N> as HasNodes>⟧.nodes };

    ghost Wants = { λ s t. Leaves (side.Run status.Memory) s t };

    ghost told = { laws.told ⟦<BenchOver<M, N> as HasNodes>⟧.nodes };

    ghost sends = { laws.sends ⟦<BenchOver<M, N> as HasNodes>⟧.nodes };

    ghost quiet = { laws.quiet ⟦<BenchOver<M, N> as HasNodes>⟧.nodes };

    ghost wants_none = { λ s t wants. laws.wants_none s t wants };

    fn step<T: Hear>(
        alloc: Global,
        event: &Event,
        bench: &mut BenchOver<M, N>,
        rates: &mut R,
        printer: &mut P,
    ) -> Result<T, AllocError> {
        react(alloc, bench, event, rates, printer)
    }
}
