//! The lines of a script that are events of the bench, and no others.
ghost use Rattle.std.specs.Prelude.{length};
ghost use Rattle.bench.specs.Benches.{IsReady};
ghost use Rattle.script_replay.specs.Chains.{scene_of, SceneOver, DidTrace};
ghost use Rattle.line_extensions.specs.Trace.{TraceStep};
ghost use Rattle.script_replay.specs.Run.{Leaves};
ghost use Rattle.line_extensions.specs.Scripts.{script_lines};
ghost use Rattle.script_replay.specs.ScriptLaws.{are_done};
ghost use Rattle.line_extensions.specs.ScriptLaws.{script_fits};

use crate::run::do_line;
use bench::{BenchOver, HasNodes};
use bench_base::stream::{Sink, Source};
use line_runs::LineHandler;
use line_runs::status::SideStatus;
use nv_model::{Fuse, Nv};
use std::alloc::Global;
use std::marker::PhantomData;

/// Does the lines of a script that are events of the bench.
pub(crate) struct Replay<M, N, R, P> {
    of: PhantomData<(M, N, R, P)>,
}

impl<M: Fuse + Drop, N: Nv, R: Source, P: Sink> LineHandler for Replay<M, N, R, P> {
    type Extension = ();

    type Bench = BenchOver<M, N>;

    type Rates = R;

    type Printer = P;

    ghost World = { SceneOver M.Nv };

    ghost world = { λ desk bench rates printer. scene_of R.Source P.Sink bench rates printer };

    ghost IsReady = { λ w. IsReady w.bench };

    ghost used = { λ w. length w.bench.messages };

    ghost TraceStep = { TraceStep };

    ghost lines = { script_lines };

    ghost Does = { DidTrace ⟦<BenchOver<M, N> as HasNodes>⟧.nodes };

    ghost Leaves = { λ s. Leaves s };

    ghost chain = { are_done ⟦<BenchOver<M, N> as HasNodes>⟧.nodes };

    ghost fits = { script_fits };

    fn do_line<K: Sink>(
        alloc: Global,
        number: u32,
        line: &[u8],
        _desk: &mut (),
        bench: &mut BenchOver<M, N>,
        rates: &mut R,
        printer: &mut P,
        report: &mut K,
    ) -> Option<SideStatus> {
        do_line(alloc, number, line, rates, report, printer, bench)
    }
}
