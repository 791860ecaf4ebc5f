//! A run over a script with statements beside the bench, or from nothing over blank storages in memory.
ghost use Rattle.std.specs.Prelude.{◌≢◌, map, string_bytes, codes, [], IfSome};
ghost use Rattle.bench.specs.Benches.{IsReady, bench_of, Stands};
ghost use Rattle.script_replay.specs.Chains.{scene_of};
ghost use Rattle.script_replay.specs.Sides.{EndsSide, CompletesSide};
ghost use Rattle.script_replay.specs.Streams.{streams_of};
ghost use Rattle.centre_statement.specs.Ran.{RanStatement};
ghost use Rattle.script_replay.specs.Fresh.{IsOverFresh};
ghost use Rattle.script_replay.specs.SidesFresh.{RanSideFresh};
ghost use Rattle.centre_statement.specs.Fresh.{DidFreshStatements};

use crate::desk::StatementDesk;
use crate::laws::balances;
use bench::{Bench, HasNodes};
use bench_base::memory::{MemSink, MemSource};
use bench_base::stream::{Sink, Source};
use ledger_laws::laws::{histories, orders};
use nv_model::{MemNv, Nv};
use script_replay::fresh::fresh_bench;
use script_replay::side::run_side;
use script_replay::status::SideStatus;
use std::alloc::Global;
use text_streams::BufSource;

/// Runs a script of events of the bench and of lines that open and close statements, if the words are `statement` alone. A statement lists each
/// movement of one customer's money that was counted while it was open, with the balance after it.
pub fn run_statement<S: BufSource, R: Source, K: Sink, P: Sink, N: Nv + Drop>(
    alloc: Global,
    words: &[String],
    script: &mut S,
    rates: &mut R,
    report: &mut K,
    printer: &mut P,
    bench: &mut Bench<N>,
) -> SideStatus
    requires ready { IsReady (bench_of bench.old) }
    ensures ready { IsReady (bench_of bench.new) }
    ensures ran { RanStatement ⟦<Bench<N> as HasNodes>⟧.nodes result (map string_bytes words.now)
        (scene_of R.Source P.Sink bench.old rates.old printer.old)
        (scene_of R.Source P.Sink bench.new rates.new printer.new)
        (streams_of S.Source K.Sink R.Source P.Sink script.old report.old rates.old printer.old)
        (streams_of S.Source K.Sink R.Source P.Sink script.new report.new rates.new printer.new) }
    ensures never_stops { result ≢ SideStatus.Stopped }
    ensures ends { EndsSide ⟦<StatementDesk as line_extensions::Extension>⟧ (codes "statement") result (map string_bytes words.now)
        (streams_of S.Source K.Sink R.Source P.Sink script.old report.old rates.old printer.old)
        (streams_of S.Source K.Sink R.Source P.Sink script.new report.new rates.new printer.new) }
    ensures completes { CompletesSide ⟦<StatementDesk as line_extensions::Extension>⟧ (codes "statement") result
        (map string_bytes words.now)
        (streams_of S.Source K.Sink R.Source P.Sink script.old report.old rates.old printer.old)
        (streams_of S.Source K.Sink R.Source P.Sink script.new report.new rates.new printer.new) }
{
    histories();
    orders();
    balances();
    let mut desk = StatementDesk::new(alloc);
    run_side(
        alloc,
        "statement",
        words,
        script,
        rates,
        report,
        printer,
        bench,
        &mut desk,
    )
}

// The run over an unused bench.
fn run_over<S: BufSource, K: Sink>(
    alloc: Global,
    words: &[String],
    script: &mut S,
    rates: &mut MemSource,
    report: &mut K,
    printer: &mut MemSink,
    bench: Bench<MemNv>,
) -> SideStatus
    requires ready { IsReady (bench_of bench) }
    requires tells { ⟦<MemNv as Nv>⟧.tells }
    requires stands { Stands ⟦<Bench<MemNv> as HasNodes>⟧.nodes (bench_of bench) [] }
    requires made { IsOverFresh (bench_of bench) }
    ensures ran { RanSideFresh ⟦<Bench<MemNv> as HasNodes>⟧.nodes ⟦<StatementDesk as line_extensions::Extension>⟧
        (λ made. IsOverFresh made) (codes "statement") result (map string_bytes words.now)
        (λ old new. DidFreshStatements ⟦<Bench<MemNv> as HasNodes>⟧.nodes old new result)
        (streams_of S.Source K.Sink ⟦<MemSource as Source>⟧ ⟦<MemSink as Sink>⟧
        script.old report.old rates.old printer.old)
        (streams_of S.Source K.Sink ⟦<MemSource as Source>⟧ ⟦<MemSink as Sink>⟧
        script.new report.new rates.new printer.new) }
    ensures never_stops { result ≢ SideStatus.Stopped }
{
    let mut bench = bench;
    run_statement(alloc, words, script, rates, report, printer, &mut bench)
}

/// Does what `run_statement` does, on a new bench over blank storages in memory. `None` if there is no memory for it.
///
/// Nothing is asked of what is there at the beginning: all that `run_statement` promises by a history holds by the empty one. The rates and the
/// printer are those that are handed in, and the storages have room for 12,000 calls and 430,000 written bytes each.
pub fn run_fresh_statement<S: BufSource, K: Sink>(
    alloc: Global,
    words: &[String],
    script: &mut S,
    rates: &mut MemSource,
    report: &mut K,
    printer: &mut MemSink,
) -> Option<SideStatus>
    ensures ran { IfSome result (λ outcome. RanSideFresh ⟦<Bench<MemNv> as HasNodes>⟧.nodes
        ⟦<StatementDesk as line_extensions::Extension>⟧ (λ made. IsOverFresh made) (codes "statement") outcome
        (map string_bytes words.now)
        (λ old new. DidFreshStatements ⟦<Bench<MemNv> as HasNodes>⟧.nodes old new outcome)
        (streams_of S.Source K.Sink ⟦<MemSource as Source>⟧ ⟦<MemSink as Sink>⟧
        script.old report.old rates.old printer.old)
        (streams_of S.Source K.Sink ⟦<MemSource as Source>⟧ ⟦<MemSink as Sink>⟧
        script.new report.new rates.new printer.new)) }
    ensures never_stops { IfSome result (λ outcome. outcome ≢ SideStatus.Stopped) }
{
    match fresh_bench(alloc) {
        Some(bench) => Some(run_over(alloc, words, script, rates, report, printer, bench)),
        None => None,
    }
}
