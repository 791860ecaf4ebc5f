//! A run over a script with departments beside the bench, or from nothing over blank storages in memory.
ghost use Rattle.std.specs.Prelude.{map, string_bytes, codes, ◌≡◌, [], IfSome, false};
ghost use Rattle.bench.specs.Benches.{IsReady, bench_of, Stands};
ghost use Rattle.line_extensions.specs.Desks.{world};
ghost use Rattle.script_replay.specs.Chains.{scene_of};
ghost use Rattle.script_replay.specs.Sides.{RanSide, EndsSide, CompletesSide};
ghost use Rattle.script_replay.specs.Streams.{streams_of};
ghost use Rattle.host_departments.specs.Ran.{DidDepartments};
ghost use Rattle.script_replay.specs.Fresh.{IsOverFresh};
ghost use Rattle.script_replay.specs.SidesFresh.{RanSideFresh};
ghost use Rattle.host_departments.specs.Fresh.{DidFreshDepartments, KeepsNone};
ghost use Rattle.host_departments.specs.View.{has_failed};

use crate::desk::Departments;
use crate::row::{CELLS, DEPARTMENT_BYTES};
use bench::{Bench, HasNodes};
use bench_base::memory::{MemSink, MemSource};
use bench_base::stream::{Sink, Source};
use ledger_laws::laws::histories;
use nv_model::{MemNv, Nv};
use nv_store::Room;
use script_replay::fresh::{fresh_bench, fresh_store};
use script_replay::side::run_side;
use script_replay::status::SideStatus;
use std::alloc::Global;
use text_streams::BufSource;

/// Does a script with lines that are events of the bench or about departments, if the words are `departments` alone. Only jobs that a department has
/// taken are printed, and each department takes jobs within its quota.
pub fn run_departments<S: BufSource, R: Source, K: Sink, P: Sink, N: Nv + Drop>(
    alloc: Global,
    words: &[String],
    script: &mut S,
    rates: &mut R,
    report: &mut K,
    printer: &mut P,
    bench: &mut Bench<N>,
    desk: &mut Departments<N>,
) -> SideStatus
    requires ready { IsReady (bench_of bench.old) }
    ensures ready { IsReady (bench_of bench.new) }
    ensures ran { RanSide ⟦<Departments<N> as line_extensions::Extension>⟧ (codes "departments") result (map string_bytes words.now)
        (DidDepartments ⟦<Bench<N> as HasNodes>⟧.nodes N.Nv
        (world (scene_of R.Source P.Sink bench.old rates.old printer.old) desk.old)
        (world (scene_of R.Source P.Sink bench.new rates.new printer.new) desk.new) result)
        (streams_of S.Source K.Sink R.Source P.Sink script.old report.old rates.old printer.old)
        (streams_of S.Source K.Sink R.Source P.Sink script.new report.new rates.new printer.new) }
    ensures ends { EndsSide ⟦<Departments<N> as line_extensions::Extension>⟧ (codes "departments") result (map string_bytes words.now)
        (streams_of S.Source K.Sink R.Source P.Sink script.old report.old rates.old printer.old)
        (streams_of S.Source K.Sink R.Source P.Sink script.new report.new rates.new printer.new) }
    ensures completes { CompletesSide ⟦<Departments<N> as line_extensions::Extension>⟧ (codes "departments") result
        (map string_bytes words.now)
        (streams_of S.Source K.Sink R.Source P.Sink script.old report.old rates.old printer.old)
        (streams_of S.Source K.Sink R.Source P.Sink script.new report.new rates.new printer.new) }
{
    histories();
    run_side(
        alloc,
        "departments",
        words,
        script,
        rates,
        report,
        printer,
        bench,
        desk,
    )
}

// Departments over blank storage: they keep no quota and no job.
fn fresh_desk(alloc: Global) -> Option<Departments<MemNv>>
    ensures none { IfSome result (λ desk. KeepsNone desk) }
    ensures works { IfSome result (λ desk. has_failed desk ≡ false) }
{
    let nv = fresh_store(alloc, DEPARTMENT_BYTES)?;
    let room = Room::new(alloc, CELLS).ok()?;
    match Departments::boot(nv, room) {
        Ok(desk) => Some(desk),
        Err(_) => None,
    }
}

// The run over an unused bench.
fn run_over<S: BufSource, K: Sink>(
    alloc: Global,
    words: &[String],
    script: &mut S,
    rates: &mut MemSource,
    report: &mut K,
    printer: &mut MemSink,
    bench: Bench<MemNv>,
    desk: Departments<MemNv>,
) -> SideStatus
    requires ready { IsReady (bench_of bench) }
    requires tells { ⟦<MemNv as Nv>⟧.tells }
    requires stands { Stands ⟦<Bench<MemNv> as HasNodes>⟧.nodes (bench_of bench) [] }
    requires made { IsOverFresh (bench_of bench) }
    requires none { KeepsNone desk }
    requires works { has_failed desk ≡ false }
    ensures ran { RanSideFresh ⟦<Bench<MemNv> as HasNodes>⟧.nodes ⟦<Departments<MemNv> as line_extensions::Extension>⟧
        (λ made. IsOverFresh made) (codes "departments") result (map string_bytes words.now)
        (λ old new. DidFreshDepartments ⟦<Bench<MemNv> as HasNodes>⟧.nodes ⟦<MemNv as Nv>⟧ old new result)
        (streams_of S.Source K.Sink ⟦<MemSource as Source>⟧ ⟦<MemSink as Sink>⟧
        script.old report.old rates.old printer.old)
        (streams_of S.Source K.Sink ⟦<MemSource as Source>⟧ ⟦<MemSink as Sink>⟧
        script.new report.new rates.new printer.new) }
{
    let mut bench = bench;
    let mut desk = desk;
    run_departments(
        alloc, words, script, rates, report, printer, &mut bench, &mut desk,
    )
}

/// Does what `run_departments` does, on a new bench and new departments over blank storages in memory. `None` if there is no memory for them.
///
/// Nothing is asked of what is there at the beginning: all that `run_departments` promises by a history holds by the empty one. The rates and the
/// printer are those that are handed in, and the storages have room for 12,000 calls and 430,000 written bytes each.
pub fn run_fresh_departments<S: BufSource, K: Sink>(
    alloc: Global,
    words: &[String],
    script: &mut S,
    rates: &mut MemSource,
    report: &mut K,
    printer: &mut MemSink,
) -> Option<SideStatus>
    ensures ran { IfSome result (λ outcome. RanSideFresh ⟦<Bench<MemNv> as HasNodes>⟧.nodes
        ⟦<Departments<MemNv> as line_extensions::Extension>⟧ (λ made. IsOverFresh made) (codes "departments") outcome
        (map string_bytes words.now)
        (λ old new. DidFreshDepartments ⟦<Bench<MemNv> as HasNodes>⟧.nodes ⟦<MemNv as Nv>⟧ old new outcome)
        (streams_of S.Source K.Sink ⟦<MemSource as Source>⟧ ⟦<MemSink as Sink>⟧
        script.old report.old rates.old printer.old)
        (streams_of S.Source K.Sink ⟦<MemSource as Source>⟧ ⟦<MemSink as Sink>⟧
        script.new report.new rates.new printer.new)) }
{
    let desk = fresh_desk(alloc)?;
    match fresh_bench(alloc) {
        Some(bench) => Some(run_over(alloc, words, script, rates, report, printer, bench, desk)),
        None => None,
    }
}
