//! A run on a bench that is made for it, over blank storages in memory.
ghost use Rattle.std.specs.Prelude.{◌≡◌, [], length, IfSome, map, string_bytes, None};
ghost use Rattle.std.specs.List.{All};
ghost use Rattle.bench.specs.Benches.{IsReady, Stands, bench_of};
ghost use Rattle.bench_base.specs.declared.sizes.TheConstants.{DEVICE_BYTES};
ghost use Rattle.script_replay.specs.Fresh.{IsFresh, IsOverFresh, RanFresh};
ghost use Rattle.script_replay.specs.Headline.{Headline};
ghost use Rattle.script_replay.specs.Streams.{streams_of};
ghost use Rattle.script_text.specs.declared.program.Words.TheVariants.{Replay};
ghost use Rattle.script_text.specs.Programs.{program_words};

use crate::run::run;
use bench::{Bench, HasNodes, Stores};
use bench_base::memory::{MemSink, MemSource};
use bench_base::sizes::{CENTRE_BYTES, DEVICE_BYTES, VERIFIER_BYTES};
use bench_base::stream::{Sink, Source};
use host_jobs::HOST_BYTES;
use line_runs::status::Status;
use nv_model::{MemNv, Nv};
use std::alloc::Global;
use text_streams::BufSource;

/// The room of a storage's record, in calls. If it is full, each write fails.
const CALLS: u32 = 12_000;

/// The room in written bytes: a commit of a device writes 215 by six calls, and one of the other nodes fewer.
const BYTES: u32 = 430_000;

/// A storage in memory of so many zero bytes, with room for 12,000 calls and 430,000 written bytes. `None` if there is no memory for it.
pub fn fresh_store(alloc: Global, bytes: u32) -> Option<MemNv>
    ensures { IfSome result (λ nv. IsFresh ⟦<MemNv as Nv>⟧ bytes nv) }
{
    let content = vec![in alloc; 0; bytes as usize].ok()?;
    match MemNv::new(alloc, content, Vec::new(alloc), CALLS, BYTES) {
        Ok(nv) => Some(nv),
        Err(_) => None,
    }
}

fn blanks(alloc: Global) -> Option<Vec<MemNv>>
    ensures eight { IfSome result (λ stores. length stores.items ≡ 8) }
    ensures fresh { IfSome result (λ stores. All (λ nv. IsFresh ⟦<MemNv as Nv>⟧ DEVICE_BYTES nv) stores.items) }
{
    let mut stores = Vec::with_capacity(alloc, 8).ok()?;
    for i in 0..8_u32 {
        match stores.push(fresh_store(alloc, DEVICE_BYTES)?) {
            Ok(()) => {}
            Err(_) => return None,
        }
    }
    Some(stores)
}

/// An unused bench over such storages. `None` if there is no memory for it.
pub fn fresh_bench(alloc: Global) -> Option<Bench<MemNv>>
    ensures ready { IfSome result (λ bench. IsReady (bench_of bench)) }
    ensures tells { IfSome result (λ bench. ⟦<MemNv as Nv>⟧.tells) }
    ensures stands { IfSome result (λ bench. Stands ⟦<Bench<MemNv> as HasNodes>⟧.nodes (bench_of bench) []) }
    ensures made { IfSome result (λ bench. IsOverFresh (bench_of bench)) }
{
    let stores = Stores {
        devices: blanks(alloc)?,
        centre: fresh_store(alloc, CENTRE_BYTES)?,
        host: fresh_store(alloc, HOST_BYTES)?,
        verifier: fresh_store(alloc, VERIFIER_BYTES)?,
    };
    match Bench::new(alloc, stores) {
        Ok(bench) => Some(bench),
        Err(_) => None,
    }
}

// The run over an unused bench.
fn run_over<S: BufSource, K: Sink>(
    alloc: Global,
    words: &[String],
    script: &mut S,
    rates: &mut MemSource,
    report: &mut K,
    printer: &mut MemSink,
    bench: Bench<MemNv>,
) -> Status
    requires ready { IsReady (bench_of bench) }
    requires tells { ⟦<MemNv as Nv>⟧.tells }
    requires stands { Stands ⟦<Bench<MemNv> as HasNodes>⟧.nodes (bench_of bench) [] }
    requires made { IsOverFresh (bench_of bench) }
    ensures ran { RanFresh ⟦<Bench<MemNv> as HasNodes>⟧.nodes (λ made. IsOverFresh made) result
        (map string_bytes words.now)
        (streams_of S.Source K.Sink ⟦<MemSource as Source>⟧ ⟦<MemSink as Sink>⟧
        script.old report.old rates.old printer.old)
        (streams_of S.Source K.Sink ⟦<MemSource as Source>⟧ ⟦<MemSink as Sink>⟧
        script.new report.new rates.new printer.new) }
    ensures headline { map string_bytes words.now ≡ program_words Replay → Headline result
        (streams_of S.Source K.Sink ⟦<MemSource as Source>⟧ ⟦<MemSink as Sink>⟧
        script.old report.old rates.old printer.old)
        (streams_of S.Source K.Sink ⟦<MemSource as Source>⟧ ⟦<MemSink as Sink>⟧
        script.new report.new rates.new printer.new) }
{
    let mut bench = bench;
    run(alloc, words, script, rates, report, printer, &mut bench)
}

/// Does what `run` does, on a new bench over blank storages in memory. `None` where there is no memory for it.
///
/// Nothing is asked of what is there at the beginning: all that `run` promises by a history holds by the empty one. The rates and the printer
/// are those that are handed in, and the storages have room for 12,000 calls and 430,000 written bytes each.
pub fn run_fresh<S: BufSource, K: Sink>(
    alloc: Global,
    words: &[String],
    script: &mut S,
    rates: &mut MemSource,
    report: &mut K,
    printer: &mut MemSink,
) -> Option<Status>
    ensures ran { IfSome result (λ outcome. RanFresh ⟦<Bench<MemNv> as HasNodes>⟧.nodes (λ made. IsOverFresh made)
        outcome (map string_bytes words.now)
        (streams_of S.Source K.Sink ⟦<MemSource as Source>⟧ ⟦<MemSink as Sink>⟧
        script.old report.old rates.old printer.old)
        (streams_of S.Source K.Sink ⟦<MemSource as Source>⟧ ⟦<MemSink as Sink>⟧
        script.new report.new rates.new printer.new)) }
    ensures headline { map string_bytes words.now ≡ program_words Replay → IfSome result (λ outcome. Headline outcome
        (streams_of S.Source K.Sink ⟦<MemSource as Source>⟧ ⟦<MemSink as Sink>⟧
        script.old report.old rates.old printer.old)
        (streams_of S.Source K.Sink ⟦<MemSource as Source>⟧ ⟦<MemSink as Sink>⟧
        script.new report.new rates.new printer.new)) }
{
    match fresh_bench(alloc) {
        Some(bench) => Some(run_over(alloc, words, script, rates, report, printer, bench)),
        None => None,
    }
}
