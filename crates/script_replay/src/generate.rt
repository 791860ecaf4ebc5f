//! A generated run: its events, and one line about all of them.
ghost use Rattle.std.specs.Prelude.{◌≡◌, ◌≢◌, ◌+◌, ◌-◌, ◌^◌, ◌≤◌, ◌<◌, ◌∷◌, ◌++◌, [], ℕ, List, length};
ghost use Rattle.bench_base.specs.Causes.{Rose};
ghost use Rattle.bench_base.specs.Events.{IsWholeEvent};
ghost use Rattle.bench_base.specs.declared.events.Reply.{Reply};
ghost use Rattle.bench.specs.declared.benches.TheConstants.{MOST_MESSAGES};
ghost use Rattle.bench.specs.Benches.{IsReady, bench_of};
ghost use Rattle.bench.specs.Outside.{outside};
ghost use Rattle.generator.specs.Given.{NeedsNoStream};
ghost use Rattle.script_text.specs.Summaries.{tally_of};
ghost use Rattle.script_replay.specs.Chains.{scene_of, DidEvent, DidEvents};
ghost use Rattle.line_extensions.specs.Trace.{StepRecord};
ghost use Rattle.script_replay.specs.Generated.{EndsWith, Generated, InTheMidst, summary_line};
ghost use Rattle.script_replay.specs.Run.{Leaves};
ghost use Rattle.line_runs.specs.Turns.{Ended};
ghost use Rattle.line_runs.specs.declared.{status.SideStatus.TheVariants.Run, status.Status.Status};
ghost use Rattle.std.specs.Io.KnownBytes.{Appends};

use crate::steps::OnBench;
use bench::{BenchOver, HasNodes};
use bench_base::events::{Event, Reply};
use bench_base::stream::{Sink, Source};
use generator::Generator;
use generator::laws::{all_whole, few_events, no_streams, only_debits_given};
use line_extensions::Stepper;
use line_runs::status::Status;
use nv_model::{Fuse, Nv};
use script_text::{Summary, write_summary};
use std::alloc::{AllocError, Global};
use text_streams::put_text;

// Does one event, and counts it.
fn count_event<M: Fuse + Drop, N: Nv, R: Source, P: Sink>(
    alloc: Global,
    event: &Event,
    rates: &mut R,
    printer: &mut P,
    bench: &mut BenchOver<M, N>,
    summary: &mut Summary,
)
    requires whole { IsWholeEvent event.now }
    requires alone { NeedsNoStream event.now }
    requires ready { IsReady (bench_of bench.old) }
    requires room { length (bench_of bench.old).messages < MOST_MESSAGES }
    requires few { summary.old.events < 2 ^ 32 - 1 }
    ensures ready { IsReady (bench_of bench.new) }
    ensures did { (d : StepRecord) × (d.event ≡ event.now) × DidEvent ⟦<BenchOver<M, N> as HasNodes>⟧.nodes
        (scene_of R.Source P.Sink bench.old rates.old printer.old)
        (scene_of R.Source P.Sink bench.new rates.new printer.new) d
        × ((replies : List Reply) → summary.old ≡ tally_of replies
        → summary.new ≡ tally_of (replies ++ d.reply ∷ [])) }
{
    let told: Result<Reply, AllocError> = OnBench::<M, N, R, P>::step(
        alloc, event, bench, rates, printer,
    );
    match told {
        Ok(reply) => summary.count(&reply),
        // Only a `rates` can run out of memory, and none is generated.
        Err(_) => unreachable!(),
    }
}

// Does all events of the run, and counts them. An event sends one message at most, so there is room for those of all.
fn count_all<M: Fuse + Drop, N: Nv, R: Source, P: Sink>(
    alloc: Global,
    seed: u32,
    count: u32,
    rates: &mut R,
    printer: &mut P,
    bench: &mut BenchOver<M, N>,
) -> Summary
    requires few { count ≤ 90000 }
    requires ready { IsReady (bench_of bench.old) }
    requires no_messages { (bench_of bench.old).messages ≡ [] }
    ensures ready { IsReady (bench_of bench.new) }
    ensures did { InTheMidst (DidEvents ⟦<BenchOver<M, N> as HasNodes>⟧.nodes) seed count [] result
        (scene_of R.Source P.Sink bench.old rates.old printer.old)
        (scene_of R.Source P.Sink bench.new rates.new printer.new) }
    ensures rests { outside R.Source rates.new P.Sink printer.new ≡ outside R.Source rates.old P.Sink printer.old }
{
    all_whole();
    few_events();
    no_streams();
    let mut generator = Generator::new(seed, count);
    let mut summary = Summary::new();
    loop {
        match generator.next() {
            Some(event) => count_event(alloc, &event, rates, printer, bench, &mut summary),
            None => return summary,
        }
    }
}

// Writes the line of the summary.
fn put_summary<K: Sink>(seed: u32, count: u32, summary: &Summary, report: &mut K) -> Status
    ensures ends { (replies : List Reply) → summary.now ≡ tally_of replies
        → (text : List ℕ) × EndsWith result text (summary_line seed count replies)
        × Appends (K.taken report.old) (K.taken report.new) text }
    ensures later { K.faults report.old ≤ K.faults report.new }
    ensures failed { result ≡ Status.WriteFault → Rose (K.faults report.old) (K.faults report.new) }
{
    let mut line = write_summary(seed, count, summary);
    line.push(b'\n');
    match put_text(report, line.as_slice()) {
        Ok(()) => Status::Done,
        Err(_) => Status::WriteFault,
    }
}

/// Does all events of the run that is made from this seed, with so many turns, and then writes the line of its summary.
pub(crate) fn generate<K: Sink, M: Fuse + Drop, N: Nv, R: Source, P: Sink>(
    alloc: Global,
    seed: u32,
    count: u32,
    rates: &mut R,
    report: &mut K,
    printer: &mut P,
    bench: &mut BenchOver<M, N>,
) -> Status
    requires few { count ≤ 90000 }
    requires ready { IsReady (bench_of bench.old) }
    requires no_messages { (bench_of bench.old).messages ≡ [] }
    ensures ready { IsReady (bench_of bench.new) }
    ensures ran { Generated result seed count (Ended (DidEvents ⟦<BenchOver<M, N> as HasNodes>⟧.nodes)
        (λ s. Leaves s) (Run result)
        (scene_of R.Source P.Sink bench.old rates.old printer.old)
        (scene_of R.Source P.Sink bench.new rates.new printer.new)) (K.taken report.old) (K.taken report.new) }
    ensures rests { outside R.Source rates.new P.Sink printer.new ≡ outside R.Source rates.old P.Sink printer.old }
    ensures not_words { result ≢ Status.Words }
    ensures not_read { result ≢ Status.ReadFault }
    ensures write_later { K.faults report.old ≤ K.faults report.new }
    ensures write_failed { result ≡ Status.WriteFault → Rose (K.faults report.old) (K.faults report.new) }
{
    only_debits_given();
    let summary = count_all(alloc, seed, count, rates, printer, bench);
    put_summary(seed, count, &summary, report)
}
