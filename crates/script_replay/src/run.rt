//! A run over a whole script: line by line, until it ends.
ghost use Rattle.std.specs.Prelude.{◌≡◌, ◌≢◌, ◌≤◌, ◌<◌, [], length, Some, map, string_bytes};
ghost use Rattle.script_text.specs.Texts.{IsWholeReply};
ghost use Rattle.bench_base.specs.Causes.{Rose};
ghost use Rattle.bench_base.specs.Events.{IsWholeEvent};
ghost use Rattle.bench_base.specs.declared.events.Event.TheVariants as ends;
ghost use Rattle.bench.specs.declared.benches.TheConstants.{MOST_MESSAGES};
ghost use Rattle.bench.specs.Benches.{IsReady, bench_of};
ghost use Rattle.script_replay.specs.Chains.{scene_of, DidEvent, DidTrace};
ghost use Rattle.line_extensions.specs.Trace.{StepRecord, line_of};
ghost use Rattle.line_runs.specs.Runs.{Replayed};
ghost use Rattle.line_runs.specs.Turns.{LineEnd, Reported, Ended};
ghost use Rattle.script_replay.specs.Run.{DidRun, Leaves};
ghost use Rattle.line_extensions.specs.Scripts.{script_lines};
ghost use Rattle.script_replay.specs.Streams.{Ran, EndsRun, Completes, streams_of};
ghost use Rattle.line_runs.specs.declared.status.Status.{Status};

use crate::generate::generate;
use crate::replay::Replay;
use crate::steps::OnBench;
use bench::{Bench, BenchOver, HasNodes};
use bench_base::events::{Event, Reply};
use bench_base::stream::{Sink, Source};
use ledger_laws::laws::histories;
use line_extensions::{Stepper, ended_by, put_line};
use line_runs::run_lines;
use line_runs::status::{SideStatus, Status};
use nv_model::{Fuse, Nv};
use script_text::{Words, is_skipped, read_event, read_words};
use std::alloc::{AllocError, Global};
use text_streams::BufSource;

// Does one event and writes its reply's line. A status is the run's end.
fn do_event<K: Sink, M: Fuse + Drop, N: Nv, R: Source, P: Sink>(
    alloc: Global,
    event: &Event,
    rates: &mut R,
    report: &mut K,
    printer: &mut P,
    bench: &mut BenchOver<M, N>,
) -> Option<SideStatus>
    requires whole { IsWholeEvent event.now }
    requires ready { IsReady (bench_of bench.old) }
    requires room { length (bench_of bench.old).messages < MOST_MESSAGES }
    ensures ready { IsReady (bench_of bench.new) }
    ensures done { result ≢ Some (SideStatus.Run Status.Memory) → (d : StepRecord) × (d.event ≡ event.now)
        × DidEvent ⟦<BenchOver<M, N> as HasNodes>⟧.nodes
        (scene_of R.Source P.Sink bench.old rates.old printer.old)
        (scene_of R.Source P.Sink bench.new rates.new printer.new) d × IsWholeReply d.reply
        × Reported result (event.now ≢ ends.End) (event.now ≡ ends.End) ⊥
        (line_of d.reply) (K.taken report.old) (K.taken report.new) }
    ensures memory { result ≡ Some (SideStatus.Run Status.Memory) → (event.now ≡ ends.Rates)
        × Leaves (SideStatus.Run Status.Memory)
        (scene_of R.Source P.Sink bench.old rates.old printer.old)
        (scene_of R.Source P.Sink bench.new rates.new printer.new) × (report.new ≡ report.old) }
    ensures later { K.faults report.old ≤ K.faults report.new }
    ensures failed { result ≡ Some (SideStatus.Run Status.WriteFault)
        → Rose (K.faults report.old) (K.faults report.new) }
{
    let told: Result<Reply, AllocError> = OnBench::<M, N, R, P>::step(
        alloc, event, bench, rates, printer,
    );
    match &told {
        Err(_) => Some(SideStatus::Run(Status::Memory)),
        Ok(reply) => match put_line(reply, report) {
            Err(_) => Some(SideStatus::Run(Status::WriteFault)),
            Ok(()) => ended_by(event),
        },
    }
}

// Does the line of this number. A status is the run's end.
pub(crate) fn do_line<K: Sink, M: Fuse + Drop, N: Nv, R: Source, P: Sink>(
    alloc: Global,
    number: u32,
    line: &[u8],
    rates: &mut R,
    report: &mut K,
    printer: &mut P,
    bench: &mut BenchOver<M, N>,
) -> Option<SideStatus>
    requires ready { IsReady (bench_of bench.old) }
    requires room { length (bench_of bench.old).messages < MOST_MESSAGES }
    ensures ready { IsReady (bench_of bench.new) }
    ensures done { LineEnd script_lines (DidTrace ⟦<BenchOver<M, N> as HasNodes>⟧.nodes)
        (λ s. Leaves s) number line.now result
        (scene_of R.Source P.Sink bench.old rates.old printer.old)
        (scene_of R.Source P.Sink bench.new rates.new printer.new) (K.taken report.old) (K.taken report.new) }
    ensures later { K.faults report.old ≤ K.faults report.new }
    ensures failed { result ≡ Some (SideStatus.Run Status.WriteFault)
        → Rose (K.faults report.old) (K.faults report.new) }
{
    if is_skipped(line) {
        return None;
    }
    match &read_event(line) {
        Ok(event) => do_event(alloc, event, rates, report, printer, bench),
        Err(_) => Some(SideStatus::Run(Status::Script(number))),
    }
}

// Does the script's lines up to the run's end.
fn replay<S: BufSource, K: Sink, M: Fuse + Drop, N: Nv, R: Source, P: Sink>(
    alloc: Global,
    script: &mut S,
    rates: &mut R,
    report: &mut K,
    printer: &mut P,
    bench: &mut BenchOver<M, N>,
) -> Status
    requires ready { IsReady (bench_of bench.old) }
    requires no_messages { (bench_of bench.old).messages ≡ [] }
    ensures ready { IsReady (bench_of bench.new) }
    ensures ran { Replayed script_lines (SideStatus.Run result)
        (Ended (DidTrace ⟦<BenchOver<M, N> as HasNodes>⟧.nodes) (λ s. Leaves s) (SideStatus.Run result)
        (scene_of R.Source P.Sink bench.old rates.old printer.old)
        (scene_of R.Source P.Sink bench.new rates.new printer.new)) (S.left script.old) (S.left script.new)
        (K.taken report.old) (K.taken report.new) }
    ensures not_words { result ≢ Status.Words }
    ensures read_later { S.faults script.old ≤ S.faults script.new }
    ensures read_failed { result ≡ Status.ReadFault → Rose (S.faults script.old) (S.faults script.new) }
    ensures write_later { K.faults report.old ≤ K.faults report.new }
    ensures write_failed { result ≡ Status.WriteFault → Rose (K.faults report.old) (K.faults report.new) }
{
    let mut desk = ();
    match run_lines::<Replay<M, N, R, P>, S, K>(
        alloc, script, &mut desk, bench, rates, printer, report,
    ) {
        SideStatus::Run(status) => status,
        // No step of a script of events is broken off.
        SideStatus::Stopped => unreachable!(),
    }
}

/// Does all that the program does, as the words call for. For `replay` it does the events of the script, line by line, and writes
/// a line of the report for each before it reads the next. For `generate` it does the events of a run that is made from a number,
/// and writes one line about all of them. The bench begins a new run in any case. Only a `rates` of a script takes memory.
///
/// Each event is done by a step of the bench; that holds of each whether or not a history leads to what the storages show. More
/// holds for every history that the bench represented, if the storages expose what they hold, as long as nothing from outside is
/// forged. Each reply is one that its event may get, the bench represents what the events leave, and that ledger is lawful.
/// Whatever the storages expose, a failure of power, storage or a stream is answered only as often as they and the cuts account for.
/// So each reply is its event's answer if none failed, no fuse was armed and no `cut` was answered.
pub fn run<S: BufSource, R: Source, K: Sink, P: Sink, N: Nv + Drop>(
    alloc: Global,
    words: &[String],
    script: &mut S,
    rates: &mut R,
    report: &mut K,
    printer: &mut P,
    bench: &mut Bench<N>,
) -> Status
    requires ready { IsReady (bench_of bench.old) }
    ensures ready { IsReady (bench_of bench.new) }

    // The steps, and the status by them: each status has its row in `EndsIn` and in `EndsWith`.
    ensures ran { Ran result (map string_bytes words.now)
        (DidRun ⟦<Bench<N> as HasNodes>⟧.nodes
        (scene_of R.Source P.Sink bench.old rates.old printer.old)
        (scene_of R.Source P.Sink bench.new rates.new printer.new) result)
        (streams_of S.Source K.Sink R.Source P.Sink script.old report.old rates.old printer.old)
        (streams_of S.Source K.Sink R.Source P.Sink script.new report.new rates.new printer.new) }

    // How it ends, and what that says of the streams.
    ensures ends { EndsRun result (map string_bytes words.now)
        (streams_of S.Source K.Sink R.Source P.Sink script.old report.old rates.old printer.old)
        (streams_of S.Source K.Sink R.Source P.Sink script.new report.new rates.new printer.new) }

    // It comes to its end.
    ensures completes { Completes result (map string_bytes words.now)
        (streams_of S.Source K.Sink R.Source P.Sink script.old report.old rates.old printer.old)
        (streams_of S.Source K.Sink R.Source P.Sink script.new report.new rates.new printer.new) }
{
    histories();
    bench.begin();
    match read_words(words) {
        Some(Words::Replay) => replay(alloc, script, rates, report, printer, bench),
        Some(Words::Generate(seed, count)) => {
            generate(alloc, seed, count, rates, report, printer, bench)
        }
        None => Status::Words,
    }
}
