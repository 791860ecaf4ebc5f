//! A run over a script with an extension beside the bench.
ghost use Rattle.std.specs.Prelude.{◌≡◌, ◌∷◌, [], true, false, map, string_bytes};
ghost use Rattle.bench.specs.Benches.{IsReady, bench_of};
ghost use Rattle.line_extensions.specs.Desks.{world};
ghost use Rattle.script_replay.specs.Chains.{scene_of};
ghost use Rattle.script_replay.specs.Sides.{DidSide, RanSide, EndsSide, CompletesSide};
ghost use Rattle.script_replay.specs.Streams.{streams_of};

use crate::steps::OnBench;
use bench::{Bench, HasNodes};
use bench_base::stream::{Sink, Source};
use ledger_laws::laws::histories;
use line_extensions::{AtBench, Extension};
use line_runs::run_lines;
use line_runs::status::{SideStatus, Status};
use nv_model::{Fused, Nv};
use script_text::is_word;
use std::alloc::Global;
use text_streams::BufSource;

// Whether the words are this one.
fn is_called(words: &[String], word: &str) -> bool
    ensures called { result ≡ true → map string_bytes words.now ≡ word.now ∷ [] }
    ensures other { result ≡ false → map string_bytes words.now ≡ word.now ∷ [] → ⊥ }
{
    match words {
        [one] => {
            if is_word(one, word) {
                return true;
            }
            false
        }
        _ => false,
    }
}

/// Does a script with lines that are events of the bench or an extension's own, as `run` does one of events, if the words are this one.
pub fn run_side<D: Extension, S: BufSource, R: Source, K: Sink, P: Sink, N: Nv + Drop>(
    alloc: Global,
    word: &str,
    words: &[String],
    script: &mut S,
    rates: &mut R,
    report: &mut K,
    printer: &mut P,
    bench: &mut Bench<N>,
    desk: &mut D,
) -> SideStatus
    requires ready { IsReady (bench_of bench.old) }
    ensures ready { IsReady (bench_of bench.new) }
    ensures ran { RanSide ⟦<D as Extension>⟧ word.now result (map string_bytes words.now)
        (DidSide ⟦<Bench<N> as HasNodes>⟧.nodes ⟦<D as Extension>⟧
        (world (scene_of R.Source P.Sink bench.old rates.old printer.old) desk.old)
        (world (scene_of R.Source P.Sink bench.new rates.new printer.new) desk.new) result)
        (streams_of S.Source K.Sink R.Source P.Sink script.old report.old rates.old printer.old)
        (streams_of S.Source K.Sink R.Source P.Sink script.new report.new rates.new printer.new) }
    ensures ends { EndsSide ⟦<D as Extension>⟧ word.now result (map string_bytes words.now)
        (streams_of S.Source K.Sink R.Source P.Sink script.old report.old rates.old printer.old)
        (streams_of S.Source K.Sink R.Source P.Sink script.new report.new rates.new printer.new) }
    ensures completes { CompletesSide ⟦<D as Extension>⟧ word.now result (map string_bytes words.now)
        (streams_of S.Source K.Sink R.Source P.Sink script.old report.old rates.old printer.old)
        (streams_of S.Source K.Sink R.Source P.Sink script.new report.new rates.new printer.new) }
{
    histories();
    bench.begin();
    if is_called(words, word) {
        return run_lines::<AtBench<OnBench<Fused<N>, N, R, P>, D>, S, K>(
            alloc, script, desk, bench, rates, printer, report,
        );
    }
    SideStatus::Run(Status::Words)
}
