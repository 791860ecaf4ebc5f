//! Who does the lines of a script.
ghost use Rattle.std.specs.Prelude.{◌≡◌, ◌+◌, ◌≤◌, ◌<◌, ℕ, List, Some};
ghost use Rattle.bench_base.specs.Causes.{Rose};
ghost use Rattle.line_runs.specs.Trace.{Lines, FitsGrammar};
ghost use Rattle.line_runs.specs.Turns.{AreDone, LineEnd};

use crate::status::{SideStatus, Status};
use bench_base::stream::Sink;
use std::alloc::Global;

/// Does the lines of a script. It is a type alone: what it works on is lent to each call.
pub trait LineHandler {
    ghost use Rattle.line_runs.specs.declared.status.SideStatus.{SideStatus};

    /// What it has beside the bench.
    type Extension;

    type Bench;

    type Rates;

    type Printer;

    /// What it works on, as contracts see it.
    ghost World: { Type 0 };

    ghost world: { Self.Extension → Self.Bench → Self.Rates → Self.Printer → World };

    /// A line may be done.
    ghost IsReady: { World → Type 0 };

    /// How much of the room of a run is used; a line uses up to one.
    ghost used: { World → ℕ };

    /// What was done for one line.
    ghost TraceStep: { Type 0 };

    ghost lines: { Lines TraceStep };

    /// These steps were done, one after the other.
    ghost Does: { World → World → List TraceStep → Type 0 };

    /// What a run leaves, by its end.
    ghost Leaves: { SideStatus → World → World → Type 0 };

    /// Does the line of this number, and writes its answer. A status is the run's end.
    fn do_line<K: Sink>(
        alloc: Global,
        number: u32,
        line: &[u8],
        desk: &mut Self::Extension,
        bench: &mut Self::Bench,
        rates: &mut Self::Rates,
        printer: &mut Self::Printer,
        report: &mut K,
    ) -> Option<SideStatus>
        requires ready { IsReady (world desk.old bench.old rates.old printer.old) }
        requires room { used (world desk.old bench.old rates.old printer.old) < 1000000 }
        ensures ready { IsReady (world desk.new bench.new rates.new printer.new) }
        ensures uses { used (world desk.new bench.new rates.new printer.new) ≤ used
            (world desk.old bench.old rates.old printer.old) + 1 }
        ensures done { LineEnd lines Does Leaves number line.now result (world desk.old bench.old rates.old printer.old)
            (world desk.new bench.new rates.new printer.new) (K.taken report.old) (K.taken report.new) }
        ensures later { K.faults report.old ≤ K.faults report.new }
        ensures failed { result ≡ Some (SideStatus.Run Status.WriteFault)
            → Rose (K.faults report.old) (K.faults report.new) };

    ghost chain: { AreDone Does Leaves };

    ghost fits: { FitsGrammar lines };
}
