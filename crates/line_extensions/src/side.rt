//! The lines of a script that are events of a bench, or an extension's own.
ghost use Rattle.std.specs.Prelude.{◌≡◌, ◌≢◌, ◌+◌, ◌≤◌, ◌<◌, ℕ, List, flat_map, OnOk, OnErr, Some};
ghost use Rattle.std.specs.Io.KnownBytes.{Appends};
ghost use Rattle.script_text.specs.Texts.{IsWholeReply};
ghost use Rattle.bench_base.specs.Causes.{HasCause, Rose};
ghost use Rattle.bench_base.specs.Events.{IsWholeEvent};
ghost use Rattle.bench_base.specs.declared.events.Event.TheVariants as ends;
ghost use Rattle.node_turns.specs.declared.turn.Turn.{Turn};
ghost use Rattle.line_runs.specs.Lines.{ended, IsCutOff};
ghost use Rattle.line_runs.specs.Turns.{Reported};
ghost use Rattle.line_extensions.specs.Trace.{StepRecord, line_of};
ghost use Rattle.line_extensions.specs.DeskLaws.{side_done, side_fits};
ghost use Rattle.line_extensions.specs.Desks.{World, world, SideLeaves, side_lines, Does, Asks};
ghost use Rattle.line_extensions.specs.SideTrace.{SideStep};
ghost use Rattle.line_extensions.specs.Wants.{MayAsk, IsStep};

use crate::extension::{Extension, Next};
use crate::hear::Hear;
use crate::replying::{ended_by, put_line};
use crate::stepper::Stepper;
use bench_base::events::Event;
use bench_base::stream::{Sink, WriteFail};
use line_runs::LineHandler;
use line_runs::status::{SideStatus, Status};
use script_text::{is_skipped, read_event};
use script_words::Line;
use std::alloc::{AllocError, Global};
use std::marker::PhantomData;
use text_streams::put_text;

// Does the event of a line that the extension left to the bench, and writes its reply's line. A status is the run's end.
fn do_plain<B: Stepper, D: Extension, K: Sink>(
    alloc: Global,
    event: &Event,
    desk: &mut D,
    bench: &mut B::Bench,
    rates: &mut B::Rates,
    printer: &mut B::Printer,
    report: &mut K,
) -> Option<SideStatus>
    requires whole { IsWholeEvent event.now }
    requires ready { B.IsReady (B.scene bench.old rates.old printer.old) }
    requires room { B.sent (B.scene bench.old rates.old printer.old) < 1000000 }
    ensures ready { B.IsReady (B.scene bench.new rates.new printer.new) }
    ensures uses { B.sent (B.scene bench.new rates.new printer.new) ≤ B.sent
        (B.scene bench.old rates.old printer.old) + 1 }
    ensures done { result ≢ Some (SideStatus.Run Status.Memory) → (d : StepRecord) × (turn : Turn) × (d.event ≡ event.now)
        × B.Steps (B.scene bench.old rates.old printer.old) (B.scene bench.new rates.new printer.new) d turn
        × D.Sees desk.old event.now turn desk.new × IsWholeReply d.reply
        × Reported result (event.now ≢ ends.End) (event.now ≡ ends.End) ⊥ (line_of d.reply) (K.taken report.old)
        (K.taken report.new) }
    ensures memory { result ≡ Some (SideStatus.Run Status.Memory) → (event.now ≡ ends.Rates)
        × B.Wants (B.scene bench.old rates.old printer.old) (B.scene bench.new rates.new printer.new)
        × (report.new ≡ report.old) × (desk.new ≡ desk.old) }
    ensures later { K.faults report.old ≤ K.faults report.new }
    ensures failed { result ≡ Some (SideStatus.Run Status.WriteFault)
        → Rose (K.faults report.old) (K.faults report.new) }
{
    let told: Result<D::Heard, AllocError> = B::step(alloc, event, bench, rates, printer);
    match &told {
        Err(_) => Some(SideStatus::Run(Status::Memory)),
        Ok(told) => {
            desk.see(event, told);
            match put_line(told.reply(), report) {
                Err(_) => Some(SideStatus::Run(Status::WriteFault)),
                Ok(()) => ended_by(event),
            }
        }
    }
}

// Does the steps that the extension asks for, one after the other. What it asks for last is no step.
fn ask_all<B: Stepper, D: Extension>(
    alloc: Global,
    first: Next,
    desk: &mut D,
    bench: &mut B::Bench,
    rates: &mut B::Rates,
    printer: &mut B::Printer,
) -> Next
    requires may { MayAsk first (D.left desk.old) }
    requires ready { B.IsReady (B.scene bench.old rates.old printer.old) }
    requires room { B.sent (B.scene bench.old rates.old printer.old) < 1000000 }
    ensures ready { B.IsReady (B.scene bench.new rates.new printer.new) }
    ensures last { IsStep result → ⊥ }
    ensures uses { B.sent (B.scene bench.new rates.new printer.new) ≤ B.sent
        (B.scene bench.old rates.old printer.old) + 1 }
    ensures asked { (steps : List StepRecord)
        × Asks ⟦<D as Extension>⟧ B.Steps (world (B.scene bench.old rates.old printer.old) desk.old)
        (world (B.scene bench.new rates.new printer.new) desk.new) first steps result }
{
    let mut next = first;
    while let Next::Step(event) = next {
        match B::step::<D::Heard>(alloc, &event, bench, rates, printer) {
            // Only a `rates` can run out of memory, and an extension asks for none.
            Err(_) => unreachable!(),
            Ok(told) => next = desk.go_on(&told),
        }
    }
    next
}

// Writes the texts of the extension's answer, each in a line. If that fails, a prefix of them was written.
fn put_texts<D: Extension, K: Sink>(desk: &D, report: &mut K) -> Result<(), WriteFail>
    ensures ok { OnOk result (Appends (K.taken report.old) (K.taken report.new) (flat_map ended (D.texts desk.now))) }
    ensures err { OnErr result ((part : List ℕ) × Appends (K.taken report.old) (K.taken report.new) part
        × IsCutOff part (flat_map ended (D.texts desk.now))) }
    ensures cause { HasCause (K.faults report.old) (K.faults report.new) result }
{
    for number in 0..desk.count() {
        let mut line = Line::new();
        desk.put(number, &mut line);
        line.push(b'\n');
        match put_text(report, line.as_slice()) {
            Ok(()) => {}
            Err(fail) => return Err(fail),
        }
    }
    Ok(())
}

/// Does the lines of a script that are events of a bench, or an extension's own.
pub struct AtBench<B, D> {
    of: PhantomData<(B, D)>,
}

impl<B: Stepper, D: Extension> LineHandler for AtBench<B, D> {
    type Extension = D;

    type Bench = B::Bench;

    type Rates = B::Rates;

    type Printer = B::Printer;

    ghost World = { World B.Scene D };

    ghost world = { λ desk bench rates printer. world (B.scene bench rates printer) desk };

    ghost IsReady = { λ w. B.IsReady w.scene };

    ghost used = { λ w. B.sent w.scene };

    ghost TraceStep = { SideStep D.Own };

    ghost lines = { side_lines ⟦<D as Extension>⟧ };

    ghost Does = { Does ⟦<D as Extension>⟧ B.Steps };

    ghost Leaves = { SideLeaves B.Wants };

    ghost chain = { side_done ⟦<D as Extension>⟧ B.Steps B.Wants };

    ghost fits = { side_fits ⟦<D as Extension>⟧ D.alone };

    fn do_line<K: Sink>(
        alloc: Global,
        number: u32,
        line: &[u8],
        desk: &mut D,
        bench: &mut B::Bench,
        rates: &mut B::Rates,
        printer: &mut B::Printer,
        report: &mut K,
    ) -> Option<SideStatus> {
        if is_skipped(line) {
            return None;
        }
        let begun = desk.begin(alloc, line);
        match begun {
            Err(_) => Some(SideStatus::Run(Status::Memory)),
            Ok(Some(first)) => match ask_all::<B, D>(alloc, first, desk, bench, rates, printer) {
                Next::Step(_) => unreachable!(),
                Next::Stop => Some(SideStatus::Stopped),
                Next::Say => match put_texts(desk, report) {
                    Ok(()) => None,
                    Err(_) => Some(SideStatus::Run(Status::WriteFault)),
                },
            },
            Ok(None) => match &read_event(line) {
                Ok(event) => {
                    do_plain::<B, D, K>(alloc, event, desk, bench, rates, printer, report)
                }
                Err(_) => Some(SideStatus::Run(Status::Script(number))),
            },
        }
    }
}
