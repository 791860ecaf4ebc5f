//! One event.
ghost use Rattle.std.specs.Prelude.{◌≡◌, ◌≢◌, ◌<◌, ℕ, List, [], ◌∷◌, length, IfOk, OnErr};
ghost use Rattle.bench_base.specs.declared.events.Event.TheVariants as ev;
ghost use Rattle.bench_base.specs.Events.{IsWholeEvent};
ghost use Rattle.node_turns.specs.declared.turn.Turn.{Turn};
ghost use Rattle.node_turns.specs.Printing.{Printer, printer_of};
ghost use Rattle.node_turns.specs.Turns as turns;
ghost use Rattle.bench.specs.declared.benches.TheConstants.{MOST_MESSAGES};
ghost use Rattle.bench.specs.Benches.{IsReady, bench_of};
ghost use Rattle.bench.specs.Outside.{Feed, WantsMemory, beside, feed_of, outside};
ghost use Rattle.bench.specs.Steps.{Steps, sending};

use crate::benches::{Bench, BenchOver, HasNodes};
use crate::comparing::compare;
use crate::device_turns::device_turn;
use crate::node_turn::node_turn;
use crate::rates::read_turn;
use bench_abstraction::laws::{host_follows, nodes_follow, verifier_follows};
use bench_abstraction::{OfDay, Routed, route};
use bench_base::events::{Event, Reply};
use bench_base::ledger::Entry;
use bench_base::numbers::DayNo;
use bench_base::stream::{Sink, Source};
use bench_base::words::Node as NodeNo;
use host_rates::laws::prices_by_text;
use node_turns::{Sending, Tell, Turn};
use nv_model::{Fuse, Nv};
use std::alloc::{AllocError, Global};

// A new day.
fn begun<T: Tell>(day: DayNo) -> T
    ensures { T.IsOf result (turns.turn_of (Reply.Day day) (Entry.Day day ∷ [])) }
{
    T::one(Reply::Day(day), Entry::Day(day))
}

// What a `rates` does. Only it may need memory, and it sends nothing.
fn rates_turn<T: Tell, M: Fuse + Drop, N: Nv, R: Source>(
    alloc: Global,
    bench: &mut BenchOver<M, N>,
    rates: &mut R,
) -> Result<T, AllocError>
    requires ready { IsReady (bench_of bench.old) }
    ensures ready { IsReady (bench_of bench.new) }
    ensures did { IfOk result (λ told. (text : List ℕ) × (turn : Turn) × T.IsOf told turn
        × ((printer : Printer) → Steps ⟦<BenchOver<M, N> as HasNodes>⟧.nodes ev.Rates text turn
        (bench_of bench.old) (bench_of bench.new)
        (beside (feed_of R.Source rates.old) printer) (beside (feed_of R.Source rates.new) printer))) }
    ensures memory { OnErr result ((bench_of bench.new ≡ bench_of bench.old)
        × ((printer : Printer) → WantsMemory ev.Rates (bench_of bench.old).day
        (beside (feed_of R.Source rates.old) printer) (beside (feed_of R.Source rates.new) printer))) }
{
    match bench.day {
        None => Ok(T::silent(Reply::NoDay)),
        Some(_) => read_turn(alloc, &mut bench.rates, rates),
    }
}

// What every other event does to the nodes and the day, where the messages are left to be sent. What it comes to is handed on as it
// is, and the turns of the nodes stay functions of their own when it is compiled, since a function clears its large values as it begins,
// whatever the event.
fn turn_of<T: Tell, M: Fuse + Drop, N: Nv, P: Sink>(
    bench: &mut BenchOver<M, N>,
    event: &Event,
    printer: &mut P,
) -> T
    requires whole { IsWholeEvent event.now }
    requires other { event.now ≢ ev.Rates }
    requires ready { IsReady (bench_of bench.old) }
    requires few { length (bench_of bench.old).messages < MOST_MESSAGES }
    ensures ready { IsReady (bench_of bench.new) }
    ensures did { (turn : Turn) × T.IsOf result turn × ((bench_of bench.new).messages ≡ (bench_of bench.old).messages)
        × ((feed : Feed) → Steps ⟦<BenchOver<M, N> as HasNodes>⟧.nodes event.now [] turn
        (bench_of bench.old) (sending turn (bench_of bench.new))
        (beside feed (printer_of P.Sink printer.old)) (beside feed (printer_of P.Sink printer.new))) }
{
    // What the bench sees of its nodes follows from the ledger.
    nodes_follow();
    host_follows();
    verifier_follows();
    prices_by_text();
    let today = bench.day;
    let found = route(event, &bench.messages, &bench.rates);
    let Some(taken) = &found else {
        unreachable!();
    };
    match taken {
        Routed::Day(day) => {
            bench.day = Some(*day);
            begun(*day)
        }
        Routed::End => T::silent(Reply::End),
        Routed::OfDay(work) => match today {
            None => T::silent(Reply::NoDay),
            Some(day) => match work {
                OfDay::Rates => unreachable!(),
                OfDay::NoMessage(number) => T::silent(Reply::NoMessage(*number)),
                OfDay::Reconcile(device) => {
                    T::silent(compare(*device, &bench.devices, &bench.centre))
                }
                OfDay::Device(device, asked) => {
                    device_turn(&mut bench.devices, *device, day, asked, printer)
                }
                OfDay::Centre(asked) => {
                    node_turn(&mut bench.centre, (), &NodeNo::Centre, day, asked, printer)
                }
                OfDay::Host(asked) => {
                    node_turn(&mut bench.host, (), &NodeNo::Host, day, asked, printer)
                }
                OfDay::Verifier(asked) => {
                    node_turn(
                        &mut bench.verifier,
                        (),
                        &NodeNo::Verifier,
                        day,
                        asked,
                        printer,
                    )
                }
            },
        },
    }
}

/// Does one event as `step` does, and reports it whole, or by its reply alone, which creates no entries.
pub fn react<T: Tell, M: Fuse + Drop, N: Nv, R: Source, P: Sink>(
    alloc: Global,
    bench: &mut BenchOver<M, N>,
    event: &Event,
    rates: &mut R,
    printer: &mut P,
) -> Result<T, AllocError>
    requires whole { IsWholeEvent event.now }
    requires ready { IsReady (bench_of bench.old) }
    requires few { length (bench_of bench.old).messages < MOST_MESSAGES }
    ensures ready { IsReady (bench_of bench.new) }
    ensures did { IfOk result (λ told. (text : List ℕ) × (turn : Turn) × T.IsOf told turn
        × Steps ⟦<BenchOver<M, N> as HasNodes>⟧.nodes event.now text turn (bench_of bench.old) (bench_of bench.new)
        (outside R.Source rates.old P.Sink printer.old) (outside R.Source rates.new P.Sink printer.new)) }
    ensures memory { OnErr result ((bench_of bench.new ≡ bench_of bench.old)
        × WantsMemory event.now (bench_of bench.old).day
        (outside R.Source rates.old P.Sink printer.old) (outside R.Source rates.new P.Sink printer.new)) }
{
    let Event::Rates = event else {
        let Sending { told, sent } = turn_of(bench, event, printer);
        bench.send(sent);
        return Ok(told);
    };
    rates_turn(alloc, bench, rates)
}

/// Does one event, and returns its reply and what it adds to the ledger.
///
/// Only a `rates` on a day takes memory, for its text and its rates. If memory runs out, the bench is as before (`memory`).
/// Otherwise there is a text: what a `rates` took, and nothing for every other event. With it these hold (`did`, see
/// `Steps`):
///
/// - `history`: by every history that the bench represents, if the event is unforged there and the storages expose their
///   contents. The reply and the entries are those of the event there, and the bench represents the history with them. At
///   every moment meanwhile the storages show the history, or the history and the one commit of the event. The printer
///   takes the mark that the event prints.
/// - `shown`: this holds if the storages expose their contents, whether the bench represents a history or not. The event
///   does what each view that its node represents allows. Only an event that may commit writes. Damage is reported if and
///   only if it was found.
/// - `always`: this holds whether or not the storages expose their contents. It says which replies the event may get, what
///   needs a day and a node that is on, and what a refusal leaves. It says what failures and fuses cost, what is read of
///   the rates, and what the printer takes.
pub fn step<R: Source, P: Sink, N: Nv + Drop>(
    alloc: Global,
    bench: &mut Bench<N>,
    event: &Event,
    rates: &mut R,
    printer: &mut P,
) -> Result<Turn, AllocError>
    requires whole { IsWholeEvent event.now }
    requires ready { IsReady (bench_of bench.old) }
    requires few { length (bench_of bench.old).messages < MOST_MESSAGES }
    ensures ready { IsReady (bench_of bench.new) }
    ensures did { IfOk result (λ turn. (text : List ℕ)
        × Steps ⟦<Bench<N> as HasNodes>⟧.nodes event.now text turn (bench_of bench.old) (bench_of bench.new)
        (outside R.Source rates.old P.Sink printer.old) (outside R.Source rates.new P.Sink printer.new)) }
    ensures memory { OnErr result ((bench_of bench.new ≡ bench_of bench.old)
        × WantsMemory event.now (bench_of bench.old).day
        (outside R.Source rates.old P.Sink printer.old) (outside R.Source rates.new P.Sink printer.new)) }
{
    react(alloc, bench, event, rates, printer)
}
