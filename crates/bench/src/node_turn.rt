//! An event of one node, whatever its kind.
ghost use Rattle.node_turns.specs.Printing.{printer_of};
ghost use Rattle.node_acts.specs.Kinds.{OfCall};
ghost use Rattle.bench.specs.Calls.{Comes};

use bench_base::numbers::DayNo;
use bench_base::stream::Sink;
use bench_base::words::Node as NodeNo;
use node_acts::Asked;
use node_storage::Arms;
use node_turns::{Tell, cut, start, stop};

/// A kind of nodes that answers calls of type C: how a call is reported, and what the printer takes in it.
pub trait Turns<C, T: Tell, P: Sink>: Arms {
    ghost use Rattle.std.specs.Prelude.{ℤ};
    ghost use Rattle.node_turns.specs.Printing.{Printer, printer_of};

    /// The numbers of a call are in their ranges.
    ghost IsRanged: { C → Type 0 };

    /// What a call hands over is a list of bytes.
    ghost IsBytes: { C → Type 0 };

    /// What a call of this node on this day comes to: the node and the printer before it and after it, and how it is
    /// reported.
    ghost CameTo: { Self.Name → ℤ → C → Self → Self → Printer → Printer → T → Type 0 };

    /// A call of the node, on that day.
    fn called(&mut self, number: Self::Name, day: DayNo, asked: &C, printer: &mut P) -> T
        requires ranged { IsRanged asked.now }
        ensures bytes { IsBytes asked.now }
        ensures did { CameTo number day asked.now self.old self.new (printer_of P.Sink printer.old) (printer_of P.Sink printer.new) result };
}

/// An event of the node in this place, on that day. For each kind it stays a function of its own when it is compiled.
#[inline(never)]
pub fn node_turn<K: Turns<C, T, P>, C, T: Tell, P: Sink>(
    place: &mut K,
    number: K::Name,
    node: &NodeNo,
    day: DayNo,
    asked: &Asked<C>,
    printer: &mut P,
) -> T
    requires ranged { OfCall K.IsRanged asked.now }
    ensures bytes { OfCall K.IsBytes asked.now }
    ensures did { Comes K.Node K.Storage.Nv K.fuse node.now number (T.IsOf result) place.old place.new
        (printer_of P.Sink printer.old) (printer_of P.Sink printer.new)
        (λ call. K.CameTo number day call place.old place.new
        (printer_of P.Sink printer.old) (printer_of P.Sink printer.new) result) asked.now }
{
    match asked {
        Asked::On => start(place, number, node),
        Asked::Off => stop(place, node),
        Asked::Cut(calls, keep, byte) => cut(place, node, *calls, *keep, *byte),
        Asked::Call(asked) => place.called(number, day, asked, printer),
    }
}
