//! The turns, and the events of each.
ghost use Rattle.std.specs.Prelude.{◌≡◌, slice_get};
ghost use Rattle.generator.specs.Turns.{gives, events_of, counted, HasRoom};
ghost use Rattle.generator.specs.declared.turns.Turn.TheVariants as turn;

use crate::opening::first_device;
use bench_base::bytes::Given;
use bench_base::events::Event;
use bench_base::words::{Kind, Node};
use psd_wire::{DebitMsg, Message, write_body};

/// How many pieces, messages and scans there were so far.
#[derive(Clone, Copy)]
pub struct Counts {
    pub pieces: u32,
    pub messages: u32,
    pub scans: u32,
}

/// What a turn does. Postage is in mills, 1 to 10.
#[derive(Clone, Copy)]
pub enum Turn {
    /// A debit of this postage, and a scan of its mark.
    Scan(u32),
    /// A debit of this postage with a power failure after so many calls of the storage, 0 to 5: so many bytes of the write
    /// are kept, 0 to 299, and the others hold this byte. Then the debit is given again.
    Cut(u32, u32, u32, u8),
    /// A reset: its request is delivered twice, and each of the two replies once.
    Reset,
}

// A debit of class 1 is given to the first device, as a message.
#[tactic(auto, unfolding(crate::specs::Turns::gives))]
fn give_debit(piece: u32, postage: u32) -> Event
    ensures value { result ≡ gives piece postage }
{
    let debit = DebitMsg {
        device: 1,
        piece,
        postage,
        class: 1,
    };
    let message = write_body(&Message::Debit(debit));
    match Given::new(message.as_slice()) {
        Some(bytes) => Event::Give {
            node: Node::Device(first_device()),
            bytes,
        },
        None => unreachable!(),
    }
}

fn scan_event(counts: &Counts, postage: u32, place: u32) -> Option<Event>
    requires room { HasRoom 1 counts.now }
    ensures value { result ≡ slice_get (events_of counts.now (turn.Scan postage)) place }
{
    match place {
        0 => Some(give_debit(counts.pieces + 1, postage)),
        1 => Some(Event::ScanMsg {
            scan: counts.scans + 1,
            message: counts.messages,
        }),
        _ => None,
    }
}

fn cut_event(
    counts: &Counts,
    postage: u32,
    calls: u32,
    keep: u32,
    byte: u8,
    place: u32,
) -> Option<Event>
    requires room { HasRoom 1 counts.now }
    ensures value { result ≡ slice_get (events_of counts.now (turn.Cut postage calls keep byte)) place }
{
    let device = Node::Device(first_device());
    match place {
        0 => Some(Event::Cut {
            node: device,
            calls,
            keep,
            byte,
        }),
        1 | 3 => Some(give_debit(counts.pieces + 1, postage)),
        2 => Some(Event::On(device)),
        _ => None,
    }
}

fn reset_event(counts: &Counts, place: u32) -> Option<Event>
    requires room { HasRoom 1 counts.now }
    ensures value { result ≡ slice_get (events_of counts.now turn.Reset) place }
{
    match place {
        0 => Some(Event::Ask {
            device: first_device(),
            kind: Kind::Reset,
            customer: 0,
            amount: 10_000,
        }),
        1 | 2 => Some(Event::Deliver(counts.messages)),
        3 => Some(Event::Deliver(counts.messages + 1)),
        4 => Some(Event::Deliver(counts.messages + 2)),
        _ => None,
    }
}

/// The event in this place of the turn, counted from 0; None after the last one. The counts are those before the turn.
pub fn turn_event(counts: &Counts, turn: &Turn, place: u32) -> Option<Event>
    requires room { HasRoom 1 counts.now }
    ensures value { result ≡ slice_get (events_of counts.now turn.now) place }
{
    match *turn {
        Turn::Scan(postage) => scan_event(counts, postage, place),
        Turn::Cut(postage, calls, keep, byte) => cut_event(
            counts, postage, calls, keep, byte, place,
        ),
        Turn::Reset => reset_event(counts, place),
    }
}

/// The counts after a turn.
pub fn count_turn(counts: &Counts, turn: &Turn) -> Counts
    requires room { HasRoom 1 counts.now }
    ensures value { result ≡ counted counts.now turn.now }
{
    let Counts {
        pieces,
        messages,
        scans,
    } = *counts;
    match turn {
        Turn::Scan(_) => Counts {
            pieces: pieces + 1,
            messages: messages + 1,
            scans: scans + 1,
        },
        Turn::Cut(_, _, _, _) => Counts {
            pieces: pieces + 1,
            messages: messages + 1,
            scans,
        },
        Turn::Reset => Counts {
            pieces,
            messages: messages + 3,
            scans,
        },
    }
}
