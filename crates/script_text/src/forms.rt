//! The lines of a script by their keywords: each reads the words after the keyword.
ghost use Rattle.std.specs.Prelude.{◌≡◌, ℕ, [], ◌∷◌, ◌⊎◌, Ok, IfOk, OnErr};
ghost use Rattle.bench_base.specs.Ranges.{IsDevice};
ghost use Rattle.bench_base.specs.declared.words.Kind.{Kind};
ghost use Rattle.script_words.specs.Words.{device_word, kind_word, words_in};
ghost use Rattle.script_text.specs.Reading.{IsEventBehind};
ghost use Rattle.script_text.specs.declared.keyword.Keyword.{Keyword};

use bench_base::bytes::Given;
use bench_base::events::Event;
use bench_base::numbers::{Customer, DevNo};
use bench_base::words::{Key, Kind, Node};
use psd_audit::read_date;
use script_words::LineFault;
use script_words::values::{Byte, Hex, Msg};
use script_words::word::{five, four, one, split_word, three, two};

pub fn day(rest: &[u8]) -> Result<Event, LineFault>
    ensures read { IsEventBehind Keyword.Day (words_in rest.now) result }
{
    match split_word(rest) {
        Some(_) => Err(LineFault),
        None => match read_date(rest) {
            Some(day) => Ok(Event::Day(day)),
            None => Err(LineFault),
        },
    }
}

pub fn make(rest: &[u8]) -> Result<Event, LineFault>
    ensures read { IsEventBehind Keyword.Make (words_in rest.now) result }
{
    let (device, key) = two::<DevNo, Key>(rest)?;
    Ok(Event::Make { device, key })
}

pub fn on(rest: &[u8]) -> Result<Event, LineFault>
    ensures read { IsEventBehind Keyword.On (words_in rest.now) result }
{
    let node = one::<Node>(rest)?;
    Ok(Event::On(node))
}

pub fn off(rest: &[u8]) -> Result<Event, LineFault>
    ensures read { IsEventBehind Keyword.Off (words_in rest.now) result }
{
    let node = one::<Node>(rest)?;
    Ok(Event::Off(node))
}

pub fn cut(rest: &[u8]) -> Result<Event, LineFault>
    ensures read { IsEventBehind Keyword.Cut (words_in rest.now) result }
{
    let (node, calls, keep, byte) = four::<Node, u32, u32, Byte>(rest)?;
    Ok(Event::Cut {
        node,
        calls,
        keep,
        byte: byte.0,
    })
}

pub fn debit(rest: &[u8]) -> Result<Event, LineFault>
    ensures read { IsEventBehind Keyword.Debit (words_in rest.now) result }
{
    let (device, piece, postage, class) = four::<DevNo, u32, u32, u16>(rest)?;
    Ok(Event::Debit {
        device,
        piece,
        postage,
        class,
    })
}

pub fn resend(rest: &[u8]) -> Result<Event, LineFault>
    ensures read { IsEventBehind Keyword.Resend (words_in rest.now) result }
{
    let device = one::<DevNo>(rest)?;
    Ok(Event::Resend(device))
}

pub fn ack(rest: &[u8]) -> Result<Event, LineFault>
    ensures read { IsEventBehind Keyword.Ack (words_in rest.now) result }
{
    let device = one::<DevNo>(rest)?;
    Ok(Event::Ack(device))
}

pub fn status(rest: &[u8]) -> Result<Event, LineFault>
    ensures read { IsEventBehind Keyword.Status (words_in rest.now) result }
{
    let device = one::<DevNo>(rest)?;
    Ok(Event::Status(device))
}

pub fn register(rest: &[u8]) -> Result<Event, LineFault>
    ensures read { IsEventBehind Keyword.Register (words_in rest.now) result }
{
    let (device, origin, key) = three::<DevNo, u32, Key>(rest)?;
    Ok(Event::Register {
        device,
        origin,
        key,
    })
}

pub fn customer(rest: &[u8]) -> Result<Event, LineFault>
    ensures read { IsEventBehind Keyword.Customer (words_in rest.now) result }
{
    let customer = one::<Customer>(rest)?;
    Ok(Event::OpenCustomer(customer))
}

pub fn deposit(rest: &[u8]) -> Result<Event, LineFault>
    ensures read { IsEventBehind Keyword.Deposit (words_in rest.now) result }
{
    let (customer, receipt, amount) = three::<Customer, u32, u32>(rest)?;
    Ok(Event::Deposit {
        customer,
        receipt,
        amount,
    })
}

pub fn suspend(rest: &[u8]) -> Result<Event, LineFault>
    ensures read { IsEventBehind Keyword.Suspend (words_in rest.now) result }
{
    let customer = one::<Customer>(rest)?;
    Ok(Event::Flag {
        customer,
        suspended: true,
    })
}

pub fn resume(rest: &[u8]) -> Result<Event, LineFault>
    ensures read { IsEventBehind Keyword.Resume (words_in rest.now) result }
{
    let customer = one::<Customer>(rest)?;
    Ok(Event::Flag {
        customer,
        suspended: false,
    })
}

pub fn balance(rest: &[u8]) -> Result<Event, LineFault>
    ensures read { IsEventBehind Keyword.Balance (words_in rest.now) result }
{
    let customer = one::<Customer>(rest)?;
    Ok(Event::Balance(customer))
}

pub fn deliver(rest: &[u8]) -> Result<Event, LineFault>
    ensures read { IsEventBehind Keyword.Deliver (words_in rest.now) result }
{
    let message = one::<u32>(rest)?;
    Ok(Event::Deliver(message))
}

pub fn order(rest: &[u8]) -> Result<Event, LineFault>
    ensures read { IsEventBehind Keyword.Order (words_in rest.now) result }
{
    let (device, piece, class, grams, zone) = five::<DevNo, u32, u16, u32, u32>(rest)?;
    Ok(Event::Order {
        device,
        piece,
        class,
        grams,
        zone,
    })
}

pub fn send(rest: &[u8]) -> Result<Event, LineFault>
    ensures read { IsEventBehind Keyword.Send (words_in rest.now) result }
{
    let job = one::<u32>(rest)?;
    Ok(Event::Send(job))
}

pub fn print(rest: &[u8]) -> Result<Event, LineFault>
    ensures read { IsEventBehind Keyword.Print (words_in rest.now) result }
{
    let job = one::<u32>(rest)?;
    Ok(Event::Print(job))
}

pub fn close(rest: &[u8]) -> Result<Event, LineFault>
    ensures read { IsEventBehind Keyword.Close (words_in rest.now) result }
{
    let job = one::<u32>(rest)?;
    Ok(Event::Close(job))
}

pub fn trust(rest: &[u8]) -> Result<Event, LineFault>
    ensures read { IsEventBehind Keyword.Trust (words_in rest.now) result }
{
    let (device, key) = two::<DevNo, Key>(rest)?;
    Ok(Event::Trust { device, key })
}

pub fn reconcile(rest: &[u8]) -> Result<Event, LineFault>
    ensures read { IsEventBehind Keyword.Reconcile (words_in rest.now) result }
{
    let device = one::<DevNo>(rest)?;
    Ok(Event::Reconcile(device))
}

pub fn give(rest: &[u8]) -> Result<Event, LineFault>
    ensures read { IsEventBehind Keyword.Give (words_in rest.now) result }
{
    let (node, bytes) = two::<Node, Given>(rest)?;
    match node {
        Node::Verifier => Err(LineFault),
        Node::Device(_) | Node::Centre | Node::Host => Ok(Event::Give { node, bytes }),
    }
}

pub fn scan(rest: &[u8]) -> Result<Event, LineFault>
    ensures read { IsEventBehind Keyword.Scan (words_in rest.now) result }
{
    match three::<u32, Msg, u32>(rest) {
        Ok((scan, _, message)) => {
            if scan < 1 {
                return Err(LineFault);
            }
            Ok(Event::ScanMsg { scan, message })
        }
        Err(_) => {
            let (scan, _, bytes) = three::<u32, Hex, Given>(rest)?;
            if scan < 1 {
                return Err(LineFault);
            }
            Ok(Event::ScanHex { scan, bytes })
        }
    }
}

// What is asked for with no number, as it is but with an enrolment or a reset.
fn ask_alone(rest: &[u8]) -> Result<Event, LineFault>
    ensures found { IfOk result (λ e. IsEventBehind Keyword.Ask (words_in rest.now) (Ok e)) }
    ensures none { OnErr result ((d : ℕ) (kind : Kind) → IsDevice d → words_in rest.now ≡ device_word d ∷ kind_word kind ∷ []
        → (kind ≡ Kind.Enrol) ⊎ (kind ≡ Kind.Reset)) }
{
    let (device, kind) = two::<DevNo, Kind>(rest)?;
    match kind {
        Kind::Enrol => Err(LineFault),
        Kind::Reset => Err(LineFault),
        _ => Ok(Event::Ask {
            device,
            kind,
            customer: 0,
            amount: 0,
        }),
    }
}

pub fn ask(rest: &[u8]) -> Result<Event, LineFault>
    ensures read { IsEventBehind Keyword.Ask (words_in rest.now) result }
{
    match three::<DevNo, Kind, u32>(rest) {
        Ok((device, Kind::Enrol, customer)) => Ok(Event::Ask {
            device,
            kind: Kind::Enrol,
            customer,
            amount: 0,
        }),
        Ok((device, Kind::Reset, amount)) => Ok(Event::Ask {
            device,
            kind: Kind::Reset,
            customer: 0,
            amount,
        }),
        Ok(_) => Err(LineFault),
        Err(_) => ask_alone(rest),
    }
}
