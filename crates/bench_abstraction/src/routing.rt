//! The events of a bench, each with whom it is for and what it asks.
ghost use Rattle.std.specs.Prelude.{◌≡◌, ◌<◌, ◌^◌, length, drop, IfSome};
ghost use Rattle.std.specs.Option.{option_copied};
ghost use Rattle.host_jobs.specs.ActLaws.{IsPrice};
ghost use Rattle.bench_abstraction.specs.Routing as routing;
ghost use Rattle.bench_abstraction.specs.Tariff as tariff;

use crate::calls::{
    AckCall, AskCall, BalanceCall, CentreCall, CloseCall, DebitCall, DepositCall, DeviceCall,
    FlagCall, Handed, HostCall, MakeCall, OpenCall, OrderCall, PrintCall, RegisterCall, ResendCall,
    ScanCall, SendCall, TakeReleaseCall, TakeReplyCall, TakeRequestCall, TrustCall, VerifierCall,
};
use bench_base::bytes::Note;
use bench_base::events::Event;
use bench_base::numbers::{DayNo, DevNo};
use bench_base::refusals::RateRefusal;
use bench_base::words::Node;
use host_rates::Rates;
use node_acts::Asked;
use psd_wire::{Message, read_message};

/// What the bench takes an event for.
#[derive(Drop)]
pub enum Routed<'a> {
    Day(DayNo),
    End,
    /// Every other event; it is refused if there is no day.
    OfDay(OfDay<'a>),
}

/// What is done on a day, by the node that it is for.
#[derive(Drop)]
pub enum OfDay<'a> {
    Rates,
    /// No message of this number was sent in this run.
    NoMessage(u32),
    /// Compares the device with the centre.
    Reconcile(DevNo),
    Device(DevNo, Asked<DeviceCall<'a>>),
    Centre(Asked<CentreCall<'a>>),
    Host(Asked<HostCall<'a>>),
    Verifier(Asked<VerifierCall<'a>>),
}

// What a node is asked: the one of a device, of the centre, of the host, or of the verifier.
fn of_node<'a>(
    node: Node,
    device: Asked<DeviceCall<'a>>,
    centre: Asked<CentreCall<'a>>,
    host: Asked<HostCall<'a>>,
    verifier: Asked<VerifierCall<'a>>,
) -> Routed<'a>
    ensures { result ≡ routing.of_node node device.entry centre.entry host.entry verifier.entry }
{
    match node {
        Node::Device(number) => Routed::OfDay(OfDay::Device(number, device)),
        Node::Centre => Routed::OfDay(OfDay::Centre(centre)),
        Node::Host => Routed::OfDay(OfDay::Host(host)),
        Node::Verifier => Routed::OfDay(OfDay::Verifier(verifier)),
    }
}

fn of_device(device: DevNo, call: DeviceCall) -> Routed
    ensures { result ≡ routing.of_device device call.entry }
{
    Routed::OfDay(OfDay::Device(device, Asked::Call(call)))
}

fn of_centre(call: CentreCall) -> Routed
    ensures { result ≡ routing.of_centre call.entry }
{
    Routed::OfDay(OfDay::Centre(Asked::Call(call)))
}

fn of_host(call: HostCall) -> Routed
    ensures { result ≡ routing.of_host call.entry }
{
    Routed::OfDay(OfDay::Host(Asked::Call(call)))
}

fn of_verifier(call: VerifierCall) -> Routed
    ensures { result ≡ routing.of_verifier call.entry }
{
    Routed::OfDay(OfDay::Verifier(Asked::Call(call)))
}

fn to_scanner<'a>(number: u32, bytes: &'a [u8]) -> Routed<'a>
    ensures { result ≡ routing.to_scanner number bytes.now }
{
    of_verifier(VerifierCall::Scan(ScanCall {
        number,
        bytes: Handed::new(bytes),
    }))
}

// The device of this number, or the centre if no device has this number. Each message that was sent names one of 1 to 8.
fn device_node(device: u32) -> Node
    ensures { result ≡ routing.device_node device }
{
    match DevNo::new(device) {
        Some(device) => Node::Device(device),
        None => Node::Centre,
    }
}

// The node that takes a message of these bytes.
fn taker(bytes: &[u8]) -> Node
    ensures { result ≡ routing.taker bytes.now }
{
    match read_message(bytes) {
        Ok(Message::Reply(reply)) => device_node(reply.device),
        Ok(Message::Debit(debit)) => device_node(debit.device),
        Ok(Message::Release(_)) => Node::Host,
        Ok(Message::Request(_) | Message::Done(_)) | Err(_) => Node::Centre,
    }
}

// Bytes that are given to a node; the verifier is given none.
fn given_to<'a>(node: Node, bytes: &'a [u8], message: u32) -> Option<Routed<'a>>
    ensures { result ≡ routing.given_to node bytes.now message }
{
    let bytes = Handed::new(bytes);
    match node {
        Node::Device(device) => Some(of_device(
            device,
            DeviceCall::Take(TakeReplyCall { bytes, message }),
        )),
        Node::Centre => Some(of_centre(CentreCall::Take(TakeRequestCall { bytes, message }))),
        Node::Host => Some(of_host(HostCall::Take(TakeReleaseCall { bytes }))),
        Node::Verifier => None,
    }
}

// The message of this number is given to the node that takes it.
fn message_taken<'a>(number: u32, next: u32, message: Option<&'a Note>) -> Option<Routed<'a>>
    ensures { result ≡ routing.message_taken number next (option_copied message.entry) }
{
    match message {
        Some(message) => given_to(taker(message.as_slice()), message.as_slice(), next),
        None => Some(Routed::OfDay(OfDay::NoMessage(number))),
    }
}

// The bytes of a message from the third on.
fn behind_tag(message: &[u8]) -> &[u8]
    ensures { result.now ≡ drop 2 message.now }
{
    match message {
        [_, _, rest @ ..] => rest,
        _ => &[],
    }
}

fn scanned<'a>(scan: u32, number: u32, message: Option<&'a Note>) -> Routed<'a>
    ensures { result ≡ routing.scanned scan number (option_copied message.entry) }
{
    match message {
        Some(message) => to_scanner(scan, behind_tag(message.as_slice())),
        None => Routed::OfDay(OfDay::NoMessage(number)),
    }
}

// What a piece costs by the rates of the run.
fn quote(
    rates: &Option<Rates>,
    class: u16,
    grams: u32,
    zone: u32,
) -> Option<Result<u32, RateRefusal>>
    ensures exact { result ≡ tariff.quote «rates».now class grams zone }
    ensures price { IsPrice result }
{
    match rates {
        Some(rates) => Some(rates.price(class, grams, zone)),
        None => None,
    }
}

/// Whom the event is for, and what it asks, where these are the messages and the rates of the run. `None` for bytes that are given to the verifier, which
/// no line does.
pub fn route<'a>(
    event: &'a Event,
    messages: &'a [Note],
    rates: &Option<Rates>,
) -> Option<Routed<'a>>
    requires few { length messages.now < 2 ^ 32 }
    ensures exact { result ≡ routing.routed messages.now (tariff.quote «rates».now) event.now }
    ensures priced { IfSome result routing.IsPriced }
{
    let next = messages.len() as u32;
    match event {
        Event::Day(day) => Some(Routed::Day(*day)),
        Event::End => Some(Routed::End),
        Event::Rates => Some(Routed::OfDay(OfDay::Rates)),
        Event::On(node) => Some(of_node(*node, Asked::On, Asked::On, Asked::On, Asked::On)),
        Event::Off(node) => Some(of_node(*node, Asked::Off, Asked::Off, Asked::Off, Asked::Off)),
        Event::Cut {
            node,
            calls,
            keep,
            byte,
        } => Some(of_node(
            *node,
            Asked::Cut(*calls, *keep, *byte),
            Asked::Cut(*calls, *keep, *byte),
            Asked::Cut(*calls, *keep, *byte),
            Asked::Cut(*calls, *keep, *byte),
        )),
        Event::Make { device, key } => {
            Some(of_device(*device, DeviceCall::Make(MakeCall { key: *key })))
        }
        Event::Debit {
            device,
            piece,
            postage,
            class,
        } => Some(of_device(
            *device,
            DeviceCall::Debit(DebitCall {
                piece: *piece,
                postage: *postage,
                class: *class,
            }),
        )),
        Event::Ask {
            device,
            kind,
            customer,
            amount,
        } => Some(of_device(
            *device,
            DeviceCall::Ask(AskCall {
                kind: *kind,
                customer: *customer,
                amount: *amount,
                message: next,
            }),
        )),
        Event::Resend(device) => Some(of_device(
            *device,
            DeviceCall::Resend(ResendCall { message: next }),
        )),
        Event::Ack(device) => Some(of_device(*device, DeviceCall::Ack(AckCall { message: next }))),
        Event::Status(device) => Some(of_device(*device, DeviceCall::Status)),
        Event::Register {
            device,
            origin,
            key,
        } => {
            Some(of_centre(CentreCall::Register(RegisterCall {
                device: *device,
                origin: *origin,
                key: *key,
            })))
        }
        Event::OpenCustomer(customer) => Some(of_centre(CentreCall::Open(OpenCall {
            customer: *customer,
        }))),
        Event::Deposit {
            customer,
            receipt,
            amount,
        } => {
            Some(of_centre(CentreCall::Deposit(DepositCall {
                customer: *customer,
                receipt: *receipt,
                amount: *amount,
            })))
        }
        Event::Flag {
            customer,
            suspended,
        } => Some(of_centre(CentreCall::Flag(FlagCall {
            customer: *customer,
            suspended: *suspended,
        }))),
        Event::Balance(customer) => Some(of_centre(CentreCall::Balance(BalanceCall {
            customer: *customer,
        }))),
        Event::Deliver(number) => message_taken(*number, next, messages.get(*number as usize)),
        Event::Give { node, bytes } => given_to(*node, bytes.as_slice(), next),
        Event::Order {
            device,
            piece,
            class,
            grams,
            zone,
        } => {
            Some(of_host(HostCall::Order(OrderCall {
                device: *device,
                piece: *piece,
                class: *class,
                grams: *grams,
                zone: *zone,
                price: quote(rates, *class, *grams, *zone),
            })))
        }
        Event::Send(job) => Some(of_host(HostCall::Send(SendCall {
            job: *job,
            message: next,
        }))),
        Event::Print(job) => Some(of_host(HostCall::Print(PrintCall { job: *job }))),
        Event::Close(job) => Some(of_host(HostCall::Close(CloseCall { job: *job }))),
        Event::Trust { device, key } => Some(of_verifier(VerifierCall::Trust(TrustCall {
            device: *device,
            key: *key,
        }))),
        Event::ScanMsg {
            scan,
            message: number,
        } => { Some(scanned(*scan, *number, messages.get(*number as usize))) }
        Event::ScanHex { scan, bytes } => Some(to_scanner(*scan, bytes.as_slice())),
        Event::Reconcile(device) => Some(Routed::OfDay(OfDay::Reconcile(*device))),
    }
}
