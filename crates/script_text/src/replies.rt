//! The text of a reply in the report.
ghost use Rattle.std.specs.Prelude.{◌≡◌, ◌+◌, ◌≤◌, ◌++◌, ◌∷◌, [], length, codes};
ghost use Rattle.std.specs.Fmt.{signed_decimal};
ghost use Rattle.script_words.specs.Words.{spaced};
ghost use Rattle.script_text.specs.Texts.{text_of, verdict_number, pending_word, flight_words, IsWholeReply};
ghost use Rattle.bench_base.specs.declared.events.Reply.{Reply};

use crate::refusals::{
    phase_word, put_centre_refusal, put_dev_refusal, put_host_refusal, put_scan_refusal,
};
use bench_base::events::{DevView, Reply};
use bench_base::numbers::{Customer, DevNo};
use bench_base::refusals::{CentreRefusal, DevRefusal, HostRefusal, ScanRefusal};
use bench_base::words::{Kind, Node, Verdict};
use script_words::line::{Line, numbered, of_device, of_node, starting};

// The number of the verdict.
fn verdict_code(verdict: Verdict) -> u8
    ensures value { result ≡ verdict_number verdict }
{
    match verdict {
        Verdict::Granted => 0,
        Verdict::NotEnrolled => 1,
        Verdict::EnrolledAlready => 2,
        Verdict::NoCustomer => 3,
        Verdict::Suspended => 4,
        Verdict::NoFunds => 5,
        Verdict::Imbalance => 6,
    }
}

#[tactic(auto, unfolding(crate::specs::Texts::reply_words))]
fn put_rates(line: &mut Line, classes: u32, zones: u32)
    requires empty { line.old ≡ [] }
    ensures value { line.new ≡ text_of (Reply.Rates classes zones) }
    ensures whole { IsWholeReply (Reply.Rates classes zones) }
    ensures short { length line.new ≤ 231 }
{
    numbered(line, b"rates", classes);
    line.number(zones);
}

#[tactic(auto, unfolding(crate::specs::Texts::reply_words))]
fn put_up(line: &mut Line, node: Node, commits: u64)
    requires empty { line.old ≡ [] }
    ensures value { line.new ≡ text_of (Reply.Up node commits) }
    ensures whole { IsWholeReply (Reply.Up node commits) }
    ensures short { length line.new ≤ 231 }
{
    of_node(line, b"up", node);
    line.word(b"commits");
    line.number(commits);
}

#[tactic(auto, unfolding(crate::specs::Texts::reply_words))]
fn put_marked(line: &mut Line, device: DevNo, piece: u32, again: bool, mark: &[u8; 64])
    requires empty { line.old ≡ [] }
    ensures value { line.new ≡ text_of (Reply.Marked device piece again mark.now) }
    ensures whole { IsWholeReply (Reply.Marked device piece again mark.now) }
    ensures short { length line.new ≤ 231 }
{
    of_device(line, b"mark", device);
    line.number(piece);
    line.again(again);
    line.hex(mark.as_slice());
}

#[tactic(auto, unfolding(crate::specs::Texts::reply_words))]
fn put_sent_request(line: &mut Line, device: DevNo, number: u32, message: u32)
    requires empty { line.old ≡ [] }
    ensures value { line.new ≡ text_of (Reply.SentRequest device number message) }
    ensures whole { IsWholeReply (Reply.SentRequest device number message) }
    ensures short { length line.new ≤ 231 }
{
    of_device(line, b"sent", device);
    line.word(b"request");
    line.number(number);
    line.word(b"msg");
    line.number(message);
}

#[tactic(auto, unfolding(crate::specs::Texts::reply_words))]
fn put_sent_done(line: &mut Line, device: DevNo, number: u32, message: u32)
    requires empty { line.old ≡ [] }
    ensures value { line.new ≡ text_of (Reply.SentDone device number message) }
    ensures whole { IsWholeReply (Reply.SentDone device number message) }
    ensures short { length line.new ≤ 231 }
{
    of_device(line, b"sent", device);
    line.word(b"done");
    line.number(number);
    line.word(b"msg");
    line.number(message);
}

#[tactic(auto, unfolding(crate::specs::Texts::reply_words))]
fn put_deposited(line: &mut Line, customer: Customer, receipt: u32, again: bool, total: u64)
    requires empty { line.old ≡ [] }
    ensures value { line.new ≡ text_of (Reply.Deposited customer receipt again total) }
    ensures whole { IsWholeReply (Reply.Deposited customer receipt again total) }
    ensures short { length line.new ≤ 231 }
{
    numbered(line, b"deposited", customer.get());
    line.number(receipt);
    line.again(again);
    line.number(total);
}

#[tactic(auto, unfolding(crate::specs::Texts::reply_words))]
fn put_balance(line: &mut Line, customer: Customer, total: u64)
    requires empty { line.old ≡ [] }
    ensures value { line.new ≡ text_of (Reply.Balance customer total) }
    ensures whole { IsWholeReply (Reply.Balance customer total) }
    ensures short { length line.new ≤ 231 }
{
    numbered(line, b"balance", customer.get());
    line.number(total);
}

#[tactic(auto, unfolding(crate::specs::Texts::reply_words))]
fn put_ruled(
    line: &mut Line,
    device: DevNo,
    number: u32,
    verdict: Verdict,
    again: bool,
    message: u32,
)
    requires empty { line.old ≡ [] }
    ensures value { line.new ≡ text_of (Reply.Ruled device number verdict again message) }
    ensures whole { IsWholeReply (Reply.Ruled device number verdict again message) }
    ensures short { length line.new ≤ 231 }
{
    of_device(line, b"ruled", device);
    line.number(number);
    line.word(b"verdict");
    line.number(verdict_code(verdict));
    line.again(again);
    line.word(b"msg");
    line.number(message);
}

#[tactic(auto, unfolding(crate::specs::Texts::reply_words))]
fn put_settled(line: &mut Line, device: DevNo, number: u32, again: bool)
    requires empty { line.old ≡ [] }
    ensures value { line.new ≡ text_of (Reply.Settled device number again) }
    ensures whole { IsWholeReply (Reply.Settled device number again) }
    ensures short { length line.new ≤ 231 }
{
    of_device(line, b"settled", device);
    line.number(number);
    line.again(again);
}

#[tactic(auto, unfolding(crate::specs::Texts::reply_words))]
fn put_applied(line: &mut Line, device: DevNo, number: u32, verdict: Verdict)
    requires empty { line.old ≡ [] }
    ensures value { line.new ≡ text_of (Reply.Applied device number verdict) }
    ensures whole { IsWholeReply (Reply.Applied device number verdict) }
    ensures short { length line.new ≤ 231 }
{
    of_device(line, b"applied", device);
    line.number(number);
    line.word(b"verdict");
    line.number(verdict_code(verdict));
}

#[tactic(auto, unfolding(crate::specs::Texts::reply_words))]
fn put_released(line: &mut Line, device: DevNo, piece: u32, again: bool, message: u32)
    requires empty { line.old ≡ [] }
    ensures value { line.new ≡ text_of (Reply.Released device piece again message) }
    ensures whole { IsWholeReply (Reply.Released device piece again message) }
    ensures short { length line.new ≤ 231 }
{
    of_device(line, b"released", device);
    line.number(piece);
    line.again(again);
    line.word(b"msg");
    line.number(message);
}

#[tactic(auto, unfolding(crate::specs::Texts::reply_words))]
fn put_ordered(line: &mut Line, job: u32, postage: u32)
    requires empty { line.old ≡ [] }
    ensures value { line.new ≡ text_of (Reply.Ordered job postage) }
    ensures whole { IsWholeReply (Reply.Ordered job postage) }
    ensures short { length line.new ≤ 231 }
{
    numbered(line, b"ordered", job);
    line.word(b"postage");
    line.number(postage);
}

#[tactic(auto, unfolding(crate::specs::Texts::reply_words))]
fn put_sent_debit(line: &mut Line, job: u32, message: u32)
    requires empty { line.old ≡ [] }
    ensures value { line.new ≡ text_of (Reply.SentDebit job message) }
    ensures whole { IsWholeReply (Reply.SentDebit job message) }
    ensures short { length line.new ≤ 231 }
{
    numbered(line, b"sent host debit", job);
    line.word(b"msg");
    line.number(message);
}

#[tactic(auto, unfolding(crate::specs::Texts::reply_words))]
fn put_accepted(line: &mut Line, device: DevNo, piece: u32, scan: u32, again: bool)
    requires empty { line.old ≡ [] }
    ensures value { line.new ≡ text_of (Reply.Accepted device piece scan again) }
    ensures whole { IsWholeReply (Reply.Accepted device piece scan again) }
    ensures short { length line.new ≤ 231 }
{
    of_device(line, b"accepted", device);
    line.number(piece);
    line.word(b"scan");
    line.number(scan);
    line.again(again);
}

// Adds the kind of what is outstanding.
fn put_pending(line: &mut Line, pending: Option<Kind>)
    requires { length line.old ≤ 240 }
    ensures value { line.new ≡ line.old ++ 32 ∷ pending_word pending }
    ensures short { length line.new ≤ length line.old + 12 }
{
    match pending {
        Some(kind) => line.kind(kind),
        None => line.word(b"none"),
    }
}

// Adds the deadline and its name.
fn put_deadline(line: &mut Line, view: DevView)
    requires { length line.old ≤ 200 }
    ensures value { line.new ≡ line.old ++ 32 ∷ (codes "deadline" ++ 32 ∷ signed_decimal view.deadline) }
    ensures short { length line.new ≤ length line.old + 21 }
{
    line.named(b"deadline", view.deadline);
}

#[tactic(auto, unfolding(crate::specs::Texts::reply_words))]
fn put_status(line: &mut Line, device: DevNo, view: DevView)
    requires empty { line.old ≡ [] }
    ensures value { line.new ≡ text_of (Reply.Status device view) }
    ensures whole { IsWholeReply (Reply.Status device view) }
    ensures short { length line.new ≤ 231 }
{
    of_device(line, b"status", device);
    line.word(phase_word(view.phase));
    line.named(b"ascending", view.ascending);
    line.named(b"descending", view.descending);
    line.named(b"refunded", view.refunded);
    line.named(b"pieces", view.pieces);
    line.named(b"number", view.number);
    put_deadline(line, view);
    line.word(b"pending");
    put_pending(line, view.pending);
}

#[tactic(auto, unfolding(crate::specs::Texts::reply_words))]
fn put_flagged(line: &mut Line, customer: Customer, suspended: bool)
    requires empty { line.old ≡ [] }
    ensures value { line.new ≡ text_of (Reply.Flagged customer suspended) }
    ensures whole { IsWholeReply (Reply.Flagged customer suspended) }
    ensures short { length line.new ≤ 231 }
{
    if suspended {
        numbered(line, b"suspended", customer.get())
    } else {
        numbered(line, b"resumed", customer.get())
    }
}

// Adds the transaction in flight.
fn put_flight(line: &mut Line, flight: Option<(Kind, u64)>)
    requires { length line.old ≤ 150 }
    ensures value { line.new ≡ line.old ++ spaced (flight_words flight) }
    ensures short { length line.new ≤ length line.old + 80 }
{
    match flight {
        Some((kind, amount)) => {
            line.kind(kind);
            line.number(amount);
        }
        None => line.word(b"none"),
    }
}

#[tactic(auto, unfolding(crate::specs::Texts::reply_words))]
fn put_reconciled(
    line: &mut Line,
    device: DevNo,
    own: u64,
    centre: u64,
    flight: Option<(Kind, u64)>,
)
    requires empty { line.old ≡ [] }
    ensures value { line.new ≡ text_of (Reply.Reconciled device own centre flight) }
    ensures whole { IsWholeReply (Reply.Reconciled device own centre flight) }
    ensures short { length line.new ≤ 231 }
{
    of_device(line, b"reconcile", device);
    line.named(b"device", own);
    line.named(b"centre", centre);
    line.word(b"in-flight");
    put_flight(line, flight);
}

#[tactic(auto, unfolding(crate::specs::Texts::reply_words))]
fn put_dev_refused(line: &mut Line, device: DevNo, refusal: DevRefusal)
    requires empty { line.old ≡ [] }
    ensures value { line.new ≡ text_of (Reply.DevRefused device refusal) }
    ensures whole { IsWholeReply (Reply.DevRefused device refusal) }
    ensures short { length line.new ≤ 231 }
{
    of_device(line, b"refused", device);
    put_dev_refusal(line, refusal);
}

#[tactic(auto, unfolding(crate::specs::Texts::reply_words))]
fn put_centre_refused(line: &mut Line, refusal: CentreRefusal)
    requires empty { line.old ≡ [] }
    ensures value { line.new ≡ text_of (Reply.CentreRefused refusal) }
    ensures whole { IsWholeReply (Reply.CentreRefused refusal) }
    ensures short { length line.new ≤ 231 }
{
    starting(line, b"refused centre");
    put_centre_refusal(line, refusal);
}

#[tactic(auto, unfolding(crate::specs::Texts::reply_words))]
fn put_host_refused(line: &mut Line, refusal: HostRefusal)
    requires empty { line.old ≡ [] }
    ensures value { line.new ≡ text_of (Reply.HostRefused refusal) }
    ensures whole { IsWholeReply (Reply.HostRefused refusal) }
    ensures short { length line.new ≤ 231 }
{
    starting(line, b"refused host");
    put_host_refusal(line, refusal);
}

#[tactic(auto, unfolding(crate::specs::Texts::reply_words))]
fn put_scan_refused(line: &mut Line, refusal: ScanRefusal)
    requires empty { line.old ≡ [] }
    ensures value { line.new ≡ text_of (Reply.ScanRefused refusal) }
    ensures whole { IsWholeReply (Reply.ScanRefused refusal) }
    ensures short { length line.new ≤ 231 }
{
    starting(line, b"refused verifier");
    put_scan_refusal(line, refusal);
}

/// Puts the text of the reply into an empty line, with room for a line end. Each number of a reply fits its type (`whole`).
#[tactic(auto, unfolding(crate::specs::Texts::reply_words))]
pub fn put_reply(line: &mut Line, reply: &Reply)
    requires empty { line.old ≡ [] }
    ensures whole { IsWholeReply reply.now }
    ensures value { line.new ≡ text_of reply.now }
    ensures short { length line.new ≤ 231 }
{
    match reply {
        Reply::Day(day) => numbered(line, b"day", day.get()),
        Reply::Rates { classes, zones } => put_rates(line, *classes, *zones),
        Reply::RatesFault => starting(line, b"rates fault"),
        Reply::RatesLength => starting(line, b"rates length"),
        Reply::RatesToml => starting(line, b"rates toml"),
        Reply::RatesForm => starting(line, b"rates form"),
        Reply::Made(device) => of_device(line, b"made", *device),
        Reply::Up { node, commits } => put_up(line, *node, *commits),
        Reply::Down(node) => of_node(line, b"down", *node),
        Reply::CutSet(node) => of_node(line, b"cut", *node),
        Reply::Marked {
            device,
            piece,
            again,
            mark,
        } => put_marked(line, *device, *piece, *again, mark),
        Reply::SentRequest {
            device,
            number,
            message,
        } => put_sent_request(line, *device, *number, *message),
        Reply::SentDone {
            device,
            number,
            message,
        } => put_sent_done(line, *device, *number, *message),
        Reply::Registered(device) => of_device(line, b"registered", *device),
        Reply::Opened(customer) => numbered(line, b"opened", customer.get()),
        Reply::Deposited {
            customer,
            receipt,
            again,
            total,
        } => { put_deposited(line, *customer, *receipt, *again, *total) }
        Reply::Balance {
            customer,
            left: total,
        } => put_balance(line, *customer, *total),
        Reply::Ruled {
            device,
            number,
            verdict,
            again,
            message,
        } => { put_ruled(line, *device, *number, *verdict, *again, *message) }
        Reply::Settled {
            device,
            number,
            again,
        } => put_settled(line, *device, *number, *again),
        Reply::Applied {
            device,
            number,
            verdict,
        } => put_applied(line, *device, *number, *verdict),
        Reply::Released {
            device,
            piece,
            again,
            message,
        } => put_released(line, *device, *piece, *again, *message),
        Reply::Held(job) => numbered(line, b"held", *job),
        Reply::Ordered { job, postage } => put_ordered(line, *job, *postage),
        Reply::SentDebit { job, message } => put_sent_debit(line, *job, *message),
        Reply::Printed(job) => numbered(line, b"printed", *job),
        Reply::PrinterFault(job) => numbered(line, b"printer fault", *job),
        Reply::Closed(job) => numbered(line, b"closed", *job),
        Reply::Trusted(device) => of_device(line, b"trusted", *device),
        Reply::Accepted {
            device,
            piece,
            scan,
            again,
        } => { put_accepted(line, *device, *piece, *scan, *again) }
        Reply::End => starting(line, b"end"),
        Reply::NoDay => starting(line, b"no day"),
        Reply::NoMessage(message) => numbered(line, b"no message", *message),
        Reply::OffNode(node) => of_node(line, b"off", *node),
        Reply::OnAlready(node) => of_node(line, b"on already", *node),
        Reply::Power(node) => of_node(line, b"power", *node),
        Reply::Fault(node) => of_node(line, b"fault", *node),
        Reply::Worn(node) => of_node(line, b"worn", *node),
        Reply::Damaged(node) => of_node(line, b"damaged", *node),
        Reply::Status { device, view } => put_status(line, *device, *view),
        Reply::Flagged {
            customer,
            suspended,
        } => put_flagged(line, *customer, *suspended),
        Reply::Reconciled {
            device,
            held: own,
            centre,
            in_flight: flight,
        } => { put_reconciled(line, *device, *own, *centre, *flight) }
        Reply::DevRefused { device, refusal } => put_dev_refused(line, *device, *refusal),
        Reply::CentreRefused(refusal) => put_centre_refused(line, *refusal),
        Reply::HostRefused(refusal) => put_host_refused(line, *refusal),
        Reply::ScanRefused(refusal) => put_scan_refused(line, *refusal),
    }
}

/// The text of the reply, with room for a line end.
pub fn write_reply(reply: &Reply) -> Line
    ensures whole { IsWholeReply reply.now }
    ensures value { result ≡ text_of reply.now }
    ensures short { length result ≤ 231 }
{
    let mut line = Line::new();
    put_reply(&mut line, reply);
    line
}
