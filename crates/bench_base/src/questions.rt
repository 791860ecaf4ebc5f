//! What is asked of an event or a reply by whoever looks for one thing among all.
ghost use Rattle.std.specs.Prelude.{◌≡◌, ◌≢◌, ◌↔◌, ℕ, IsTrue, IfSome, IfNone};
ghost use Rattle.bench_base.specs.declared.events.Event.TheVariants as ev;
ghost use Rattle.bench_base.specs.declared.events.Reply.TheVariants as r;
ghost use Rattle.bench_base.specs.Events.{brought_by};
ghost use Rattle.bench_base.specs.Questions.{IsScanUnder, IsAccepted, IsSentDebit};
ghost use Rattle.bench_base.specs.Replies.{report_of};

use crate::bytes::Given;
use crate::events::{Event, Reply};
use crate::numbers::{Customer, DayNo, DevNo};
use crate::refusals::{CentreRefusal, DevRefusal, HostRefusal, ScanRefusal};
use crate::words::{Node, Verdict};

/// What an event takes as input from outside.
#[derive(Clone, Copy)]
pub enum Brought {
    Nothing,
    /// Bytes that are handed to a node.
    Handed(Node, Given),
    /// Bytes that are scanned.
    Scanned(Given),
}

/// Why a node refuses.
#[derive(Clone, Copy)]
pub enum Refusal {
    Device(DevRefusal),
    Centre(CentreRefusal),
    Host(HostRefusal),
    Verifier(ScanRefusal),
}

/// What a reply reports besides its class, as far as anyone looks for it. Each field is that of the reply.
#[derive(Clone, Copy)]
pub enum Report {
    /// Nothing that is looked for.
    Nothing,
    Day(DayNo),
    Rates,
    /// A mark that leaves its device.
    Mark {
        device: DevNo,
        piece: u32,
        again: bool,
        mark: [u8; 64],
    },
    /// A mark that leaves its device in the message of this number.
    Release {
        device: DevNo,
        piece: u32,
        again: bool,
        message: u32,
    },
    /// The number of a message that was sent.
    Message(u32),
    /// The message that asks a device for the mark of a job was sent.
    Debit {
        job: u32,
        message: u32,
    },
    /// The centre ruled, and sent that.
    Ruling {
        verdict: Verdict,
        message: u32,
    },
    /// A device took the ruling.
    Verdict(Verdict),
    /// The mark of this job was printed.
    Print(u32),
    /// A piece was accepted; whether it was before.
    Acceptance(bool),
    Power(Node),
    Fault(Node),
    Damage(Node),
    Refusal(Refusal),
}

impl Event {
    /// Whether it ends the run.
    pub fn ends(&self) -> bool
        ensures { IsTrue result ↔ (self.now ≡ ev.End) }
    {
        let Event::End = self else {
            return false;
        };
        true
    }

    /// The job with the mark to print; None if and only if the event is not a `print`.
    pub fn print_job(&self) -> Option<u32>
        ensures found { IfSome result (λ j. self.now ≡ ev.Print j) }
        ensures none { IfNone result ((j : ℕ) → self.now ≢ ev.Print j) }
    {
        let Event::Print(job) = self else {
            return None;
        };
        Some(*job)
    }

    /// The number under which it scans; None if and only if it is no scan.
    pub fn scan_number(&self) -> Option<u32>
        ensures found { IfSome result (λ n. IsScanUnder n self.now) }
        ensures none { IfNone result ((n : ℕ) → IsScanUnder n self.now → ⊥) }
    {
        let (Event::ScanMsg { scan, .. } | Event::ScanHex { scan, .. }) = self else {
            return None;
        };
        Some(*scan)
    }

    /// What it takes as input from outside.
    pub fn brings(&self) -> Brought
        ensures { result ≡ brought_by self.now }
    {
        match self {
            Event::Give { node, bytes } => Brought::Handed(*node, *bytes),
            Event::ScanHex { bytes, .. } => Brought::Scanned(*bytes),
            Event::Day(_)
            | Event::Rates
            | Event::Make { .. }
            | Event::On(_)
            | Event::Off(_)
            | Event::Cut { .. }
            | Event::Debit { .. }
            | Event::Ask { .. }
            | Event::Resend(_)
            | Event::Ack(_)
            | Event::Status(_)
            | Event::Register { .. }
            | Event::OpenCustomer(_)
            | Event::Deposit { .. }
            | Event::Flag { .. }
            | Event::Balance(_)
            | Event::Deliver(_)
            | Event::Order { .. }
            | Event::Send(_)
            | Event::Print(_)
            | Event::Close(_)
            | Event::Trust { .. }
            | Event::ScanMsg { .. }
            | Event::Reconcile(_)
            | Event::End => Brought::Nothing,
        }
    }
}

impl Reply {
    /// Whether it says that the verifier accepted a piece, now or before.
    pub fn is_accepted(&self) -> bool
        ensures { IsTrue result ↔ IsAccepted self.now }
    {
        let Reply::Accepted { .. } = self else {
            return false;
        };
        true
    }

    /// The job with the mark that was printed; None if and only if the reply does not say so.
    pub fn printed_job(&self) -> Option<u32>
        ensures found { IfSome result (λ j. self.now ≡ r.Printed j) }
        ensures none { IfNone result ((j : ℕ) → self.now ≢ r.Printed j) }
    {
        let Reply::Printed(job) = self else {
            return None;
        };
        Some(*job)
    }

    /// Whether it says that the message for a job was sent.
    pub fn is_sent_debit(&self) -> bool
        ensures { IsTrue result ↔ IsSentDebit self.now }
    {
        let Reply::SentDebit { .. } = self else {
            return false;
        };
        true
    }

    /// What this customer has left, in mills; None if and only if it does not say so.
    pub fn balance_of(&self, customer: Customer) -> Option<u64>
        ensures found { IfSome result (λ left. self.now ≡ r.Balance customer left) }
        ensures none { IfNone result ((left : ℕ) → self.now ≢ r.Balance customer left) }
    {
        let Reply::Balance {
            customer: who,
            left,
        } = self
        else {
            return None;
        };
        if *who == customer { Some(*left) } else { None }
    }

    /// What it reports, as far as anyone looks for it.
    pub fn report(&self) -> Report
        ensures { result ≡ report_of self.now }
    {
        match self {
            Reply::Day(day) => Report::Day(*day),
            Reply::Rates { .. } => Report::Rates,
            Reply::Marked {
                device,
                piece,
                again,
                mark,
            } => Report::Mark {
                device: *device,
                piece: *piece,
                again: *again,
                mark: *mark,
            },
            Reply::SentRequest { message, .. } | Reply::SentDone { message, .. } => {
                Report::Message(*message)
            }
            Reply::SentDebit { job, message } => Report::Debit {
                job: *job,
                message: *message,
            },
            Reply::Ruled {
                verdict,
                message,
                ..
            } => Report::Ruling {
                verdict: *verdict,
                message: *message,
            },
            Reply::Applied { verdict, .. } => Report::Verdict(*verdict),
            Reply::Released {
                device,
                piece,
                again,
                message,
            } => Report::Release {
                device: *device,
                piece: *piece,
                again: *again,
                message: *message,
            },
            Reply::Printed(job) => Report::Print(*job),
            Reply::Accepted { again, .. } => Report::Acceptance(*again),
            Reply::Power(node) => Report::Power(*node),
            Reply::Fault(node) => Report::Fault(*node),
            Reply::Damaged(node) => Report::Damage(*node),
            Reply::DevRefused { refusal, .. } => Report::Refusal(Refusal::Device(*refusal)),
            Reply::CentreRefused(refusal) => Report::Refusal(Refusal::Centre(*refusal)),
            Reply::HostRefused(refusal) => Report::Refusal(Refusal::Host(*refusal)),
            Reply::ScanRefused(refusal) => Report::Refusal(Refusal::Verifier(*refusal)),
            Reply::RatesFault
            | Reply::RatesLength
            | Reply::RatesToml
            | Reply::RatesForm
            | Reply::Made(_)
            | Reply::Up { .. }
            | Reply::Down(_)
            | Reply::CutSet(_)
            | Reply::Status { .. }
            | Reply::Registered(_)
            | Reply::Opened(_)
            | Reply::Deposited { .. }
            | Reply::Flagged { .. }
            | Reply::Balance { .. }
            | Reply::Settled { .. }
            | Reply::Held(_)
            | Reply::Ordered { .. }
            | Reply::PrinterFault(_)
            | Reply::Closed(_)
            | Reply::Trusted(_)
            | Reply::Reconciled { .. }
            | Reply::End
            | Reply::NoDay
            | Reply::NoMessage(_)
            | Reply::OffNode(_)
            | Reply::OnAlready(_)
            | Reply::Worn(_) => Report::Nothing,
        }
    }
}
