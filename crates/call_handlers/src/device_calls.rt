//! The calls of a device: what each does by the device's record, and what the device says of it. Postage is in mills, days are
//! since 1970-01-01.
ghost use Rattle.std.specs.Prelude.{◌≡◌, []};
ghost use Rattle.bench_base.specs.Rules.{todays_rules};
ghost use Rattle.bench_base.specs.declared.words.Node.TheVariants as node;
ghost use Rattle.bench_base.specs.declared.events.Reply.TheVariants as r;
ghost use Rattle.ledger_moves.specs.Moves.{debit_by};
ghost use Rattle.node_acts.specs.Said.{sends};
ghost use Rattle.psd_wire.specs.declared.message.Message.TheVariants as m;
ghost use Rattle.psd_wire.specs.Grammar.{spell};
ghost use Rattle.psd_state.specs.Acts as acts;
ghost use Rattle.bench_abstraction.specs.Devices as views;
ghost use Rattle.call_handlers.specs.Numbers.{under_number};

use bench_abstraction::{AckCall, AskCall, DebitCall, MakeCall, ResendCall, TakeReplyCall};
use bench_base::bytes::Note;
use bench_base::events::{DevView, Reply};
use bench_base::numbers::{DayNo, DevNo};
use bench_base::refusals::DevRefusal;
use bench_base::words::Node as NodeNo;
use node_acts::{Act, Call, Callee, GivenOut, Released, Said};
use psd_state::acts::{
    DeviceAct, Franked, Taken, ack_act, ask_act, debit_act, make_act, resend_act, status_act,
    take_act,
};
use psd_state::{DevRec, DeviceState, StateOf};
use psd_wire::DebitMsg;

/// The device of this number, where it is called on this day.
#[derive(Drop)]
pub struct DeviceCallee {
    pub device: DevNo,
    pub day: DayNo,
}

impl Callee for DeviceCallee {
    type Refusal = DevRefusal;

    ghost named = { λ c. node.Device c.device };

    ghost refuses = { λ c x. r.DevRefused c.device x };

    fn name(&self) -> NodeNo {
        NodeNo::Device(self.device)
    }

    fn refusal(&self, refusal: DevRefusal) -> Reply {
        Reply::DevRefused {
            device: self.device,
            refusal,
        }
    }
}

/// A message that is sent of the transaction of this number.
#[derive(Clone, Copy)]
pub struct Numbered {
    pub number: u32,
    pub note: Note,
}

impl<R: StateOf> Call<DeviceCallee, R, DevRec> for MakeCall {
    type Answer = ();

    ghost IsAsked = { λ c. Unit {0} };

    ghost does = { λ c e s. acts.make_act e.device c.key (R.state s) };

    ghost says = { λ c e u. views.made e.device };

    ghost Makes = { λ s x. Unit {0} };

    fn act(&self, callee: &DeviceCallee, held: &R) -> DeviceAct<()> {
        make_act(callee.device, &self.key, held.state())
    }

    fn answer(&self, callee: &DeviceCallee, _made: &()) -> Said {
        Said::of(Reply::Made(callee.device))
    }
}

impl<R: StateOf> Call<DeviceCallee, R, DevRec> for DebitCall {
    type Answer = Franked;

    ghost IsAsked = { λ c. Unit {0} };

    ghost does = { λ c e s. acts.debit_act todays_rules e.device (debit_by e.device c.piece c.postage c.class) e.day
        (R.state s) };

    ghost says = { λ c e f. views.marked e.device c.piece f };

    ghost Makes = { λ s x. Unit {0} };

    fn act(&self, callee: &DeviceCallee, held: &R) -> DeviceAct<Franked> {
        let command = DebitMsg {
            device: callee.device.get(),
            piece: self.piece,
            postage: self.postage,
            class: self.class,
        };
        debit_act(callee.device, &command, callee.day, held.state())
    }

    fn answer(&self, callee: &DeviceCallee, franked: &Franked) -> Said {
        let mark = franked.mark;
        Said::giving(
            Reply::Marked {
                device: callee.device,
                piece: self.piece,
                again: franked.again,
                mark,
            },
            GivenOut::Released(Released {
                device: callee.device,
                piece: self.piece,
                mark,
            }),
        )
    }
}

impl<R: StateOf> Call<DeviceCallee, R, DevRec> for AskCall {
    type Answer = Numbered;

    ghost IsAsked = { λ c. Unit {0} };

    ghost does = { λ c e s. under_number (views.next_number (R.state s)) (acts.ask_act todays_rules e.device c.kind c.customer c.amount e.day (R.state s)) };

    ghost says = { λ c e a. sends (r.SentRequest e.device a.number c.message) a.note };

    ghost Makes = { λ s x. Unit {0} };

    fn act(&self, callee: &DeviceCallee, held: &R) -> DeviceAct<Numbered> {
        let state = held.state();
        let act = ask_act(
            callee.device,
            self.kind,
            self.customer,
            self.amount,
            callee.day,
            state,
        );
        under_number(next_number(state), act)
    }

    fn answer(&self, callee: &DeviceCallee, sent: &Numbered) -> Said {
        Said::sending(
            Reply::SentRequest {
                device: callee.device,
                number: sent.number,
                message: self.message,
            },
            sent.note,
        )
    }
}

impl<R: StateOf> Call<DeviceCallee, R, DevRec> for ResendCall {
    type Answer = Numbered;

    ghost IsAsked = { λ c. Unit {0} };

    ghost does = { λ c e s. under_number (views.next_number (R.state s)) (acts.resend_act (R.state s)) };

    ghost says = { λ c e a. sends (r.SentRequest e.device a.number c.message) a.note };

    ghost Makes = { λ s x. Unit {0} };

    fn act(&self, callee: &DeviceCallee, held: &R) -> DeviceAct<Numbered> {
        let state = held.state();
        under_number(next_number(state), resend_act(state))
    }

    fn answer(&self, callee: &DeviceCallee, sent: &Numbered) -> Said {
        Said::sending(
            Reply::SentRequest {
                device: callee.device,
                number: sent.number,
                message: self.message,
            },
            sent.note,
        )
    }
}

impl<R: StateOf> Call<DeviceCallee, R, DevRec> for AckCall {
    type Answer = Numbered;

    ghost IsAsked = { λ c. Unit {0} };

    ghost does = { λ c e s. under_number (views.number_in (R.state s)) (acts.ack_act (R.state s)) };

    ghost says = { λ c e a. sends (r.SentDone e.device a.number c.message) a.note };

    ghost Makes = { λ s x. Unit {0} };

    fn act(&self, callee: &DeviceCallee, held: &R) -> DeviceAct<Numbered> {
        let state = held.state();
        under_number(number_in(state), ack_act(state))
    }

    fn answer(&self, callee: &DeviceCallee, sent: &Numbered) -> Said {
        Said::sending(
            Reply::SentDone {
                device: callee.device,
                number: sent.number,
                message: self.message,
            },
            sent.note,
        )
    }
}

/// What a device shows of its record.
#[derive(Drop)]
pub struct StatusCall;

impl<R: StateOf> Call<DeviceCallee, R, DevRec> for StatusCall {
    type Answer = DevView;

    ghost IsAsked = { λ c. Unit {0} };

    ghost does = { λ c e s. acts.status_act e.day (R.state s) };

    ghost says = { λ c e view. views.shown e.device view };

    ghost Makes = { λ s x. Unit {0} };

    fn act(&self, callee: &DeviceCallee, held: &R) -> DeviceAct<DevView> {
        status_act(callee.day, held.state())
    }

    fn answer(&self, callee: &DeviceCallee, view: &DevView) -> Said {
        Said::of(Reply::Status {
            device: callee.device,
            view: *view,
        })
    }
}

impl<'a, R: StateOf> Call<DeviceCallee, R, DevRec> for TakeReplyCall<'a> {
    type Answer = Taken;

    ghost IsAsked = { λ c. Unit {0} };

    ghost does = { λ c e s. acts.take_act todays_rules e.device c.bytes e.day (R.state s) };

    ghost says = { λ c e a. views.took e.device c.message a };

    ghost Makes = { λ s x. Unit {0} };

    fn act(&self, callee: &DeviceCallee, held: &R) -> DeviceAct<Taken> {
        take_act(
            callee.device,
            self.bytes.as_slice(),
            callee.day,
            held.state(),
        )
    }

    fn answer(&self, callee: &DeviceCallee, taken: &Taken) -> Said {
        took(callee.device, self.message, taken)
    }
}

// The message that carries a mark.
#[tactic(auto, unfolding(psd_wire::specs::Grammar::spell, psd_wire::specs::Grammar::body))]
fn release(mark: &[u8; 64]) -> Note
    ensures { result ≡ spell (m.Release mark.now) [] }
{
    let mut bytes = [0; 66];
    bytes[0] = 1;
    bytes[1] = 17;
    bytes[2..].copy_from_slice(mark);
    Note::of(&bytes)
}

// What a device says of a message that it took; a mark is sent as this message.
fn took(device: DevNo, message: u32, taken: &Taken) -> Said
    ensures { result ≡ views.took device message taken.now }
{
    match taken {
        Taken::Applied { number, verdict } => Said::of(Reply::Applied {
            device,
            number: *number,
            verdict: *verdict,
        }),
        Taken::Released { piece, mark, again } => Said {
            reply: Reply::Released {
                device,
                piece: *piece,
                again: *again,
                message,
            },
            given: Some(GivenOut::Released(Released {
                device,
                piece: *piece,
                mark: *mark,
            })),
            sent: Some(release(mark)),
        },
    }
}

// The number of the last transaction that was applied, and 0 where there is no record.
fn number_in(state: &DeviceState) -> u32
    ensures { result ≡ views.number_in state.now }
{
    match state {
        Some(kept) => kept.record().number(),
        None => 0,
    }
}

// The number of the request that is outstanding, or of the next one.
fn next_number(state: &DeviceState) -> u32
    ensures { result ≡ views.next_number state.now }
{
    match state {
        Some(kept) => {
            let number = kept.record().number();
            if number == u32::MAX {
                number
            } else {
                number + 1
            }
        }
        None => 0,
    }
}

// What the act sends, under this number.
fn under_number(number: u32, act: DeviceAct<Note>) -> DeviceAct<Numbered>
    ensures { result ≡ under_number number act }
{
    match act {
        Act::Refuse(refusal) => Act::Refuse(refusal),
        Act::Tell(note) => Act::Tell(Numbered { number, note }),
        Act::Commits(commit, next, note) => Act::Commits(commit, next, Numbered { number, note }),
    }
}
