//! The calls of the centre: what each does by the centre's rows, and what the centre says of it. Amounts are in mills.
ghost use Rattle.std.specs.Prelude.{◌≡◌};
ghost use Rattle.bench_base.specs.declared.words.Node.TheVariants as node;
ghost use Rattle.bench_base.specs.declared.events.Reply.TheVariants as r;
ghost use Rattle.bench_base.specs.Ranges.{IsWord};
ghost use Rattle.bench_base.specs.Table.{IsBytes};
ghost use Rattle.centre_ledger.specs.Acts as acts;
ghost use Rattle.centre_ledger.specs.Books.{AreSound, put_row};
ghost use Rattle.centre_ledger.specs.Plans as told;
ghost use Rattle.bench_abstraction.specs.Centre as views;

use bench_abstraction::{
    BalanceCall, CentreCall, DepositCall, FlagCall, OpenCall, RegisterCall, TakeRequestCall,
};
use bench_base::events::Reply;
use bench_base::refusals::CentreRefusal;
use bench_base::words::Node as NodeNo;
use centre_ledger::{
    BooksOf, CentreAct, CentreAnswer, Deposit, Row, balance_act, deposit_act, flag_act, open_act,
    register_act, take_act,
};
use node_acts::{Call, Callee, Holds, Said};

/// The centre, where it is called.
#[derive(Drop)]
pub struct CentreCallee;

impl Callee for CentreCallee {
    type Refusal = CentreRefusal;

    ghost named = { λ c. node.Centre };

    ghost refuses = { λ c x. r.CentreRefused x };

    fn name(&self) -> NodeNo {
        NodeNo::Centre
    }

    fn refusal(&self, refusal: CentreRefusal) -> Reply {
        Reply::CentreRefused(refusal)
    }
}

impl<R: Holds + BooksOf<R::By>> Call<CentreCallee, R, Row> for RegisterCall {
    type Answer = ();

    ghost IsAsked = { λ c. IsWord c.origin };

    ghost does = { λ c e s. acts.register_act c.device c.origin c.key (R.books s) };

    ghost says = { λ c e u. told.told_registered c.device u };

    ghost Makes = { λ s x. AreSound (put_row (R.books s) x) };

    fn act(&self, _callee: &CentreCallee, held: &R) -> CentreAct<()> {
        register_act(self.device, self.origin, &self.key, held.books())
    }

    fn answer(&self, _callee: &CentreCallee, _registered: &()) -> Said {
        Said::of(Reply::Registered(self.device))
    }
}

impl<R: Holds + BooksOf<R::By>> Call<CentreCallee, R, Row> for OpenCall {
    type Answer = ();

    ghost IsAsked = { λ c. Unit {0} };

    ghost does = { λ c e s. acts.open_act c.customer (R.books s) };

    ghost says = { λ c e u. told.told_opened c.customer u };

    ghost Makes = { λ s x. AreSound (put_row (R.books s) x) };

    fn act(&self, _callee: &CentreCallee, held: &R) -> CentreAct<()> {
        open_act(self.customer, held.books())
    }

    fn answer(&self, _callee: &CentreCallee, _opened: &()) -> Said {
        Said::of(Reply::Opened(self.customer))
    }
}

impl<R: Holds + BooksOf<R::By>> Call<CentreCallee, R, Row> for DepositCall {
    type Answer = Deposit;

    ghost IsAsked = { λ c. Unit {0} };

    ghost does = { λ c e s. acts.deposit_act c.customer c.receipt c.amount (R.books s) };

    ghost says = { λ c e d. told.told_deposited c.customer c.receipt d };

    ghost Makes = { λ s x. AreSound (put_row (R.books s) x) };

    fn act(&self, _callee: &CentreCallee, held: &R) -> CentreAct<Deposit> {
        deposit_act(self.customer, self.receipt, self.amount, held.books())
    }

    fn answer(&self, _callee: &CentreCallee, deposit: &Deposit) -> Said {
        Said::of(Reply::Deposited {
            customer: self.customer,
            receipt: self.receipt,
            again: deposit.again,
            total: deposit.total,
        })
    }
}

impl<R: Holds + BooksOf<R::By>> Call<CentreCallee, R, Row> for FlagCall {
    type Answer = ();

    ghost IsAsked = { λ c. Unit {0} };

    ghost does = { λ c e s. acts.flag_act c.customer c.suspended (R.books s) };

    ghost says = { λ c e u. told.told_flagged c.customer c.suspended u };

    ghost Makes = { λ s x. AreSound (put_row (R.books s) x) };

    fn act(&self, _callee: &CentreCallee, held: &R) -> CentreAct<()> {
        flag_act(self.customer, self.suspended, held.books())
    }

    fn answer(&self, _callee: &CentreCallee, _flagged: &()) -> Said {
        Said::of(Reply::Flagged {
            customer: self.customer,
            suspended: self.suspended,
        })
    }
}

impl<R: Holds + BooksOf<R::By>> Call<CentreCallee, R, Row> for BalanceCall {
    type Answer = u64;

    ghost IsAsked = { λ c. Unit {0} };

    ghost does = { λ c e s. acts.balance_act c.customer (R.books s) };

    ghost says = { λ c e n. told.told_balance c.customer n };

    ghost Makes = { λ s x. AreSound (put_row (R.books s) x) };

    fn act(&self, _callee: &CentreCallee, held: &R) -> CentreAct<u64> {
        balance_act(self.customer, held.books())
    }

    fn answer(&self, _callee: &CentreCallee, left: &u64) -> Said {
        Said::of(Reply::Balance {
            customer: self.customer,
            left: *left,
        })
    }
}

impl<'a, R: Holds + BooksOf<R::By>> Call<CentreCallee, R, Row> for TakeRequestCall<'a> {
    type Answer = CentreAnswer;

    ghost IsAsked = { λ c. IsBytes c.bytes };

    ghost does = { λ c e s. acts.take_act c.bytes (R.books s) };

    ghost says = { λ c e a. told.told_taken c.message a };

    ghost Makes = { λ s x. AreSound (put_row (R.books s) x) };

    fn act(&self, _callee: &CentreCallee, held: &R) -> CentreAct<CentreAnswer> {
        take_act(self.bytes.as_slice(), held.books())
    }

    fn answer(&self, _callee: &CentreCallee, answer: &CentreAnswer) -> Said {
        took(self.message, answer)
    }
}

// What the centre says of a message that it took.
fn took(message: u32, answer: &CentreAnswer) -> Said
    ensures { result ≡ told.told_taken message answer.now }
{
    match answer {
        CentreAnswer::Ruled {
            device,
            number,
            verdict,
            reply,
            again,
        } => Said::sending(
            Reply::Ruled {
                device: *device,
                number: *number,
                verdict: *verdict,
                again: *again,
                message,
            },
            *reply,
        ),
        CentreAnswer::Settled {
            device,
            number,
            again,
        } => Said::of(Reply::Settled {
            device: *device,
            number: *number,
            again: *again,
        }),
    }
}

fn are_bytes(bytes: &[u8])
    ensures { IsBytes bytes.now }
{}

/// What a call hands over is a list of bytes.
pub fn hands_bytes(call: &CentreCall)
    ensures { views.IsBytesCall call.now }
{
    if let CentreCall::Take(call) = call {
        are_bytes(call.bytes.as_slice());
    }
}
