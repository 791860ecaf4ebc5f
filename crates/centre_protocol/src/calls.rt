//! The calls of the centre. Money is in mills.
//!
//! A call that commits answers `Store` with `Failed`, before every refusal, if and only if an earlier call of this value
//! answered Power or Fault. After every refusal it answers Power or Fault if its commit failed, and Worn if the cell of the
//! row has 4,294,967,295 commits. A refusal, Worn, and an answer that needs no commit leave the centre and its storage as
//! they were. The other calls never answer `Store`.
ghost use Rattle.std.specs.Prelude.{◌≡◌};
ghost use Rattle.node_acts.specs.Results.{answer_of};
ghost use Rattle.centre_ledger.specs.Acts as act_of;

use crate::centre::Centre;
use bench_base::numbers::{Customer, DevNo};
use bench_base::refusals::CentreFail;
use bench_base::words::Key;
use centre_ledger::{
    CentreAnswer, Deposit, Standing, balance_act, deposit_act, flag_act, open_act, register_act,
    standing_act, take_act,
};
use node_storage::answer;
use nv_model::Nv;

impl<N: Nv> Centre<N> {
    ghost use Rattle.centre_protocol.specs.CentreView.{books_of, Performs};

    /// Takes a Request, of either version, or a Done: see `take_act`.
    pub fn take(&mut self, bytes: &[u8]) -> Result<CentreAnswer, CentreFail>
        ensures { Performs (act_of.take_act bytes.now (books_of self.old)) self.old self.new result }
    {
        let act = take_act(bytes, self.accounts());
        self.perform(act)
    }

    /// Registers the device at the place of this postal code, under its key. `Known` if and only if it is registered.
    pub fn register(&mut self, device: DevNo, origin: u32, key: &Key) -> Result<(), CentreFail>
        ensures { Performs (act_of.register_act device origin key.now (books_of self.old)) self.old self.new result }
    {
        let act = register_act(device, origin, key, self.accounts());
        self.perform(act)
    }

    /// Opens the customer, without deposits. `Known` if and only if it is open.
    pub fn open_customer(&mut self, customer: Customer) -> Result<(), CentreFail>
        ensures { Performs (act_of.open_act customer (books_of self.old)) self.old self.new result }
    {
        let act = open_act(customer, self.accounts());
        self.perform(act)
    }

    /// Deposits the amount under this receipt: see `deposit_act`. The last deposit is answered once more without a commit.
    pub fn deposit(
        &mut self,
        customer: Customer,
        receipt: u32,
        amount: u32,
    ) -> Result<Deposit, CentreFail>
        ensures { Performs (act_of.deposit_act customer receipt amount (books_of self.old)) self.old self.new result }
    {
        let act = deposit_act(customer, receipt, amount, self.accounts());
        self.perform(act)
    }

    /// Suspends the customer or lets it buy again; it commits also where the customer stands so already. `UnknownCustomer`
    /// if and only if it is not open.
    pub fn flag(&mut self, customer: Customer, suspended: bool) -> Result<(), CentreFail>
        ensures { Performs (act_of.flag_act customer suspended (books_of self.old)) self.old self.new result }
    {
        let act = flag_act(customer, suspended, self.accounts());
        self.perform(act)
    }

    /// What the customer has left, in mills. `UnknownCustomer` if and only if it is not open.
    pub fn balance(&self, customer: Customer) -> Result<u64, CentreFail>
        ensures { result ≡ answer_of (act_of.balance_act customer (books_of self.now)) }
    {
        answer(balance_act(customer, self.accounts()))
    }

    /// What the centre holds of the device: see `Standing`. `UnknownDevice` if and only if it is not registered.
    pub fn standing(&self, device: DevNo) -> Result<Standing, CentreFail>
        ensures { result ≡ answer_of (act_of.standing_act device (books_of self.now)) }
    {
        answer(standing_act(device, self.accounts()))
    }
}
