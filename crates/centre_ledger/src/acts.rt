//! What the centre does in a call, decided by its rows alone. Amounts are in mills.
ghost use Rattle.std.specs.Prelude.{◌≡◌, Some};
ghost use Rattle.bench_base.specs.Ranges.{IsDevice, IsCustomer};
ghost use Rattle.centre_ledger.specs.Acts as act_of;
ghost use Rattle.centre_ledger.specs.Records as records;
ghost use Rattle.centre_ledger.specs.Soundness.{IsSoundCustomer};

use crate::accounts::Accounts;
use crate::rows::{CustomerRow, DeviceRow, Enrolment, Row};
use crate::settling::deposited;
use crate::standing::{Standing, standing_of};
use bench_base::bytes::Note;
use bench_base::ledger::Commit;
use bench_base::numbers::{Customer, DevNo};
use bench_base::refusals::CentreRefusal;
use bench_base::words::Key;
use node_acts::Act;

/// What a call of the centre does.
pub type CentreAct<A> = Act<Row, CentreRefusal, A>;

/// The sum of a customer's deposits after a deposit, and whether that deposit was made before.
#[derive(Clone, Copy)]
pub struct Deposit {
    pub total: u64,
    pub again: bool,
}

fn opened_row(customer: Customer) -> CustomerRow
    ensures { result ≡ records.opened_row customer }
{
    CustomerRow {
        customer,
        suspended: false,
        deposits: 0,
        receipt: 0,
        amount: 0,
    }
}

fn registered_row(device: DevNo, origin: u32, key: &Key) -> DeviceRow
    ensures { result ≡ records.registered_row device origin key.now }
{
    DeviceRow {
        device,
        enrolment: Enrolment::Registered,
        origin,
        key: *key,
        ruled: 0,
        settled: 0,
        buys: 0,
        returns: 0,
        request: Note::of(&[]),
        reply: Note::of(&[]),
    }
}

/// Registers the device at the place of this postal code, under its key. `Known` if and only if it is registered.
pub fn register_act(device: DevNo, origin: u32, key: &Key, accounts: &Accounts) -> CentreAct<()>
    ensures act { result ≡ act_of.register_act device origin key.now accounts.now }
    ensures number { IsDevice device }
{
    match accounts.device(device.get()) {
        Some(_) => Act::Refuse(CentreRefusal::Known),
        None => Act::Commits(
            Commit::Registered {
                device,
                origin,
                key: *key,
            },
            Row::Device(registered_row(device, origin, key)),
            (),
        ),
    }
}

/// Opens the customer, without deposits. `Known` if and only if it is open.
pub fn open_act(customer: Customer, accounts: &Accounts) -> CentreAct<()>
    ensures act { result ≡ act_of.open_act customer accounts.now }
    ensures number { IsCustomer customer }
{
    match accounts.customer(customer.get()) {
        Some(_) => Act::Refuse(CentreRefusal::Known),
        None => Act::Commits(
            Commit::Opened(customer),
            Row::Customer(opened_row(customer)),
            (),
        ),
    }
}

/// Suspends the customer or lets it buy again, also where it stands so already. `UnknownCustomer` if and only if it is
/// not open.
pub fn flag_act(customer: Customer, suspended: bool, accounts: &Accounts) -> CentreAct<()>
    ensures { result ≡ act_of.flag_act customer suspended accounts.now }
{
    match accounts.customer(customer.get()) {
        Some(row) => Act::Commits(
            Commit::Flagged {
                customer,
                suspended,
            },
            Row::Customer(CustomerRow { suspended, ..*row }),
            (),
        ),
        None => Act::Refuse(CentreRefusal::UnknownCustomer(customer)),
    }
}

// Reports the deposits after it, and whether it came before.
fn taken_act(customer: Customer, receipt: u32, amount: u32, row: &CustomerRow) -> CentreAct<Deposit>
    requires { IsSoundCustomer row.now }
    ensures { result ≡ act_of.deposited_act customer receipt amount (Some row.now) }
{
    let commit = Commit::Deposited {
        customer,
        receipt,
        amount,
    };
    match deposited(row, receipt, amount) {
        Err(refusal) => Act::Refuse(refusal),
        Ok(None) => {
            let total = row.deposits;
            Act::Tell(Deposit { total, again: true })
        }
        Ok(Some(next)) => {
            let total = next.deposits;
            Act::Commits(
                commit,
                Row::Customer(next),
                Deposit {
                    total,
                    again: false,
                },
            )
        }
    }
}

/// Deposits the amount under this receipt: see `deposited`. `UnknownCustomer`, before its refusals, if and only if the
/// customer is not open. The last deposit again commits nothing.
pub fn deposit_act(
    customer: Customer,
    receipt: u32,
    amount: u32,
    accounts: &Accounts,
) -> CentreAct<Deposit>
    ensures { result ≡ act_of.deposit_act customer receipt amount accounts.now }
{
    match accounts.customer(customer.get()) {
        Some(row) => taken_act(customer, receipt, amount, row),
        None => Act::Refuse(CentreRefusal::UnknownCustomer(customer)),
    }
}

/// What the customer has left, which is kept. `UnknownCustomer` if and only if it is not open.
pub fn balance_act(customer: Customer, accounts: &Accounts) -> CentreAct<u64>
    ensures { result ≡ act_of.balance_act customer accounts.now }
{
    match accounts.customer(customer.get()) {
        Some(_) => Act::Tell(accounts.left(customer.get())),
        None => Act::Refuse(CentreRefusal::UnknownCustomer(customer)),
    }
}

/// What the centre holds of the device. `UnknownDevice` if and only if it is not registered.
pub fn standing_act(device: DevNo, accounts: &Accounts) -> CentreAct<Standing>
    ensures { result ≡ act_of.standing_act device accounts.now }
{
    match accounts.device(device.get()) {
        Some(row) => Act::Tell(standing_of(row)),
        None => Act::Refuse(CentreRefusal::UnknownDevice(device.get())),
    }
}
