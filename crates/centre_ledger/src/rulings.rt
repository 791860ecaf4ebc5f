//! How the centre rules on a request.
ghost use Rattle.std.specs.Prelude.{◌≡◌, ◌+◌};
ghost use Rattle.bench_base.specs.declared.words.Kind.TheVariants.{Enrol, Reset};
ghost use Rattle.bench_base.specs.Kinds as kinds;
ghost use Rattle.psd_wire.specs.declared.message.Message.TheVariants as m;
ghost use Rattle.psd_wire.specs.Grammar.{IsWhole};
ghost use Rattle.ledger_terms.specs.Rulings as rulings;
ghost use Rattle.ledger_terms.specs.Rulings.{verdict_by};
ghost use Rattle.std.specs.Option.{option_copied};
ghost use Rattle.centre_ledger.specs.Rows as rows;
ghost use Rattle.centre_ledger.specs.Rows.{account};
ghost use Rattle.centre_ledger.specs.Soundness.{IsSoundDevice};

use crate::rows::{CustomerRow, DeviceRow, Enrolment};
use bench_base::words::{Kind, Verdict};
use psd_wire::Request;

/// The most that one reset may be of, in mills.
const RESET_LIMIT: u64 = 10_000_000;

// The most that the buys of a device may come to by a request of this version, in mills.
fn buys_limit(version: u8) -> u64
    ensures { result ≡ rulings.buys_limit version }
{
    match version {
        1 => 4_294_967_295,
        2 => 1_000_000_000_000,
        _ => 0,
    }
}

#[tactic(auto, unfolding(bench_base::specs::Kinds::same_kind))]
fn is_enrol(kind: Kind) -> bool
    ensures { result ≡ kinds.same_kind kind Enrol }
{
    matches!(kind, Kind::Enrol)
}

#[tactic(auto, unfolding(bench_base::specs::Kinds::same_kind))]
fn is_reset(kind: Kind) -> bool
    ensures { result ≡ kinds.same_kind kind Reset }
{
    matches!(kind, Kind::Reset)
}

// A reset of nothing, of more than the limit, or past the limit of all buys.
fn is_past_limits(version: u8, bought: u64, amount: u64) -> bool
    ensures { result ≡ rulings.is_past_limits version bought amount }
{
    let all = u128::from(bought) + u128::from(amount);
    amount == 0 || amount > RESET_LIMIT || all > u128::from(buys_limit(version))
}

// The sum of three numbers from outside, which may be any numbers of eight bytes.
fn sum_of(ascending: u64, descending: u64, refunded: u64) -> u128
    ensures { result ≡ ascending + descending + refunded }
{
    u128::from(ascending) + u128::from(descending) + u128::from(refunded)
}

// Whether the request disagrees with what was granted before.
#[tactic(auto, unfolding(bench_base::specs::Kinds::same_kind))]
fn is_out_of_balance(request: &Request, bought: u64, returned: u64) -> bool
    ensures { result ≡ rulings.out_of_balance request.now bought returned }
{
    let total = sum_of(request.ascending, request.descending, request.refunded);
    if total != u128::from(bought) || request.refunded != returned {
        return true;
    }
    match request.kind {
        Kind::Refund | Kind::Withdraw => request.amount != request.descending,
        Kind::Enrol | Kind::Audit => request.amount != 0,
        Kind::Reset => is_past_limits(request.version, bought, request.amount),
    }
}

fn is_suspended(customer: Option<&CustomerRow>) -> bool
    ensures { result ≡ rows.is_suspended (option_copied customer.entry) }
{
    match customer {
        Some(row) => row.suspended,
        None => false,
    }
}

/// The verdict on a request of the device.
///
/// The customer is the row of the one that an enrolment names, and otherwise of the device's own customer. The balance, in
/// mills, is that of the device's own customer, or 0 if the device has no customer. The first verdict that holds is
/// returned:
///
/// 1. `NotEnrolled` for all but an enrolment, if the device isn't enrolled, or no longer.
/// 2. `EnrolledAlready` for an enrolment of a device that was enrolled before.
/// 3. `Imbalance` if the request disagrees with what was granted before.
/// 4. `NoCustomer` for an enrolment, if the customer has no row.
/// 5. `Suspended` for an enrolment or a reset, if the customer is suspended.
/// 6. `NoFunds` for a reset above the balance.
/// 7. `Granted` otherwise.
#[tactic(auto, unfolding(ledger_terms::specs::Rulings::verdict_by))]
pub fn verdict(
    row: &DeviceRow,
    customer: Option<&CustomerRow>,
    balance: u64,
    request: &Request,
) -> Verdict
    requires sound { IsSoundDevice row.now }
    requires whole { IsWhole (m.Request request.now) }
    ensures exact { result ≡ (verdict_by (account row.now (option_copied customer.entry) balance) request.now).0 }
{
    let enrol = is_enrol(request.kind);
    let reset = is_reset(request.kind);
    if !enrol && !matches!(row.enrolment, Enrolment::Enrolled(_)) {
        return Verdict::NotEnrolled;
    }
    if enrol && !matches!(row.enrolment, Enrolment::Registered) {
        return Verdict::EnrolledAlready;
    }
    if is_out_of_balance(request, row.buys, row.returns) {
        return Verdict::Imbalance;
    }
    if enrol && customer.is_none() {
        return Verdict::NoCustomer;
    }
    if (enrol || reset) && is_suspended(customer) {
        return Verdict::Suspended;
    }
    if reset && balance < request.amount {
        return Verdict::NoFunds;
    }
    Verdict::Granted
}
