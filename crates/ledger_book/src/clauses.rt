//! The clauses of a lawful ledger that speak of its commits alone, each for the newest commit after those before it.
ghost use Rattle.std.specs.Prelude.{◌≡◌, ◌↔◌, ◌+◌, ◌+ℤ◌, ◌≤ℤ◌, ◌<ℤ◌, pos, ◌-◌, ◌≤◌, ◌<◌, ◌*◌, ◌⊎◌, List, ℕ, true, false, Some, None, [], ◌∷◌, length, reverse, IsTrue, IsSome};
ghost use Rattle.bench_base.specs.declared.ledger.Commit.{Commit as ACommit};
ghost use Rattle.bench_base.specs.Rules.{todays_rules};
ghost use Rattle.bench_base.specs.Kinds.{empties, is_granted};
ghost use Rattle.ledger_terms.specs.Requests.{request_in, note_of, request_of};
ghost use Rattle.ledger_terms.specs.Sums.{pieces, descending};
ghost use Rattle.ledger_terms.specs.Devices.{applied_of};
ghost use Rattle.ledger_terms.specs.InFlight.{ruling_of};
ghost use Rattle.ledger_terms.specs.Lawful.{asks, Numbering, NextDebit, Totals, AllDevices, Debits, debited_since, Refunds, AfterApplied, Accounts, Registers, Solvent, Balances, Days};

use crate::centres::{customer_sum, deposits, device_at, ruled, settled};
use crate::devices::{applied_of, deadline, is_frozen, last_day, phase};
use crate::flight::{flight, ruled_sum_to, ruling_of};
use crate::requests::{note_of, request_in, request_of};
use crate::totals::{Side, applied_sum, ascending, descending, pieces};
use crate::words::{empties, is_granted};
use bench_base::bytes::Note;
use bench_base::ledger::Commit;
use bench_base::numbers::{Customer, DayNo, DevNo};
use bench_base::words::{Phase, Verdict};

/// The greatest sum of a device's registers, in mills.
const TOTAL: u128 = 1000000000000;
/// The greatest postage of a debit, in mills.
const POSTAGE: u32 = 100000;
/// The version of the marks that are written; those of version 1 were.
const VERSION: u8 = 2;
/// For how many days past the deadline a device franks small postage, and the most that is small, in mills.
const GRACE: i64 = 7;

const SMALL: u32 = 1000;
/// The greatest sum of a customer's deposits, in mills.
const DEPOSITS: u128 = 1000000000000000;

fn asks_in(commit: &Commit, device: DevNo) -> u64
    ensures value { result ≡ asks device (commit.now ∷ []) }
    ensures small { result ≤ 1 }
{
    match *commit {
        Commit::Asked { device: d, .. } if d == device => 1,
        _ => 0,
    }
}

// How many transactions the device asked for.
fn asks(commits: &[Commit], device: DevNo) -> u64
    ensures value { result ≡ asks device (reverse commits.now) }
    ensures small { result ≤ length commits.now }
{
    let mut count = 0;
    for commit in commits {
        count += asks_in(commit, device);
    }
    count
}

fn is_next_ask(before: &[Commit], device: DevNo, number: u32) -> bool
    ensures { IsTrue result ↔ ((number ≡ asks device (reverse before.now) + 1)
        × ((number ≡ 1) ⊎ IsSome (applied_of device (number - 1) (reverse before.now)))) }
{
    let number = u64::from(number);
    number == asks(before, device) + 1
        && (number == 1 || applied_of(before, device, number - 1).is_some())
}

fn is_next_ruling(before: &[Commit], device: DevNo, number: u32, note: &Note) -> bool
    ensures { IsTrue result
        ↔ ((ruling_of device number (reverse before.now) ≡ None)
        × (note_of device number (reverse before.now) ≡ Some note.now)) }
{
    let asked = match note_of(before, device, number) {
        Some(found) => found.as_slice() == note.as_slice(),
        None => false,
    };
    asked && ruling_of(before, device, u64::from(number)).is_none()
}

fn is_next_application(before: &[Commit], device: DevNo, number: u32, verdict: Verdict) -> bool
    ensures { IsTrue result ↔ ((applied_of device number (reverse before.now) ≡ None)
        × (note : List ℕ) × (ruling_of device number (reverse before.now) ≡ Some (verdict, note))) }
{
    let number = u64::from(number);
    let ruled = match ruling_of(before, device, number) {
        Some((found, _)) => found == verdict,
        None => false,
    };
    ruled && applied_of(before, device, number).is_none()
}

fn is_numbered(newest: &Commit, before: &[Commit]) -> bool
    ensures { IsTrue result ↔ Numbering (newest.now ∷ reverse before.now) }
{
    match *newest {
        Commit::Asked {
            device: d,
            number: n,
            ..
        } => is_next_ask(before, d, n),
        Commit::Ruled {
            device: d,
            number: n,
            request: note,
            ..
        } => is_next_ruling(before, d, n, &note),
        Commit::Applied {
            device: d,
            number: n,
            verdict,
        } => is_next_application(before, d, n, verdict),
        _ => true,
    }
}

/// Numbering: requests, rulings and applications come in order, each once.
#[tactic(auto, using(crate::proofs::Newest::reverse_last))]
pub(crate) fn numbering(commits: &[Commit]) -> bool
    ensures { IsTrue result ↔ Numbering (reverse commits.now) }
{
    match commits.split_last() {
        Some((newest, before)) => is_numbered(newest, before),
        None => true,
    }
}

fn is_next_debit(newest: &Commit, before: &[Commit]) -> bool
    ensures { IsTrue result ↔ NextDebit todays_rules (newest.now ∷ reverse before.now) }
{
    match *newest {
        Commit::Debited {
            device: d,
            piece,
            postage,
            version,
            ..
        } => {
            u128::from(piece) == pieces(before, d) + 1
                && 1 <= postage
                && postage <= POSTAGE
                && u128::from(postage) <= descending(before, d)
                && 1 <= version
                && version <= VERSION
        }
        _ => true,
    }
}

#[tactic(auto, using(crate::proofs::Newest::reverse_last))]
fn next_debit(commits: &[Commit]) -> bool
    ensures { IsTrue result ↔ NextDebit todays_rules (reverse commits.now) }
{
    match commits.split_last() {
        Some((newest, before)) => is_next_debit(newest, before),
        None => true,
    }
}

fn is_within(commits: &[Commit], device: DevNo) -> bool
    ensures { IsTrue result ↔ Totals todays_rules (reverse commits.now) device }
{
    let spent = ascending(commits, device);
    let refunded = applied_sum(commits, device, Side::Returns);
    spent + refunded <= applied_sum(commits, device, Side::Buys)
        && spent + descending(commits, device) + refunded <= TOTAL
}

fn totals(commits: &[Commit]) -> bool
    ensures { IsTrue result ↔ AllDevices (Totals todays_rules (reverse commits.now)) }
{
    for number in 1..9 {
        if !is_within(commits, device_at(number)) {
            return false;
        }
    }
    true
}

/// Debits: the next piece, funded, and registers within their limit.
pub(crate) fn debits(commits: &[Commit]) -> bool
    ensures { IsTrue result ↔ Debits todays_rules (reverse commits.now) }
{
    next_debit(commits) && totals(commits)
}

fn is_whole_refund(before: &[Commit], device: DevNo, verdict: Verdict, note: &Note) -> bool
    ensures { IsTrue result ↔ (is_granted verdict ≡ true → empties (request_in note.now).kind ≡ true
        → (request_in note.now).amount ≡ descending device (reverse before.now)) }
{
    let request = request_in(note);
    !(is_granted(verdict) && empties(request.kind))
        || u128::from(request.amount) == descending(before, device)
}

// The state of `debited_since` after this commit, where `before` was the one before it.
fn debited_after(commit: &Commit, device: DevNo, number: u32, before: bool) -> bool
    ensures { (C : List ACommit) → debited_since device number C ≡ before
        → result ≡ debited_since device number (commit.now ∷ C) }
{
    match *commit {
        Commit::Asked {
            device: d,
            number: n,
            ..
        } if d == device && n == number => false,
        Commit::Debited { device: d, .. } if d == device => true,
        _ => before,
    }
}

// Whether a Debited of the device came after the Asked of this number.
fn debited_since(commits: &[Commit], device: DevNo, number: u32) -> bool
    ensures { result ≡ debited_since device number (reverse commits.now) }
{
    let mut since = false;
    for commit in commits {
        since = debited_after(commit, device, number, since);
    }
    since
}

fn leaves_nothing(
    commits: &[Commit],
    before: &[Commit],
    device: DevNo,
    number: u32,
    verdict: Verdict,
) -> bool
    ensures { IsTrue result
        ↔ (is_granted verdict ≡ true → empties (request_of device number (reverse before.now)).kind ≡ true
        → (debited_since device number (reverse before.now) ≡ false) × (descending device (reverse commits.now) ≡ 0)) }
{
    let request = request_of(before, device, number);
    !(is_granted(verdict) && empties(request.kind))
        || (!debited_since(before, device, number) && descending(commits, device) == 0)
}

fn is_refunded(newest: &Commit, before: &[Commit], commits: &[Commit]) -> bool
    requires { reverse commits.now ≡ newest.now ∷ reverse before.now }
    ensures { IsTrue result ↔ Refunds (newest.now ∷ reverse before.now) }
{
    match *newest {
        Commit::Ruled {
            device: d,
            verdict,
            request: note,
            ..
        } => is_whole_refund(before, d, verdict, &note),
        Commit::Applied {
            device: d,
            number: n,
            verdict,
        } => leaves_nothing(commits, before, d, n, verdict),
        _ => true,
    }
}

/// Refunds: a granted refund or withdrawal is of all that is left, and leaves nothing.
#[tactic(auto, using(crate::proofs::Newest::reverse_last))]
pub(crate) fn refunds(commits: &[Commit]) -> bool
    ensures { IsTrue result ↔ Refunds (reverse commits.now) }
{
    match commits.split_last() {
        Some((newest, before)) => is_refunded(newest, before, commits),
        None => true,
    }
}

fn is_after_applied(newest: &Commit, before: &[Commit]) -> bool
    ensures { IsTrue result ↔ AfterApplied (newest.now ∷ reverse before.now) }
{
    match *newest {
        Commit::Settled {
            device: d,
            number: n,
        } => applied_of(before, d, u64::from(n)).is_some(),
        _ => true,
    }
}

#[tactic(auto, using(crate::proofs::Newest::reverse_last))]
fn after_applied(commits: &[Commit]) -> bool
    ensures { IsTrue result ↔ AfterApplied (reverse commits.now) }
{
    match commits.split_last() {
        Some((newest, before)) => is_after_applied(newest, before),
        None => true,
    }
}

fn is_balanced(commits: &[Commit], device: DevNo) -> bool
    ensures { IsTrue result ↔ Accounts (reverse commits.now) device }
{
    let settled = settled(commits, device);
    let resets = ruled_sum_to(commits, device, Side::Buys, settled);
    let refunds = ruled_sum_to(commits, device, Side::Returns, settled);
    let adds = u128::from(flight(commits, device, Side::Buys));
    let takes = u128::from(flight(commits, device, Side::Returns));
    u64::from(ruled(commits, device)) <= u64::from(settled) + 1
        && ascending(commits, device) + descending(commits, device) + (refunds + takes)
            == resets + adds
}

fn accounts(commits: &[Commit]) -> bool
    ensures { IsTrue result ↔ AllDevices (Accounts (reverse commits.now)) }
{
    for number in 1..9 {
        if !is_balanced(commits, device_at(number)) {
            return false;
        }
    }
    true
}

/// Registers: what a device has is what the centre granted and knows to be applied, except for the one ruling in flight.
pub(crate) fn registers(commits: &[Commit]) -> bool
    ensures { IsTrue result ↔ Registers (reverse commits.now) }
{
    after_applied(commits) && accounts(commits)
}

// The customer of this number.
fn customer_at(number: u32) -> Customer
    requires low { 1 ≤ number }
    requires high { number ≤ 64 }
    ensures { result ≡ number }
{
    let Some(customer) = Customer::new(number) else {
        unreachable!();
    };
    customer
}

fn is_solvent(commits: &[Commit], customer: Customer) -> bool
    ensures { IsTrue result ↔ Solvent (reverse commits.now) customer }
{
    let deposited = deposits(commits, customer);
    customer_sum(commits, customer, Side::Buys)
        <= deposited + customer_sum(commits, customer, Side::Returns)
        && deposited <= DEPOSITS
}

/// Balances: no customer has less than nothing, and deposits stay within their limit.
pub(crate) fn balances(commits: &[Commit]) -> bool
    ensures { IsTrue result ↔ Balances (reverse commits.now) }
{
    for number in 1..65 {
        if !is_solvent(commits, customer_at(number)) {
            return false;
        }
    }
    true
}

// Not past the deadline, or in the days of grace with small postage.
fn is_franked_on(day: DayNo, deadline: i32, postage: u32) -> bool
    ensures { IsTrue result ↔ ((day ≤ℤ (deadline +ℤ pos 7)) × (deadline <ℤ day → postage ≤ 1000)) }
{
    i64::from(day.get()) <= i64::from(deadline) + GRACE
        && (day.get() <= deadline || postage <= SMALL)
}

fn is_in_time(newest: &Commit, before: &[Commit]) -> bool
    ensures { IsTrue result ↔ Days todays_rules (newest.now ∷ reverse before.now) }
{
    match *newest {
        Commit::Debited {
            device: d,
            postage,
            day,
            ..
        } => {
            last_day(before, d) <= day.get()
                && is_franked_on(day, deadline(before, d), postage)
                && phase(before, d) == Phase::InService
                && !is_frozen(before, d)
        }
        _ => true,
    }
}

/// Days: each debit is in time, in service and while no refund or withdrawal is pending.
#[tactic(auto, using(crate::proofs::Newest::reverse_last))]
pub(crate) fn days(commits: &[Commit]) -> bool
    ensures { IsTrue result ↔ Days todays_rules (reverse commits.now) }
{
    match commits.split_last() {
        Some((newest, before)) => is_in_time(newest, before),
        None => true,
    }
}
