//! The state of the centre, over its commits. Amounts are in mills.
ghost use Rattle.std.specs.Prelude.{◌≡◌, ◌≤◌, ◌<◌, ◌*◌, ◌^◌, [], ◌∷◌, length, reverse};
ghost use Rattle.ledger_terms.specs.Centres.{registered, enrolled, ruled, done, settled, deposits, device_share, customer_sum, whole_balance};
ghost use Rattle.ledger_book.specs.Sides.{amount_of};

use crate::requests::request_in;
use crate::totals::{Side, ruled_sum};
use crate::words::{is_granted, same_kind};
use bench_base::ledger::Commit;
use bench_base::numbers::{Customer, DevNo};
use bench_base::words::{Key, Kind};

fn registered_in(commit: &Commit, device: DevNo) -> Option<(u32, Key)>
    ensures { result ≡ registered device (commit.now ∷ []) }
{
    match *commit {
        Commit::Registered {
            device: d,
            origin,
            key,
        } if d == device => Some((origin, key)),
        _ => None,
    }
}

/// The origin and the key under which the device is registered.
pub(crate) fn registered(commits: &[Commit], device: DevNo) -> Option<(u32, Key)>
    ensures { result ≡ registered device (reverse commits.now) }
{
    let mut found = None;
    for commit in commits {
        found = registered_in(commit, device).or(found);
    }
    found
}

fn enrolled_in(commit: &Commit, device: DevNo) -> Option<u32>
    ensures { result ≡ enrolled device (commit.now ∷ []) }
{
    match *commit {
        Commit::Ruled {
            device: d,
            verdict,
            request: note,
            ..
        } if d == device => {
            let request = request_in(&note);
            if is_granted(verdict) && same_kind(request.kind, Kind::Enrol) {
                Some(request.customer)
            } else {
                None
            }
        }
        _ => None,
    }
}

/// The customer of the first granted ruling on an enrolment of the device.
pub(crate) fn enrolled(commits: &[Commit], device: DevNo) -> Option<u32>
    ensures { result ≡ enrolled device (reverse commits.now) }
{
    let mut found = None;
    for commit in commits {
        found = found.or(enrolled_in(commit, device));
    }
    found
}

fn ruled_in(commit: &Commit, device: DevNo) -> u32
    ensures { result ≡ ruled device (commit.now ∷ []) }
{
    match *commit {
        Commit::Ruled {
            device: d,
            number: n,
            ..
        } if d == device => n,
        _ => 0,
    }
}

/// The greatest number in a Ruled of the device.
pub(crate) fn ruled(commits: &[Commit], device: DevNo) -> u32
    ensures { result ≡ ruled device (reverse commits.now) }
{
    let mut greatest = 0;
    for commit in commits {
        greatest = ruled_in(commit, device).max(greatest);
    }
    greatest
}

fn done_in(commit: &Commit, device: DevNo) -> u32
    ensures { result ≡ done device (commit.now ∷ []) }
{
    match *commit {
        Commit::Settled {
            device: d,
            number: n,
        } if d == device => n,
        _ => 0,
    }
}

/// The greatest number in a Settled of the device.
pub(crate) fn done(commits: &[Commit], device: DevNo) -> u32
    ensures { result ≡ done device (reverse commits.now) }
{
    let mut greatest = 0;
    for commit in commits {
        greatest = done_in(commit, device).max(greatest);
    }
    greatest
}

/// Up to which number the rulings on the device are settled.
pub(crate) fn settled(commits: &[Commit], device: DevNo) -> u32
    ensures { result ≡ settled device (reverse commits.now) }
{
    ruled(commits, device)
        .saturating_sub(1)
        .max(done(commits, device))
}

fn deposited_in(commit: &Commit, customer: Customer) -> u32
    ensures { result ≡ deposits customer (commit.now ∷ []) }
{
    match *commit {
        Commit::Deposited {
            customer: c,
            amount,
            ..
        } if c == customer => amount,
        _ => 0,
    }
}

/// The sum of the deposits of the customer.
pub(crate) fn deposits(commits: &[Commit], customer: Customer) -> u128
    ensures value { result ≡ deposits customer (reverse commits.now) }
    ensures small { result ≤ length commits.now * 2 ^ 32 }
{
    let mut sum = 0;
    for commit in commits {
        sum += u128::from(deposited_in(commit, customer));
    }
    sum
}

/// The device of this number.
pub(crate) fn device_at(number: u32) -> DevNo
    requires low { 1 ≤ number }
    requires high { number ≤ 8 }
    ensures { result ≡ number }
{
    let Some(device) = DevNo::new(number) else {
        unreachable!();
    };
    device
}

// What the rulings on a device add to the sum of that side, where it was ever enrolled under the customer.
fn device_share(commits: &[Commit], customer: Customer, side: Side, number: u32) -> u128
    requires low { 1 ≤ number }
    requires high { number ≤ 8 }
    ensures value { result ≡ device_share (amount_of side) customer (reverse commits.now) number }
    ensures small { result ≤ length commits.now * 2 ^ 64 }
{
    let device = device_at(number);
    match enrolled(commits, device) {
        Some(c) if c == customer.get() => ruled_sum(commits, device, side),
        _ => 0,
    }
}

/// The sum of that side over the rulings on all devices that were ever enrolled under the customer.
#[tactic(auto, unfolding(ledger_terms::specs::Centres::customer_sum))]
pub(crate) fn customer_sum(commits: &[Commit], customer: Customer, side: Side) -> u128
    ensures value { result ≡ customer_sum (amount_of side) customer (reverse commits.now) }
    ensures small { result ≤ length commits.now * 2 ^ 67 }
{
    device_share(commits, customer, side, 1)
        + device_share(commits, customer, side, 2)
        + device_share(commits, customer, side, 3)
        + device_share(commits, customer, side, 4)
        + device_share(commits, customer, side, 5)
        + device_share(commits, customer, side, 6)
        + device_share(commits, customer, side, 7)
        + device_share(commits, customer, side, 8)
}

/// The balance of the customer over the commits, the oldest first: deposits less buys plus returns, over all devices ever enrolled under
/// it. Below 0 where buys are more.
pub fn balance_in(commits: &[Commit], customer: Customer) -> i128
    ensures { result ≡ whole_balance customer (reverse commits.now) }
{
    let deposited = deposits(commits, customer) as i128;
    let bought = customer_sum(commits, customer, Side::Buys) as i128;
    let returned = customer_sum(commits, customer, Side::Returns) as i128;
    deposited - bought + returned
}
