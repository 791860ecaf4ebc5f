//! Which rulings are acknowledged, and the one in flight. Amounts are in mills.
ghost use Rattle.std.specs.Prelude.{◌≡◌, ◌≤◌, ◌<◌, ◌*◌, ◌^◌, [], ◌∷◌, length, reverse};
ghost use Rattle.ledger_terms.specs.Centres.{settled};
ghost use Rattle.ledger_terms.specs.InFlight.{ruling_of, ruled_sum_to, flight};
ghost use Rattle.ledger_book.specs.Sides.{amount_of};

use crate::centres::settled;
use crate::devices::applied_of;
use crate::requests::request_in;
use crate::totals::{Side, amount_of};
use bench_base::bytes::Note;
use bench_base::ledger::Commit;
use bench_base::numbers::DevNo;
use bench_base::words::Verdict;

fn ruling_in(commit: &Commit, device: DevNo, number: u64) -> Option<(Verdict, Note)>
    ensures { result ≡ ruling_of device number (commit.now ∷ []) }
{
    match *commit {
        Commit::Ruled {
            device: d,
            number: n,
            verdict,
            request: note,
        } if d == device && u64::from(n) == number => Some((verdict, note)),
        _ => None,
    }
}

/// The verdict and the Request of the first Ruled of this number.
pub(crate) fn ruling_of(commits: &[Commit], device: DevNo, number: u64) -> Option<(Verdict, Note)>
    ensures { result ≡ ruling_of device number (reverse commits.now) }
{
    let mut found = None;
    for commit in commits {
        found = found.or(ruling_in(commit, device, number));
    }
    found
}

fn acknowledged_in(commit: &Commit, device: DevNo, side: Side, limit: u32) -> u64
    ensures value { result ≡ ruled_sum_to (amount_of side) device limit (commit.now ∷ []) }
    ensures small { result < 2 ^ 64 }
{
    match *commit {
        Commit::Ruled {
            device: d,
            number: n,
            verdict,
            request: note,
        } if d == device && n <= limit => amount_of(side, verdict, &request_in(&note)),
        _ => 0,
    }
}

/// The sum of that side over the rulings on the device with numbers up to the limit.
pub(crate) fn ruled_sum_to(commits: &[Commit], device: DevNo, side: Side, limit: u32) -> u128
    ensures value { result ≡ ruled_sum_to (amount_of side) device limit (reverse commits.now) }
    ensures small { result ≤ length commits.now * 2 ^ 64 }
{
    let mut sum = 0;
    for commit in commits {
        sum += u128::from(acknowledged_in(commit, device, side, limit));
    }
    sum
}

/// What the ruling in flight adds to that side, where it is applied.
pub(crate) fn flight(commits: &[Commit], device: DevNo, side: Side) -> u64
    ensures value { result ≡ flight (amount_of side) device (reverse commits.now) }
    ensures small { result < 2 ^ 64 }
{
    let next = u64::from(settled(commits, device)) + 1;
    match (
        applied_of(commits, device, next),
        ruling_of(commits, device, next),
    ) {
        (Some(_), Some((verdict, note))) => amount_of(side, verdict, &request_in(&note)),
        _ => 0,
    }
}
