//! The sums of a device, in mills.
ghost use Rattle.std.specs.Prelude.{◌≡◌, pos, ◌≤◌, ◌<◌, ◌+◌, ◌*◌, ◌^◌, [], ◌∷◌, length, reverse};
ghost use Rattle.ledger_terms.specs.Sums.{pieces, ascending, applied_sum, ruled_sum, adds, takes, loaded, refunded, descending, whole_descending};
ghost use Rattle.ledger_book.specs.Sides.{amount_of};

use crate::registers::Sums;
use crate::requests::{request_in, request_of};
use crate::words::{empties, is_granted, same_kind};
use bench_base::ledger::Commit;
use bench_base::numbers::DevNo;
use bench_base::words::{Kind, Verdict};
use psd_wire::Request;

/// Which amounts are summed.
#[derive(Clone, Copy)]
pub(crate) enum Side {
    /// Granted resets.
    Buys,
    /// Granted refunds and withdrawals.
    Returns,
}

/// What the verdict on the request adds to that side.
#[tactic(auto, unfolding(ledger_terms::specs::Sums::adds, ledger_terms::specs::Sums::takes))]
pub(crate) fn amount_of(side: Side, verdict: Verdict, request: &Request) -> u64
    ensures value { result ≡ amount_of side verdict request.now }
    ensures within { result ≤ request.now.amount }
{
    let counts = match side {
        Side::Buys => same_kind(request.kind, Kind::Reset),
        Side::Returns => empties(request.kind),
    };
    if is_granted(verdict) && counts {
        request.amount
    } else {
        0
    }
}

fn debits_in(commit: &Commit, device: DevNo) -> u128
    ensures value { result ≡ pieces device (commit.now ∷ []) }
    ensures small { result ≤ 1 }
{
    match *commit {
        Commit::Debited { device: d, .. } if d == device => 1,
        _ => 0,
    }
}

/// How many debits the device made.
pub(crate) fn pieces(commits: &[Commit], device: DevNo) -> u128
    ensures value { result ≡ pieces device (reverse commits.now) }
    ensures small { result ≤ length commits.now }
{
    let mut count = 0;
    for commit in commits {
        count += debits_in(commit, device);
    }
    count
}

fn postage_in(commit: &Commit, device: DevNo) -> u32
    ensures { result ≡ ascending device (commit.now ∷ []) }
{
    match *commit {
        Commit::Debited {
            device: d,
            postage,
            ..
        } if d == device => postage,
        _ => 0,
    }
}

/// The sum of the postage of the device's debits.
pub(crate) fn ascending(commits: &[Commit], device: DevNo) -> u128
    ensures value { result ≡ ascending device (reverse commits.now) }
    ensures small { result ≤ length commits.now * 2 ^ 32 }
{
    let mut sum = 0;
    for commit in commits {
        sum += u128::from(postage_in(commit, device));
    }
    sum
}

// What a commit after those before it adds to the sum of that side over what was applied.
fn applied_in(commit: &Commit, before: &[Commit], device: DevNo, side: Side) -> u64
    ensures value { applied_sum (amount_of side) device (commit.now ∷ reverse before.now) ≡ applied_sum
        (amount_of side) device (reverse before.now) + result }
    ensures small { result < 2 ^ 64 }
{
    match *commit {
        Commit::Applied {
            device: d,
            number: n,
            verdict,
        } if d == device => { amount_of(side, verdict, &request_of(before, device, n)) }
        _ => 0,
    }
}

/// The sum of that side over the transactions that the device applied.
pub(crate) fn applied_sum(commits: &[Commit], device: DevNo, side: Side) -> u128
    ensures value { result ≡ applied_sum (amount_of side) device (reverse commits.now) }
    ensures small { result ≤ length commits.now * 2 ^ 64 }
{
    let mut sum = 0;
    for (i, commit) in commits.iter().enumerate() {
        sum += u128::from(applied_in(commit, &commits[..i], device, side));
    }
    sum
}

fn ruled_in(commit: &Commit, device: DevNo, side: Side) -> u64
    ensures value { result ≡ ruled_sum (amount_of side) device (commit.now ∷ []) }
    ensures small { result < 2 ^ 64 }
{
    match *commit {
        Commit::Ruled {
            device: d,
            verdict,
            request: note,
            ..
        } if d == device => amount_of(side, verdict, &request_in(&note)),
        _ => 0,
    }
}

/// The sum of that side over the centre's rulings on the device.
pub(crate) fn ruled_sum(commits: &[Commit], device: DevNo, side: Side) -> u128
    ensures value { result ≡ ruled_sum (amount_of side) device (reverse commits.now) }
    ensures small { result ≤ length commits.now * 2 ^ 64 }
{
    let mut sum = 0;
    for commit in commits {
        sum += u128::from(ruled_in(commit, device, side));
    }
    sum
}

/// What is left to spend, and 0 where more was spent and refunded than loaded.
pub(crate) fn descending(commits: &[Commit], device: DevNo) -> u128
    ensures value { result ≡ descending device (reverse commits.now) }
    ensures small { result ≤ length commits.now * 2 ^ 64 }
{
    let gone = ascending(commits, device) + applied_sum(commits, device, Side::Returns);
    applied_sum(commits, device, Side::Buys).saturating_sub(gone)
}

/// The sums of the device over the commits, the oldest first.
pub fn sums(commits: &[Commit], device: DevNo) -> Sums
    ensures ascending { result.ascending ≡ pos (ascending device (reverse commits.now)) }
    ensures descending { result.descending ≡ whole_descending device (reverse commits.now) }
    ensures refunded { result.refunded ≡ pos (refunded device (reverse commits.now)) }
    ensures pieces { result.pieces ≡ pos (pieces device (reverse commits.now)) }
{
    let spent = ascending(commits, device) as i128;
    let loaded = applied_sum(commits, device, Side::Buys) as i128;
    let refunded = applied_sum(commits, device, Side::Returns) as i128;
    Sums {
        ascending: spent,
        descending: loaded - spent - refunded,
        refunded,
        pieces: pieces(commits, device) as i128,
    }
}
