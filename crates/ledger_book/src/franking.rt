//! The mark of each debit.
ghost use Rattle.bench_base.specs.Rows.{first_of};
ghost use Rattle.std.specs.Prelude.{◌≡◌, ◌+◌, ◌<◌, ◌∷◌, reverse};
ghost use Rattle.bench_base.specs.Rules.{todays_rules};
ghost use Rattle.ledger_terms.specs.Sums.{ascending, descending};
ghost use Rattle.ledger_terms.specs.Devices.{origin};
ghost use Rattle.ledger_terms.specs.Franking.{marked, mark_after, key_or_none};
ghost use Rattle.bench_base.specs.declared.ledger.Commit.TheVariants.{Debited};
ghost use Rattle.indicium.specs.Marks.{IsWhole, spell};
ghost use Rattle.ledger_terms.specs.Lawful.{Always, Debits};
ghost use Rattle.ledger_book.specs.Carried.{carried, carried_sum};

use crate::centres::registered;
use crate::devices::{applied_kind, key_of};
use crate::totals::{ascending, descending};
use bench_base::ledger::Commit;
use bench_base::numbers::{DayNo, DevNo};
use bench_base::words::{Key, Kind};
use indicium::{Mark, write_indicium};

/// The origin that the device's marks carry.
pub(crate) fn origin(commits: &[Commit], device: DevNo) -> u32
    ensures { result ≡ origin device (reverse commits.now) }
{
    if !applied_kind(commits, device, Kind::Enrol) {
        return 0;
    }
    match registered(commits, device) {
        Some((origin, _)) => origin,
        None => 0,
    }
}

// The spelling of the mark under the key of its device. A device that was never made has no key: HMAC fills a key with zeros, so no
// bytes and 32 zeros are one key.
fn spelled(mark: &Mark, key: Option<Key>) -> [u8; 64]
    requires { IsWhole mark.now }
    ensures { result ≡ spell mark.now (key_or_none key) }
{
    match key {
        Some(key) => write_indicium(mark, &key),
        None => write_indicium(mark, &[0; 32]),
    }
}

// What the field of a sum holds of it: its last four bytes in version 1, and all of it in version 2.
fn carried_sum(version: u8, sum: u64) -> u64
    ensures { result ≡ carried_sum version sum }
{
    if version == 1 {
        sum % 4_294_967_296
    } else {
        sum
    }
}

// The mark, as its fields hold it, of a debit after these commits, which keeps the registers within their limit.
#[tactic(auto, unfolding(ledger_terms::specs::Franking::mark_after))]
fn mark_after(
    before: &[Commit],
    device: DevNo,
    piece: u32,
    postage: u32,
    class: u16,
    day: DayNo,
    version: u8,
) -> Mark
    requires { Debits todays_rules (Debited device piece postage class day version ∷ reverse before.now) }
    ensures value { result ≡ carried (mark_after device piece postage class day version (reverse before.now)) }
    ensures whole { IsWhole result }
{
    let number = device.get();
    Mark {
        version,
        device: number,
        piece,
        postage,
        ascending: carried_sum(
            version,
            ascending(before, device) as u64 + u64::from(postage),
        ),
        descending: carried_sum(
            version,
            (descending(before, device) as u64).saturating_sub(u64::from(postage)),
        ),
        day: day.get(),
        origin: origin(before, device),
        class,
    }
}

// The spelling of the mark of this commit after those before it, where it is the debit of the piece.
#[tactic(auto, unfolding(ledger_terms::specs::Franking::indicium_after), using(crate::proofs::Marks::spell_carried))]
fn marked_in(commit: &Commit, before: &[Commit], device: DevNo, piece: u32) -> Option<[u8; 64]>
    requires { Debits todays_rules (commit.now ∷ reverse before.now) }
    ensures { marked device piece (commit.now ∷ reverse before.now) ≡ first_of
        (marked device piece (reverse before.now)) result }
{
    match *commit {
        Commit::Debited {
            device: d,
            piece: p,
            postage,
            class,
            day,
            version,
        } if d == device && p == piece => {
            let mark = mark_after(before, d, p, postage, class, day, version);
            Some(spelled(&mark, key_of(before, d)))
        }
        _ => None,
    }
}

/// The spelling of the mark of the first Debited of the piece. The registers have to be within their limit throughout, so that each mark has a spelling.
pub(crate) fn marked(commits: &[Commit], device: DevNo, piece: u32) -> Option<[u8; 64]>
    requires { Always (Debits todays_rules) (reverse commits.now) }
    ensures { result ≡ marked device piece (reverse commits.now) }
{
    let mut found = None;
    for (i, commit) in commits.iter().enumerate() {
        found = found.or(marked_in(commit, &commits[..i], device, piece));
    }
    found
}
