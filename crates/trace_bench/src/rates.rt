//! Whether a line of the report can be the reply to a `rates` on a day.
ghost use Rattle.std.specs.Prelude.{◌≡◌, take, Some, IfOk};
ghost use Rattle.bench.specs.Outside.{rates_turn};
ghost use Rattle.trace_bench.specs.RatesTold.{IsToldOfRates, reply_to};

use crate::judging::{Finding, Judged};
use bench_base::events::Reply;
use bench_base::ledger::{Entry, Text};
use host_rates::{Rates, RatesFail, read_rates};
use node_turns::Tell;
use std::alloc::{AllocError, Global};
use trace_nodes::is_told;

/// One byte more than a text of rates may have: so much is read of it.
const MOST_BYTES: usize = 65_537;

// So much of the rates as a `rates` reads.
fn first_of(left: &[u8]) -> &[u8]
    ensures { result.now ≡ take 65537 left.now }
{
    if left.len() > MOST_BYTES {
        &left[..MOST_BYTES]
    } else {
        left
    }
}

// The answer to a text that reads so; none for lack of memory.
fn due_to(read: &Result<Rates, RatesFail>) -> Option<Reply>
    ensures { result ≡ reply_to «read».now }
{
    match read {
        Ok(rates) => Some(Reply::Rates {
            classes: rates.classes(),
            zones: rates.zones(),
        }),
        Err(RatesFail::Memory(_)) => None,
        Err(RatesFail::Length(_)) => Some(Reply::RatesLength),
        Err(RatesFail::Toml) => Some(Reply::RatesToml),
        Err(RatesFail::Form) => Some(Reply::RatesForm),
    }
}

// The turn of a text that reads so, with this answer. AllocError is lack of memory for a copy of the text.
fn read_turn<T: Tell>(
    alloc: Global,
    text: &[u8],
    read: &Result<Rates, RatesFail>,
    due: Reply,
) -> Result<T, AllocError>
    requires due { reply_to «read».now ≡ Some due }
    ensures { IfOk result (λ told. T.IsOf told (rates_turn text.now «read».now)) }
{
    match read {
        Ok(_) => {
            let copy = Vec::from_slice(alloc, text)?;
            Ok(T::one(due, Entry::Rates(Text::new(copy))))
        }
        Err(RatesFail::Length(_)) => Ok(T::silent(due)),
        Err(RatesFail::Toml) => Ok(T::silent(due)),
        Err(RatesFail::Form) => Ok(T::silent(due)),
        Err(RatesFail::Memory(_)) => Err(AllocError),
    }
}

/// Judges the line of a `rates` on a day, where these are left: its turn, and how much of them was taken. Rates that were read are kept.
pub(crate) fn judge_rates<T: Tell>(
    alloc: Global,
    kept: &mut Option<Rates>,
    left: &[u8],
    line: &[u8],
) -> Result<Judged<T>, Finding>
    ensures { IsToldOfRates T.IsOf left.now line.now kept.old kept.new result }
{
    if is_told(&Reply::RatesFault, line) {
        return Ok(Judged {
            told: T::silent(Reply::RatesFault),
            taken: 0,
        });
    }
    let text = first_of(left);
    let read = read_rates(alloc, text);
    let Some(due) = due_to(&read) else {
        return Err(Finding::Memory);
    };
    if !is_told(&due, line) {
        return Err(Finding::Wrong(due));
    }
    let Ok(told) = read_turn(alloc, text, &read, due) else {
        return Err(Finding::Memory);
    };
    if let Ok(rates) = read {
        *kept = Some(rates);
    }
    Ok(Judged {
        told,
        taken: text.len(),
    })
}
