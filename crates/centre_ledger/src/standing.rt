//! What a device's row shows of its last ruling, of the one in flight, and of what is acknowledged. Amounts are in mills.
ghost use Rattle.std.specs.Prelude.{◌≡◌, ◌-◌, Some, None, if◌then◌else◌};
ghost use Rattle.bench_base.specs.Kinds as kinds;
ghost use Rattle.ledger_terms.specs.Requests.{request_in};
ghost use Rattle.centre_ledger.specs.Acts as act_of;
ghost use Rattle.centre_ledger.specs.Standing as stands;

use crate::replies::{adds, is_granted, takes};
use crate::rows::DeviceRow;
use bench_base::bytes::Note;
use bench_base::words::{Kind, Verdict};
use psd_wire::{Message, Request, read_message};

/// What the centre holds of a device: the acknowledged resets less the acknowledged refunds, and the ruling that is
/// not yet settled, by its kind and the amount that was granted, which is 0 where it was not.
#[derive(Clone, Copy)]
pub struct Standing {
    pub centre: u64,
    pub in_flight: Option<(Kind, u64)>,
}

/// The verdict of the last ruling, from the reply that is kept, and its request.
#[tactic(auto, unfolding(crate::specs::Standing::ruling_in))]
pub fn ruling_in(row: &DeviceRow) -> Option<(Verdict, Note)>
    ensures { result ≡ stands.ruling_in row.now }
{
    match read_message(row.reply.as_slice()) {
        Ok(Message::Reply(reply)) => Some((reply.verdict, row.request)),
        _ => None,
    }
}

fn granted_amount(verdict: Verdict, amount: u64) -> u64
    ensures { result ≡ (if kinds.is_granted verdict then amount else 0) }
{
    if is_granted(verdict) { amount } else { 0 }
}

// With these amounts left out, as not yet settled. A row that no history left may keep a request of another amount than
// its reply, so nothing is below 0.
fn standing_without(
    row: &DeviceRow,
    buys: u64,
    returns: u64,
    in_flight: Option<(Kind, u64)>,
) -> Standing
    ensures { result ≡ record { centre = (row.now.buys - buys) - (row.now.returns - returns); in_flight = in_flight } }
{
    let resets = row.buys.saturating_sub(buys);
    let refunds = row.returns.saturating_sub(returns);
    Standing {
        centre: resets.saturating_sub(refunds),
        in_flight,
    }
}

// With the ruling on this request in flight, which was granted with this amount.
#[tactic(auto, unfolding(ledger_terms::specs::Requests::request_in, ledger_terms::specs::Sums::adds, ledger_terms::specs::Sums::takes, bench_base::specs::Kinds::same_kind))]
fn standing_in_flight(row: &DeviceRow, verdict: Verdict, note: &Note, amount: u64) -> Standing
    ensures { result ≡ act_of.standing_by row.now
        (Some (record { 0 = verdict; 1 = record (request_in note.now) { amount = amount } })) }
{
    match read_message(note.as_slice()) {
        Ok(Message::Request(request)) => {
            let granted = Request { amount, ..request };
            standing_without(
                row,
                adds(verdict, &granted),
                takes(verdict, &granted),
                Some((granted.kind, granted_amount(verdict, amount))),
            )
        }
        _ => standing_without(
            row,
            0,
            0,
            Some((Kind::Audit, granted_amount(verdict, amount))),
        ),
    }
}

// With the last ruling in flight. Its verdict and its amount are those of the reply.
#[tactic(auto, unfolding(crate::specs::Standing::granted_in))]
fn standing_unsettled(row: &DeviceRow) -> Standing
    ensures { result ≡ act_of.standing_by row.now (stands.granted_in row.now) }
{
    match read_message(row.reply.as_slice()) {
        Ok(Message::Reply(reply)) => {
            standing_in_flight(row, reply.verdict, &row.request, reply.amount)
        }
        _ => standing_without(row, 0, 0, None),
    }
}

/// What the centre holds of the device of this row.
pub fn standing_of(row: &DeviceRow) -> Standing
    ensures { result ≡ act_of.standing_of row.now }
{
    if row.settled < row.ruled {
        standing_unsettled(row)
    } else {
        standing_without(row, 0, 0, None)
    }
}
