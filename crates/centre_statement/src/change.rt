//! What a commit of the centre changes of a customer's money.
ghost use Rattle.std.specs.Prelude.{◌≡◌};
ghost use Rattle.ledger_terms.specs.Requests.{request_in};
ghost use Rattle.centre_statement.specs.Changes.{change_in, change_of, granted_change, left_after};

use bench_base::ledger::Commit;
use bench_base::numbers::{Customer, DevNo};
use bench_base::words::{Kind, Verdict};
use psd_wire::{Message, Request, read_message};
use statement_check::Cause;

/// A change of a customer's money, in mills.
#[derive(Clone, Copy)]
pub struct Change {
    pub cause: Cause,
    pub amount: u64,
}

// What a granted ruling on this request changes.
fn change_of(device: DevNo, number: u32, request: &Request) -> Option<Change>
    ensures { result ≡ change_of request.now.kind device number request.now.amount }
{
    let cause = match request.kind {
        Kind::Enrol | Kind::Audit => return None,
        Kind::Reset => Cause::Reset(device, number),
        Kind::Refund => Cause::Refund(device, number),
        Kind::Withdraw => Cause::Withdraw(device, number),
    };
    Some(Change {
        cause,
        amount: request.amount,
    })
}

// What a granted ruling changes of this customer's money; its note is the request.
#[tactic(auto, unfolding(ledger_terms::specs::Requests::request_in))]
fn granted_change(device: DevNo, number: u32, note: &[u8], customer: Customer) -> Option<Change>
    ensures { result ≡ granted_change device number (request_in note.now) customer }
{
    match read_message(note) {
        Ok(Message::Request(request)) => {
            if request.customer == customer.get() {
                return change_of(device, number, &request);
            }
            None
        }
        Ok(Message::Reply(_) | Message::Done(_) | Message::Debit(_) | Message::Release(_)) => None,
        Err(_) => None,
    }
}

/// What a commit that counts changes of this customer's money: a deposit, or a granted ruling on a request of the customer's for a reset, a refund or a
/// withdrawal.
pub fn change_in(commit: &Commit, customer: Customer) -> Option<Change>
    ensures { result ≡ change_in commit.now customer }
{
    match commit {
        Commit::Deposited {
            customer: who,
            receipt,
            amount,
        } if *who == customer => Some(Change {
            cause: Cause::Deposit(*receipt),
            amount: u64::from(*amount),
        }),
        Commit::Ruled {
            device,
            number,
            verdict: Verdict::Granted,
            request: note,
        } => { granted_change(*device, *number, note.as_slice(), customer) }
        _ => None,
    }
}

/// The balance after a change, by the balance before it. It stays within 64 bits.
pub fn left_after(before: u64, change: &Change) -> u64
    ensures { result ≡ left_after before change.now.cause change.now.amount }
{
    match change.cause {
        Cause::Deposit(_) => before.saturating_add(change.amount),
        Cause::Reset(_, _) => before.saturating_sub(change.amount),
        Cause::Refund(_, _) => before.saturating_add(change.amount),
        Cause::Withdraw(_, _) => before.saturating_add(change.amount),
    }
}
