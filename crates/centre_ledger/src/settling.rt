//! What a Done and a deposit make of a row.
ghost use Rattle.std.specs.Prelude.{◌≡◌, IfOk, IfSome};
ghost use Rattle.centre_ledger.specs.Answers.{settle_answer, deposit_answer, turn_answer};
ghost use Rattle.centre_ledger.specs.Rows.{settled_row, deposited_row};
ghost use Rattle.centre_ledger.specs.Soundness.{IsSoundDevice, IsSoundCustomer};

use crate::rows::{CustomerRow, DeviceRow};
use bench_base::refusals::CentreRefusal;

/// The most that may be deposited at once, in mills.
pub const DEPOSIT_LIMIT: u32 = 1_000_000_000;

/// The most that the deposits of a customer may come to, in mills.
pub const DEPOSITS_LIMIT: u64 = 1_000_000_000_000_000;

/// The row after the transaction of this number is done; None where it was settled already.
///
/// `Ahead`, with the greatest number that was ruled on, if and only if the number is above that.
pub fn settled(row: &DeviceRow, number: u32) -> Result<Option<DeviceRow>, CentreRefusal>
    requires sound { IsSoundDevice row.now }
    ensures exact { result ≡ settled_row row.now (settle_answer row.now.settled row.now.ruled number) }
    ensures sound { IfOk result (λ o. IfSome o IsSoundDevice) }
{
    if number <= row.settled {
        return Ok(None);
    }
    if number != row.ruled {
        return Err(CentreRefusal::Ahead(row.ruled));
    }
    Ok(Some(DeviceRow {
        settled: number,
        ..*row
    }))
}

/// The row after the deposit of this receipt and amount, in mills; None if it is the last one again.
///
/// The first refusal that holds is answered:
///
/// 1. `Conflict`, with the amount kept, if the receipt is the last one, from 1 on, with another amount.
/// 2. `WrongReceipt`, with the last one, if the receipt isn't the one after the last.
/// 3. `BadAmount` if the amount is 0 or above 1,000,000,000.
/// 4. `DepositsFull`, with the deposits so far, if they would pass 10^15.
pub fn deposited(
    row: &CustomerRow,
    receipt: u32,
    amount: u32,
) -> Result<Option<CustomerRow>, CentreRefusal>
    requires sound { IsSoundCustomer row.now }
    ensures exact { result ≡ deposited_row row.now receipt amount (deposit_answer (row.now.receipt, row.now.amount) row.now.deposits receipt amount) }
    ensures sound { IfOk result (λ o. IfSome o IsSoundCustomer) }
{
    if receipt == row.receipt && receipt > 0 {
        if amount == row.amount {
            return Ok(None);
        }
        return Err(CentreRefusal::Conflict(row.amount));
    }
    if u64::from(receipt) != u64::from(row.receipt) + 1 {
        return Err(CentreRefusal::WrongReceipt(row.receipt));
    }
    if amount == 0 || amount > DEPOSIT_LIMIT {
        return Err(CentreRefusal::BadAmount(amount));
    }
    let deposits = row.deposits + u64::from(amount);
    if deposits > DEPOSITS_LIMIT {
        return Err(CentreRefusal::DepositsFull(row.deposits));
    }
    Ok(Some(CustomerRow {
        deposits,
        receipt,
        amount,
        ..*row
    }))
}

/// Whether the bytes of a request of this number are those of the last one again; if not, they are to be ruled.
///
/// The first refusal that holds is answered, with the greatest number that was ruled on:
///
/// 1. `Old` for a number below it and for 0.
/// 2. `Changed` for that number with other bytes.
/// 3. `Ahead` for a number above the next one.
pub fn is_repeat(row: &DeviceRow, number: u32, bytes: &[u8]) -> Result<bool, CentreRefusal>
    ensures exact { result ≡ turn_answer row.now.ruled row.now.request number bytes.now }
{
    if number < row.ruled || number == 0 {
        return Err(CentreRefusal::Old(row.ruled));
    }
    if number == row.ruled {
        if row.request.as_slice() == bytes {
            return Ok(true);
        }
        return Err(CentreRefusal::Changed(row.ruled));
    }
    if number - row.ruled > 1 {
        return Err(CentreRefusal::Ahead(row.ruled));
    }
    Ok(false)
}
