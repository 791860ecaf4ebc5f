//! A customer's row as the 192 bytes that are kept in storage.
ghost use Rattle.std.specs.Prelude.{◌≡◌, IfSome, IfNone};
ghost use Rattle.bench_base.specs.Table.{Fit};
ghost use Rattle.centre_ledger.specs.declared.rows.CustomerRow.{CustomerRow as TheRow};
ghost use Rattle.centre_ledger.specs.Soundness.{IsSoundCustomer};
ghost use Rattle.centre_ledger.specs.Payload.{CustomerReadsAs, customer_bytes, customer_part, customer_table, customer_values};

use crate::page::{is_zero, put};
use crate::rows::CustomerRow;
use crate::soundness::is_sound_customer;
use bench_base::fields::{put_u32, put_u64, u32_at, u64_at};
use bench_base::numbers::Customer;

impl CustomerRow {
    /// The row's one spelling.
    pub fn write_payload(&self) -> [u8; 192]
        requires { IsSoundCustomer self.now }
        ensures value { result ≡ customer_bytes self.now }
        ensures reads { CustomerReadsAs result self.now }
    {
        let mut bytes = [0; 192];
        put(&mut bytes, 0, &part_bytes(self));
        bytes
    }

    /// The row of this customer that the bytes read as; None if and only if they read as none.
    pub fn read_payload(customer: Customer, payload: &[u8; 192]) -> Option<CustomerRow>
        ensures found { IfSome result (λ r. (r.customer ≡ customer) × CustomerReadsAs payload.now r) }
        ensures none { IfNone result ((r : TheRow) → r.customer ≡ customer → CustomerReadsAs payload.now r → ⊥) }
    {
        if u32_at(payload, 0) != customer.get() {
            return None;
        }
        if payload[4] > 1 {
            return None;
        }
        if !is_zero(&payload[21..192]) {
            return None;
        }
        let row = CustomerRow {
            customer,
            suspended: payload[4] == 1,
            deposits: u64_at(payload, 5),
            receipt: u32_at(payload, 13),
            amount: u32_at(payload, 17),
        };
        if is_sound_customer(&row) {
            Some(row)
        } else {
            None
        }
    }
}

#[tactic(auto, unfolding(bench_base::specs::Table::spelled, crate::specs::Payload::customer_part))]
fn part_bytes(row: &CustomerRow) -> [u8; 21]
    ensures value { result ≡ customer_part row.now }
    ensures fits { Fit customer_table (customer_values row.now) }
{
    let mut bytes = [0; 21];
    let (deposits, receipt, amount) = (row.deposits, row.receipt, row.amount);
    put_u32(&mut bytes, 0, row.customer.get());
    bytes[4] = u8::from(row.suspended);
    put_u64(&mut bytes, 5, deposits);
    put_u32(&mut bytes, 13, receipt);
    put_u32(&mut bytes, 17, amount);
    bytes
}
