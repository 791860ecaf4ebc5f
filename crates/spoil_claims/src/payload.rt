//! A claim as the 73 bytes that are kept in storage.
ghost use Rattle.std.specs.Prelude.{◌≡◌, ◌++◌, ◌≤◌, ◌+◌, IfSome, IfNone, length, take, drop};
ghost use Rattle.bench_base.specs.Table.{Fit, values};
ghost use Rattle.spoil_claims.specs.Payload.{AreClaim, claim_table, claim_from};
ghost use Rattle.spoil_claims.specs.Payload as layout;
ghost use Rattle.spoil_claims.specs.Claims as claims;

use crate::claim::ClaimRow;
use bench_base::fields::{put_u32, u32_at};
use bench_base::numbers::Customer;
use indicium::read_indicium;
use nv_store::{Room, get_room};
use row_store::Rows;

/// The rows of `claims.nv`.
pub struct ClaimRows;

fn mark_in(payload: &[u8; 73]) -> [u8; 64]
    ensures { result ≡ drop 9 payload.now }
{
    let mut mark = [0; 64];
    mark.copy_from_slice(&payload[9..]);
    mark
}

// Claim, customer and state.
#[tactic(auto, unfolding(bench_base::specs::Table::number))]
fn head_in(payload: &[u8; 73]) -> [u32; 3]
    ensures { result ≡ values 0 claim_table payload.now }
{
    [
        u32_at(payload, 0),
        u32_at(payload, 4),
        u32::from(payload[8]),
    ]
}

// The claim of a cell that these numbers and this mark are.
fn claim_of(cell: u32, head: &[u32; 3], mark: [u8; 64]) -> Option<ClaimRow>
    ensures found { IfSome result (λ x. AreClaim cell head.now mark × (x ≡ claim_from head.now mark)) }
    ensures none { IfNone result (AreClaim cell head.now mark → ⊥) }
{
    let (claim, state) = (head[0], head[2]);
    if u64::from(claim) != u64::from(cell) + 1 {
        return None;
    }
    let Some(customer) = Customer::new(head[1]) else {
        return None;
    };
    if state != 1 && state != 2 {
        return None;
    }
    if read_indicium(&mark).is_err() {
        return None;
    }
    Some(ClaimRow {
        claim,
        customer,
        credited: state == 2,
        mark,
    })
}

#[tactic(auto, unfolding(bench_base::specs::Table::spelled, crate::specs::Payload::head_part))]
fn head_bytes(row: &ClaimRow) -> [u8; 9]
    ensures value { result ≡ layout.head_part row.now }
    ensures fits { Fit claim_table (layout.head row.now) }
{
    let mut bytes = [0; 9];
    let claim = row.claim;
    put_u32(&mut bytes, 0, claim);
    put_u32(&mut bytes, 4, row.customer.get());
    bytes[8] = if row.credited { 2 } else { 1 };
    bytes
}

// Writes a part at its place; all other bytes stay.
fn put(bytes: &mut [u8; 73], at: usize, part: &[u8])
    requires { at + length part.now ≤ 73 }
    ensures { bytes.new ≡ take at bytes.old ++ (part.now ++ drop (at + length part.now) bytes.old) }
{
    bytes[at..at + part.len()].copy_from_slice(part);
}

// Two parts at their places.
fn joined(head: &[u8; 9], mark: &[u8; 64]) -> [u8; 73]
    ensures { result ≡ head.now ++ mark.now }
{
    let mut bytes = [0; 73];
    put(&mut bytes, 0, head);
    put(&mut bytes, 9, mark);
    bytes
}

impl Rows<73> for ClaimRows {
    type Row = ClaimRow;

    ghost decoded = { layout.decoded };

    ghost spelled = { layout.spelled };

    ghost IsFit = { layout.IsFit };

    ghost IsSound = { claims.HasNoGaps };

    fn read(cell: u32, payload: &[u8; 73]) -> Option<ClaimRow> {
        let head = head_in(payload);
        claim_of(cell, &head, mark_in(payload))
    }

    fn write(_cell: u32, kept: &ClaimRow) -> [u8; 73] {
        let mark = kept.mark;
        joined(&head_bytes(kept), &mark)
    }

    fn agree(room: &Room<73>, cells: u32) -> bool {
        for cell in 1..cells {
            if get_room(room, cell).is_some() && get_room(room, cell - 1).is_none() {
                return false;
            }
        }
        true
    }
}
