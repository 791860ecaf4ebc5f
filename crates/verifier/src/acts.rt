//! What the verifier does in a call, decided by what is found in its rows. Days are since 1970-01-01.
ghost use Rattle.std.specs.Prelude.{◌≡◌};
ghost use Rattle.std.specs.Option.{ForSome, option_copied};
ghost use Rattle.bench_base.specs.Ranges.{IsDevice};
ghost use Rattle.verifier.specs.Acts as act_of;

use crate::scans::scan;
use bench_base::ledger::Commit;
use bench_base::numbers::{DayNo, DevNo};
use bench_base::refusals::ScanRefusal;
use bench_base::sizes::{BLOCK_PIECES, VERIFIER_CELLS};
use bench_base::words::Key;
use hmac_core::ReadyKey;
use indicium::Mark;
use node_acts::Act;
use psd_wire::is_own_code;

/// What a call of the verifier does.
pub type ScanAct<A> = Act<Change, ScanRefusal, A>;

/// What a commit changes of the rows.
#[derive(Clone, Copy)]
pub enum Change {
    /// Marks of the device are trusted under the key.
    Trust(DevNo, Key),
    /// The cell holds this block of the device, and the piece at this place is accepted under the scan number.
    Accept {
        cell: u32,
        device: DevNo,
        block: u32,
        place: u32,
        scan: u32,
    },
}

/// What is found of a piece.
#[derive(Clone, Copy)]
pub struct Spot {
    /// The cell of its block, or the next cell where that block is not in use.
    pub cell: u32,
    /// The scan under which the piece was accepted.
    pub accepted: Option<u32>,
}

/// A piece that was scanned and is good, and whether it was accepted before under the same scan number.
#[derive(Clone, Copy)]
pub struct Accepted {
    pub device: DevNo,
    pub piece: u32,
    pub again: bool,
}

/// Trusts marks of the device under the key. `Known` if and only if they are trusted.
pub fn trust_act(device: DevNo, key: &Key, known: bool) -> ScanAct<()>
    ensures { result ≡ act_of.trusted_act device key.now known }
{
    if known {
        Act::Refuse(ScanRefusal::Known)
    } else {
        Act::Commits(
            Commit::Trusted { device, key: *key },
            Change::Trust(device, *key),
            (),
        )
    }
}

// A mark of a trusted device, with its code.
fn spot_act(number: u32, device: DevNo, mark: &Mark, today: DayNo, spot: Spot) -> ScanAct<Accepted>
    requires { mark.now.device ≡ device }
    ensures { result ≡ act_of.spot_act number mark.now today spot }
{
    let piece = mark.piece;
    let full = spot.cell >= VERIFIER_CELLS;
    match scan(number, mark.day, today, full, spot.accepted) {
        Err(refusal) => Act::Refuse(refusal),
        Ok(true) => Act::Tell(Accepted {
            device,
            piece,
            again: true,
        }),
        Ok(false) => Act::Commits(
            Commit::Accepted {
                device,
                piece,
                scan: number,
            },
            Change::Accept {
                cell: spot.cell,
                device,
                block: piece / BLOCK_PIECES,
                place: piece % BLOCK_PIECES,
                scan: number,
            },
            Accepted {
                device,
                piece,
                again: false,
            },
        ),
    }
}

/// Scans the bytes of a mark under this number. `key` is the key of the mark's device made ready, if the device is trusted, and
/// `spot` says where the mark's piece is looked up.
///
/// The first refusal that holds is returned. `Unknown`, with the device's number, if and only if the device is not trusted;
/// then `BadCode` if and only if the MAC does not match under the key; then those of `scan`. A piece that was accepted before
/// under the same number is reported without a commit.
pub fn scan_act(
    number: u32,
    bytes: &[u8],
    mark: &Mark,
    today: DayNo,
    key: Option<&ReadyKey>,
    spot: Spot,
) -> ScanAct<Accepted>
    requires { ForSome (option_copied key) (λ k. IsDevice mark.now.device) }
    ensures { result ≡ act_of.marked_act number bytes.now mark.now today (option_copied key.entry) spot }
{
    let Some(key) = key else {
        return Act::Refuse(ScanRefusal::Unknown(mark.device));
    };
    let Some(device) = DevNo::new(mark.device) else {
        unreachable!();
    };
    if !is_own_code(bytes, key) {
        return Act::Refuse(ScanRefusal::BadCode);
    }
    spot_act(number, device, mark, today, spot)
}
