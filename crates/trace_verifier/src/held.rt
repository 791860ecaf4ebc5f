//! The row that is kept of a cell.
ghost use Rattle.std.specs.Prelude.{◌≡◌};
ghost use Rattle.std.specs.Option.{option_copied};
ghost use Rattle.node_acts.specs.RowList.{commits_at, row_of};
ghost use Rattle.verifier.specs.Payload.{no_scans as none};
ghost use Rattle.verifier.specs.Seen as seen;
ghost use Rattle.trace_verifier.specs.Helds.{seen_cell, row_held};
ghost use Rattle.trace_verifier.specs.Records.{IsPlaced, row_by};

use hmac_core::ReadyKey;
use verifier::Change;

/// The row of a cell: the key of a device, or device and number of a block with the scan of each of its pieces.
#[derive(Drop)]
pub enum Held {
    Trust(u32, ReadyKey),
    Block(u32, u32, [u32; 512]),
}

pub(crate) fn count_of(cell: &Option<(u32, Held)>) -> u32
    ensures { result ≡ commits_at (seen_cell cell.now) }
{
    match cell {
        Some((count, _)) => *count,
        None => 0,
    }
}

#[tactic(auto, unfolding(verifier::specs::Payload::no_scans))]
fn no_scans() -> [u32; 512]
    ensures { result ≡ none }
{
    [0; 512]
}

// The scan of each piece of a block.
pub(crate) fn scans_of(cell: &Option<(u32, Held)>) -> [u32; 512]
    ensures { result ≡ seen.scans_in (row_of (seen_cell cell.now)) }
{
    match cell {
        Some((_, Held::Block(_, _, scans))) => *scans,
        Some((_, Held::Trust(_, _))) => no_scans(),
        None => no_scans(),
    }
}

pub(crate) fn key_of(cell: &Option<(u32, Held)>) -> Option<&ReadyKey>
    ensures { option_copied result ≡ seen.key_in (row_of (seen_cell cell.now)) }
{
    match cell {
        Some((_, Held::Trust(_, key))) => Some(key),
        Some((_, Held::Block(_, _, _))) => None,
        None => None,
    }
}

/// The row that a change leaves in its cell, by what is kept of the row before.
pub fn held_with(cell: &Option<(u32, Held)>, change: &Change) -> Held
    requires { IsPlaced change.now }
    ensures { row_held result ≡ row_by (row_of (seen_cell cell.now)) change.now }
{
    match change {
        Change::Trust(device, key) => Held::Trust(device.get(), ReadyKey::new(key)),
        Change::Accept {
            cell: _,
            device,
            block,
            place,
            scan,
        } => {
            let mut scans = scans_of(cell);
            scans[*place as usize] = *scan;
            Held::Block(device.get(), *block, scans)
        }
    }
}
