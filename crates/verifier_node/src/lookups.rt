//! What the verifier decides in a call, by its rows.
ghost use Rattle.std.specs.Prelude.{◌≡◌};
ghost use Rattle.bench_base.specs.Ranges.{IsDevice};
ghost use Rattle.row_node.specs.NodeView.{seen_in};
ghost use Rattle.verifier.specs.Acts as act_of;
ghost use Rattle.verifier.specs.Seen.{key_at, spot_in};

use crate::cells::{key_of, scan_of};
use crate::rows::VerifierRows;
use bench_base::numbers::{DayNo, DevNo};
use bench_base::refusals::ScanRefusal;
use bench_base::sizes::{BLOCK_PIECES, FIRST_BLOCK};
use bench_base::words::Key;
use hmac_core::ReadyKey;
use indicium::{Mark, read_indicium};
use node_acts::Act;
use nv_model::Nv;
use row_node::RowNode;
use verifier::{Accepted, ScanAct, Spot, scan_act, trust_act};

// The spot where a piece of a device is looked up, by one search.
fn spot<N: Nv>(node: &RowNode<N, VerifierRows>, device: u32, piece: u32) -> Spot
    ensures { result ≡ spot_in (seen_in node.now) device piece }
{
    let index = &node.rows().index;
    match index.find(device, piece / BLOCK_PIECES) {
        Some(cell) => {
            let accepted = scan_of(node.cells(), cell, piece % BLOCK_PIECES);
            Spot { cell, accepted }
        }
        None => Spot {
            cell: FIRST_BLOCK + index.len() as u32,
            accepted: None,
        },
    }
}

/// Trusts marks of the device under the key: see `trust_act`.
pub fn trusting<N: Nv>(node: &RowNode<N, VerifierRows>, device: DevNo, key: &Key) -> ScanAct<()>
    ensures act { result ≡ act_of.trust_act device key.now (seen_in node.now) }
    ensures number { IsDevice device }
{
    let known = key_of(node.cells(), device.get()).is_some();
    trust_act(device, key, known)
}

/// Scans bytes under this number: see `scan_act`. `Unread`, before its refusals, with the fault of `read_indicium`.
pub fn scanning<N: Nv>(
    node: &RowNode<N, VerifierRows>,
    number: u32,
    bytes: &[u8],
    today: DayNo,
) -> ScanAct<Accepted>
    ensures { result ≡ act_of.scan_act number bytes.now today (seen_in node.now) }
{
    match read_indicium(bytes) {
        Err(fault) => Act::Refuse(ScanRefusal::Unread(fault)),
        Ok((mark, _)) => {
            let spot = spot(node, mark.device, mark.piece);
            scan_marked(node, number, bytes, &mark, today, spot)
        }
    }
}

// Scans a mark that was read, under the key of its device.
fn scan_marked<N: Nv>(
    node: &RowNode<N, VerifierRows>,
    number: u32,
    bytes: &[u8],
    mark: &Mark,
    today: DayNo,
    spot: Spot,
) -> ScanAct<Accepted>
    ensures { result ≡ act_of.marked_act number bytes.now mark.now today (key_at (seen_in node.now) mark.now.device) spot }
{
    let Some(key) = key_of(node.cells(), mark.device) else {
        return scan_act(number, bytes, mark, today, None, spot);
    };
    match node.rows().keys.find(mark.device, &key) {
        Some(ready) => scan_act(number, bytes, mark, today, Some(ready), spot),
        None => {
            let ready = ReadyKey::new(&key);
            scan_act(number, bytes, mark, today, Some(&ready), spot)
        }
    }
}
