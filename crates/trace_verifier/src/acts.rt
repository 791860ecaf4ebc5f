//! What the verifier does in a call, and what it says of it: by its rows alone.
ghost use Rattle.std.specs.Prelude.{◌≡◌};
ghost use Rattle.bench_abstraction.specs.Verifier as views;
ghost use Rattle.trace_verifier.specs.Cells.{cells_of};

use crate::record::ScanRecord;
use bench_abstraction::VerifierCall;
use bench_base::events::Reply;
use bench_base::numbers::DayNo;
use call_handlers::VerifierCallee;
use node_acts::{Act, Said};
use trace_nodes::said_act;
use verifier::Change;

/// What a call of the verifier does by its rows on a day, with what the verifier says of it.
pub fn scan_said(call: &VerifierCall, today: DayNo, rows: &ScanRecord) -> Act<Change, Reply, Said>
    ensures { result ≡ views.verifier_act today call.now (cells_of rows.now) }
{
    let callee = VerifierCallee { day: today };
    match call {
        VerifierCall::Trust(call) => said_act(&callee, call, rows),
        VerifierCall::Scan(call) => said_act(&callee, call, rows),
    }
}
