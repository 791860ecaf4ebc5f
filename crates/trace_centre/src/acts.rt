//! What the centre does in a call, and what it says of it: by its rows alone.
ghost use Rattle.std.specs.Prelude.{◌≡◌};
ghost use Rattle.centre_ledger.specs.Seen.{books_in};
ghost use Rattle.bench_abstraction.specs.Centre as views;
ghost use Rattle.trace_centre.specs.Cells.{cells_of};
ghost use Rattle.trace_centre.specs.Placed.{PlacesAct};

use crate::record::{CentreRecord, cell_of};
use bench_abstraction::CentreCall;
use bench_base::events::Reply;
use call_handlers::CentreCallee;
use centre_ledger::Row;
use node_acts::{Act, Said};
use trace_nodes::said_act;

type SaidAct = Act<Row, Reply, Said>;

/// What a call of the centre does by its rows, with what the centre says of it.
pub fn centre_act(call: &CentreCall, books: &CentreRecord) -> SaidAct
    ensures { result ≡ views.centre_act call.now (books_in (cells_of books.now)) }
{
    let callee = CentreCallee;
    match call {
        CentreCall::Register(call) => said_act(&callee, call, books),
        CentreCall::Open(call) => said_act(&callee, call, books),
        CentreCall::Deposit(call) => said_act(&callee, call, books),
        CentreCall::Flag(call) => said_act(&callee, call, books),
        CentreCall::Balance(call) => said_act(&callee, call, books),
        CentreCall::Take(call) => said_act(&callee, call, books),
    }
}

/// The row that an act commits has a cell.
pub fn places_act(act: &SaidAct)
    ensures { PlacesAct act.now }
{
    if let Act::Commits(_, row, _) = act {
        let _cell = cell_of(row);
    }
}
