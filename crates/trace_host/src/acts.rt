//! What the host does in a call, and what it says of it: by its jobs alone.
ghost use Rattle.std.specs.Prelude.{◌≡◌};
ghost use Rattle.host_jobs.specs.Seen.{rows_in};
ghost use Rattle.bench_abstraction.specs.Host as views;
ghost use Rattle.trace_host.specs.Cells.{cells_of};

use crate::record::HostRecord;
use bench_abstraction::HostCall;
use bench_base::events::Reply;
use call_handlers::HostCallee;
use host_jobs::JobRow;
use node_acts::{Act, Said};
use trace_nodes::said_act;

/// What a call of the host does by its jobs, with what the host says of it.
pub fn host_act(call: &HostCall, jobs: &HostRecord) -> Act<JobRow, Reply, Said>
    ensures { result ≡ views.host_act call.now (rows_in (cells_of jobs.now)) }
{
    let callee = HostCallee;
    match call {
        HostCall::Order(call) => said_act(&callee, call, jobs),
        HostCall::Send(call) => said_act(&callee, call, jobs),
        HostCall::Print(call) => said_act(&callee, call, jobs),
        HostCall::Close(call) => said_act(&callee, call, jobs),
        HostCall::Take(call) => said_act(&callee, call, jobs),
    }
}
