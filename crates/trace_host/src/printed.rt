//! The mark that a `print` prints where it is done.
ghost use Rattle.std.specs.Prelude.{◌≡◌, ℤ, []};
ghost use Rattle.bench_base.specs.declared.words.Node.TheVariants.{Host};
ghost use Rattle.bench_base.specs.Rules.{todays_rules};
ghost use Rattle.host_jobs.specs.Seen.{counting};
ghost use Rattle.ledger_moves.specs.Moves.{plan};
ghost use Rattle.node_acts.specs.declared.asked.Asked.TheVariants.{Call};
ghost use Rattle.node_acts.specs.Said.{seen_plan, tells};
ghost use Rattle.node_turns.specs.Printing.{print_of};
ghost use Rattle.trace_host.specs.Cells.{view_of};
ghost use Rattle.trace_host.specs.Records.{printing};
ghost use Rattle.trace_host.specs.Verdicts.{AtHosts, plan_in};

use crate::acts::host_act;
use crate::judge::is_known;
use crate::record::HostRecord;
use bench_abstraction::laws::host_follows;
use bench_abstraction::{HostCall, PrintCall};
use bench_base::events::Reply;
use host_jobs::{JobRow, acts_follow_the_commits};
use node_acts::{Act, GivenOut, Said};
use trace_nodes::{Record, Traced};

// The mark that is printed, where this is said.
fn mark_in(said: &Said) -> Option<[u8; 64]>
    ensures { result ≡ print_of (tells said.now) }
{
    match &said.given {
        Some(GivenOut::Printed(printed)) => Some(printed.mark),
        Some(GivenOut::Released(_)) | None => None,
    }
}

// The mark that is printed by a call of this act.
fn mark_by(traced: &Traced<HostRecord, JobRow>, act: &Act<JobRow, Reply, Said>) -> Option<[u8; 64]>
    ensures { result ≡ print_of (seen_plan counting Host (view_of traced.now) act.now).after }
{
    if !traced.on {
        return None;
    }
    match act {
        Act::Refuse(_) => None,
        Act::Tell(said) => mark_in(said),
        Act::Commits(_, change, said) => {
            if traced.record.is_worn(change) {
                None
            } else {
                mark_in(said)
            }
        }
    }
}

/// The mark that a `print` of this job prints where nothing fails; None where it is refused, or the host is off.
pub fn mark_due(traced: &Traced<HostRecord, JobRow>, job: u32) -> Option<[u8; 64]>
    ensures by_view { (today : ℤ) → print_of (plan_in today (Call (printing job)) (view_of traced.now)).after ≡ result }
    ensures by_ledger { (today : ℤ) → AtHosts today (Call (printing job)) (view_of traced.now) (λ τ H e. print_of (plan τ todays_rules H e []).after ≡ result) }
{
    host_follows();
    acts_follow_the_commits();
    is_known(&traced.record);
    let act = host_act(&HostCall::Print(PrintCall { job }), &traced.record);
    mark_by(traced, &act)
}
