//! How what a device holds compares with what the centre says of it. Sums are in mills.
ghost use Rattle.std.specs.Prelude.{◌≡◌};
ghost use Rattle.bench_abstraction.specs.Comparing as compares;

use bench_base::events::Reply;
use bench_base::numbers::DevNo;
use bench_base::refusals::DevRefusal;
use centre_ledger::{CentreAct, Standing};
use node_acts::Act;
use psd_state::DeviceState;

fn stood(device: DevNo, held: u64, act: CentreAct<Standing>) -> Reply
    ensures { result ≡ compares.stood device held act }
{
    match act {
        Act::Refuse(refusal) => Reply::CentreRefused(refusal),
        Act::Tell(standing) | Act::Commits(_, _, standing) => {
            Reply::Reconciled {
                device,
                held,
                centre: standing.centre,
                in_flight: standing.in_flight,
            }
        }
    }
}

/// What a device of this record holds beside what the centre says of it.
pub fn compared(device: DevNo, state: &DeviceState, act: CentreAct<Standing>) -> Reply
    ensures { result ≡ compares.compared device state.now act }
{
    match state {
        Some(kept) => stood(device, kept.record().held(), act),
        None => Reply::DevRefused {
            device,
            refusal: DevRefusal::Blank,
        },
    }
}
