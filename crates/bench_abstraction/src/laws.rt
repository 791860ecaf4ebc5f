//! The laws, each as a contract of a function that takes and answers nothing.
ghost use Rattle.psd_state.specs.Seen as device;
ghost use Rattle.centre_ledger.specs.Seen as centre;
ghost use Rattle.host_jobs.specs.Seen as host;
ghost use Rattle.verifier.specs.Seen as verifier;
ghost use Rattle.bench_abstraction.specs.Devices as devices;
ghost use Rattle.bench_abstraction.specs.Follows.{DevicesFollow, CentreFollows, HostFollows, VerifierFollows, OthersAreQuiet};
ghost use Rattle.bench_abstraction.specs.Kinds.{bench_kinds};

use centre_ledger::acts_follow_the_commits;
use host_jobs::{acts_follow_the_commits as acts_of_host, cells_follow_the_commits};
use ledger_laws::laws::{counts, histories, orders, withdrawals};
use psd_state::record_follows_the_commits;
use verifier::acts_follow_the_commits as acts_of_verifier;

/// An event of the host does what the host alone would do, and changes it alone: see `Follows`.
pub fn host_follows()
    ensures { HostFollows host.counting bench_kinds host.IsKnown }
{
    histories();
    orders();
    counts();
    acts_of_host();
    cells_follow_the_commits();
}

/// An event of the verifier does what the verifier alone would do, and changes it alone: see `Follows`.
pub fn verifier_follows()
    ensures { VerifierFollows verifier.counting bench_kinds verifier.IsKnown }
{
    histories();
    orders();
    counts();
    acts_of_verifier();
}

/// An event of a node does what the node alone would do, and changes that node alone: see `Follows`. One of no node is answered by
/// what is seen of the nodes, and changes none.
pub fn nodes_follow()
    ensures devices { DevicesFollow device.counting bench_kinds devices.IsKnown }
    ensures centre { CentreFollows centre.counting bench_kinds centre.IsKnown }
    ensures quiet { OthersAreQuiet bench_kinds centre.IsKnown }
{
    histories();
    orders();
    counts();
    withdrawals();
    record_follows_the_commits();
    acts_follow_the_commits();
}
