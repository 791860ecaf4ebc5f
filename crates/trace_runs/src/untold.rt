//! A turn of which nothing is reported.
use bench_base::events::Reply;
use bench_base::ledger::{Commit, Entry};
use node_acts::Said;
use node_turns::Tell;

/// Reports nothing of a turn, for a caller that asks only whether an answer may come.
#[derive(Clone, Copy)]
pub(crate) struct Untold;

impl Tell for Untold {
    ghost IsOf = { λ told turn. Unit {0} };

    fn silent(_reply: Reply) -> Untold {
        Untold
    }

    fn one(_reply: Reply, _entry: Entry) -> Untold {
        Untold
    }

    fn done(_commit: Option<Commit>, _said: &Said) -> Untold {
        Untold
    }
}
