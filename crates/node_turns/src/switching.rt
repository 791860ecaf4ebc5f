//! A node that is switched on or off, or has its fuse armed, and how that is reported.
ghost use Rattle.std.specs.Prelude.{Bool, []};
ghost use Rattle.bench_base.specs.declared.events.Reply.{Reply};
ghost use Rattle.node_acts.specs.declared.act.Started.{Started};
ghost use Rattle.node_storage.specs.Starts.{StartDoes, StopDoes, ArmDoes};
ghost use Rattle.node_turns.specs.Turns as turns;

use crate::tell::Tell;
use bench_base::events::Reply;
use bench_base::ledger::Entry;
use bench_base::words::Node as NodeNo;
use node_acts::Started;
use node_storage as storage;
use node_storage::{Arms, Node};

fn started<T: Tell>(node: &NodeNo, started: Started) -> T
    ensures { T.IsOf result (turns.start_turn node.now started) }
{
    match started {
        Started::Already => T::silent(Reply::OnAlready(*node)),
        Started::Up(commits) => {
            let up = Reply::Up {
                node: *node,
                commits,
            };
            let entry = Entry::Up {
                node: *node,
                commits,
            };
            T::one(up, entry)
        }
        Started::Power => T::silent(Reply::Power(*node)),
        Started::Fault => T::silent(Reply::Fault(*node)),
        Started::Damaged => T::silent(Reply::Damaged(*node)),
    }
}

/// Switches the node on, as `number` of its kind.
pub fn start<T: Tell, K: Node>(place: &mut K, number: K::Name, node: &NodeNo) -> T
    ensures did { (x : Started) × StartDoes K.Node K.Storage.Nv number place.old place.new x × T.IsOf result (turns.start_turn node.now x) }
{
    let came = storage::start(place, number);
    started(node, came)
}

/// Switches the node off.
pub fn stop<T: Tell, K: Node>(place: &mut K, node: &NodeNo) -> T
    ensures did { (was : Bool) × StopDoes K.Node K.Storage.Nv place.old place.new was × T.IsOf result (turns.stop_turn node.now was) }
{
    if storage::stop(place) {
        T::one(Reply::Down(*node), Entry::Down(*node))
    } else {
        T::silent(Reply::OffNode(*node))
    }
}

/// Arms the fuse of the node's storage.
pub fn cut<T: Tell, K: Arms>(place: &mut K, node: &NodeNo, calls: u32, keep: u32, byte: u8) -> T
    ensures did { ArmDoes K.Node K.Storage.Nv K.fuse calls keep byte place.old place.new × T.IsOf result (turns.turn_of (Reply.CutSet node.now) []) }
{
    storage::arm(place, calls, keep, byte);
    T::silent(Reply::CutSet(*node))
}
