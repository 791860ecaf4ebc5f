//! A node in its place on the bench: it is switched on and off, does its calls, and has its fuse armed.
ghost use Rattle.std.specs.Prelude.{◌≡◌, true};
ghost use Rattle.node_acts.specs.declared.act.Act.{Act};
ghost use Rattle.node_storage.specs.Calls.{CallDoes, Wrote};
ghost use Rattle.node_storage.specs.Shown.{CanCommit};
ghost use Rattle.node_storage.specs.Starts.{StartDoes, StopDoes, ArmDoes};

use crate::node::{Arms, Node};
use bench_base::refusals::{BootFail, StoreFail};
use node_acts::{Act, Outcome, Started};
use nv_model::NvFail;

/// Switches the node on, as `number` of its kind: its storage is restarted, and it boots from that. Nothing is written.
pub fn start<K: Node>(node: &mut K, number: K::Name) -> Started
    ensures { StartDoes K.Node K.Storage.Nv number node.old node.new result }
{
    if node.is_on() {
        return Started::Already;
    }
    match node.restart() {
        Err(NvFail::Power) => Started::Power,
        Err(NvFail::Fault) => Started::Fault,
        Ok(()) => match node.boot(number) {
            Ok(()) => Started::Up(node.commits()),
            Err(BootFail::Power) => Started::Power,
            Err(BootFail::Fault) => Started::Fault,
            Err(BootFail::Damaged) => Started::Damaged,
        },
    }
}

/// Switches the node off: whether it was on. Nothing is written.
pub fn stop<K: Node>(node: &mut K) -> bool
    ensures { StopDoes K.Node K.Storage.Nv node.old node.new result }
{
    if !node.is_on() {
        return false;
    }
    node.shut();
    true
}

/// Does what a call of the node decided on. The record of a node that is on can take what is committed. If a commit fails,
/// its node is switched off.
#[inline(always)]
pub fn perform<K: Node, F: Copy, A: Copy>(node: &mut K, act: &Act<K::Change, F, A>) -> Outcome<F, A>
    requires fits { K.Node.is_on node.old ≡ true → CanCommit K.Node (K.Node.seen node.old) act.now }
    ensures did { (by : K.Node.Seen → Act K.Change F A) → by (K.Node.seen node.old) ≡ act.now
        → CallDoes K.Node K.Storage.Nv by node.old node.new result }
    ensures wrote { Wrote K.Node K.Storage.Nv act.now node.old node.new result }
{
    if !node.is_on() {
        return Outcome::Off;
    }
    match act {
        Act::Refuse(refusal) => Outcome::Refused(*refusal),
        Act::Tell(answer) => Outcome::Done(*answer),
        Act::Commits(commit, change, answer) => match node.commit(change) {
            Ok(()) => Outcome::Done(*answer),
            Err(StoreFail::Worn) => Outcome::Worn,
            Err(StoreFail::Failed) => unreachable!(),
            Err(StoreFail::Power) => Outcome::Power(*commit),
            Err(StoreFail::Fault) => Outcome::Fault(*commit),
        },
    }
}

/// Arms the fuse of the node's storage: `calls` calls of write and sync pass, and the next one burns it.
pub fn arm<K: Arms>(node: &mut K, calls: u32, keep: u32, byte: u8)
    ensures { ArmDoes K.Node K.Storage.Nv K.fuse calls keep byte node.old node.new }
{
    node.arm(calls, keep, byte);
}
