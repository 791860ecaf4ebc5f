//! The calls of the centre.
use crate::node_turn::Turns;
use bench_abstraction::CentreCall;
use bench_base::numbers::DayNo;
use bench_base::stream::Sink;
use call_handlers::{CentreCallee, hands_bytes};
use centre_protocol::CentreNode;
use node_storage::Node;
use node_turns::{Tell, call_node};
use nv_model::Fuse;

impl<'a, M: Fuse + Drop, T: Tell, P: Sink> Turns<CentreCall<'a>, T, P> for CentreNode<M> {
    ghost use Rattle.bench_base.specs.declared.words.Node.TheVariants as node;
    ghost use Rattle.node_acts.specs.declared.asked.Asked.TheVariants.{Call};
    ghost use Rattle.bench_abstraction.specs.Centre as views;
    ghost use Rattle.bench.specs.Calls as calls;

    ghost IsRanged = { λ c. calls.IsRangedCall c };

    ghost IsBytes = { λ c. views.IsBytesCall c };

    ghost CameTo = { λ d today c s t p q told. calls.Told ⟦<CentreNode<M> as Node>⟧ M.Nv M.Fuse.own views.centre_kind node.Centre tt today
        (calls.centre_call_event c) (Call c) (T.IsOf told) s t p q };

    fn called(&mut self, _number: (), _day: DayNo, asked: &CentreCall<'a>, _printer: &mut P) -> T {
        hands_bytes(asked);
        let callee = CentreCallee;
        match asked {
            CentreCall::Register(call) => call_node(self, &callee, call),
            CentreCall::Open(call) => call_node(self, &callee, call),
            CentreCall::Deposit(call) => call_node(self, &callee, call),
            CentreCall::Flag(call) => call_node(self, &callee, call),
            CentreCall::Balance(call) => call_node(self, &callee, call),
            CentreCall::Take(call) => call_node(self, &callee, call),
        }
    }
}
