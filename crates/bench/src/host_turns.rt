//! The calls of the host, and what the printer takes in them.
use crate::node_turn::Turns;
use bench_abstraction::HostCall;
use bench_base::numbers::DayNo;
use bench_base::stream::Sink;
use call_handlers::HostCallee;
use host_node::HostNode;
use node_storage::Node;
use node_turns::{Tell, call_printing};
use nv_model::Fuse;

impl<'a, M: Fuse + Drop, T: Tell, P: Sink> Turns<HostCall<'a>, T, P> for HostNode<M> {
    ghost use Rattle.bench_base.specs.declared.words.Node.TheVariants as node;
    ghost use Rattle.node_acts.specs.declared.asked.Asked.TheVariants.{Call};
    ghost use Rattle.bench_abstraction.specs.Host as views;
    ghost use Rattle.bench.specs.Calls as calls;

    ghost IsRanged = { λ c. calls.IsRangedJob c };

    ghost IsBytes = { λ c. Unit {0} };

    ghost CameTo = { λ d today c s t p q told. calls.Told ⟦<HostNode<M> as Node>⟧ M.Nv M.Fuse.own views.host_kind node.Host tt today
        (calls.host_call_event c) (Call c) (T.IsOf told) s t p q };

    fn called(&mut self, _number: (), _day: DayNo, asked: &HostCall<'a>, printer: &mut P) -> T {
        let callee = HostCallee;
        match asked {
            HostCall::Order(call) => call_printing(self, &callee, call, printer),
            HostCall::Send(call) => call_printing(self, &callee, call, printer),
            HostCall::Print(call) => call_printing(self, &callee, call, printer),
            HostCall::Close(call) => call_printing(self, &callee, call, printer),
            HostCall::Take(call) => call_printing(self, &callee, call, printer),
        }
    }
}
