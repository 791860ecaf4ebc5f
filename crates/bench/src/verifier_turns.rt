//! The calls of the verifier.
use crate::node_turn::Turns;
use bench_abstraction::VerifierCall;
use bench_base::numbers::DayNo;
use bench_base::stream::Sink;
use call_handlers::{VerifierCallee, scans_bytes};
use node_storage::Node;
use node_turns::{Tell, call_node};
use nv_model::Fuse;
use verifier_node::VerifierNode;

impl<'a, M: Fuse + Drop, T: Tell, P: Sink> Turns<VerifierCall<'a>, T, P> for VerifierNode<M> {
    ghost use Rattle.bench_base.specs.declared.words.Node.TheVariants as node;
    ghost use Rattle.node_acts.specs.declared.asked.Asked.TheVariants.{Call};
    ghost use Rattle.bench_abstraction.specs.Verifier as views;
    ghost use Rattle.bench.specs.Calls as calls;

    ghost IsRanged = { λ c. calls.IsRangedScan c };

    ghost IsBytes = { λ c. views.IsBytesCall c };

    ghost CameTo = { λ d today c s t p q told. calls.Told ⟦<VerifierNode<M> as Node>⟧ M.Nv M.Fuse.own views.verifier_kind node.Verifier tt today
        (calls.verifier_call_event c) (Call c) (T.IsOf told) s t p q };

    fn called(&mut self, _number: (), day: DayNo, asked: &VerifierCall<'a>, _printer: &mut P) -> T {
        scans_bytes(asked);
        let callee = VerifierCallee { day };
        match asked {
            VerifierCall::Trust(call) => call_node(self, &callee, call),
            VerifierCall::Scan(call) => call_node(self, &callee, call),
        }
    }
}
