//! What a call of a node does, said, without storage.
ghost use Rattle.std.specs.Prelude.{◌≡◌};
ghost use Rattle.node_acts.specs.Said.{saying};

use bench_base::events::Reply;
use node_acts::{Act, Call, Callee, Said};

/// What a call does by the record that it is asked of, with what the node says of it. For each call it stays a function of its own when it is compiled.
#[inline(never)]
pub fn said_act<E: Callee, R, X: Copy, C: Call<E, R, X>>(
    callee: &E,
    call: &C,
    held: &R,
) -> Act<X, Reply, Said>
    ensures { result ≡ saying (E.refuses callee.now) (C.says call.now callee.now) (C.does call.now callee.now held.now) }
{
    match &call.act(callee, held) {
        Act::Refuse(refusal) => Act::Refuse(callee.refusal(*refusal)),
        Act::Tell(answer) => Act::Tell(call.answer(callee, answer)),
        Act::Commits(commit, change, answer) => {
            Act::Commits(*commit, *change, call.answer(callee, answer))
        }
    }
}
