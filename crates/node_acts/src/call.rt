//! A call of one node, which is asked of the node's record, wherever that lies.
ghost use Rattle.std.specs.Prelude.{◌≡◌};
ghost use Rattle.bench_base.specs.declared.events.Reply.{Reply};
ghost use Rattle.node_acts.specs.declared.act.Act.{Act};

use crate::{Act, Said};
use bench_base::events::Reply;
use bench_base::words::Node as NodeNo;

/// A node that is called: its name, and how its refusals are replied.
pub trait Callee {
    type Refusal: Copy;

    ghost use Rattle.bench_base.specs.declared.{events.Reply.Reply, words.Node.Node};

    ghost named: { Self → Node };

    ghost refuses: { Self → Self.Refusal → Reply };

    /// Its name.
    fn name(&self) -> NodeNo
        ensures { result ≡ named self.now };

    /// The reply to a call that it refused so.
    fn refusal(&self, refusal: Self::Refusal) -> Reply
        ensures { result ≡ refuses self.now refusal };
}

/// A call of this node, which is asked of a record R and changes it by X: what it does by that record, and what the node says of it.
pub trait Call<E: Callee, R, X: Copy> {
    type Answer: Copy;

    ghost use Rattle.node_acts.specs.declared.{act.Act.Act, said.Said.Said};
    ghost use Rattle.node_acts.specs.Changes.{ChangesBy};

    /// What the call is asked with is in its range.
    ghost IsAsked: { Self → Type 0 };

    ghost does: { Self → E → R → Act X E.Refusal Self.Answer };

    ghost says: { Self → E → Self.Answer → Said };

    /// What is true of each change that it makes of a record, where it is asked in its range.
    ghost Makes: { R → X → Type 0 };

    /// What it does, decided by the record. Nothing is stored yet.
    fn act(&self, callee: &E, held: &R) -> Act<X, E::Refusal, Self::Answer>
        ensures value { result ≡ does self.now callee.now held.now }
        ensures makes { IsAsked self.now → ChangesBy (Makes held.now) result };

    /// What the node says where it was done.
    fn answer(&self, callee: &E, answer: &Self::Answer) -> Said
        ensures { result ≡ says self.now callee.now answer.now };
}
