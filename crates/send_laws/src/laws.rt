//! The laws of orders and of open jobs, each as the contract of a function that takes and answers nothing.
ghost use Rattle.std.specs.Prelude.{◌≡◌, ℕ, List, [], Some, Contains};
ghost use Rattle.bench_base.specs.declared.{events.Event.Event, events.Reply.Reply, ledger.Commit.Commit, ledger.Commit.TheVariants.Ordered};
ghost use Rattle.bench_base.specs.declared.events.Event.TheVariants as ev;
ghost use Rattle.bench_base.specs.declared.events.Reply.TheVariants as r;
ghost use Rattle.bench_base.specs.Ledger.{Ledger, counted};
ghost use Rattle.bench_base.specs.Rules.{todays_rules};
ghost use Rattle.node_acts.specs.Plans.{after};
ghost use Rattle.ledger_laws.specs.Laws.{ForHistories};
ghost use Rattle.ledger_moves.specs.Moves.{Moves, plan, entries};
ghost use Rattle.ledger_moves.specs.Tariffs.{Tariff};
ghost use Rattle.host_jobs.specs.Turns.{InTurn};
ghost use Rattle.send_laws.specs.Orders.{ordered_postage, IsSentFor};
ghost use Rattle.send_laws.specs.States.{OpenByStates};

use ledger_laws::laws::orders;

/// Orders and what is sent for them:
///
/// - `kept`. Whatever reply an event gets, an order that counts before it counts after it, with the same postage.
/// - `sent`. If the message of a job is answered by what was sent, one message was sent, and it asks for the postage of the job's order.
/// - `one`. A job has one order.
pub fn sends()
    ensures kept { (τ : Tariff) (H : Ledger) (x : Event) (text : List ℕ) (reply : Reply) (j a : ℕ)
        → ordered_postage j (counted H) ≡ Some a → ordered_postage j (counted (entries τ todays_rules H x text reply)) ≡ Some a }
    ensures sent { ForHistories (λ τ ρ ρs H. (j i k : ℕ) (text : List ℕ) → Moves τ ρ H (ev.Send j) text (r.SentDebit i k)
        → IsSentFor j (after (plan τ ρ H (ev.Send j) text) (r.SentDebit i k) []) H) }
    ensures one { ForHistories (λ τ ρ ρs H. (j d p a k : ℕ) → Contains (counted H) (Ordered j d p a k)
        → ordered_postage j (counted H) ≡ Some a) }
{}

/// The open job of a device is the one in state Ordered, and there is one at most:
///
/// - `turns`. This holds if the host's own calls made its commits, whatever the other nodes did.
/// - `histories`. So it holds in every history.
pub fn open_jobs()
    ensures turns { (C : List Commit) → InTurn C → OpenByStates C }
    ensures histories { ForHistories (λ τ ρ ρs H. OpenByStates (counted H)) }
{
    orders();
}
