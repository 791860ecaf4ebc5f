//! The laws of debits, as the contract of a function that takes and answers nothing.
ghost use Rattle.std.specs.Prelude.{◌≡◌, ℕ, List};
ghost use Rattle.bench_base.specs.declared.{events.Event.Event, events.Reply.Reply};
ghost use Rattle.bench_base.specs.Ledger.{Ledger, IsReleased, counted};
ghost use Rattle.bench_base.specs.Rules.{Rules, todays_rules, editions};
ghost use Rattle.ledger_moves.specs.Histories.{History, Unforged};
ghost use Rattle.ledger_moves.specs.Moves.{Moves, entries};
ghost use Rattle.ledger_moves.specs.Tariffs.{Tariff};
ghost use Rattle.debit_laws.specs.Debits.{IsDebited, IsLast, IsOneMore, DebitsMore};

use ledger_laws::laws::histories;

/// Debits and their marks:
///
/// - `one`. Whatever reply an event gets, at most one commit counts after it that did not count before, also at the `up` of a commit in doubt.
/// - `more`. What was debited after an event is what was debited before it, and the marks that the devices keep of their last debits.
/// - `kept`. The mark that a device keeps was debited.
/// - `released`. Each mark that was released was debited.
pub fn debits()
    ensures one { (τ : Tariff) (ρ : Rules) (H : Ledger) (x : Event) (text : List ℕ) (reply : Reply)
        → IsOneMore (counted H) (counted (entries τ ρ H x text reply)) }
    ensures more { (τ : Tariff) (H : Ledger) (x : Event) (text : List ℕ) (reply : Reply) → History τ editions H → Unforged x H
        → Moves τ todays_rules H x text reply → DebitsMore H (entries τ todays_rules H x text reply) }
    ensures kept { (τ : Tariff) (H : Ledger) (mark : List ℕ) → History τ editions H → IsLast mark (counted H) → IsDebited mark (counted H) }
    ensures released { (τ : Tariff) (H : Ledger) (mark : List ℕ) → History τ editions H → IsReleased mark H → IsDebited mark (counted H) }
{
    histories();
}
