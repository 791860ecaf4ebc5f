//! The law that statements rest on, as the contract of a function that takes and answers nothing.
ghost use Rattle.bench_base.specs.Ledger.{counted};
ghost use Rattle.ledger_laws.specs.Laws.{ForHistories};
ghost use Rattle.centre_statement.specs.Balances.{BalancesFollow, BalancesFit};

use ledger_laws::laws::histories;

/// The balance of each customer after each counted commit of any history has two properties.
///
/// - `follows`: It follows from the balance before it by what the commit changes. It is the same, or it is that of a movement of a statement.
/// - `fits`: It is at most the limit of deposits.
pub fn balances()
    ensures follows { ForHistories (λ τ ρ ρs H. BalancesFollow (counted H)) }
    ensures fits { ForHistories (λ τ ρ ρs H. BalancesFit (counted H)) }
{
    histories();
}
