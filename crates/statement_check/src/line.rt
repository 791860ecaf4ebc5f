//! The lines of a statement.
use bench_base::numbers::{Customer, DevNo};

/// What moved a customer's money: a deposit by its receipt, or a granted ruling by the device and the request's number.
#[derive(Clone, Copy, Debug, PartialEq, Eq)]
pub enum Cause {
    Deposit(u32),
    Reset(DevNo, u32),
    Refund(DevNo, u32),
    Withdraw(DevNo, u32),
}

/// A movement of a customer's money, in mills, and the balance after it.
#[derive(Clone, Copy, Debug, PartialEq, Eq)]
pub struct Movement {
    pub cause: Cause,
    pub amount: u64,
    pub balance: u64,
}

/// A line of a statement.
#[derive(Clone, Copy, Debug, PartialEq, Eq)]
pub enum StatementLine {
    /// The customer, and the balance before the first movement.
    Opening(Customer, u64),
    Moved(Movement),
    /// The balance at the close.
    Closing(u64),
}

impl StatementLine {
    ghost use Rattle.std.specs.Prelude.{◌≡◌};
    ghost use Rattle.statement_check.specs.Places.{balance};

    /// The balance in the line.
    pub fn balance(&self) -> u64
        ensures { result ≡ balance self.now }
    {
        match self {
            StatementLine::Opening(_, balance) => *balance,
            StatementLine::Moved(movement) => movement.balance,
            StatementLine::Closing(balance) => *balance,
        }
    }
}
