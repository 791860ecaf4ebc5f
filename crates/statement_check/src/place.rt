//! The place of a line in a statement.
use crate::line::{Cause, Movement, StatementLine};

/// The place of the next line of a statement.
#[derive(Clone, Copy, Debug, PartialEq, Eq)]
pub enum Place {
    First,
    /// After the opening line or a movement, with this balance.
    Behind(u64),
    /// After the closing line, with this balance.
    Closed(u64),
}

impl Movement {
    ghost use Rattle.std.specs.Prelude.{◌≡◌};
    ghost use Rattle.statement_check.specs.Places.{moved};

    /// The balance after the movement, by the balance before it.
    fn moved(&self, before: u64) -> i128
        ensures { result ≡ moved before self.now.cause self.now.amount }
    {
        let before = i128::from(before);
        let amount = i128::from(self.amount);
        match self.cause {
            Cause::Deposit(_) => before + amount,
            Cause::Reset(_, _) => before - amount,
            Cause::Refund(_, _) => before + amount,
            Cause::Withdraw(_, _) => before + amount,
        }
    }
}

impl Place {
    ghost use Rattle.std.specs.Prelude.{◌≡◌};
    ghost use Rattle.statement_check.specs.Places.{due, place_behind};

    /// The balance that is due in a line at this place; None where the line is out of place.
    pub fn due(&self, line: &StatementLine) -> Option<i128>
        ensures { result ≡ due self.now line.now }
    {
        match (self, line) {
            (Place::First, StatementLine::Opening(_, balance)) => Some(i128::from(*balance)),
            (Place::Behind(before), StatementLine::Moved(movement)) => Some(movement.moved(
                *before,
            )),
            (Place::Behind(before), StatementLine::Closing(_)) => Some(i128::from(*before)),
            (Place::First, StatementLine::Moved(_) | StatementLine::Closing(_)) => None,
            (Place::Behind(_), StatementLine::Opening(_, _)) => None,
            (Place::Closed(_), _) => None,
        }
    }

    /// The place after a line.
    pub fn behind(line: &StatementLine) -> Place
        ensures { result ≡ place_behind line.now }
    {
        match line {
            StatementLine::Opening(_, balance) => Place::Behind(*balance),
            StatementLine::Moved(movement) => Place::Behind(movement.balance),
            StatementLine::Closing(balance) => Place::Closed(*balance),
        }
    }
}
