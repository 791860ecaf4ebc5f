//! The registers of a device, in mills, and their three moves.
#![tactic(auto)]

ghost use Rattle.std.specs.Prelude.{◌≡◌, ◌+◌, ◌-◌, ◌≤◌, ◌<◌, ◌↔◌, IsSome, IfSome, IfOk};
ghost use Rattle.registers.specs.Sums.{Sums, Sound, total, zeros, debited, loaded, cleared, debit_answer, load_answer};

use std::marker::Model;

/// The most that ascending, descending and refunded are together, in mills.
pub const TOTAL_LIMIT: u64 = 1_000_000_000_000;

/// What was spent, what is left, what was given back, and how many pieces were marked.
///
/// The three sums are together at most `TOTAL_LIMIT`, and there are at most as many pieces as mills spent.
#[derive(Clone, Copy)]
pub struct Registers {
    ascending: u64,
    descending: u64,
    refunded: u64,
    pieces: u32,
}

impl Model for Registers {
    ghost use Rattle.registers.specs.Sums.{Sums, Sound};

    ghost Value = { Sums };

    ghost view = { λ r. record { ascending = r.ascending; descending = r.descending; refunded = r.refunded; pieces = r.pieces } };

    ghost invariant = { λ r. Sound (record { ascending = r.ascending; descending = r.descending; refunded = r.refunded; pieces = r.pieces }) };

    ghost inverse = { λ s. record { ascending = s.ascending; descending = s.descending; refunded = s.refunded; pieces = s.pieces } };
}

impl Registers {
    /// A new device: nothing was loaded or spent.
    pub fn zero() -> Registers
        ensures { result ≡ zeros }
    {
        Registers {
            ascending: 0,
            descending: 0,
            refunded: 0,
            pieces: 0,
        }
    }

    /// The registers of these numbers; None if and only if the sums are above the limit, or the pieces above ascending.
    pub fn of(ascending: u64, descending: u64, refunded: u64, pieces: u32) -> Option<Registers>
        ensures valid { IsSome result ↔ Sound (record { ascending = ascending; descending = descending; refunded = refunded; pieces = pieces }) }
        ensures value { IfSome result (λ r. r ≡ record { ascending = ascending; descending = descending; refunded = refunded; pieces = pieces }) }
    {
        if ascending > TOTAL_LIMIT || descending > TOTAL_LIMIT || refunded > TOTAL_LIMIT {
            return None;
        }
        if ascending + descending + refunded > TOTAL_LIMIT || u64::from(pieces) > ascending {
            return None;
        }
        Some(Registers {
            ascending,
            descending,
            refunded,
            pieces,
        })
    }

    /// What was spent so far.
    pub fn ascending(&self) -> u64
        ensures value { result ≡ self.now.ascending }
        ensures sound { Sound self.now }
    {
        self.ascending
    }

    /// What is left to spend.
    pub fn descending(&self) -> u64
        ensures value { result ≡ self.now.descending }
        ensures sound { Sound self.now }
    {
        self.descending
    }

    /// What was given back so far.
    pub fn refunded(&self) -> u64
        ensures value { result ≡ self.now.refunded }
        ensures sound { Sound self.now }
    {
        self.refunded
    }

    /// How many pieces were marked so far.
    pub fn pieces(&self) -> u32
        ensures value { result ≡ self.now.pieces }
        ensures sound { Sound self.now }
    {
        self.pieces
    }

    /// What was franked and what is left, in mills.
    pub fn held(&self) -> u64
        ensures { result ≡ self.now.ascending + self.now.descending }
    {
        self.ascending + self.descending
    }

    /// All three sums together.
    pub fn total(&self) -> u64
        ensures value { result ≡ total self.now }
        ensures sound { Sound self.now }
    {
        self.ascending + self.descending + self.refunded
    }

    /// The postage of one piece moves from descending to ascending. Err with descending if and only if the postage is
    /// more. It is at least 1, and fewer pieces than 4,294,967,295 were marked.
    pub fn debit(&self, postage: u32) -> Result<Registers, u64>
        requires postage { 1 ≤ postage }
        requires pieces { self.now.pieces < 4294967295 }
        ensures exact { result ≡ debit_answer self.now postage }
        ensures sound { IfOk result (λ r. Sound r) }
    {
        let postage = u64::from(postage);
        if postage > self.descending {
            return Err(self.descending);
        }
        Ok(Registers {
            ascending: self.ascending + postage,
            descending: self.descending - postage,
            refunded: self.refunded,
            pieces: self.pieces + 1,
        })
    }

    /// The amount is added to descending. Err with the sum of all three if and only if it and the amount are above the
    /// limit.
    pub fn load(&self, amount: u32) -> Result<Registers, u64>
        ensures exact { result ≡ load_answer self.now amount }
        ensures sound { IfOk result (λ r. Sound r) }
    {
        let amount = u64::from(amount);
        let total = self.total();
        if total + amount > TOTAL_LIMIT {
            return Err(total);
        }
        Ok(Registers {
            ascending: self.ascending,
            descending: self.descending + amount,
            refunded: self.refunded,
            pieces: self.pieces,
        })
    }

    /// All that is left is given back: descending moves to refunded.
    pub fn clear(&self) -> Registers
        ensures value { result ≡ cleared self.now }
        ensures sound { Sound result }
    {
        Registers {
            ascending: self.ascending,
            descending: 0,
            refunded: self.refunded + self.descending,
            pieces: self.pieces,
        }
    }
}
