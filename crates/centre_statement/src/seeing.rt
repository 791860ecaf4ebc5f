//! What the desk sees of a turn.
ghost use Rattle.std.specs.Prelude.{◌≡◌, Some};
ghost use Rattle.centre_statement.specs.Desk.{view_of, noted_by, noted, seen_entry, seen, fresh};

use crate::answer::Answer;
use crate::change::{Change, change_in, left_after};
use crate::desk::{MOST_MOVEMENTS, StatementDesk};
use crate::watch::Watch;
use bench_base::ledger::{Commit, Entry};
use bench_base::numbers::Customer;
use statement_check::Movement;
use std::alloc::Global;

impl StatementDesk {
    /// A desk without a statement, which has seen nothing. It takes no memory.
    pub fn new(alloc: Global) -> StatementDesk
        ensures { view_of result ≡ fresh }
    {
        StatementDesk {
            watch: Watch {
                commits: 0,
                torn: None,
            },
            current: None,
            balance: 0,
            is_full: false,
            movements: Vec::new(alloc),
            said: Answer::Nothing,
        }
    }

    // A movement more, where there is room for it.
    fn add(&mut self, change: &Change, customer: Customer)
        requires is_open { self.old.current ≡ Some customer }
        ensures { view_of self.new ≡ record (view_of self.old) { current = noted_by change.now (view_of self.old).current } }
    {
        self.balance = left_after(self.balance, change);
        if self.movements.len() == MOST_MOVEMENTS {
            self.is_full = true;
            return;
        }
        let movement = Movement {
            cause: change.cause,
            amount: change.amount,
            balance: self.balance,
        };
        match self.movements.push(movement) {
            Ok(()) => {}
            Err(_) => unreachable!(),
        }
    }

    // What a commit that counts does to the statement that is open.
    fn count(&mut self, commit: &Commit)
        ensures { view_of self.new
            ≡ record (view_of self.old) { current = noted (Some commit.now) (view_of self.old).current } }
    {
        let Some(customer) = self.current else {
            return;
        };
        if let Some(change) = change_in(commit, customer) {
            self.add(&change, customer);
        }
    }

    // Sees an entry.
    fn note(&mut self, entry: &Option<Entry>)
        ensures { view_of self.new ≡ seen_entry (view_of self.old) entry.now }
    {
        let Some(entry) = entry else {
            return;
        };
        if let Some(commit) = self.watch.see(entry) {
            self.count(&commit);
        }
    }

    /// Sees the entries of a turn.
    pub(crate) fn see_all(&mut self, entries: &[Option<Entry>; 3])
        ensures { view_of self.new ≡ seen (view_of self.old) entries.now }
    {
        self.note(&entries[0]);
        self.note(&entries[1]);
        self.note(&entries[2]);
    }
}
