//! What the desk does for an own line: before the balance is reported, and after it.
ghost use Rattle.std.specs.Prelude.{◌≡◌, ◌<◌, ◌≤◌, [], Some, None, IfOk, OnErr, length, slice_get};
ghost use Rattle.line_extensions.specs.Wants.{MayAsk};
ghost use Rattle.centre_statement.specs.Courses.{MayWant, IsPlain, Begins, Answers, ByBalance, Closes, IfOpening, IfClosing, saying, opened, closed_with};
ghost use Rattle.centre_statement.specs.Desk.{view_of};
ghost use Rattle.centre_statement.specs.OwnLines.{IsLine};
ghost use Rattle.std.specs.Vec.{vec_capacity};
ghost use Rattle.centre_statement.specs.Texts.{said_texts};

use crate::answer::Answer;
use crate::desk::{MOST_MOVEMENTS, StatementDesk};
use crate::lines::OwnLine;
use bench_base::events::{Event, Reply};
use bench_base::numbers::Customer;
use line_extensions::Next;
use script_words::Line;
use std::alloc::{AllocError, Global};

impl StatementDesk {
    // Takes the memory of a statement, if the desk has none yet. Everything except the answer stays as it was.
    fn take_room(&mut self, alloc: Global, customer: Customer) -> Result<(), AllocError>
        ensures ok { IfOk result (λ x. view_of self.new ≡ saying (Answer.Opening customer) (view_of self.old)) }
        ensures memory { OnErr result (self.new ≡ self.old) }
    {
        if self.movements.capacity() < MOST_MOVEMENTS {
            let movements = match Vec::with_capacity(alloc, MOST_MOVEMENTS) {
                Ok(movements) => movements,
                Err(error) => return Err(error),
            };
            self.movements = movements;
        }
        self.said = Answer::Opening(customer);
        Ok(())
    }

    // Says so, and lists nothing.
    fn say(&mut self, said: Answer)
        requires said { IsPlain said }
        ensures { view_of self.new ≡ saying said (view_of self.old) }
    {
        self.said = said;
    }

    /// What a line of its own begins with.
    pub(crate) fn begin_own(&mut self, alloc: Global, own: &OwnLine) -> Result<Next, AllocError>
        requires line { IsLine own.now }
        ensures begins { IfOk result (λ next. Begins (view_of self.old) own.now next (view_of self.new)) }
        ensures may { IfOk result (λ next. MayAsk next 0) }
        ensures memory { OnErr result (MayWant own.now × (self.new ≡ self.old)) }
    {
        match own {
            OwnLine::Open(customer) => match self.take_room(alloc, *customer) {
                Ok(()) => Ok(Next::Step(Event::Balance(*customer))),
                Err(error) => Err(error),
            },
            OwnLine::Close => match self.current {
                Some(customer) => {
                    self.say(Answer::Closing);
                    Ok(Next::Step(Event::Balance(customer)))
                }
                None => {
                    self.say(Answer::NoneOpen);
                    Ok(Next::Say)
                }
            },
        }
    }

    // Opens a statement at this balance.
    fn open_at(&mut self, customer: Customer, balance: u64)
        requires room { 10000 ≤ vec_capacity self.old.movements }
        ensures { view_of self.new ≡ opened customer (view_of self.old) balance }
    {
        self.current = Some(customer);
        self.balance = balance;
        self.is_full = false;
        self.movements.clear();
        self.said = Answer::Opened(customer, balance);
    }

    // Closes the statement that is open, at this balance.
    fn close_at(&mut self, balance: u64)
        ensures { view_of self.new
            ≡ closed_with self.old.is_full self.old.movements.items (view_of self.old) balance }
    {
        self.current = None;
        self.said = if self.is_full {
            Answer::Full
        } else {
            Answer::Closed(balance)
        };
    }

    // The customer with the awaited balance, to open a statement.
    fn opening(&self) -> Option<Customer>
        ensures { IfOpening result self.now.said }
    {
        match &self.said {
            Answer::Opening(customer) => Some(*customer),
            Answer::Nothing
            | Answer::Closing
            | Answer::Opened(_, _)
            | Answer::Closed(_)
            | Answer::NoneOpen
            | Answer::Full
            | Answer::Balance(_) => None,
        }
    }

    // Whether the balance is awaited to close the statement that is open.
    fn is_closing(&self) -> bool
        ensures { IfClosing result self.now.said }
    {
        match &self.said {
            Answer::Closing => true,
            Answer::Nothing
            | Answer::Opening(_)
            | Answer::Opened(_, _)
            | Answer::Closed(_)
            | Answer::NoneOpen
            | Answer::Full
            | Answer::Balance(_) => false,
        }
    }

    /// What it answers, after the reply to the step that it asked for.
    pub(crate) fn answer(&mut self, reply: &Reply)
        ensures { Answers (view_of self.old).said reply.now (view_of self.old) (view_of self.new) }
    {
        match self.opening() {
            Some(customer) => self.answer_open(customer, reply),
            None => {
                if self.is_closing() {
                    self.answer_close(reply);
                }
            }
        }
    }

    fn answer_open(&mut self, customer: Customer, reply: &Reply)
        requires opening { self.old.said ≡ Answer.Opening customer }
        ensures { ByBalance customer reply.now (opened customer (view_of self.old)) (view_of self.old) (view_of self.new) }
    {
        match reply.balance_of(customer) {
            Some(balance) => self.open_at(customer, balance),
            None => self.say(Answer::Balance(*reply)),
        }
    }

    fn answer_close(&mut self, reply: &Reply)
        ensures { Closes (view_of self.old).current reply.now (view_of self.old) (view_of self.new) }
    {
        let Some(customer) = self.current else {
            self.say(Answer::Balance(*reply));
            return;
        };
        match reply.balance_of(customer) {
            Some(balance) => self.close_at(balance),
            None => self.say(Answer::Balance(*reply)),
        }
    }

    /// How many texts its answer has.
    pub(crate) fn texts(&self) -> u32
        ensures { result ≡ length (said_texts (view_of self.now).said (view_of self.now).listed) }
    {
        self.said.count(&self.movements)
    }

    /// Writes the text of this number.
    pub(crate) fn put_text(&self, number: u32, line: &mut Line)
        requires inside { number < length (said_texts (view_of self.now).said (view_of self.now).listed) }
        requires empty { line.old ≡ [] }
        ensures text { slice_get (said_texts (view_of self.now).said (view_of self.now).listed) number ≡ Some line.new }
        ensures short { length line.new < 256 }
    {
        self.said.put(&self.movements, number, line);
    }
}
