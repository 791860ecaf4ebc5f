//! What the desk answers, and its texts.
ghost use Rattle.std.specs.Prelude.{◌≡◌, ◌<◌, ◌≤◌, [], length, slice_get, Some};
ghost use Rattle.centre_statement.specs.Texts.{said_texts, closed_texts};

use bench_base::events::Reply;
use bench_base::numbers::Customer;
use script_text::put_reply;
use script_words::Line;
use statement_check::{Movement, StatementLine, put_statement_line};

/// What the desk answers its last line, or what it waits for.
#[derive(Clone, Copy)]
pub enum Answer {
    Nothing,
    /// The balance of this customer is awaited, to open a statement.
    Opening(Customer),
    /// The balance is awaited, to close the statement that is open.
    Closing,
    /// The customer, and the balance at the opening.
    Opened(Customer, u64),
    /// The balance at the close, after the movements.
    Closed(u64),
    NoneOpen,
    Full,
    /// The balance was answered so.
    Balance(Reply),
}

impl Answer {
    /// How many texts the answer has, with these movements.
    pub fn count(&self, movements: &[Movement]) -> u32
        requires few { length movements.now ≤ 10000 }
        ensures { result ≡ length (said_texts self.now movements.now) }
    {
        match self {
            Answer::Nothing | Answer::Opening(_) | Answer::Closing => 0,
            Answer::Opened(_, _) | Answer::NoneOpen | Answer::Full | Answer::Balance(_) => 1,
            Answer::Closed(_) => movements.len() as u32 + 1,
        }
    }

    /// Writes the text of this number, counted from 0.
    pub fn put(&self, movements: &[Movement], number: u32, line: &mut Line)
        requires inside { number < length (said_texts self.now movements.now) }
        requires empty { line.old ≡ [] }
        ensures text { slice_get (said_texts self.now movements.now) number ≡ Some line.new }
        ensures short { length line.new < 256 }
    {
        match self {
            Answer::Nothing | Answer::Opening(_) | Answer::Closing => unreachable!(),
            Answer::Opened(customer, balance) => {
                put_statement_line(line, &StatementLine::Opening(*customer, *balance));
            }
            Answer::Closed(balance) => put_closed(movements, *balance, number, line),
            Answer::NoneOpen => line.put(b"refused statement none"),
            Answer::Full => line.put(b"refused statement full"),
            Answer::Balance(reply) => put_reply(line, reply),
        }
    }
}

// Writes the line of this number of a statement that is closed: a movement's, or after them the closing line.
fn put_closed(movements: &[Movement], balance: u64, number: u32, line: &mut Line)
    requires inside { number ≤ length movements.now }
    requires empty { line.old ≡ [] }
    ensures text { slice_get (closed_texts movements.now balance) number ≡ Some line.new }
    ensures short { length line.new < 256 }
{
    match movements.get(number as usize) {
        Some(movement) => put_statement_line(line, &StatementLine::Moved(*movement)),
        None => put_statement_line(line, &StatementLine::Closing(balance)),
    }
}
