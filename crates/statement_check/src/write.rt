//! The lines of a statement into the report.
ghost use Rattle.std.specs.Prelude.{◌≡◌, ◌∷◌, [], ◌<◌, ◌≤◌, length, decimal};
ghost use Rattle.script_words.specs.Words.{joined, device_word};
ghost use Rattle.statement_check.specs.Lines.{cause_words, line_text};

use crate::line::{Cause, StatementLine};
use bench_base::numbers::DevNo;
use script_words::Line;

fn put_ruled(line: &mut Line, name: &[u8], device: DevNo, number: u32)
    requires empty { line.old ≡ [] }
    requires small { length name.now ≤ 20 }
    ensures value { line.new ≡ joined (name.now ∷ device_word device ∷ decimal number ∷ []) }
    ensures short { length line.new ≤ 80 }
{
    line.put(name);
    line.device(device);
    line.number(number);
}

fn put_cause(line: &mut Line, cause: &Cause)
    requires empty { line.old ≡ [] }
    ensures value { line.new ≡ joined (cause_words cause.now []) }
    ensures short { length line.new ≤ 80 }
{
    match cause {
        Cause::Deposit(receipt) => {
            line.put(b"deposit");
            line.number(*receipt);
        }
        Cause::Reset(device, number) => put_ruled(line, b"reset", *device, *number),
        Cause::Refund(device, number) => put_ruled(line, b"refund", *device, *number),
        Cause::Withdraw(device, number) => put_ruled(line, b"withdraw", *device, *number),
    }
}

/// Writes a line of a statement, without its line end.
pub fn put_statement_line(line: &mut Line, own: &StatementLine)
    requires empty { line.old ≡ [] }
    ensures value { line.new ≡ line_text own.now }
    ensures short { length line.new < 256 }
{
    match own {
        StatementLine::Opening(customer, balance) => {
            line.put(b"statement");
            line.number(customer.get());
            line.word(b"opening");
            line.number(*balance);
        }
        StatementLine::Moved(movement) => {
            put_cause(line, &movement.cause);
            line.number(movement.amount);
            line.word(b"balance");
            line.number(movement.balance);
        }
        StatementLine::Closing(balance) => {
            line.put(b"closing");
            line.number(*balance);
        }
    }
}
