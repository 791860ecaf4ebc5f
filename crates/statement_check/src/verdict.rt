//! What a statement is found to be.
ghost use Rattle.std.specs.Prelude.{◌≡◌, []};
ghost use Rattle.statement_check.specs.Verdicts.{status_for, report_for};

use line_runs::status::Status;
use script_words::Line;

/// What a statement is found to be.
#[derive(Clone, Copy, Debug, PartialEq, Eq)]
pub enum Verdict {
    /// Each balance follows from the lines before it; the last is this one.
    Good(u64),
    /// The balance in the line of this number, counted from 1, is the first that isn't the one that is due.
    Wrong(u32, i128),
    /// The line of this number is not in form, out of place or missing.
    Bad(u32),
    /// There is a line after the last that a statement may have.
    TooLong,
}

impl Verdict {
    /// The status that answers it.
    pub fn status(&self) -> Status
        ensures { result ≡ status_for self.now }
    {
        match self {
            Verdict::Good(_) | Verdict::Wrong(_, _) => Status::Done,
            Verdict::Bad(line) => Status::Script(*line),
            Verdict::TooLong => Status::TooLong,
        }
    }

    /// Writes what the report has for it: a line, or nothing.
    pub fn put(&self, line: &mut Line)
        requires empty { line.old ≡ [] }
        ensures { line.new ≡ report_for self.now }
    {
        match self {
            Verdict::Good(balance) => {
                line.put(b"statement good");
                line.number(*balance);
                line.put(b"\n");
            }
            Verdict::Wrong(number, due) => {
                line.put(b"statement wrong");
                line.number(*number);
                line.number(*due);
                line.put(b"\n");
            }
            Verdict::Bad(_) | Verdict::TooLong => {}
        }
    }
}
