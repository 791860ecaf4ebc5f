//! A statement is read line by line, until its verdict.
ghost use Rattle.std.specs.Prelude.{◌+◌, ◌≤◌, ◌<◌, [], MatchResult, IfOk, OnErr};
ghost use Rattle.bench_base.specs.Causes.{HasCause};
ghost use Rattle.statement_check.specs.Turns.{IsChecked, Turned, TakesPart, EndsSo, IsJudged, IsUnread};
ghost use Rattle.statement_check.specs.Verdicts.{Decides, Fails};

use crate::place::Place;
use crate::read::read_statement_line;
use crate::verdict::Verdict;
use bench_base::stream::ReadFail;
use line_runs::lines::{LineRead, read_line};
use text_streams::BufSource;

/// The most lines that a statement has: its opening, 10,000 movements and its closing.
const LINES: u32 = 10_002;

/// What came of a line.
#[derive(Clone, Copy)]
enum Turn {
    /// The line was right; this is the place after it.
    Goes(Place),
    Ends(Verdict),
}

// The place after a line of this number in this place; if the line isn't right, the verdict.
fn check_line(number: u32, place: &Place, bytes: &[u8]) -> Result<Place, Verdict>
    ensures { MatchResult result (λ next. IsChecked place.now next bytes.now)
        (λ verdict. Fails verdict number place.now bytes.now) }
{
    let Some(line) = read_statement_line(bytes) else {
        return Err(Verdict::Bad(number));
    };
    let Some(due) = place.due(&line) else {
        return Err(Verdict::Bad(number));
    };
    if due != i128::from(line.balance()) {
        return Err(Verdict::Wrong(number, due));
    }
    Ok(Place::behind(&line))
}

// The verdict if the script has ended after so many lines, in this place.
fn ended_behind(count: u32, place: &Place) -> Verdict
    requires { count ≤ 10002 }
    ensures { Decides result count place.now [] }
{
    match place {
        Place::First | Place::Behind(_) => Verdict::Bad(count + 1),
        Place::Closed(balance) => Verdict::Good(*balance),
    }
}

// Reads the line after so many lines, in this place.
fn take_line<S: BufSource>(
    count: u32,
    place: &Place,
    buf: &mut [u8; 600],
    script: &mut S,
) -> Result<Turn, ReadFail>
    requires { count < 10002 }
    ensures turned { IfOk result (λ turn. Turned turn count place.now (S.left script.old) (S.left script.new)) }
    ensures part { OnErr result (TakesPart (S.left script.old) (S.left script.new)) }
    ensures cause { HasCause (S.faults script.old) (S.faults script.new) result }
{
    match read_line(script, buf) {
        LineRead::Fault => Err(ReadFail),
        LineRead::End => Ok(Turn::Ends(ended_behind(count, place))),
        LineRead::Long => Ok(Turn::Ends(Verdict::Bad(count + 1))),
        LineRead::Line(len, is_ended) => match check_line(count + 1, place, &buf[..len as usize]) {
            Err(verdict) => Ok(Turn::Ends(verdict)),
            Ok(next) => {
                if is_ended {
                    return Ok(Turn::Goes(next));
                }
                Ok(Turn::Ends(ended_behind(count + 1, &next)))
            }
        },
    }
}

// Checks whether a line follows the last that a statement may have.
fn take_last<S: BufSource>(
    place: &Place,
    buf: &mut [u8; 600],
    script: &mut S,
) -> Result<Verdict, ReadFail>
    ensures ends { IfOk result (λ verdict. EndsSo verdict 10002 place.now (S.left script.old) (S.left script.new)) }
    ensures part { OnErr result (TakesPart (S.left script.old) (S.left script.new)) }
    ensures cause { HasCause (S.faults script.old) (S.faults script.new) result }
{
    match read_line(script, buf) {
        LineRead::Fault => Err(ReadFail),
        LineRead::End => Ok(ended_behind(LINES, place)),
        LineRead::Long | LineRead::Line(_, _) => Ok(Verdict::TooLong),
    }
}

/// Reads a statement up to its verdict. It takes no memory.
pub fn judge<S: BufSource>(script: &mut S) -> Result<Verdict, ReadFail>
    ensures judged { IfOk result (λ verdict. IsJudged verdict (S.left script.old) (S.left script.new)) }
    ensures unread { OnErr result (IsUnread (S.left script.old) (S.left script.new)) }
    ensures cause { HasCause (S.faults script.old) (S.faults script.new) result }
{
    let mut buf = [0; 600];
    let mut place = Place::First;
    for count in 0..LINES {
        match take_line(count, &place, &mut buf, script)? {
            Turn::Goes(next) => place = next,
            Turn::Ends(verdict) => return Ok(verdict),
        }
    }
    take_last(&place, &mut buf, script)
}
