//! What is wrong with a whole script.
ghost use Rattle.std.specs.Prelude.{◌≡◌, ◌≢◌, ◌↔◌, ◌+◌, ◌≤◌, ◌&&◌, ◌++◌, false, codes, Err, IfOk, IsTrue, OnOk};
ghost use Rattle.std.specs.Io.KnownBytes.{Appends};
ghost use Rattle.bench_base.specs.Causes.{Rose};
ghost use Rattle.script_check.specs.Checks.{Checks, FailsSo};
ghost use Rattle.script_check.specs.Texts.{line_text};
ghost use Rattle.script_check.specs.Turns.{LineSteps, LooksAt, LooksBehind, LooksOver, Steps};
ghost use Rattle.script_check.specs.declared.{fault.Fault.Fault, script.CheckFail.CheckFail, script.Step.Step};

use crate::fault::Fault;
use crate::line::check_line;
use bench_base::stream::Sink;
use line_runs::lines::{LineRead, read_line};
use script_text::is_skipped;
use std::alloc::Global;
use text_streams::{BufSource, put_text};

/// The most lines that a run reads.
const LINES: u32 = 1_000_000;

/// What was found of a script.
#[derive(Clone, Copy, Debug, PartialEq, Eq)]
pub struct Checked {
    /// The number of the last line that was looked at, or of the one that is missing.
    pub lines: u32,
    /// Whether nothing is wrong: each line is an event or skipped, and the last is `end`, with its line end.
    pub is_well_formed: bool,
}

/// Why a script was not checked to its end.
#[derive(Clone, Copy, Debug, PartialEq, Eq)]
pub enum CheckFail {
    /// The script can't be read.
    Read,
    /// A fault can't be written.
    Write,
    /// There is no memory for the text of a fault.
    Memory,
}

/// What became of a line.
#[derive(Clone, Copy)]
enum Step {
    /// The next line follows, and nothing is wrong with this one, or something is.
    On(bool),
    /// Nothing more is looked at, and nothing is wrong since the last line that was, or something is.
    Over(bool),
}

// Writes what is wrong at the line of this number, as a line.
fn tell<K: Sink>(
    alloc: Global,
    number: u32,
    fault: Fault<'_>,
    faults: &mut K,
) -> Result<(), CheckFail>
    ensures told { OnOk result (Appends (K.taken faults.old) (K.taken faults.new) (line_text number fault.entry)) }
    ensures read { result ≢ Err CheckFail.Read }
    ensures later { K.faults faults.old ≤ K.faults faults.new }
    ensures write { result ≡ Err CheckFail.Write → Rose (K.faults faults.old) (K.faults faults.new) }
{
    let Ok(text) = format!(in alloc; "line {number}: {fault}\n") else {
        return Err(CheckFail::Memory);
    };
    match put_text(faults, text.as_bytes()) {
        Ok(()) => Ok(()),
        Err(_) => Err(CheckFail::Write),
    }
}

// Looks at the line of this number: whether nothing is wrong with it.
fn look_at<K: Sink>(
    alloc: Global,
    number: u32,
    line: &[u8],
    faults: &mut K,
) -> Result<bool, CheckFail>
    ensures looks { IfOk result (λ is_right. LooksAt number line.now is_right (K.taken faults.old) (K.taken faults.new)) }
    ensures read { result ≢ Err CheckFail.Read }
    ensures later { K.faults faults.old ≤ K.faults faults.new }
    ensures write { result ≡ Err CheckFail.Write → Rose (K.faults faults.old) (K.faults faults.new) }
{
    if is_skipped(line) {
        return Ok(true);
    }
    match check_line(line) {
        None => Ok(true),
        Some(fault) => match tell(alloc, number, Fault::Word(fault), faults) {
            Ok(()) => Ok(false),
            Err(fail) => Err(fail),
        },
    }
}

// Writes that the line of this number is after `end`.
fn tell_behind<K: Sink>(alloc: Global, number: u32, faults: &mut K) -> Result<bool, CheckFail>
    ensures wrong { IfOk result (λ is_right. is_right ≡ false) }
    ensures told { OnOk result (Appends (K.taken faults.old) (K.taken faults.new) (line_text number Fault.BehindEnd)) }
    ensures read { result ≢ Err CheckFail.Read }
    ensures later { K.faults faults.old ≤ K.faults faults.new }
    ensures write { result ≡ Err CheckFail.Write → Rose (K.faults faults.old) (K.faults faults.new) }
{
    match tell(alloc, number, Fault::BehindEnd, faults) {
        Ok(()) => Ok(false),
        Err(fail) => Err(fail),
    }
}

// Whether nothing is after `end`, which is the line before this number.
fn look_behind<S: BufSource, K: Sink>(
    alloc: Global,
    number: u32,
    buf: &mut [u8; 600],
    script: &mut S,
    faults: &mut K,
) -> Result<bool, CheckFail>
    ensures looks { IfOk result (λ is_right. LooksBehind number is_right (S.left script.old) (S.left script.new) (K.taken faults.old) (K.taken faults.new)) }
    ensures fails { FailsSo (S.faults script.old) (S.faults script.new) (K.faults faults.old) (K.faults faults.new) result }
{
    match read_line(script, buf) {
        LineRead::End => Ok(true),
        LineRead::Fault => Err(CheckFail::Read),
        LineRead::Line(_, _) => tell_behind(alloc, number, faults),
        LineRead::Long => tell_behind(alloc, number, faults),
    }
}

// Looks whether nothing is after `end`, with which the check is over.
fn look_over<S: BufSource, K: Sink>(
    alloc: Global,
    number: u32,
    buf: &mut [u8; 600],
    script: &mut S,
    faults: &mut K,
) -> Result<Step, CheckFail>
    ensures looks { IfOk result (LooksOver number (S.left script.old) (S.left script.new) (K.taken faults.old) (K.taken faults.new)) }
    ensures fails { FailsSo (S.faults script.old) (S.faults script.new) (K.faults faults.old) (K.faults faults.new) result }
{
    match look_behind(alloc, number, buf, script, faults) {
        Ok(is_right) => Ok(Step::Over(is_right)),
        Err(fail) => Err(fail),
    }
}

// Writes what is wrong at the line of this number, with which the check is over.
fn tell_last<K: Sink>(
    alloc: Global,
    number: u32,
    fault: Fault<'_>,
    faults: &mut K,
) -> Result<Step, CheckFail>
    ensures over { IfOk result (λ step. step ≡ Step.Over false) }
    ensures told { OnOk result (Appends (K.taken faults.old) (K.taken faults.new) (line_text number fault.entry)) }
    ensures read { result ≢ Err CheckFail.Read }
    ensures later { K.faults faults.old ≤ K.faults faults.new }
    ensures write { result ≡ Err CheckFail.Write → Rose (K.faults faults.old) (K.faults faults.new) }
{
    match tell(alloc, number, fault, faults) {
        Ok(()) => Ok(Step::Over(false)),
        Err(fail) => Err(fail),
    }
}

// Writes that the last line, of this number, has no line end, and that no `end` follows it.
fn tell_unended<K: Sink>(alloc: Global, number: u32, faults: &mut K) -> Result<Step, CheckFail>
    requires inside { number ≤ 1000000 }
    ensures over { IfOk result (λ step. step ≡ Step.Over false) }
    ensures told { OnOk result (Appends (K.taken faults.old) (K.taken faults.new) (line_text number Fault.NoLineEnd ++ line_text (number + 1) Fault.NoEnd)) }
    ensures read { result ≢ Err CheckFail.Read }
    ensures later { K.faults faults.old ≤ K.faults faults.new }
    ensures write { result ≡ Err CheckFail.Write → Rose (K.faults faults.old) (K.faults faults.new) }
{
    match tell(alloc, number, Fault::NoLineEnd, faults) {
        Ok(()) => tell_last(alloc, number + 1, Fault::NoEnd, faults),
        Err(fail) => Err(fail),
    }
}

// Looks at the last line of a script, of this number, which has no line end and is not `end`.
fn look_at_last<K: Sink>(
    alloc: Global,
    number: u32,
    line: &[u8],
    faults: &mut K,
) -> Result<Step, CheckFail>
    requires inside { number ≤ 1000000 }
    ensures looks { IfOk result (LineSteps number line.now false (K.taken faults.old) (K.taken faults.new)) }
    ensures read { result ≢ Err CheckFail.Read }
    ensures later { K.faults faults.old ≤ K.faults faults.new }
    ensures write { result ≡ Err CheckFail.Write → Rose (K.faults faults.old) (K.faults faults.new) }
{
    match look_at(alloc, number, line, faults) {
        Ok(_) => tell_unended(alloc, number, faults),
        Err(fail) => Err(fail),
    }
}

// Looks at the line of this number, which is not `end`.
fn look_at_line<K: Sink>(
    alloc: Global,
    number: u32,
    line: &[u8],
    is_ended: bool,
    faults: &mut K,
) -> Result<Step, CheckFail>
    requires inside { number ≤ 1000000 }
    ensures looks { IfOk result (LineSteps number line.now is_ended (K.taken faults.old) (K.taken faults.new)) }
    ensures read { result ≢ Err CheckFail.Read }
    ensures later { K.faults faults.old ≤ K.faults faults.new }
    ensures write { result ≡ Err CheckFail.Write → Rose (K.faults faults.old) (K.faults faults.new) }
{
    if is_ended {
        return match look_at(alloc, number, line, faults) {
            Ok(is_right) => Ok(Step::On(is_right)),
            Err(fail) => Err(fail),
        };
    }
    look_at_last(alloc, number, line, faults)
}

fn is_end(line: &[u8]) -> bool
    ensures { IsTrue result ↔ (line.now ≡ codes "end") }
{
    line == b"end".as_slice()
}

// Reads the line of this number and looks at it.
fn turn<S: BufSource, K: Sink>(
    alloc: Global,
    number: u32,
    buf: &mut [u8; 600],
    script: &mut S,
    faults: &mut K,
) -> Result<Step, CheckFail>
    requires inside { number ≤ 1000000 }
    ensures steps { IfOk result (Steps number (S.left script.old) (S.left script.new) (K.taken faults.old) (K.taken faults.new)) }
    ensures fails { FailsSo (S.faults script.old) (S.faults script.new) (K.faults faults.old) (K.faults faults.new) result }
{
    match read_line(script, buf) {
        LineRead::Fault => Err(CheckFail::Read),
        LineRead::Long => tell_last(alloc, number, Fault::Long, faults),
        LineRead::End => tell_last(alloc, number, Fault::NoEnd, faults),
        LineRead::Line(len, is_ended) => {
            let line = &buf[..len as usize];
            if is_end(line) {
                if is_ended {
                    return look_over(alloc, number + 1, buf, script, faults);
                }
                return tell_last(alloc, number, Fault::NoLineEnd, faults);
            }
            look_at_line(alloc, number, line, is_ended, faults)
        }
    }
}

fn both(one: bool, other: bool) -> bool
    ensures { result ≡ one && other }
{
    one && other
}

/// Looks at each line of a script, up to its `end`. Writes each fault as a line: `line N: ` and its text, N counted from 1.
///
/// Nothing is looked at after a line of more than 600 bytes, nor after a million lines. `Read` is returned only if the script's
/// count of faults rose, and `Write` only if that of the sink did. What was written until then stays.
pub fn check_script<S: BufSource, K: Sink>(
    alloc: Global,
    script: &mut S,
    faults: &mut K,
) -> Result<Checked, CheckFail>
    ensures checks { IfOk result (λ c. Checks c (S.left script.old) (S.left script.new) (K.taken faults.old) (K.taken faults.new)) }
    ensures fails { FailsSo (S.faults script.old) (S.faults script.new) (K.faults faults.old) (K.faults faults.new) result }
{
    let mut buf = [0; 600];
    let mut is_well_formed = true;
    for count in 0..LINES {
        match turn(alloc, count + 1, &mut buf, script, faults) {
            Err(fail) => return Err(fail),
            Ok(Step::On(is_right)) => is_well_formed = both(is_well_formed, is_right),
            Ok(Step::Over(is_right)) => {
                return Ok(Checked {
                    lines: count + 1,
                    is_well_formed: both(is_well_formed, is_right),
                });
            }
        }
    }
    match tell(alloc, LINES, Fault::TooLong, faults) {
        Ok(()) => Ok(Checked {
            lines: LINES,
            is_well_formed: false,
        }),
        Err(fail) => Err(fail),
    }
}
