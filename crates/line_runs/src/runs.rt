//! A run over a whole script: line by line, until it ends.
ghost use Rattle.std.specs.Prelude.{◌≡◌, ◌+◌, ◌≤◌, ◌<◌, ◌↔◌, IfNone, IfSome, Some};
ghost use Rattle.line_runs.specs.declared.status.Status.{Status};
ghost use Rattle.bench_base.specs.Causes.{Rose};
ghost use Rattle.line_runs.specs.Ends.{IsByScript, EndsAs, IsComplete};
ghost use Rattle.line_runs.specs.Runs.{Replayed};
ghost use Rattle.line_runs.specs.Turns.{Goes, Stops, Ended};

use crate::line_handler::LineHandler;
use crate::lines::{LineRead, read_line};
use crate::status::{SideStatus, Status};
use bench_base::stream::Sink;
use std::alloc::Global;
use text_streams::BufSource;

/// The most lines that are read.
const LINES: u32 = 1_000_000;

// How a run ends if the script has ended after the line of this number.
fn missing_after(number: u32) -> SideStatus
    requires { number ≤ 1000000 }
    ensures missing { number < 1000000 → result ≡ SideStatus.Run (Status.Script (number + 1)) }
    ensures long { number ≡ 1000000 → result ≡ SideStatus.Run Status.TooLong }
{
    SideStatus::Run(if number < LINES {
        Status::Script(number + 1)
    } else {
        Status::TooLong
    })
}

// Reads the line of this number and does it. A status is the run's end.
fn turn<C: LineHandler, S: BufSource, K: Sink>(
    alloc: Global,
    number: u32,
    buf: &mut [u8; 600],
    script: &mut S,
    desk: &mut C::Extension,
    bench: &mut C::Bench,
    rates: &mut C::Rates,
    printer: &mut C::Printer,
    report: &mut K,
) -> Option<SideStatus>
    requires few { number ≤ 1000000 }
    requires ready { C.IsReady (C.world desk.old bench.old rates.old printer.old) }
    requires room { C.used (C.world desk.old bench.old rates.old printer.old) < 1000000 }
    ensures ready { C.IsReady (C.world desk.new bench.new rates.new printer.new) }
    ensures uses { C.used (C.world desk.new bench.new rates.new printer.new) ≤ C.used
        (C.world desk.old bench.old rates.old printer.old) + 1 }
    ensures goes { IfNone result (Goes C.lines C.Does (C.world desk.old bench.old rates.old printer.old)
        (C.world desk.new bench.new rates.new printer.new) (S.left script.old) (S.left script.new) (K.taken report.old)
        (K.taken report.new)) }
    ensures stops { IfSome result (λ s. Stops C.lines C.Does C.Leaves s number
        (C.world desk.old bench.old rates.old printer.old) (C.world desk.new bench.new rates.new printer.new)
        (S.left script.old) (S.left script.new) (K.taken report.old) (K.taken report.new)) }
    ensures read_later { S.faults script.old ≤ S.faults script.new }
    ensures read_failed { result ≡ Some (SideStatus.Run Status.ReadFault)
        → Rose (S.faults script.old) (S.faults script.new) }
    ensures write_later { K.faults report.old ≤ K.faults report.new }
    ensures write_failed { result ≡ Some (SideStatus.Run Status.WriteFault)
        → Rose (K.faults report.old) (K.faults report.new) }
{
    match read_line(script, buf) {
        LineRead::Fault => Some(SideStatus::Run(Status::ReadFault)),
        LineRead::End | LineRead::Long => Some(SideStatus::Run(Status::Script(number))),
        LineRead::Line(len, is_ended) => {
            let line = &buf[..len as usize];
            match C::do_line(alloc, number, line, desk, bench, rates, printer, report) {
                Some(status) => Some(status),
                None => {
                    if is_ended {
                        return None;
                    }
                    Some(missing_after(number))
                }
            }
        }
    }
}

/// Does the script's lines up to the run's end.
pub fn run_lines<C: LineHandler, S: BufSource, K: Sink>(
    alloc: Global,
    script: &mut S,
    desk: &mut C::Extension,
    bench: &mut C::Bench,
    rates: &mut C::Rates,
    printer: &mut C::Printer,
    report: &mut K,
) -> SideStatus
    requires ready { C.IsReady (C.world desk.old bench.old rates.old printer.old) }
    requires fresh { C.used (C.world desk.old bench.old rates.old printer.old) ≡ 0 }
    ensures ready { C.IsReady (C.world desk.new bench.new rates.new printer.new) }
    ensures ran { Replayed C.lines result (Ended C.Does C.Leaves result
        (C.world desk.old bench.old rates.old printer.old) (C.world desk.new bench.new rates.new printer.new))
        (S.left script.old) (S.left script.new) (K.taken report.old) (K.taken report.new) }
    ensures exact { IfSome (S.left script.old) (λ bytes. IsByScript result → (s : Status) → (result ≡ SideStatus.Run s)
        ↔ EndsAs C.lines.grammar s bytes) }
    ensures completes { (result ≡ SideStatus.Run Status.ReadFault → ⊥) → (result ≡ SideStatus.Run Status.WriteFault → ⊥)
        → (result ≡ SideStatus.Stopped → ⊥)
        → IfSome (S.left script.old) (λ bytes. (end : EndsAs C.lines.grammar Status.Done bytes)
        → IsComplete C.lines.grammar result end.passed) }
    ensures read_later { S.faults script.old ≤ S.faults script.new }
    ensures read_failed { result ≡ SideStatus.Run Status.ReadFault → Rose (S.faults script.old) (S.faults script.new) }
    ensures write_later { K.faults report.old ≤ K.faults report.new }
    ensures write_failed { result ≡ SideStatus.Run Status.WriteFault
        → Rose (K.faults report.old) (K.faults report.new) }
{
    let mut buf = [0; 600];
    for count in 0..LINES {
        match turn::<C, S, K>(
            alloc,
            count + 1,
            &mut buf,
            script,
            desk,
            bench,
            rates,
            printer,
            report,
        ) {
            Some(status) => return status,
            None => {}
        }
    }
    SideStatus::Run(Status::TooLong)
}
