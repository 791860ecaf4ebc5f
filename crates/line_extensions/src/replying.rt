//! What becomes of the reply to an event: its line in the report, and whether the run ends with it.
ghost use Rattle.std.specs.Prelude.{◌≡◌, ◌≢◌, ℕ, List, IfNone, IfSome, OnOk, OnErr};
ghost use Rattle.std.specs.Io.KnownBytes.{Appends};
ghost use Rattle.script_text.specs.Texts.{IsWholeReply};
ghost use Rattle.bench_base.specs.Causes.{HasCause};
ghost use Rattle.bench_base.specs.declared.events.Event.TheVariants as ends;
ghost use Rattle.line_runs.specs.Lines.{IsCutOff};
ghost use Rattle.line_extensions.specs.Trace.{line_of};

use bench_base::events::{Event, Reply};
use bench_base::stream::{Sink, WriteFail};
use line_runs::status::{SideStatus, Status};
use script_text::put_reply;
use script_words::Line;
use text_streams::put_text;

/// The end of the run, with the event that is it.
pub fn ended_by(event: &Event) -> Option<SideStatus>
    ensures goes_on { IfNone result (event.now ≢ ends.End) }
    ensures done { IfSome result (λ s. (s ≡ SideStatus.Run Status.Done) × (event.now ≡ ends.End)) }
{
    if event.ends() {
        Some(SideStatus::Run(Status::Done))
    } else {
        None
    }
}

/// Writes the line of the reply. With `WriteFail` a prefix of it was written, and the report's count of faults rose. The numbers of a reply
/// fit their types (`whole`).
pub fn put_line<K: Sink>(reply: &Reply, report: &mut K) -> Result<(), WriteFail>
    ensures whole { IsWholeReply reply.now }
    ensures ok { OnOk result (Appends (K.taken report.old) (K.taken report.new) (line_of reply.now)) }
    ensures err { OnErr result ((part : List ℕ) × Appends (K.taken report.old) (K.taken report.new) part
        × IsCutOff part (line_of reply.now)) }
    ensures cause { HasCause (K.faults report.old) (K.faults report.new) result }
{
    let mut line = Line::new();
    put_reply(&mut line, reply);
    line.push(b'\n');
    put_text(report, line.as_slice())
}
