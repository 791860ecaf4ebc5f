//! The marks that a run gave to the printer.
ghost use Rattle.std.specs.Prelude.{◌≡◌, ◌++◌, OnOk, OnErr};
ghost use Rattle.bench_base.specs.Events.{IsWholeEvent};
ghost use Rattle.trace_bench.specs.Seeing.{audit_of};
ghost use Rattle.trace_runs.specs.Imprints.{GivesSo, IsDueMark, IsTaken, LeavesOpen, imprint_at};

use bench_base::events::{Event, Reply};
use std::alloc::AllocError;
use trace_bench::{Auditor, begins, mark_due};
use trace_nodes::is_told;

/// What the printer took of the line of a mark.
#[derive(Clone, Copy)]
pub enum Printed {
    /// The whole line.
    Whole,
    /// None, some or all of it: the printer failed in it, or the run was stopped there.
    Part,
}

/// What the printer was given in an event: a mark, and what it took of its line.
#[derive(Clone, Copy)]
pub struct Given {
    pub mark: [u8; 64],
    pub taken: Printed,
}

/// What the printer was given for a line of a script, which is counted from 1.
#[derive(Clone, Copy)]
pub struct Imprint {
    pub line: u32,
    pub given: Given,
}

/// The mark that the event prints where nothing fails; None where it is no `print`.
pub fn due_mark(auditor: &Auditor, event: &Event) -> Option<[u8; 64]>
    requires whole { IsWholeEvent event.now }
    ensures { IsDueMark (audit_of auditor.now) event.now result }
{
    let Event::Print(job) = event else {
        return None;
    };
    mark_due(auditor, *job)
}

/// What the printer was given in an event that prints this mark where nothing fails, and has this line.
pub fn given_in(event: &Event, due: Option<[u8; 64]>, line: &[u8]) -> Option<Given>
    ensures { GivesSo event.now due line.now result }
{
    let Event::Print(job) = event else {
        return None;
    };
    let Some(mark) = due else {
        return None;
    };
    if is_told(&Reply::Printed(*job), line) {
        return Some(Given {
            mark,
            taken: Printed::Whole,
        });
    }
    if is_told(&Reply::PrinterFault(*job), line) {
        return Some(Given {
            mark,
            taken: Printed::Part,
        });
    }
    None
}

// What the printer took in a `print` of this job, if the report ends with this prefix of its answer: the whole line of the mark, if `printed` alone
// begins so, and otherwise none, some or all of it.
fn taken_by(job: u32, prefix: &[u8]) -> Printed
    ensures { IsTaken job prefix.now result }
{
    if begins(&Reply::PrinterFault(job), prefix) {
        return Printed::Part;
    }
    if begins(&Reply::Printed(job), prefix) {
        Printed::Whole
    } else {
        Printed::Part
    }
}

// What the printer was given in an event that prints this mark if nothing fails, and has this prefix of its line in the report, if anything.
pub fn open_in(event: &Event, due: Option<[u8; 64]>, prefix: &[u8]) -> Option<Given>
    ensures { LeavesOpen event.now due prefix.now result }
{
    let Event::Print(job) = event else {
        return None;
    };
    let Some(mark) = due else {
        return None;
    };
    Some(Given {
        mark,
        taken: taken_by(*job, prefix),
    })
}

/// Adds it after the others, if the printer was given something.
pub fn keep(imprints: &mut Vec<Imprint>, line: u32, given: Option<Given>) -> Result<(), AllocError>
    ensures ok { OnOk result (imprints.new.items ≡ imprints.old.items ++ imprint_at line given) }
    ensures err { OnErr result (imprints.new.items ≡ imprints.old.items) }
{
    if let Some(given) = given {
        imprints.push(Imprint { line, given })?;
    }
    Ok(())
}
