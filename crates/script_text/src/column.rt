//! What a reply is counted as in the summary of a generated run.
ghost use Rattle.std.specs.Prelude.{◌≡◌};
ghost use Rattle.script_text.specs.Summaries as summaries;

use bench_base::events::Reply;
use bench_base::questions::Report;

/// What a reply is counted as, beside its event.
#[derive(Clone, Copy)]
pub enum Column {
    Refused,
    Power,
    Fault,
    Released,
    Accepted,
    Uncounted,
}

// What is counted of a report.
fn column_by(report: Report) -> Column
    ensures { result ≡ summaries.column_by report }
{
    match report {
        Report::Refusal(_) => Column::Refused,
        Report::Power(_) => Column::Power,
        Report::Fault(_) => Column::Fault,
        Report::Release { .. } => Column::Released,
        Report::Acceptance(false) => Column::Accepted,
        Report::Acceptance(true)
        | Report::Nothing
        | Report::Day(_)
        | Report::Rates
        | Report::Mark { .. }
        | Report::Message(_)
        | Report::Debit { .. }
        | Report::Ruling { .. }
        | Report::Verdict(_)
        | Report::Print(_)
        | Report::Damage(_) => Column::Uncounted,
    }
}

/// A refusal counts where its text begins with `refused`, a mark that is released each time, and an acceptance where it is new.
pub fn column_of(reply: &Reply) -> Column
    ensures { result ≡ summaries.column_of reply.now }
{
    column_by(reply.report())
}
