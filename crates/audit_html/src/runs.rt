//! The last panels: the numbers to note, and the runs with their digests.
use audit_facts::{NodeStanding, PageContent, RunFact, RunState};
use audit_markup::{month_of, put_count, put_date, put_digest, put_name};
use audit_panels::put_node;
use audit_sheet::Sheet;

/// The most runs of the table.
const MOST_RUNS: usize = 400;

fn put_number(sheet: &mut Sheet, standing: &NodeStanding) {
    sheet.put_own("up ");
    put_node(sheet, standing.node);
    sheet.put_own(" commits ");
    sheet.put_number(standing.commits);
    if standing.is_open {
        sheet.put_own("   # or one more: a commit is open");
    }
}

/// Puts the number of commits of each node.
pub fn put_numbers(sheet: &mut Sheet, nodes: &[NodeStanding]) {
    sheet.put_own(
        "<section id=\"note\"><h2>Numbers to note</h2><p>After these runs each node comes on with its number. Another number means a lost storage, an older copy, or a run that is not in this audit.</p><pre>",
    );
    for at in 0..nodes.len() {
        if at > 0 {
            sheet.put_own("\n");
        }
        put_number(sheet, &nodes[at]);
    }
    sheet.put_own("</pre></section>\n");
}

/// Which runs the table has: all, or the last one of each day, month or year.
#[derive(Clone, Copy, PartialEq, Eq)]
enum Each {
    Run,
    Day,
    Month,
    Year,
}

// What runs of one day, month or year have alike; 0 of one without a day.
fn key_of(run: &RunFact, each: Each) -> i64 {
    let Some(day) = run.last else {
        return 0;
    };
    let day = i64::from(day.get());
    match each {
        Each::Run | Each::Day => day,
        Each::Month => i64::from(month_of(day)),
        Each::Year => i64::from(month_of(day) / 12),
    }
}

// Whether the table has the run.
fn is_shown(runs: &[RunFact], each: Each, at: usize) -> bool {
    if each == Each::Run {
        return true;
    }
    match (runs.get(at), runs.get(at.saturating_add(1))) {
        (Some(run), Some(next)) => key_of(run, each) != key_of(next, each),
        _ => true,
    }
}

fn count_shown(runs: &[RunFact], each: Each) -> usize {
    let mut count = 0usize;
    for at in 0..runs.len() {
        if is_shown(runs, each, at) {
            count = count.saturating_add(1);
        }
    }
    count
}

// Which runs the table has room for.
fn each_of(runs: &[RunFact]) -> Each {
    for each in [Each::Run, Each::Day, Each::Month] {
        if count_shown(runs, each) <= MOST_RUNS {
            return each;
        }
    }
    Each::Year
}

// Puts the first day of a run and the last.
fn put_days(sheet: &mut Sheet, run: &RunFact) {
    let (Some(first), Some(last)) = (run.first, run.last) else {
        return;
    };
    put_date(sheet, i64::from(first.get()));
    if first.get() != last.get() {
        sheet.put_own(" to ");
        put_date(sheet, i64::from(last.get()));
    }
}

fn put_run(sheet: &mut Sheet, page: &PageContent<'_>, at: usize, run: &RunFact) {
    sheet.put_own("<tr><th scope=\"row\">");
    if let Some(name) = page.names.get(at) {
        put_name(sheet, name.as_str());
    }
    sheet.put_own("</th><td>");
    put_days(sheet, run);
    sheet.put_own(match run.state {
        RunState::Lawful => "</td><td>lawful</td><td class=\"n\">",
        RunState::Stopped(_) => "</td><td>stopped</td><td class=\"n\">",
        RunState::EndsBadly(_) | RunState::TooLong => { "</td><td>ends badly</td><td class=\"n\">" }
    });
    sheet.put_number(run.answers as u64);
    sheet.put_own("</td><td>");
    if let Some(digest) = page.digests.get(at) {
        put_digest(sheet, digest);
    }
    sheet.put_own("</td></tr>");
}

// Puts the rows of the table, but for so many at the beginning.
fn put_rows(sheet: &mut Sheet, page: &PageContent<'_>, each: Each, left_out: usize) {
    let runs = page.facts.runs.as_slice();
    let mut count = 0usize;
    for at in 0..runs.len() {
        if is_shown(runs, each, at) {
            if count >= left_out {
                put_run(sheet, page, at, &runs[at]);
            }
            count = count.saturating_add(1);
        }
    }
}

fn put_table(sheet: &mut Sheet, page: &PageContent<'_>) {
    let runs = page.facts.runs.as_slice();
    let each = each_of(runs);
    let shown = count_shown(runs, each);
    sheet.put_own(
        "<details class=\"long\"><summary>Each run with the digest up to it</summary><div class=\"tw\"><table class=\"rn\"><thead><tr><th scope=\"col\">run</th><th scope=\"col\">days</th><th scope=\"col\">verdict</th><th scope=\"col\" class=\"n\">answers</th><th scope=\"col\">digest</th></tr></thead><tbody>",
    );
    put_rows(sheet, page, each, shown.saturating_sub(MOST_RUNS));
    sheet.put_own("</tbody></table></div>");
    if runs.len() > shown.min(MOST_RUNS) {
        sheet.put_own("<p class=\"q\">");
        put_count(sheet, (runs.len() - shown.min(MOST_RUNS)) as u64);
        sheet.put_own(
            " more, not listed: only the last run of each day, month or year stands here.</p>",
        );
    }
    sheet.put_own("</details></section>\n");
}

/// Puts the runs with their digests.
pub fn put_runs(sheet: &mut Sheet, page: &PageContent<'_>) {
    sheet.put_own("<section id=\"runs\"><h2>Runs <small>");
    sheet.put_number(page.facts.runs.len() as u64);
    sheet.put_own(
        "</small></h2><p>The last digest covers scripts, reports and rates of all runs in their order. Keep it elsewhere:</p><p class=\"dg\">",
    );
    if let Some(digest) = page.digests.last() {
        put_digest(sheet, digest);
    }
    sheet.put_own("</p>");
    put_table(sheet, page);
}
