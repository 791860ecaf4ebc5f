//! The finding: where it is, what was due and what is there, what it may be, and the lines around it.
use crate::verdict::put_run;
use audit_facts::{
    FindingKind, Found, LINES, Line, PageContent, PrintsFinding, PrintsState, RunFinding, whole,
};
use audit_markup::{
    many, put_code, put_count, put_digest, put_name, put_place, put_texts, put_time,
};
use audit_sheet::Sheet;
use memchr::memchr;

/// How many lines are shown before the line of a finding, and after it.
const AROUND: u64 = 5;

/// The most bytes of an answer that are compared.
const MOST_COMPARED: usize = 600;

/// The line of the finding, its place among those with an answer, and how many of these there are.
#[derive(Clone, Copy)]
struct Place<'a> {
    at: u64,
    line: Line<'a>,
}

// Finds the line: that of its number, or the last one.
fn place_of(finding: &RunFinding) -> Option<Place<'_>> {
    let mut left = whole(finding.script.as_slice(), finding.report.as_slice());
    let mut found = None;
    let mut at = 0u64;
    for _ in 0..LINES {
        if left.is_over() {
            return found;
        }
        let (line, next) = left.turn();
        left = next;
        if let Some(line) = line {
            found = Some(Place { at, line });
            if line.number == finding.line {
                return found;
            }
            at = at.saturating_add(1);
        }
    }
    found
}

// Begins a row of the finding.
fn put_row(sheet: &mut Sheet, name: &'static str) {
    sheet.put_own("<tr><th scope=\"row\">");
    sheet.put_own(name);
    sheet.put_own("</th><td>");
}

fn put_run_row(sheet: &mut Sheet, page: &PageContent<'_>, finding: &RunFinding) {
    put_row(sheet, "Run");
    put_run(sheet, page, finding.run);
    sheet.put_own(", the ");
    put_place(sheet, (finding.run as u64).saturating_add(1));
    sheet.put_own(" of ");
    sheet.put_number(page.names.len() as u64);
    sheet.put_own("</td></tr>");
}

fn put_day_row(sheet: &mut Sheet, finding: &RunFinding) {
    if let Some(day) = finding.day {
        put_row(sheet, "Day");
        put_time(sheet, i64::from(day.get()));
        sheet.put_own("</td></tr>");
    }
}

fn put_script_row(sheet: &mut Sheet, finding: &RunFinding, script: &[u8]) {
    sheet.put_own("<tr><th scope=\"row\">Script, line ");
    sheet.put_number(finding.line as u64);
    sheet.put_own("</th><td>");
    put_code(sheet, script, 240);
    sheet.put_own("</td></tr>");
}

// Puts an answer beside another one, where words that differ are marked.
fn put_compared(sheet: &mut Sheet, name: &'static str, answer: &[u8], other: &[u8]) {
    put_row(sheet, name);
    sheet.put_own("<code>");
    put_texts(sheet, answer, other);
    sheet.put_own("</code></td></tr>");
}

fn put_answer_rows(sheet: &mut Sheet, finding: &RunFinding, answer: &[u8]) {
    let found = &answer[..answer.len().min(MOST_COMPARED)];
    match finding.kind {
        FindingKind::Wrong => {
            put_compared(sheet, "Due", finding.due.as_slice(), found);
            put_compared(sheet, "Found", found, finding.due.as_slice());
        }
        FindingKind::Forged => {
            put_row(sheet, "Found");
            put_code(sheet, found, 240);
            sheet.put_own("</td></tr>");
        }
        FindingKind::More => {}
    }
}

fn put_digest_row(sheet: &mut Sheet, page: &PageContent<'_>) {
    if let Some(digest) = page.digests.last() {
        put_row(sheet, "Digest before it");
        put_digest(sheet, digest);
        sheet.put_own("</td></tr>");
    }
}

// The first word of a line.
fn first_word(line: &[u8]) -> &[u8] {
    match memchr(b' ', line) {
        Some(at) if at < line.len() => &line[..at],
        _ => line,
    }
}

// Says what a wrong answer to this line may be.
fn put_cause_of_wrong(
    sheet: &mut Sheet,
    page: &PageContent<'_>,
    finding: &RunFinding,
    script: &[u8],
) {
    let word = first_word(script);
    if word == b"on".as_slice() {
        return sheet.put_own(
            "The node comes on with another number of commits than these runs lead to: a run was left out, an older copy of the folder was put back, or a storage was lost. Compare with the number that was noted.",
        );
    }
    if word == b"rates".as_slice() {
        sheet.put_own("Look first whether ");
        if let Some(name) = page.names.get(finding.run) {
            put_name(sheet, name.as_str());
        }
        return sheet.put_own(
            ".rates is there and is the file that the run read. A missing file counts as an empty one.",
        );
    }
    sheet.put_own(
        "An answer was altered, added or lost, or the script or the rates are not those of this run. A folder that lost the end of a report shows like this too. Compare the digest of the run before with the page that was kept.",
    );
}

fn put_cause(sheet: &mut Sheet, page: &PageContent<'_>, finding: &RunFinding, script: &[u8]) {
    sheet.put_own("</tbody></table><h3>What it may be</h3><p>");
    match finding.kind {
        FindingKind::Wrong => put_cause_of_wrong(sheet, page, finding, script),
        FindingKind::Forged => sheet.put_own(
            "Someone has the key of that device, gave the host a mark that no device released, or a run before this one was left out.",
        ),
        FindingKind::More => sheet.put_own(
            "Own lines of claims, departments, a manifest or a statement are no lines of these runs, and no sign of fraud. Otherwise the report has more than its script.",
        ),
    }
    sheet.put_own(
        "</p><h3>The lines around it</h3><div class=\"tw\"><table class=\"cx\"><thead><tr><th scope=\"col\" class=\"n\">line</th><th scope=\"col\">script</th><th scope=\"col\">report</th></tr></thead><tbody>",
    );
}

fn put_line(sheet: &mut Sheet, line: &Line<'_>, is_hit: bool) {
    sheet.put_own(if is_hit { "<tr class=\"hit\">" } else { "<tr>" });
    sheet.put_own("<th scope=\"row\" class=\"n\">");
    sheet.put_number(line.number as u64);
    sheet.put_own("</th><td>");
    put_code(sheet, line.script, 90);
    sheet.put_own("</td><td>");
    if line.answer.is_empty() {
        sheet.put_own("<i>no answer</i>");
    } else {
        put_code(sheet, line.answer, 120);
    }
    sheet.put_own("</td></tr>");
}

// Puts the lines around this place.
fn put_around(sheet: &mut Sheet, finding: &RunFinding, place: u64) {
    let mut left = whole(finding.script.as_slice(), finding.report.as_slice());
    let mut at = 0u64;
    for _ in 0..LINES {
        if left.is_over() || at > place.saturating_add(AROUND) {
            return;
        }
        let (line, next) = left.turn();
        left = next;
        if let Some(line) = &line {
            if at.saturating_add(AROUND) >= place {
                put_line(sheet, line, at == place);
            }
            at = at.saturating_add(1);
        }
    }
}

fn put_run_finding(sheet: &mut Sheet, page: &PageContent<'_>, finding: &RunFinding) {
    let (at, script, answer) = match place_of(finding) {
        Some(place) => (place.at, place.line.script, place.line.answer),
        None => (0, b"".as_slice(), b"".as_slice()),
    };
    sheet.put_own("<table class=\"fd\"><tbody>");
    put_run_row(sheet, page, finding);
    put_day_row(sheet, finding);
    put_script_row(sheet, finding, script);
    put_answer_rows(sheet, finding, answer);
    put_digest_row(sheet, page);
    put_cause(sheet, page, finding, script);
    put_around(sheet, finding, at);
    sheet.put_own(
        "</tbody></table></div><p class=\"q\">Keys and whole marks are never shown.</p></section>\n",
    );
}

// The job of the print at this line.
fn job_at(page: &PageContent<'_>, said: &PrintsFinding) -> Option<u32> {
    for print in page.facts.prints.iter() {
        if print.place.run == said.run && print.place.line == said.line {
            return Some(print.job);
        }
    }
    None
}

// Says which print it is.
fn put_print(sheet: &mut Sheet, page: &PageContent<'_>, said: &PrintsFinding) {
    sheet.put_own("<p>It is run ");
    put_run(sheet, page, said.run);
    sheet.put_own(", line ");
    put_count(sheet, said.line as u64);
    if let Some(job) = job_at(page, said) {
        sheet.put_own(", job ");
        sheet.put_number(job as u64);
    }
    sheet.put_own(", and line ");
    put_count(sheet, said.number);
    sheet.put_own(" of the file.</p><p>The print of that line is missing from ");
    put_name(sheet, said.file.as_str());
    sheet.put_own(", or another line is there.");
}

fn put_prints_finding(sheet: &mut Sheet, page: &PageContent<'_>, said: &PrintsFinding) {
    if let PrintsState::GoOn = said.state {
        sheet.put_own("<p>Bytes are left over in ");
        put_name(sheet, said.file.as_str());
        sheet.put_own(" after the last print.");
    } else {
        put_print(sheet, page, said);
    }
    sheet.put_own(" ");
    many(sheet, said.marks, "mark was", "marks were");
    sheet.put_own(" printed by the runs; the file has ");
    if said.lines > said.marks {
        sheet.put_own("more lines");
    } else {
        many(sheet, said.lines, "line", "lines");
    }
    sheet.put_own(
        ".</p><h3>What to do</h3><p>Keep the file. A line that was altered or added is postage that no run printed: look for that mark among the pieces, and do not accept it.</p></section>\n",
    );
}

/// Puts the finding, if there is one.
pub fn put_finding(sheet: &mut Sheet, page: &PageContent<'_>, found: &Found<'_>) {
    const HEAD: &str = "<section id=\"finding\"><h2>The finding</h2>";
    if let Some(finding) = found.finding {
        sheet.put_own(HEAD);
        return put_run_finding(sheet, page, finding);
    }
    if let Some(said) = found.prints {
        if let PrintsState::Differ | PrintsState::GoOn = said.state {
            sheet.put_own(HEAD);
            put_prints_finding(sheet, page, said);
        }
    }
}

/// Says that all figures are those of the runs before the finding, if one was found in a run.
pub fn put_cut(sheet: &mut Sheet, page: &PageContent<'_>, found: &Found<'_>) {
    if found.finding.is_none() {
        return;
    }
    let runs = page.facts.runs.len();
    if runs == 0 {
        return sheet.put_own(
            "<p class=\"cut\">No run before the finding, so there are no figures.</p>\n",
        );
    }
    sheet.put_own("<p class=\"cut\">All figures below are those of the ");
    many(sheet, runs as u64, "run", "runs");
    sheet.put_own(" before the finding, up to run ");
    put_run(sheet, page, runs - 1);
    sheet.put_own(".</p>\n");
}
