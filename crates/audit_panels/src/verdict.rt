//! The verdict: what an audit found, in words.
use audit_facts::{FindingKind, Found, PageContent, PrintsFinding, PrintsState, RunFact, RunState};
use audit_markup::{many, put_count, put_date_words, put_name};
use audit_sheet::Sheet;

/// How many runs of a kind are named.
const MOST_NAMED: usize = 3;

/// What was found.
#[derive(Clone, Copy)]
enum State {
    Lawful,
    Wrong,
    Forged,
    More,
    Prints,
}

fn state_of(found: &Found<'_>) -> State {
    if let Some(finding) = found.finding {
        return match finding.kind {
            FindingKind::Wrong => State::Wrong,
            FindingKind::Forged => State::Forged,
            FindingKind::More => State::More,
        };
    }
    match found.prints {
        Some(said) if is_other(said) => State::Prints,
        _ => State::Lawful,
    }
}

// Whether the prints are not those of the runs.
fn is_other(said: &PrintsFinding) -> bool {
    matches!(said.state, PrintsState::Differ | PrintsState::GoOn)
}

/// Puts the first day and the last.
pub fn put_days(sheet: &mut Sheet, page: &PageContent<'_>) {
    let Some((first, last)) = page.standing.days else {
        return sheet.put_own("no day");
    };
    put_date_words(sheet, i64::from(first.get()));
    if first.get() != last.get() {
        sheet.put_own(" to ");
        put_date_words(sheet, i64::from(last.get()));
    }
}

/// Puts the title that a browser shows.
pub fn put_title(sheet: &mut Sheet, page: &PageContent<'_>, found: &Found<'_>) {
    sheet.put_own(match state_of(found) {
        State::Lawful => "Lawful",
        State::Wrong => "NOT LAWFUL",
        State::Forged => "FORGED",
        State::More => "NOT JUDGED TO THE END",
        State::Prints => "PRINTS DIFFER",
    });
    sheet.put_own(": meter audit, ");
    put_days(sheet, page);
}

// Puts the colour, the sign and the word of the verdict.
fn put_word(sheet: &mut Sheet, state: State) {
    sheet.put_own(match state {
        State::Lawful => {
            "<section class=\"v ok\"><h2><svg class=\"ic\" aria-hidden=\"true\"><use href=\"#yes\"/></svg>"
        }
        State::More => {
            "<section class=\"v mid\"><h2><svg class=\"ic\" aria-hidden=\"true\"><use href=\"#mid\"/></svg>"
        }
        State::Wrong | State::Forged | State::Prints => {
            "<section class=\"v bad\"><h2><svg class=\"ic\" aria-hidden=\"true\"><use href=\"#no\"/></svg>"
        }
    });
    sheet.put_own(match state {
        State::Lawful => "Lawful</h2><p>",
        State::Wrong => "Not lawful</h2><p>",
        State::Forged => "Forged</h2><p>",
        State::More => "Not judged to the end</h2><p>",
        State::Prints => "The prints differ</h2><p>",
    });
}

// How many answers these runs have.
fn answers_in(runs: &[RunFact]) -> u64 {
    let mut answers = 0u64;
    for run in runs.iter() {
        answers = answers.saturating_add(run.answers as u64);
    }
    answers
}

fn put_lawful(sheet: &mut Sheet, page: &PageContent<'_>) {
    sheet.put_own("A correct meter may have written every one of the ");
    put_count(sheet, answers_in(page.facts.runs.as_slice()));
    sheet.put_own(" answers in ");
    let runs = page.names.len();
    if runs == 1 {
        return sheet.put_own("this run.</p>");
    }
    sheet.put_own("these ");
    sheet.put_number(runs as u64);
    sheet.put_own(" runs.</p>");
}

fn put_other_prints(sheet: &mut Sheet, page: &PageContent<'_>, found: &Found<'_>) {
    let runs = page.names.len() as u64;
    sheet.put_own("All ");
    many(sheet, runs, "run", "runs");
    sheet.put_own(" are lawful, but ");
    if let Some(said) = found.prints {
        put_bold(sheet, said.file.as_str());
    }
    sheet.put_own(if runs == 1 {
        " is not what it printed.</p>"
    } else {
        " is not what they printed.</p>"
    });
}

// Puts the name of a run or a file, in bold.
fn put_bold(sheet: &mut Sheet, name: &str) {
    sheet.put_own("<b>");
    put_name(sheet, name);
    sheet.put_own("</b>");
}

/// Puts the name of a run, in bold.
pub(crate) fn put_run(sheet: &mut Sheet, page: &PageContent<'_>, run: usize) {
    if let Some(name) = page.names.get(run) {
        put_bold(sheet, name.as_str());
    }
}

// Says how many runs are before the finding, and how many after it.
fn put_others(sheet: &mut Sheet, before: u64, after: u64) {
    if before == 0 {
        sheet.put_own("No run is before it");
    } else {
        sheet.put_own("The ");
        many(sheet, before, "run", "runs");
        sheet.put_own(if before == 1 {
            " before it is lawful"
        } else {
            " before it are lawful"
        });
    }
    if after > 0 {
        sheet.put_own("; ");
        many(sheet, after, "run", "runs");
        sheet.put_own(if after == 1 {
            " after it was not judged"
        } else {
            " after it were not judged"
        });
    }
    sheet.put_own(".</p>");
}

fn put_run_finding(
    sheet: &mut Sheet,
    page: &PageContent<'_>,
    found: &Found<'_>,
    words: &'static str,
) {
    let Some(finding) = found.finding else {
        return;
    };
    sheet.put_own(words);
    sheet.put_own(" in run ");
    put_run(sheet, page, finding.run);
    sheet.put_own(", line ");
    put_count(sheet, finding.line as u64);
    sheet.put_own(" of its script. ");
    let before = page.facts.runs.len();
    let after = page.names.len().saturating_sub(before).saturating_sub(1);
    put_others(sheet, before as u64, after as u64);
}

fn put_sentence(sheet: &mut Sheet, page: &PageContent<'_>, found: &Found<'_>, state: State) {
    match state {
        State::Lawful => put_lawful(sheet, page),
        State::Prints => put_other_prints(sheet, page, found),
        State::Wrong => {
            put_run_finding(
                sheet,
                page,
                found,
                "No correct meter gives the answer found",
            )
        }
        State::Forged => put_run_finding(
            sheet,
            page,
            found,
            "Bytes that no node of these runs sent or released were given",
        ),
        State::More => put_run_finding(
            sheet,
            page,
            found,
            "The report goes on where the script has ended",
        ),
    }
}

// Says where a run was stopped.
fn put_stop(sheet: &mut Sheet, page: &PageContent<'_>, run: usize, line: u32) {
    sheet.put_own("<p class=\"q\">Run ");
    put_run(sheet, page, run);
    sheet.put_own(" was stopped before its answer to line ");
    put_count(sheet, line as u64);
    sheet.put_own(": what is missing there was not judged.</p>");
}

// Says which runs were stopped.
fn put_stops(sheet: &mut Sheet, page: &PageContent<'_>) {
    let runs = page.facts.runs.as_slice();
    let mut count = 0usize;
    for at in 0..runs.len() {
        if let RunState::Stopped(line) = runs[at].state {
            if count < MOST_NAMED {
                put_stop(sheet, page, at, line);
            }
            count = count.saturating_add(1);
        }
    }
    if count > MOST_NAMED {
        sheet.put_own("<p class=\"q\">");
        sheet.put_number((count - MOST_NAMED) as u64);
        sheet.put_own(" more runs were stopped.</p>");
    }
}

// Says where a script ends badly, or that it is too long.
fn put_bad_end(sheet: &mut Sheet, page: &PageContent<'_>, run: usize, line: Option<u32>) {
    sheet.put_own("<p class=\"q\">Run ");
    put_run(sheet, page, run);
    sheet.put_own(": the script ends badly");
    match line {
        Some(line) => {
            sheet.put_own(" at line ");
            sheet.put_number(line as u64);
            sheet.put_own(".</p>");
        }
        None => sheet.put_own(", it is too long.</p>"),
    }
}

// Says which scripts end badly.
fn put_bad_ends(sheet: &mut Sheet, page: &PageContent<'_>) {
    let runs = page.facts.runs.as_slice();
    let mut count = 0usize;
    for at in 0..runs.len() {
        let (is_bad, line) = match runs[at].state {
            RunState::EndsBadly(line) => (true, Some(line)),
            RunState::TooLong => (true, None),
            RunState::Lawful | RunState::Stopped(_) => (false, None),
        };
        if is_bad && count < MOST_NAMED {
            put_bad_end(sheet, page, at, line);
            count = count.saturating_add(1);
        }
    }
}

fn put_unjudged_prints(sheet: &mut Sheet) {
    sheet.put_own("<p class=\"q\">What was printed was not judged.</p>");
}

// Says what is known of prints that are not found to be others.
fn put_prints(sheet: &mut Sheet, said: &PrintsFinding) {
    if is_other(said) {
        return;
    }
    sheet.put_own("<p class=\"q\">The prints in ");
    put_bold(sheet, said.file.as_str());
    sheet.put_own(" fit: ");
    many(sheet, said.lines, "line", "lines");
    if said.lines == said.marks {
        return sheet.put_own(", each the mark of one print.</p>");
    }
    sheet.put_own(" of ");
    many(sheet, said.marks, "print", "prints");
    sheet.put_own(", since the printer failed or a run was stopped.</p>");
}

// Says where else to look for what was found of marks on mail.
fn put_seen(sheet: &mut Sheet, file: &str) {
    sheet.put_own("<p class=\"q\">The marks in ");
    put_bold(sheet, file);
    sheet.put_own(
        " were judged apart: what was found of them is with the verdicts, and not on this page.</p>",
    );
}

fn put_notes(sheet: &mut Sheet, page: &PageContent<'_>, found: &Found<'_>) {
    put_stops(sheet, page);
    put_bad_ends(sheet, page);
    match found.prints {
        Some(said) => put_prints(sheet, said),
        None => put_unjudged_prints(sheet),
    }
    if let Some(file) = found.seen {
        put_seen(sheet, file);
    }
}

/// Puts the verdict.
pub fn put_verdict(sheet: &mut Sheet, page: &PageContent<'_>, found: &Found<'_>) {
    let state = state_of(found);
    put_word(sheet, state);
    put_sentence(sheet, page, found, state);
    put_notes(sheet, page, found);
    if let State::Lawful = state {
        sheet.put_own(
            "<p class=\"q\">Lawful says that a correct meter can have written this. It does not say that one did, that mail was sent, or that a mark is on paper only once.</p>",
        );
    }
    sheet.put_own("</section>\n");
}
