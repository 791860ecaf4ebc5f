//! The panel of incidents: what failed or was stopped, what was not granted, and what was refused.
use crate::refusals::put_refusals;
use audit_facts::PageContent;
use audit_markup::{
    MOST_ROWS, begin_table, end_table, put_amount, put_code, put_head, put_more, put_name, put_time,
};
use audit_panels::kind_name;
use audit_sheet::Sheet;
use audit_tally::{Incident, Mishap, Outcome, Place, Ungranted};
use bench_base::numbers::DayNo;
use bench_base::words::Verdict;

/// The most characters of a line of an incident.
const MOST_LINE: usize = 60;

/// Puts the run and the line of a place.
pub(crate) fn put_place(sheet: &mut Sheet, page: &PageContent<'_>, place: &Place) {
    sheet.put_own("<td>");
    if let Some(name) = page.names.get(place.run) {
        put_name(sheet, name.as_str());
    }
    sheet.put_own("<span class=\"q\">:");
    sheet.put_number(place.line as u64);
    sheet.put_own("</span></td>");
}

// Begins a row by a day.
fn put_day(sheet: &mut Sheet, day: Option<DayNo>) {
    sheet.put_own("<tr><th scope=\"row\">");
    if let Some(day) = day {
        put_time(sheet, i64::from(day.get()));
    }
    sheet.put_own("</th>");
}

fn mishap_words(mishap: &Mishap) -> &'static str {
    match mishap {
        Mishap::Power(_) => "power was cut</td><td>",
        Mishap::Fault(_) => "storage failed</td><td>",
        Mishap::Printer(_) => "the printer failed</td><td>",
        Mishap::Stop => "the run was stopped</td><td>",
    }
}

// Whether the commit of the line counts. That a print began always does.
fn outcome_words(incident: &Incident) -> &'static str {
    match (incident.mishap, incident.outcome) {
        (Mishap::Printer(_), _) | (_, Outcome::None) => "</td></tr>",
        (_, Outcome::Doubt) => "in doubt</td></tr>",
        (_, Outcome::Done) => "done</td></tr>",
        (_, Outcome::NotDone) => "not done</td></tr>",
    }
}

// Puts the line of an incident and its answer.
fn put_lines(sheet: &mut Sheet, page: &PageContent<'_>, at: usize) {
    sheet.put_own("<td>");
    match page.facts.lines.get(at) {
        Some(lines) if lines.answer.is_empty() => {
            put_code(sheet, lines.script.as_slice(), MOST_LINE);
            sheet.put_own("</td><td><i>no answer</i>");
        }
        Some(lines) => {
            put_code(sheet, lines.script.as_slice(), MOST_LINE);
            sheet.put_own("</td><td>");
            put_code(sheet, lines.answer.as_slice(), MOST_LINE);
        }
        None => sheet.put_own("</td><td>"),
    }
    sheet.put_own("</td><td>");
}

fn put_incident(sheet: &mut Sheet, page: &PageContent<'_>, at: usize, incident: &Incident) {
    put_day(sheet, incident.day);
    put_place(sheet, page, &incident.place);
    put_lines(sheet, page, at);
    sheet.put_own(mishap_words(&incident.mishap));
    sheet.put_own(outcome_words(incident));
}

// Begins a list: its heading, and how many rows it has.
fn begin_list(sheet: &mut Sheet, heading: &'static str, count: usize) {
    sheet.put_own(heading);
    sheet.put_number(count as u64);
    sheet.put_own("</small></h3>");
    begin_table(sheet, "nw");
    put_head(sheet, "day");
    put_head(sheet, "run and line");
}

fn put_failures(sheet: &mut Sheet, page: &PageContent<'_>) {
    let count = page.incidents.len();
    if count == 0 {
        return;
    }
    begin_list(sheet, "<h3>Power, storage, printer, stops <small>", count);
    put_head(sheet, "script");
    put_head(sheet, "answer");
    put_head(sheet, "what");
    put_head(sheet, "the line's commit");
    sheet.put_own("</tr></thead><tbody>");
    for at in 0..count {
        if at < MOST_ROWS {
            put_incident(sheet, page, at, &page.incidents[at]);
        }
    }
    end_table(sheet);
    put_more(sheet, count, MOST_ROWS, "later ones");
}

fn verdict_words(verdict: Verdict) -> &'static str {
    match verdict {
        Verdict::Granted => "granted",
        Verdict::NotEnrolled => "not enrolled",
        Verdict::EnrolledAlready => "enrolled already",
        Verdict::NoCustomer => "no such customer",
        Verdict::Suspended => "customer suspended",
        Verdict::NoFunds => "not enough money",
        Verdict::Imbalance => "out of balance",
    }
}

fn put_request(sheet: &mut Sheet, page: &PageContent<'_>, found: &Ungranted) {
    put_day(sheet, found.ask.day);
    put_place(sheet, page, &found.place);
    sheet.put_own("<td>d");
    sheet.put_number(found.device.get() as u64);
    sheet.put_own("</td><td>");
    sheet.put_own(kind_name(found.ask.kind));
    if let Some(asked) = found.ask.asked {
        if asked > 0 {
            sheet.put_own(" of ");
            put_amount(sheet, asked);
        }
    }
    sheet.put_own("</td><td>");
    sheet.put_own(verdict_words(found.verdict));
    sheet.put_own("</td></tr>");
}

fn put_requests(sheet: &mut Sheet, page: &PageContent<'_>) {
    let count = page.ungranted.len();
    if count == 0 {
        return;
    }
    begin_list(sheet, "<h3>Requests not granted <small>", count);
    put_head(sheet, "device");
    put_head(sheet, "request");
    put_head(sheet, "why");
    sheet.put_own("</tr></thead><tbody>");
    for at in 0..count {
        if at < MOST_ROWS {
            put_request(sheet, page, &page.ungranted[at]);
        }
    }
    end_table(sheet);
    put_more(sheet, count, MOST_ROWS, "later ones");
}

/// Puts what failed, was stopped, was not granted and was refused.
pub fn put_incidents(sheet: &mut Sheet, page: &PageContent<'_>) {
    let refusals = page.facts.refusals.as_slice();
    sheet.put_own("<section id=\"incidents\"><h2>Incidents</h2>");
    put_failures(sheet, page);
    put_requests(sheet, page);
    put_refusals(sheet, page, refusals);
    if page.incidents.is_empty() && page.ungranted.is_empty() && refusals.is_empty() {
        sheet.put_own("<p class=\"none\">None: no power cut, no failure, no stop, no refusal.</p>");
    }
    sheet.put_own("</section>\n");
}
