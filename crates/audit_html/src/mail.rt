//! The panel of mail: what became of the pieces that were franked, pieces a day, and what was paid and never printed. Amounts are in mills.
use crate::months::put_months;
use audit_facts::{ACCEPTED, Counts, PageContent};
use audit_markup::{
    MOST_ROWS, begin_picture, begin_plot, begin_table, end_table, many, put_amount_cell,
    put_count_cell, put_head, put_hundredths, put_more, put_number_head, put_time, share,
};
use audit_plots::{Axis, NONE, Unit, greatest, put_bars, put_grid, put_levels, ticks_for};
use audit_registers::{Span, span_of};
use audit_sheet::Sheet;
use audit_tally::{Job, Piece};
use bench_base::numbers::DevNo;
use bench_base::words::JobState;
use std::alloc::{AllocError, Global};

/// The most bars, and the fewest cells of their axis.
const MOST_BARS: u32 = 100;

const FEWEST_CELLS: u64 = 14;

/// The height of the picture of bars, in pixels.
const HEIGHT: u64 = 120;

/// How many pieces there are, and their postage: accepted, printed and not accepted, paid and not printed.
#[derive(Clone, Copy)]
struct Pieces {
    counts: [u64; 3],
    postage: [u64; 3],
}

const CLASSES: [&str; 3] = ["a", "l", "w"];

const NAMES: [&str; 3] = ["Accepted", "Printed, not yet accepted", "Paid, not printed"];

const TITLES: [&str; 3] = [
    ": accepted ",
    ", printed, not yet accepted ",
    ", paid, not printed ",
];

const MEANINGS: [&str; 3] = [
    " by the verifier, each once",
    " on their way, or spoiled",
    " waiting, or never to be printed",
];

// Whether the mark of the piece was printed.
fn is_printed(page: &PageContent<'_>, piece: &Piece) -> bool {
    let Some(job) = piece.job else {
        return false;
    };
    match page.jobs.get((job as usize).saturating_sub(1)) {
        Some(job) => job.printed,
        None => false,
    }
}

fn add_piece(page: &PageContent<'_>, pieces: &mut Pieces, piece: &Piece) {
    let at: usize = if piece.accepted {
        0
    } else if is_printed(page, piece) {
        1
    } else {
        2
    };
    pieces.counts[at] = pieces.counts[at].saturating_add(1);
    pieces.postage[at] = pieces.postage[at].saturating_add(piece.postage);
}

fn add_device(page: &PageContent<'_>, pieces: &mut Pieces, device: DevNo) {
    for piece in page.pieces.of_device(device).iter() {
        add_piece(page, pieces, piece);
    }
}

fn pieces_of(page: &PageContent<'_>) -> Pieces {
    let mut pieces = Pieces {
        counts: [0; 3],
        postage: [0; 3],
    };
    for number in 1..9 {
        if let Some(device) = DevNo::new(number) {
            add_device(page, &mut pieces, device);
        }
    }
    pieces
}

// The sum of the first of three, up to this one.
fn sum_to(values: &[u64; 3], end: usize) -> u64 {
    let mut sum = 0u64;
    for at in 0..3 {
        if at < end {
            sum = sum.saturating_add(values[at]);
        }
    }
    sum
}

fn put_part(sheet: &mut Sheet, pieces: &Pieces, at: usize) {
    if at >= 3 || pieces.counts[at] == 0 {
        return;
    }
    let all = sum_to(&pieces.counts, 3);
    let before = sum_to(&pieces.counts, at);
    sheet.put_own("<rect class=\"s-");
    sheet.put_own(CLASSES[at]);
    sheet.put_own("\" x=\"");
    put_hundredths(sheet, share(0, before, all, 10_000));
    sheet.put_own("\" width=\"");
    put_hundredths(sheet, share(before, pieces.counts[at], all, 10_000).max(20));
    sheet.put_own("\" height=\"18\"/>");
}

fn put_bar(sheet: &mut Sheet, pieces: &Pieces) {
    begin_picture(sheet, "bar", 18, "ml", 0);
    sheet.put_number(sum_to(&pieces.counts, 3));
    sheet.put_own(" pieces franked");
    for at in 0..3 {
        sheet.put_own(TITLES[at]);
        sheet.put_number(pieces.counts[at]);
    }
    sheet.put_own("</title>");
    for at in 0..3 {
        put_part(sheet, pieces, at);
    }
    sheet.put_own("</svg>");
}

fn put_part_row(sheet: &mut Sheet, pieces: &Pieces, at: usize) {
    if at >= 3 {
        return;
    }
    sheet.put_own("<tr><th scope=\"row\"><i class=\"sw s-");
    sheet.put_own(CLASSES[at]);
    sheet.put_own("\"></i>");
    sheet.put_own(NAMES[at]);
    sheet.put_own("<span class=\"q\">");
    sheet.put_own(MEANINGS[at]);
    sheet.put_own("</span></th>");
    put_count_cell(sheet, pieces.counts[at]);
    put_amount_cell(sheet, pieces.postage[at]);
    sheet.put_own("</tr>");
}

fn put_parts(sheet: &mut Sheet, pieces: &Pieces) {
    begin_table(sheet, "mo");
    put_head(sheet, "");
    put_number_head(sheet, "pieces");
    put_number_head(sheet, "postage");
    sheet.put_own("</tr></thead><tbody>");
    for at in 0..3 {
        put_part_row(sheet, pieces, at);
    }
    sheet.put_own("<tr class=\"sum\"><th scope=\"row\">Franked</th>");
    put_count_cell(sheet, sum_to(&pieces.counts, 3));
    put_amount_cell(sheet, sum_to(&pieces.postage, 3));
    sheet.put_own("</tr>");
    end_table(sheet);
}

// Adds the pieces of a slot to the values of their cells.
fn add_slot(values: &mut Vec<u64>, page: &PageContent<'_>, axis: &Axis, span: &Span, slot: usize) {
    for cell in page.facts.cells.of(slot).iter() {
        let at = usize::try_from(axis.cell(span.within(cell.day))).unwrap_or(0);
        if at < values.len() {
            values[at] = values[at].saturating_add(cell.pieces);
        }
    }
}

// Of each cell how many pieces were franked.
fn franked_in(
    alloc: Global,
    page: &PageContent<'_>,
    axis: &Axis,
    span: &Span,
) -> Result<Vec<u64>, AllocError> {
    let mut values = vec![in alloc; 0; usize::try_from(axis.cells).unwrap_or(0)]?;
    for slot in 0..8 {
        add_slot(&mut values, page, axis, span, slot);
    }
    Ok(values)
}

// Of each cell how many pieces were accepted.
fn accepted_in(
    alloc: Global,
    page: &PageContent<'_>,
    axis: &Axis,
    span: &Span,
) -> Result<Vec<u64>, AllocError> {
    let mut values = vec![in alloc; 0; usize::try_from(axis.cells).unwrap_or(0)]?;
    add_slot(&mut values, page, axis, span, ACCEPTED);
    Ok(values)
}

// Puts how long a cell is.
fn put_each(sheet: &mut Sheet, axis: &Axis) {
    match axis.size {
        1 => sheet.put_own("a day"),
        7 => sheet.put_own("a week"),
        size => {
            sheet.put_own("in ");
            sheet.put_number(size);
            sheet.put_own(" days");
        }
    }
}

fn put_curves(sheet: &mut Sheet, axis: &Axis, franked: &[u64], accepted: &[u64], top: u64) {
    begin_plot(sheet, axis.cells.saturating_mul(10), HEIGHT);
    sheet.put_own("<path class=\"f-f\" d=\"");
    put_bars(sheet, franked, top);
    sheet.put_own("\"/><path class=\"ha\" d=\"");
    put_levels(sheet, accepted, top);
    sheet.put_own("\"/><path class=\"ac\" d=\"");
    put_levels(sheet, accepted, top);
    sheet.put_own("\"/></svg></svg>");
}

// Puts the picture of pieces by day or week.
fn put_pieces(
    alloc: Global,
    sheet: &mut Sheet,
    page: &PageContent<'_>,
    span: &Span,
) -> Result<(), AllocError> {
    let days = Axis::weekly(span.first, span.last, MOST_BARS);
    let axis = Axis {
        cells: days.cells.max(FEWEST_CELLS),
        ..days
    };
    let franked = franked_in(alloc, page, &axis, span)?;
    let accepted = accepted_in(alloc, page, &axis, span)?;
    let most = greatest(franked.as_slice(), NONE).max(greatest(accepted.as_slice(), NONE));
    let ticks = ticks_for(most);
    sheet.put_own("<h3>Pieces ");
    put_each(sheet, &axis);
    sheet.put_own("</h3>");
    begin_picture(sheet, "c", HEIGHT + 22, "pc", 0);
    sheet.put_own("pieces franked and accepted ");
    put_each(sheet, &axis);
    sheet.put_own(", at most ");
    sheet.put_number(most);
    sheet.put_own("</title>");
    put_grid(sheet, &axis, ticks, HEIGHT, Unit::Pieces);
    put_curves(
        sheet,
        &axis,
        franked.as_slice(),
        accepted.as_slice(),
        ticks.top,
    );
    sheet.put_own(
        "<p class=\"q lg\"><span><i class=\"sw s-f\"></i>franked</span> <span><i class=\"swl\"></i>accepted that ",
    );
    sheet.put_own(match axis.size {
        1 => "day</span></p>",
        7 => "week</span></p>",
        _ => "time</span></p>",
    });
    Ok(())
}

// Whether the job was paid and closed, and never printed.
fn is_spoiled(job: &Job) -> bool {
    (job.held || job.begun) && !job.printed && matches!(job.state, JobState::Closed)
}

fn put_spoiled_row(sheet: &mut Sheet, number: usize, job: &Job) {
    sheet.put_own("<tr><th scope=\"row\">job ");
    sheet.put_number(number as u64);
    sheet.put_own("</th><td>");
    if let Some(day) = job.ordered {
        put_time(sheet, i64::from(day.get()));
    }
    sheet.put_own("</td><td>d");
    sheet.put_number(job.device.get() as u64);
    sheet.put_own(" piece ");
    sheet.put_number(job.piece as u64);
    sheet.put_own("</td>");
    put_amount_cell(sheet, job.postage);
    sheet.put_own(if job.begun {
        "<td>print begun, not confirmed: the mark may be on paper</td></tr>"
    } else {
        "<td>closed with its mark, unprinted</td></tr>"
    });
}

// How many jobs were paid and never printed, and their postage.
fn spoiled_in(jobs: &[Job]) -> (usize, u64) {
    let mut count = 0usize;
    let mut postage = 0u64;
    for job in jobs.iter() {
        if is_spoiled(job) {
            count = count.saturating_add(1);
            postage = postage.saturating_add(job.postage);
        }
    }
    (count, postage)
}

fn put_spoiled_rows(sheet: &mut Sheet, jobs: &[Job]) {
    let mut count = 0usize;
    for at in 0..jobs.len() {
        if is_spoiled(&jobs[at]) && count < MOST_ROWS {
            put_spoiled_row(sheet, at + 1, &jobs[at]);
            count = count.saturating_add(1);
        }
    }
}

fn put_spoiled(sheet: &mut Sheet, jobs: &[Job]) {
    let (count, postage) = spoiled_in(jobs);
    if count == 0 {
        return;
    }
    sheet.put_own("<h3>Paid and never printed <small>");
    many(sheet, count as u64, "job", "jobs");
    sheet.put_own(", ");
    sheet.put_mills(postage as i128);
    sheet.put_own("</small></h3>");
    begin_table(sheet, "nw");
    put_head(sheet, "job");
    put_head(sheet, "day");
    put_head(sheet, "piece");
    put_number_head(sheet, "postage");
    put_head(sheet, "how");
    sheet.put_own("</tr></thead><tbody>");
    put_spoiled_rows(sheet, jobs);
    end_table(sheet);
    put_more(sheet, count, MOST_ROWS, "jobs");
}

fn put_count_row(sheet: &mut Sheet, name: &'static str, count: u64) {
    sheet.put_own("<tr><th scope=\"row\">");
    sheet.put_own(name);
    sheet.put_own("</th>");
    put_count_cell(sheet, count);
    sheet.put_own("</tr>");
}

fn put_counts(sheet: &mut Sheet, counts: &Counts) {
    sheet.put_own("<details><summary>Counts as on the page of text</summary>");
    begin_table(sheet, "");
    put_head(sheet, "");
    put_number_head(sheet, "count");
    sheet.put_own("</tr></thead><tbody>");
    put_count_row(sheet, "jobs ordered", counts.ordered);
    put_count_row(sheet, "jobs held", counts.held);
    put_count_row(sheet, "jobs begun", counts.begun);
    put_count_row(sheet, "jobs printed", counts.printed);
    put_count_row(sheet, "jobs closed", counts.closed);
    put_count_row(sheet, "marks released", counts.released);
    put_count_row(sheet, "marks released again", counts.released_again);
    put_count_row(sheet, "marks accepted", counts.accepted);
    put_count_row(sheet, "marks accepted again", counts.accepted_again);
    put_count_row(sheet, "duplicates refused", counts.duplicates);
    end_table(sheet);
    sheet.put_own("</details></section>\n");
}

/// Puts the mail, in runs that have a day.
pub fn put_mail(sheet: &mut Sheet, page: &PageContent<'_>) {
    let Some(span) = span_of(page.standing) else {
        return;
    };
    let pieces = pieces_of(page);
    sheet.put_own("<section id=\"mail\"><h2>Mail</h2>");
    if sum_to(&pieces.counts, 3) == 0 {
        return sheet.put_own("<p class=\"none\">No piece was franked.</p></section>\n");
    }
    put_bar(sheet, &pieces);
    put_parts(sheet, &pieces);
    let alloc = sheet.alloc();
    if put_pieces(alloc, sheet, page, &span).is_err() {
        sheet.lose();
    }
    put_months(sheet, page, &span);
    put_spoiled(sheet, page.jobs);
    put_counts(sheet, &page.standing.counts);
}
