//! Mail by month. Amounts are in mills.
use audit_facts::{ACCEPTED, PageContent};
use audit_markup::{
    begin_table, end_table, part, put_amount_cell, put_count_cell, put_head, put_hundredths,
    put_number_head,
};
use audit_registers::{Span, month_sum, months_of, put_month_head};
use audit_sheet::Sheet;

/// What was franked and accepted: pieces, and their postage.
#[derive(Clone, Copy)]
struct Sum {
    franked: u64,
    postage: u64,
    accepted: u64,
    accepted_postage: u64,
}

// What was franked and accepted in the months from the first up to the end.
fn sum_in(page: &PageContent<'_>, span: &Span, first: u32, end: u32) -> Sum {
    let accepted = month_sum(page.facts.cells.of(ACCEPTED), span, first, end);
    let mut sum = Sum {
        franked: 0,
        postage: 0,
        accepted: accepted.pieces,
        accepted_postage: accepted.franked,
    };
    for slot in 0..8 {
        let franked = month_sum(page.facts.cells.of(slot), span, first, end);
        sum.franked = sum.franked.saturating_add(franked.pieces);
        sum.postage = sum.postage.saturating_add(franked.franked);
    }
    sum
}

// The greatest postage of a month.
fn most_of(page: &PageContent<'_>, span: &Span, first: u32, end: u32) -> u64 {
    let mut most = 0;
    for month in first..end {
        let sum = sum_in(page, span, month, month.saturating_add(1));
        if sum.postage > most {
            most = sum.postage;
        }
    }
    most
}

fn put_accepted(sheet: &mut Sheet, sum: &Sum) {
    put_count_cell(sheet, sum.accepted);
    put_amount_cell(sheet, sum.accepted_postage);
    sheet.put_own("</tr>");
}

fn put_month(sheet: &mut Sheet, month: u32, sum: &Sum, most: u64) {
    put_month_head(sheet, month);
    put_count_cell(sheet, sum.franked);
    put_amount_cell(sheet, sum.postage);
    sheet.put_own(
        "<td class=\"wide\"><svg class=\"hb\" aria-hidden=\"true\"><rect class=\"s-f\" width=\"",
    );
    put_hundredths(sheet, part(sum.postage, most, 10_000));
    sheet.put_own("\" height=\"10\"/></svg></td>");
    put_accepted(sheet, sum);
}

/// Puts mail by month.
pub fn put_months(sheet: &mut Sheet, page: &PageContent<'_>, span: &Span) {
    sheet.put_own("<h3>By month</h3>");
    begin_table(sheet, "mm");
    put_head(sheet, "month");
    put_number_head(sheet, "franked");
    put_number_head(sheet, "postage");
    sheet.put_own("<th scope=\"col\" class=\"wide\"></th>");
    put_number_head(sheet, "accepted");
    put_number_head(sheet, "postage");
    sheet.put_own("</tr></thead><tbody>");
    let months = months_of(span);
    let most = most_of(page, span, months.first, months.end);
    for month in months.shown..months.end {
        let sum = sum_in(page, span, month, month.saturating_add(1));
        put_month(sheet, month, &sum, most);
    }
    let all = sum_in(page, span, months.first, months.end);
    sheet.put_own("<tr class=\"sum\"><th scope=\"row\">all</th>");
    put_count_cell(sheet, all.franked);
    put_amount_cell(sheet, all.postage);
    sheet.put_own("<td class=\"wide\"></td>");
    put_accepted(sheet, &all);
    end_table(sheet);
}
