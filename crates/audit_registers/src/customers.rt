//! The panel of customers: what each paid in, loaded, got back and has left, and by month. Amounts are in mills.
use crate::tracks::{Months, Span, Track, month_sum, months_of, put_month_head, span_of, track_of};
use audit_facts::{Cell, CustomerStanding, PageContent, customer_slot};
use audit_markup::{
    begin_picture, begin_plot, begin_table, end_table, put_amount_cell, put_count_cell, put_head,
    put_more, put_number_head,
};
use audit_plots::{Axis, NONE, greatest, put_stair};
use audit_sheet::Sheet;
use bench_base::numbers::Customer;
use std::alloc::{AllocError, Global};

/// The most points of a curve, and of one where there are many customers.
const MOST_POINTS: u32 = 400;

const FEWER_POINTS: u32 = 120;

const MANY: usize = 8;

/// The most rows of the table by month and customer.
const MOST_LINES: usize = 200;

// Puts the devices of a customer.
fn put_owned(sheet: &mut Sheet, page: &PageContent<'_>, customer: Customer) {
    let mut count = 0usize;
    for device in page.standing.devices.iter() {
        if device.customer == Some(customer) {
            sheet.put_own(if count == 0 { "d" } else { ", d" });
            sheet.put_number(device.device.get() as u64);
            count = count.saturating_add(1);
        }
    }
    if count == 0 {
        sheet.put_own("no device");
    }
}

fn put_row(sheet: &mut Sheet, page: &PageContent<'_>, standing: &CustomerStanding) {
    sheet.put_own("<tr><th scope=\"row\">");
    sheet.put_number(standing.customer.get() as u64);
    sheet.put_own("<span class=\"q\"> ");
    put_owned(sheet, page, standing.customer);
    if standing.is_suspended {
        sheet.put_own(", <b>suspended</b>");
    }
    sheet.put_own("</span></th>");
    put_amount_cell(sheet, standing.deposits);
    put_amount_cell(sheet, standing.bought);
    put_amount_cell(sheet, standing.returned);
    put_amount_cell(sheet, standing.balance);
    sheet.put_own("</tr>");
}

// Puts the curve of a balance, whose greatest value is this.
fn put_curve(sheet: &mut Sheet, standing: &CustomerStanding, values: &[u64], most: u64) {
    let number = standing.customer.get() as u64;
    sheet.put_own("<tr class=\"sp\"><td colspan=\"5\">");
    begin_picture(sheet, "bar", 34, "cu", number);
    sheet.put_own("customer ");
    sheet.put_number(number);
    sheet.put_own(": balance over time, at most ");
    sheet.put_mills(most as i128);
    sheet.put_own(", at the end ");
    sheet.put_mills(standing.balance as i128);
    sheet.put_own("</title>");
    begin_plot(sheet, values.len() as u64, 34);
    sheet.put_own("<path class=\"f-b\" d=\"");
    put_stair(sheet, values, most);
    sheet.put_own("\"/></svg></svg><span class=\"q pk\">balance, at most ");
    sheet.put_mills(most as i128);
    sheet.put_own("</span></td></tr>");
}

// Puts the picture of a balance, unless it is always nothing.
fn put_picture(
    alloc: Global,
    sheet: &mut Sheet,
    page: &PageContent<'_>,
    span: &Span,
    standing: &CustomerStanding,
) -> Result<(), AllocError> {
    let points = if page.standing.customers.len() > MANY {
        FEWER_POINTS
    } else {
        MOST_POINTS
    };
    let axis = Axis::new(span.first, span.last, points);
    let cells = page.facts.cells.of(customer_slot(standing.customer));
    let values = track_of(alloc, &axis, span, cells, Track::Level)?;
    let most = greatest(values.as_slice(), NONE);
    if most > 0 {
        put_curve(sheet, standing, values.as_slice(), most);
    }
    Ok(())
}

// What all customers together have.
fn total_of(customers: &[CustomerStanding]) -> [u64; 4] {
    let mut total = [0u64; 4];
    for standing in customers.iter() {
        total[0] = total[0].saturating_add(standing.deposits);
        total[1] = total[1].saturating_add(standing.bought);
        total[2] = total[2].saturating_add(standing.returned);
        total[3] = total[3].saturating_add(standing.balance);
    }
    total
}

fn put_total(sheet: &mut Sheet, customers: &[CustomerStanding]) {
    let total = total_of(customers);
    sheet.put_own("<tr class=\"sum\"><th scope=\"row\">all</th>");
    for at in 0..4 {
        put_amount_cell(sheet, total[at]);
    }
    sheet.put_own("</tr>");
}

fn put_table(sheet: &mut Sheet, page: &PageContent<'_>, span: &Span) {
    let customers = page.standing.customers.as_slice();
    begin_table(sheet, "cu");
    put_head(sheet, "customer");
    put_number_head(sheet, "paid in");
    put_number_head(sheet, "loaded");
    put_number_head(sheet, "returned");
    put_number_head(sheet, "balance");
    sheet.put_own("</tr></thead><tbody>");
    let alloc = sheet.alloc();
    for standing in customers.iter() {
        put_row(sheet, page, standing);
        if put_picture(alloc, sheet, page, span, standing).is_err() {
            sheet.lose();
        }
    }
    if customers.len() > 1 {
        put_total(sheet, customers);
    }
    end_table(sheet);
}

// What happened of a customer in a month.
fn sum_at(page: &PageContent<'_>, span: &Span, number: u32, month: u32) -> Option<Cell> {
    let customer = Customer::new(number)?;
    let cells = page.facts.cells.of(customer_slot(customer));
    let sum = month_sum(cells, span, month, month.saturating_add(1));
    let is_moved = sum.paid > 0 || sum.loaded > 0 || sum.returned > 0 || sum.pieces > 0;
    if is_moved { Some(sum) } else { None }
}

// How many customers something happened of in a month.
fn count_in(page: &PageContent<'_>, span: &Span, month: u32) -> usize {
    let mut count = 0usize;
    for number in 1..65 {
        if sum_at(page, span, number, month).is_some() {
            count = count.saturating_add(1);
        }
    }
    count
}

// In how many months something happened of a customer, over all.
fn count_lines(page: &PageContent<'_>, span: &Span, months: &Months) -> usize {
    let mut count = 0usize;
    for month in months.first..months.end {
        count = count.saturating_add(count_in(page, span, month));
    }
    count
}

fn put_line(sheet: &mut Sheet, number: u32, month: u32, sum: &Cell) {
    put_month_head(sheet, month);
    sheet.put_own("<td>");
    sheet.put_number(number as u64);
    sheet.put_own("</td>");
    put_amount_cell(sheet, sum.paid);
    put_amount_cell(sheet, sum.loaded);
    put_amount_cell(sheet, sum.returned);
    put_amount_cell(sheet, sum.franked);
    put_count_cell(sheet, sum.pieces);
    sheet.put_own("</tr>");
}

// Puts the lines of a month, but for so many of them.
fn put_lines(sheet: &mut Sheet, page: &PageContent<'_>, span: &Span, month: u32, left_out: usize) {
    let mut at = 0usize;
    for number in 1..65 {
        if let Some(sum) = &sum_at(page, span, number, month) {
            if at >= left_out {
                put_line(sheet, number, month, sum);
            }
            at = at.saturating_add(1);
        }
    }
}

fn put_months(sheet: &mut Sheet, page: &PageContent<'_>, span: &Span) {
    sheet.put_own("<details><summary>By month and customer</summary>");
    begin_table(sheet, "");
    put_head(sheet, "month");
    put_head(sheet, "customer");
    put_number_head(sheet, "paid in");
    put_number_head(sheet, "loaded");
    put_number_head(sheet, "returned");
    put_number_head(sheet, "franked");
    put_number_head(sheet, "pieces");
    sheet.put_own("</tr></thead><tbody>");
    let months = months_of(span);
    let lines = count_lines(page, span, &months);
    let mut left_out = lines.saturating_sub(MOST_LINES);
    for month in months.first..months.end {
        put_lines(sheet, page, span, month, left_out);
        left_out = left_out.saturating_sub(count_in(page, span, month));
    }
    end_table(sheet);
    put_more(sheet, lines, MOST_LINES, "the months before");
    sheet.put_own("</details></section>\n");
}

/// Puts the customers, in runs that have a day.
pub fn put_customers(sheet: &mut Sheet, page: &PageContent<'_>) {
    let Some(span) = span_of(page.standing) else {
        return;
    };
    sheet.put_own("<section id=\"customers\"><h2>Customers</h2>");
    if page.standing.customers.is_empty() {
        return sheet.put_own("<p class=\"none\">No customer is open.</p></section>\n");
    }
    put_table(sheet, page, &span);
    put_months(sheet, page, &span);
}
