//! The whole page.
use crate::incidents::put_incidents;
use crate::mail::put_mail;
use crate::own::put_own_sums;
use crate::runs::{put_numbers, put_runs};
use crate::style::{FOOTER, NARROW, PICTURES, SYMBOLS, TEXTS};
use audit_facts::{Found, PageContent};
use audit_panels::{put_cut, put_days, put_finding, put_money, put_title, put_todo, put_verdict};
use audit_registers::{put_customers, put_devices};
use audit_sheet::Sheet;
use std::alloc::{AllocError, Global};

fn put_head(sheet: &mut Sheet, page: &PageContent<'_>, found: &Found<'_>) {
    sheet.put_own(
        "<!DOCTYPE html>\n<html lang=\"en\"><head><meta charset=\"utf-8\"><meta name=\"viewport\" content=\"width=device-width,initial-scale=1\"><meta http-equiv=\"Content-Security-Policy\" content=\"default-src 'none'; style-src 'unsafe-inline'\"><title>",
    );
    put_title(sheet, page, found);
    sheet.put_own("</title><style>");
    sheet.put_own(TEXTS);
    sheet.put_own(PICTURES);
    sheet.put_own(NARROW);
    sheet.put_own("</style></head><body>\n");
    sheet.put_own(SYMBOLS);
    sheet.put_own("\n<header><p>Audit of a postage meter</p><h1>");
    put_days(sheet, page);
    sheet.put_own("</h1></header><main>\n");
}

// Puts the panels of runs of which nothing was found.
fn put_panels(sheet: &mut Sheet, page: &PageContent<'_>) {
    put_todo(sheet, page);
    put_money(sheet, page.standing);
    put_devices(sheet, page);
    put_customers(sheet, page);
    put_own_sums(sheet, page.own);
    put_mail(sheet, page);
    put_incidents(sheet, page);
    put_numbers(sheet, page.standing.nodes.as_slice());
    put_runs(sheet, page);
}

/// The page of an audit. AllocError is lack of memory.
pub fn page_of(
    alloc: Global,
    page: &PageContent<'_>,
    found: &Found<'_>,
) -> Result<Vec<u8>, AllocError> {
    let mut sheet = Sheet::new(alloc, page.facts.has_mills);
    put_head(&mut sheet, page, found);
    put_verdict(&mut sheet, page, found);
    put_finding(&mut sheet, page, found);
    put_cut(&mut sheet, page, found);
    if !page.facts.runs.is_empty() {
        put_panels(&mut sheet, page);
    }
    sheet.put_own("</main>");
    sheet.put_own(FOOTER);
    sheet.end()
}
