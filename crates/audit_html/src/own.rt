//! The panel of claims and departments: what was credited to customers, and what departments have left. Amounts are in mills.
use audit_markup::{begin_table, end_table, put_amount_cell, put_head, put_number_head};
use audit_sheet::Sheet;
use audit_tally::{Budget, OwnSums};
use bench_base::numbers::Customer;

/// The numbers of customers are below this one.
const CUSTOMERS: u32 = 65;

/// The numbers of departments are below this one.
const DEPARTMENTS: u32 = 17;

// What was credited to the customer of this number.
fn credits_of(sums: &OwnSums, number: u32) -> u64 {
    match Customer::new(number) {
        Some(customer) => sums.credits_of(customer),
        None => 0,
    }
}

fn has_credits(sums: &OwnSums) -> bool {
    for number in 1..CUSTOMERS {
        if credits_of(sums, number) > 0 {
            return true;
        }
    }
    false
}

fn has_budgets(sums: &OwnSums) -> bool {
    for department in 1..DEPARTMENTS {
        if sums.budget_of(department).is_some() {
            return true;
        }
    }
    false
}

fn begin_row(sheet: &mut Sheet, number: u32) {
    sheet.put_own("<tr><th scope=\"row\">");
    sheet.put_number(u64::from(number));
    sheet.put_own("</th>");
}

fn put_credits(sheet: &mut Sheet, sums: &OwnSums, number: u32) {
    let credits = credits_of(sums, number);
    if credits == 0 {
        return;
    }
    begin_row(sheet, number);
    put_amount_cell(sheet, credits);
    sheet.put_own("</tr>");
}

fn put_all_credits(sheet: &mut Sheet, sums: &OwnSums) {
    begin_table(sheet, "mo");
    put_head(sheet, "customer");
    put_number_head(sheet, "credited");
    sheet.put_own("</tr></thead><tbody>");
    for number in 1..CUSTOMERS {
        put_credits(sheet, sums, number);
    }
    end_table(sheet);
}

fn put_budget(sheet: &mut Sheet, department: u32, budget: &Budget) {
    begin_row(sheet, department);
    put_amount_cell(sheet, budget.quota);
    put_amount_cell(sheet, budget.quota.saturating_sub(budget.left));
    put_amount_cell(sheet, budget.left);
    sheet.put_own("</tr>");
}

fn put_all_budgets(sheet: &mut Sheet, sums: &OwnSums) {
    begin_table(sheet, "mo");
    put_head(sheet, "department");
    put_number_head(sheet, "quota");
    put_number_head(sheet, "spent");
    put_number_head(sheet, "left");
    sheet.put_own("</tr></thead><tbody>");
    for department in 1..DEPARTMENTS {
        if let Some(budget) = &sums.budget_of(department) {
            put_budget(sheet, department, budget);
        }
    }
    end_table(sheet);
}

/// Puts the panel, if a claim was credited or a department has a quota.
pub fn put_own_sums(sheet: &mut Sheet, sums: &OwnSums) {
    let (has_credits, has_budgets) = (has_credits(sums), has_budgets(sums));
    if !has_credits && !has_budgets {
        return;
    }
    sheet.put_own("<section id=\"own\"><h2>Claims and departments</h2>");
    if has_credits {
        put_all_credits(sheet, sums);
    }
    if has_budgets {
        put_all_budgets(sheet, sums);
    }
    sheet.put_own("</section>\n");
}
