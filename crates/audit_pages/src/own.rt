//! What was credited to customers, and what departments have spent, on a page. Amounts are in mills.
use crate::saying::say;
use audit_journal::{BookFault, money_text};
use audit_tally::{Budget, OwnSums};
use bench_base::numbers::Customer;
use std::alloc::{AllocError, Global};

/// The numbers of customers are below this one.
const CUSTOMERS: u32 = 65;

/// The numbers of departments are below this one.
const DEPARTMENTS: u32 = 17;

fn credits_text(alloc: Global, customer: Customer, credits: u64) -> Result<String, AllocError> {
    let credits = money_text(alloc, credits)?;
    format!(in alloc; "credited customer {} {credits}", customer.get())
}

// Prints what was credited to the customer, if that is something.
fn tell_credits(rt: &HostRuntime, sums: &OwnSums, number: u32) -> Result<(), BookFault> {
    let Some(customer) = Customer::new(number) else {
        return Ok(());
    };
    match sums.credits_of(customer) {
        0 => Ok(()),
        credits => say(rt, credits_text(rt.alloc(), customer, credits)),
    }
}

fn budget_text(alloc: Global, department: u32, budget: &Budget) -> Result<String, AllocError> {
    let spent = money_text(alloc, budget.quota.saturating_sub(budget.left))?;
    let quota = money_text(alloc, budget.quota)?;
    let left = money_text(alloc, budget.left)?;
    format!(in alloc; "department {department} spent {spent} quota {quota} left {left}")
}

// Prints the budget of the department, if it has one.
fn tell_budget(rt: &HostRuntime, sums: &OwnSums, department: u32) -> Result<(), BookFault> {
    match &sums.budget_of(department) {
        Some(budget) => say(rt, budget_text(rt.alloc(), department, budget)),
        None => Ok(()),
    }
}

// Prints the budgets of departments, a line each.
fn tell_budgets(rt: &HostRuntime, sums: &OwnSums) -> Result<(), BookFault> {
    for department in 1..DEPARTMENTS {
        tell_budget(rt, sums, department)?;
    }
    Ok(())
}

/// Prints what was credited to each customer, and what each department has spent, a line each. BookFault::Write if standard output takes no more,
/// BookFault::Memory is lack of memory.
pub fn tell_own(rt: &HostRuntime, sums: &OwnSums) -> Result<(), BookFault> {
    for number in 1..CUSTOMERS {
        tell_credits(rt, sums, number)?;
    }
    tell_budgets(rt, sums)
}
