//! What was credited to customers, and what departments have left, by the lines of runs' own. Amounts are in mills.
use bench_base::numbers::Customer;

/// The quota of a department, and what is left of it.
#[derive(Clone, Copy)]
pub struct Budget {
    pub quota: u64,
    pub left: u64,
}

/// The credits of each customer, and the budget of each department.
#[derive(Clone, Copy)]
pub struct OwnSums {
    /// Of customers, from 0 on.
    credits: [u64; 65],
    /// Of departments, from 0 on.
    budgets: [Option<Budget>; 17],
}

impl OwnSums {
    /// Nothing was credited, and there is no quota.
    pub fn new() -> OwnSums {
        OwnSums {
            credits: [0; 65],
            budgets: [None; 17],
        }
    }

    /// What was credited to the customer.
    pub fn credits_of(&self, customer: Customer) -> u64 {
        self.credits
            .get(customer.get() as usize)
            .copied()
            .unwrap_or(0)
    }

    /// The budget of the department. None if it has no quota.
    pub fn budget_of(&self, department: u32) -> Option<Budget> {
        *self.budgets.get(department as usize)?
    }

    /// Credits this to the customer.
    pub fn credit(&mut self, customer: Customer, postage: u64) {
        let sum = self.credits_of(customer).saturating_add(postage);
        let at = customer.get() as usize;
        if at < self.credits.len() {
            self.credits[at] = sum;
        }
    }

    /// Sets the quota of the department. What it has spent stays.
    pub fn set_quota(&mut self, department: u32, quota: u64) {
        let spent = match self.budget_of(department) {
            Some(budget) => budget.quota.saturating_sub(budget.left),
            None => 0,
        };
        let left = quota.saturating_sub(spent);
        self.keep(department, Budget { quota, left });
    }

    /// So much is left to the department.
    pub fn leave(&mut self, department: u32, left: u64) {
        if let Some(budget) = self.budget_of(department) {
            self.keep(department, Budget { left, ..budget });
        }
    }

    fn keep(&mut self, department: u32, budget: Budget) {
        let at = department as usize;
        if at < self.budgets.len() {
            self.budgets[at] = Some(budget);
        }
    }
}
