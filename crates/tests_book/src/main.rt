//! Ledgers that are lawful, and ledgers that break one clause each: prints what the slow book says of each.
#![tactic(auto)]

mod breaks;
mod messages;
mod path;
mod today;

use bench_base::ledger::{Commit, Entry};
use bench_base::words::Node;
use breaks::{CASES, Case};
use ledger_book::{balance_in, counted, lawful, sums};
use std::alloc::{AllocError, Global};
use std::io;

fn ledger_of(alloc: Global, case: &Case) -> Result<Vec<Entry>, AllocError> {
    let mut ledger = Vec::new(alloc);
    for at in 0..case.keep {
        if at != case.without
            && let Some(entry) = path::entry(alloc, case.version, at)
        {
            ledger.push(entry)?;
        }
    }
    for step in case.steps {
        ledger.push(breaks::entry_of(case.version, *step))?;
    }
    Ok(ledger)
}

// How many commits count where the device's first commit was torn and it comes on with this many.
fn counted_at(alloc: Global, commits: u64) -> Result<usize, AllocError> {
    let d = path::device();
    let mut ledger = Vec::new(alloc);
    ledger.push(Entry::Torn {
        node: Node::Device(d),
        commit: Commit::Made {
            device: d,
            key: [1; 32],
        },
    })?;
    ledger.push(Entry::Up {
        node: Node::Device(d),
        commits,
    })?;
    Ok(counted(alloc, &ledger)?.len())
}

// Prints the counts, and the figures of the ordinary path.
fn print_figures(rt: &HostRuntime) -> io::Result<()> {
    for commits in 0..3 {
        let count = counted_at(rt.alloc(), commits)?;
        println!(rt; "torn, and up with {commits}: {count} counted")?;
    }
    let Some(whole) = CASES.first() else {
        return Ok(());
    };
    // sample ledger_book
    let commits = counted(rt.alloc(), &ledger_of(rt.alloc(), whole)?)?;
    let figures = sums(&commits, path::device());
    println!(rt;
        "ascending {} descending {} refunded {} pieces {}",
        figures.ascending, figures.descending, figures.refunded, figures.pieces
    )?;
    let balance = balance_in(&commits, path::customer());
    println!(rt; "balance {balance}")?;
    // end of sample
    Ok(())
}

fn main(rt: HostRuntime) -> io::Result<()> {
    for case in CASES {
        let ledger = ledger_of(rt.alloc(), case)?;
        let verdict = lawful(rt.alloc(), &ledger)?;
        let name = case.name;
        println!(rt; "{name}: {verdict}")?;
    }
    print_figures(&rt)
}
