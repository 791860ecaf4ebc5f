//! The table below the verdicts: what the auditor has after the runs, a fact a line.
ghost use Rattle.trace_bench.specs.Seeing.{IsReady, audit_of};

use crate::saying::{say, tell_reply};
use audit_journal::{BookFault, node_text};
use bench_base::events::Reply;
use bench_base::numbers::{Customer, DayNo, DevNo};
use bench_base::words::Node;
use std::alloc::{AllocError, Global};
use trace_bench::Auditor;

fn commits_text(alloc: Global, node: &Node, commits: u64) -> Result<String, AllocError> {
    let word = node_text(alloc, node)?;
    format!(in alloc; "commits {word} {commits}")
}

// Prints how many commits of the node count.
fn tell_commits(rt: &HostRuntime, auditor: &Auditor, node: &Node) -> Result<(), BookFault>
    requires ready { IsReady (audit_of auditor.now) }
{
    say(rt, commits_text(rt.alloc(), node, auditor.commits_of(node)))
}

fn open_text(alloc: Global, node: &Node) -> Result<String, AllocError> {
    let word = node_text(alloc, node)?;
    format!(in alloc; "open {word}")
}

// Prints that a commit of the node is open, if one is.
fn tell_open(rt: &HostRuntime, auditor: &Auditor, node: &Node) -> Result<(), BookFault>
    requires ready { IsReady (audit_of auditor.now) }
{
    if !auditor.is_open(node) {
        return Ok(());
    }
    say(rt, open_text(rt.alloc(), node))
}

// Prints what there is of the device; of one that wasn't made, only that a commit of it is open.
fn tell_device(
    rt: &HostRuntime,
    auditor: &Auditor,
    device: DevNo,
    day: DayNo,
) -> Result<(), BookFault>
    requires ready { IsReady (audit_of auditor.now) }
{
    let node = Node::Device(device);
    if let Some(status) = auditor.status_of(device, day) {
        tell_reply(rt, status)?;
        tell_commits(rt, auditor, &node)?;
    }
    tell_open(rt, auditor, &node)
}

fn tell_devices(rt: &HostRuntime, auditor: &Auditor, day: DayNo) -> Result<(), BookFault>
    requires ready { IsReady (audit_of auditor.now) }
{
    for number in 1..9 {
        if let Some(device) = DevNo::new(number) {
            tell_device(rt, auditor, device, day)?;
        }
    }
    Ok(())
}

// Prints the balance of the customer, if it is open.
fn tell_balance(rt: &HostRuntime, auditor: &Auditor, customer: Customer) -> Result<(), BookFault> {
    match auditor.balance_of(customer) {
        Some(balance) => tell_reply(rt, balance),
        None => Ok(()),
    }
}

// Prints the balance of each customer that is open.
fn tell_balances(rt: &HostRuntime, auditor: &Auditor) -> Result<(), BookFault> {
    for number in 1..65 {
        if let Some(customer) = Customer::new(number) {
            tell_balance(rt, auditor, customer)?;
        }
    }
    Ok(())
}

// Prints what there is of a node that isn't a device.
fn tell_node(rt: &HostRuntime, auditor: &Auditor, node: &Node) -> Result<(), BookFault>
    requires ready { IsReady (audit_of auditor.now) }
{
    tell_commits(rt, auditor, node)?;
    tell_open(rt, auditor, node)
}

// Prints the day, and what there is of the devices on it.
fn tell_day(rt: &HostRuntime, auditor: &Auditor, day: DayNo) -> Result<(), BookFault>
    requires ready { IsReady (audit_of auditor.now) }
{
    tell_reply(rt, Reply::Day(day))?;
    tell_devices(rt, auditor, day)
}

// Prints what there is of the host and of the verifier.
fn tell_others(rt: &HostRuntime, auditor: &Auditor) -> Result<(), BookFault>
    requires ready { IsReady (audit_of auditor.now) }
{
    tell_node(rt, auditor, &Node::Host)?;
    say(rt, format!(in rt.alloc(); "jobs {}", auditor.last_job()))?;
    tell_node(rt, auditor, &Node::Verifier)
}

/// Prints the table, if this is the last day that was reported. Without one nothing was done in any run, and no device was made.
/// BookFault::Write if standard output takes no more, BookFault::Memory is lack of memory.
pub fn tell_table(rt: &HostRuntime, auditor: &Auditor, day: Option<DayNo>) -> Result<(), BookFault>
    requires ready { IsReady (audit_of auditor.now) }
{
    if let Some(day) = day {
        tell_day(rt, auditor, day)?;
    }
    tell_node(rt, auditor, &Node::Centre)?;
    tell_balances(rt, auditor)?;
    tell_others(rt, auditor)
}
