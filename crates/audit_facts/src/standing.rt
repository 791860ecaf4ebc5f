//! What devices, customers and nodes have after the runs. Amounts are in mills.
use bench_base::numbers::{Customer, DayNo, DevNo};
use bench_base::words::{Kind, Node, Phase};

/// A device that was made.
#[derive(Clone, Copy)]
pub struct DeviceStanding {
    pub device: DevNo,
    pub customer: Option<Customer>,
    pub phase: Phase,
    pub ascending: u64,
    pub descending: u64,
    pub refunded: u64,
    pub pieces: u32,
    /// The last day before it is locked; 0 without one.
    pub deadline: i32,
    /// What it has asked for and not applied, and on which day.
    pub pending: Option<Kind>,
    pub asked: Option<DayNo>,
    /// What it holds by its own registers, and by the centre, if it is registered there.
    pub held: u64,
    pub centre: Option<u64>,
    /// What is in flight between it and the centre.
    pub flight: Option<Kind>,
    pub amount: u64,
}

/// A customer that is open.
#[derive(Clone, Copy)]
pub struct CustomerStanding {
    pub customer: Customer,
    pub deposits: u64,
    pub bought: u64,
    pub returned: u64,
    pub balance: u64,
    pub is_suspended: bool,
}

/// The commits of a node.
#[derive(Clone, Copy)]
pub struct NodeStanding {
    pub node: Node,
    pub commits: u64,
    pub is_open: bool,
}

/// What was counted.
#[derive(Clone, Copy)]
pub struct Counts {
    pub ordered: u64,
    pub held: u64,
    pub begun: u64,
    pub printed: u64,
    pub closed: u64,
    pub released: u64,
    pub released_again: u64,
    pub accepted: u64,
    pub accepted_again: u64,
    pub duplicates: u64,
}

/// All of it, with the first day and the last one that was entered.
#[derive(Drop)]
pub struct Standing {
    pub devices: Vec<DeviceStanding>,
    pub customers: Vec<CustomerStanding>,
    pub nodes: Vec<NodeStanding>,
    pub counts: Counts,
    pub days: Option<(DayNo, DayNo)>,
}
