//! Incidents: a node lost its power, a storage or a printer failed, or a run was stopped; with whether the line was done.
use crate::place::Place;
use bench_base::events::Reply;
use bench_base::numbers::{DayNo, DevNo};
use bench_base::words::Node;
use std::alloc::{AllocError, Global};
use trace_nodes::is_told;

/// What went wrong at a line.
#[derive(Clone, Copy)]
pub enum Mishap {
    Power(Node),
    Fault(Node),
    /// The job with the mark that could not be printed.
    Printer(u32),
    /// The report ends before the answer to the line.
    Stop,
}

/// What became of the commit of the line.
#[derive(Clone, Copy)]
pub enum Outcome {
    /// It makes none.
    None,
    Doubt,
    Done,
    NotDone,
}

/// What went wrong, its place and its day.
#[derive(Clone, Copy)]
pub struct Incident {
    pub place: Place,
    pub mishap: Mishap,
    pub day: Option<DayNo>,
    pub outcome: Outcome,
}

/// All that went wrong, in its order.
#[derive(Drop)]
pub struct Incidents {
    rows: Vec<Incident>,
}

// The loss of power of this node, or the failure of its storage, if the line reports one.
fn failure_at(node: &Node, line: &[u8]) -> Option<Mishap> {
    if is_told(&Reply::Power(*node), line) {
        return Some(Mishap::Power(*node));
    }
    if is_told(&Reply::Fault(*node), line) {
        return Some(Mishap::Fault(*node));
    }
    None
}

fn node_at(place: u32) -> Node {
    match DevNo::new(place) {
        Some(device) => Node::Device(device),
        None => match place {
            9 => Node::Centre,
            10 => Node::Host,
            _ => Node::Verifier,
        },
    }
}

/// What went wrong if the line is not that of the answer that was due; `printing` is the job that was to be printed. None if it reports
/// only that a commit in doubt counts.
pub fn mishap_at(printing: Option<u32>, line: &[u8]) -> Option<Mishap> {
    if let Some(job) = printing {
        if is_told(&Reply::PrinterFault(job), line) {
            return Some(Mishap::Printer(job));
        }
    }
    for place in 1..12 {
        if let Some(mishap) = failure_at(&node_at(place), line) {
            return Some(mishap);
        }
    }
    None
}

impl Incidents {
    /// Nothing went wrong.
    pub fn new(alloc: Global) -> Incidents {
        Incidents {
            rows: Vec::new(alloc),
        }
    }

    /// What went wrong, in its order.
    pub fn as_slice(&self) -> &[Incident] {
        self.rows.as_slice()
    }

    /// Keeps what went wrong at a line. AllocError is lack of memory.
    pub fn note(
        &mut self,
        place: Place,
        mishap: Mishap,
        day: Option<DayNo>,
    ) -> Result<(), AllocError> {
        let incident = Incident {
            place,
            mishap,
            day,
            outcome: Outcome::None,
        };
        self.rows.push(incident)?;
        Ok(())
    }

    /// Whether this line is where something went wrong last.
    pub fn is_last_at(&self, place: &Place) -> bool {
        match self.rows.last() {
            Some(last) => last.place.is_at(place),
            None => false,
        }
    }

    /// Keeps what became of the commit of the line, if it is where something went wrong last.
    pub fn decide_last(&mut self, place: &Place, outcome: Outcome) {
        let count = self.rows.len();
        if count > 0 && self.rows[count - 1].place.is_at(place) {
            self.rows[count - 1].outcome = outcome;
        }
    }

    /// Keeps what became of the commit of the line, if something went wrong there.
    pub fn decide(&mut self, place: &Place, outcome: Outcome) {
        let count = self.rows.len();
        for behind in 0..count {
            let at = count - 1 - behind;
            if self.rows[at].place.is_at(place) {
                self.rows[at].outcome = outcome;
                return;
            }
        }
    }
}
