//! What happened by day: a cell for each day on which something happened to a device or a customer, or was accepted. Amounts are in mills.
use crate::places::{ACCEPTED, SLOTS, customer_slot, device_slot};
use audit_journal::{Amount, CommitKind, JournalEntry};
use bench_base::numbers::{Customer, DevNo};
use bench_base::words::{Kind, Node, Verdict};
use std::alloc::{AllocError, Global};

/// What happened on a day.
#[derive(Clone, Copy)]
pub struct Cell {
    pub day: i32,
    /// What a customer paid in.
    pub paid: u64,
    /// What was loaded to a device, or by a customer.
    pub loaded: u64,
    pub returned: u64,
    /// The postage of the pieces that were franked, or accepted.
    pub franked: u64,
    pub pieces: u64,
    /// What the device or the customer had left at the end, if that is known.
    pub level: u64,
    pub has_level: bool,
    /// The money in flight at the end, if there was ever some.
    pub flight: u64,
    pub has_flight: bool,
}

/// A granted request that a device applied.
#[derive(Clone, Copy)]
pub struct Applied {
    pub device: DevNo,
    pub kind: Kind,
    pub day: i32,
    pub is_minus: bool,
    pub size: u64,
}

/// All of it.
#[derive(Drop)]
pub struct Cells {
    rows: Vec<Vec<Cell>>,
    applied: Vec<Applied>,
}

// A day on which nothing happened, after this one.
fn blank(day: i32, last: Option<Cell>) -> Cell {
    let empty = Cell {
        day,
        paid: 0,
        loaded: 0,
        returned: 0,
        franked: 0,
        pieces: 0,
        level: 0,
        has_level: false,
        flight: 0,
        has_flight: false,
    };
    match last {
        Some(last) => Cell {
            level: last.level,
            has_level: last.has_level,
            flight: last.flight,
            has_flight: last.has_flight,
            ..empty
        },
        None => empty,
    }
}

// What was added by the entry.
fn amount_of(entry: &JournalEntry) -> Amount {
    entry.amount.unwrap_or(Amount {
        minus: false,
        size: 0,
    })
}

// The cell with a piece of this postage.
fn with_piece(cell: &Cell, postage: u64) -> Cell {
    Cell {
        franked: cell.franked.saturating_add(postage),
        pieces: cell.pieces.saturating_add(1),
        ..*cell
    }
}

// The cell with so much that was loaded, or given back.
fn with_load(cell: &Cell, is_back: bool, size: u64) -> Cell {
    if is_back {
        Cell {
            returned: cell.returned.saturating_add(size),
            ..*cell
        }
    } else {
        Cell {
            loaded: cell.loaded.saturating_add(size),
            ..*cell
        }
    }
}

// The cell with what is left.
fn with_level(cell: &Cell, level: u64) -> Cell {
    Cell {
        level,
        has_level: true,
        ..*cell
    }
}

// The cell with what is in flight.
fn with_flight(cell: &Cell, flight: u64) -> Cell {
    Cell {
        flight,
        has_flight: true,
        ..*cell
    }
}

// The cell of a device after this commit of it.
fn of_device(cell: &Cell, entry: &JournalEntry) -> Cell {
    let amount = amount_of(entry);
    let levelled = with_level(cell, entry.balance.unwrap_or(0));
    match entry.commit {
        CommitKind::Debited => with_piece(&levelled, amount.size),
        CommitKind::Applied => with_load(&levelled, amount.minus, amount.size),
        _ => levelled,
    }
}

// The cell of a customer after this commit of the centre.
fn of_customer(cell: &Cell, entry: &JournalEntry) -> Cell {
    let amount = amount_of(entry);
    let levelled = with_level(cell, entry.balance.unwrap_or(cell.level));
    match entry.commit {
        CommitKind::Deposited => Cell {
            paid: cell.paid.saturating_add(amount.size),
            ..levelled
        },
        CommitKind::Ruled => with_load(&levelled, !amount.minus, amount.size),
        CommitKind::Opened => levelled,
        _ => *cell,
    }
}

// What is in flight after this commit of the centre, if it changes that.
fn flight_after(entry: &JournalEntry) -> Option<u64> {
    let size = amount_of(entry).size;
    match entry.commit {
        CommitKind::Ruled if size > 0 => Some(size),
        CommitKind::Settled => Some(0),
        _ => None,
    }
}

impl Cells {
    /// Nothing happened. AllocError is lack of memory.
    pub fn new(alloc: Global) -> Result<Cells, AllocError> {
        let mut rows = Vec::new(alloc);
        for _ in 0..SLOTS {
            rows.push(Vec::new(alloc))?;
        }
        Ok(Cells {
            rows,
            applied: Vec::new(alloc),
        })
    }

    /// The cells of a slot.
    pub fn of(&self, slot: usize) -> &[Cell] {
        match self.rows.get(slot) {
            Some(row) => row.as_slice(),
            None => &[],
        }
    }

    /// The granted requests that devices applied.
    pub fn applied(&self) -> &[Applied] {
        self.applied.as_slice()
    }

    // The cell of this day.
    fn cell(&self, slot: usize, day: i32) -> Cell {
        let last = self.of(slot).last().copied();
        match last {
            Some(last) if last.day == day => last,
            _ => blank(day, last),
        }
    }

    // Keeps a cell in place of that of its day.
    fn put(&mut self, slot: usize, cell: Cell) -> Result<(), AllocError> {
        let Some(row) = self.rows.get_mut(slot) else {
            return Ok(());
        };
        if let Some(last) = row.last_mut() {
            if last.day == cell.day {
                *last = cell;
                return Ok(());
            }
        }
        row.push(cell)?;
        Ok(())
    }

    // Keeps a granted request that the device applied.
    fn apply(&mut self, device: DevNo, day: i32, entry: &JournalEntry) -> Result<(), AllocError> {
        let (CommitKind::Applied, Some(Verdict::Granted)) = (entry.commit, entry.verdict) else {
            return Ok(());
        };
        let Some(kind) = entry.request else {
            return Ok(());
        };
        let amount = amount_of(entry);
        let applied = Applied {
            device,
            kind,
            day,
            is_minus: amount.minus,
            size: amount.size,
        };
        self.applied.push(applied)?;
        Ok(())
    }

    // Keeps a piece of the customer of the entry.
    fn frank(&mut self, customer: Customer, day: i32, postage: u64) -> Result<(), AllocError> {
        let slot = customer_slot(customer);
        let cell = self.cell(slot, day);
        self.put(slot, with_piece(&cell, postage))
    }

    // Keeps a commit of a device.
    fn enter_device(
        &mut self,
        device: DevNo,
        day: i32,
        entry: &JournalEntry,
    ) -> Result<(), AllocError> {
        let slot = device_slot(device);
        let cell = self.cell(slot, day);
        self.put(slot, of_device(&cell, entry))?;
        self.apply(device, day, entry)?;
        match (entry.commit, entry.customer) {
            (CommitKind::Debited, Some(customer)) => {
                self.frank(customer, day, amount_of(entry).size)
            }
            _ => Ok(()),
        }
    }

    // Keeps what is in flight after a commit of the centre.
    fn enter_flight(&mut self, day: i32, entry: &JournalEntry) -> Result<(), AllocError> {
        let (Some(device), Some(flight)) = (entry.device, flight_after(entry)) else {
            return Ok(());
        };
        let slot = device_slot(device);
        let cell = self.cell(slot, day);
        self.put(slot, with_flight(&cell, flight))
    }

    // Keeps a commit of the centre.
    fn enter_centre(&mut self, day: i32, entry: &JournalEntry) -> Result<(), AllocError> {
        self.enter_flight(day, entry)?;
        let Some(customer) = entry.customer else {
            return Ok(());
        };
        let slot = customer_slot(customer);
        let cell = self.cell(slot, day);
        self.put(slot, of_customer(&cell, entry))
    }

    // Keeps a commit of the verifier.
    fn enter_verifier(&mut self, day: i32, entry: &JournalEntry) -> Result<(), AllocError> {
        let CommitKind::Accepted = entry.commit else {
            return Ok(());
        };
        let cell = self.cell(ACCEPTED, day);
        self.put(ACCEPTED, with_piece(&cell, amount_of(entry).size))
    }

    /// Keeps a commit that counts. AllocError is lack of memory.
    pub fn enter(&mut self, entry: &JournalEntry) -> Result<(), AllocError> {
        let Some(day) = entry.day else {
            return Ok(());
        };
        match entry.node {
            Node::Device(device) => self.enter_device(device, day.get(), entry),
            Node::Centre => self.enter_centre(day.get(), entry),
            Node::Verifier => self.enter_verifier(day.get(), entry),
            Node::Host => Ok(()),
        }
    }
}
