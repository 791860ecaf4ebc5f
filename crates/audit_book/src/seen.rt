//! What is known of a node before and after a line. Amounts are in mills.
use bench_base::numbers::Customer;
use bench_base::words::{Kind, Verdict};
use centre_ledger::DeviceRow;
use psd_wire::{Message, read_message};

/// How many commits of the node count, whether one is open, and the balance of the owner of the commit.
#[derive(Clone, Copy)]
pub struct Figures {
    pub commits: u64,
    pub is_open: bool,
    pub balance: Option<u64>,
}

/// The last ruling on a device: the number of the request, what it asked for, and the verdict.
#[derive(Clone, Copy)]
pub struct Ruling {
    pub number: u32,
    pub kind: Kind,
    pub asked: u64,
    pub verdict: Verdict,
}

/// What is known of a node before and after a line, and of the device that the commit is of: its customer and its last ruling.
#[derive(Clone, Copy)]
pub struct Seen {
    pub before: Figures,
    pub after: Figures,
    pub customer: Option<Customer>,
    pub ruling: Option<Ruling>,
}

/// The last ruling of the centre in a row of a device. None if there was no ruling.
pub fn last_ruling(row: &DeviceRow) -> Option<Ruling> {
    let Ok(Message::Request(asked)) = read_message(row.request.as_slice()) else {
        return None;
    };
    let Ok(Message::Reply(ruled)) = read_message(row.reply.as_slice()) else {
        return None;
    };
    Some(Ruling {
        number: asked.number,
        kind: asked.kind,
        asked: asked.amount,
        verdict: ruled.verdict,
    })
}
