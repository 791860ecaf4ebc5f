//! What comes after the ordinary path, or after a part of it, in each ledger.
use crate::messages::{
    EARLY_RESET, FIFTH_AUDIT, FIRST_MARK, LARGE_RESET, LATER_AUDIT, OTHER_MARK, REFUND,
    SECOND_MARK, SMALL_REFUND, UNKEYED_MARK,
};
use crate::path::{LENGTH, Version, device, first_day, mark_of};
use crate::today;
use bench_base::bytes::Note;
use bench_base::ledger::{Commit, Entry};
use bench_base::numbers::DayNo;
use bench_base::words::{Node, Verdict};

/// One entry more, in few words. All are of device 1.
#[derive(Clone, Copy)]
pub enum Step {
    /// The number and which request.
    Ask(u32, Asked),
    Rule(u32, Verdict, Asked),
    Apply(u32, Verdict),
    Settle(u32),
    /// Piece, postage, day since the first of the path, version of the mark.
    Debit(u32, u32, i32, u8),
    /// The same debit as a commit that failed.
    TornDebit(u32, u32),
    /// The device comes on with this many commits.
    Up(u64),
    Release(u32, Mark),
    /// Job and piece.
    Order(u32, u32),
    Hold(u32, Mark),
    Print(u32),
    /// Piece and scan.
    Accept(u32, u32),
}

#[derive(Clone, Copy)]
pub enum Asked {
    EarlyReset,
    LaterAudit,
    LargeReset,
    Refund,
    SmallRefund,
    FifthAudit,
}

#[derive(Clone, Copy)]
pub enum Mark {
    First,
    Other,
    Second,
    /// The second piece in version 2.
    SecondToday,
    /// The first under the empty key.
    Unkeyed,
}

/// A ledger: the first entries of the path except for one, and what comes after them.
pub struct Case {
    pub name: &'static str,
    /// In which version the path is.
    pub version: Version,
    pub keep: usize,
    /// The entry of the path that is left out; past its end for none.
    pub without: usize,
    pub steps: &'static [Step],
}

use Asked::{EarlyReset, FifthAudit, LargeReset, LaterAudit, Refund, SmallRefund};
use Mark::{First, Other, Second, SecondToday, Unkeyed};
use Step::{Accept, Apply, Ask, Debit, Hold, Order, Print, Release, Rule, Settle, TornDebit, Up};
use Verdict::{Granted, NoFunds, Suspended};

/// The ledgers: those that are lawful, and those that break the clause with which their name begins.
pub const CASES: &[Case] = &[
    Case {
        name: "lawful: the ordinary path",
        version: Version::First,
        keep: LENGTH,
        without: LENGTH,
        steps: &[],
    },
    Case {
        name: "lawful: a second debit, released twice",
        version: Version::First,
        keep: LENGTH,
        without: LENGTH,
        steps: &[Debit(2, 550, 0, 1), Release(2, Second), Release(2, Second)],
    },
    Case {
        name: "lawful: a refund of all that is left",
        version: Version::First,
        keep: LENGTH,
        without: LENGTH,
        steps: &[
            Ask(4, Refund),
            Rule(4, Granted, Refund),
            Apply(4, Granted),
            Settle(4),
        ],
    },
    Case {
        name: "lawful: a torn debit that counts",
        version: Version::First,
        keep: LENGTH,
        without: LENGTH,
        steps: &[TornDebit(2, 550), Up(9), Release(2, Second)],
    },
    Case {
        name: "lawful: the ordinary path in version 2",
        version: Version::Today,
        keep: LENGTH,
        without: LENGTH,
        steps: &[],
    },
    Case {
        name: "lawful: a mark of version 2 beside one of version 1",
        version: Version::First,
        keep: LENGTH,
        without: LENGTH,
        steps: &[Debit(2, 550, 0, 2), Release(2, SecondToday)],
    },
    Case {
        name: "lawful: a mark of version 1 beside one of version 2",
        version: Version::Today,
        keep: LENGTH,
        without: LENGTH,
        steps: &[Debit(2, 550, 0, 1), Release(2, Second)],
    },
    Case {
        name: "lawful: small postage in the days of grace",
        version: Version::First,
        keep: LENGTH,
        without: LENGTH,
        steps: &[Debit(2, 1000, 99, 2)],
    },
    Case {
        name: "numbering: a number skipped",
        version: Version::First,
        keep: LENGTH,
        without: LENGTH,
        steps: &[Ask(5, FifthAudit)],
    },
    Case {
        name: "numbering: asked before the last was applied",
        version: Version::First,
        keep: LENGTH,
        without: LENGTH,
        steps: &[Ask(4, LaterAudit), Ask(5, FifthAudit)],
    },
    Case {
        name: "numbering: ruled twice",
        version: Version::First,
        keep: LENGTH,
        without: LENGTH,
        steps: &[
            Ask(4, LargeReset),
            Rule(4, NoFunds, LargeReset),
            Rule(4, NoFunds, LargeReset),
        ],
    },
    Case {
        name: "numbering: another request ruled",
        version: Version::First,
        keep: LENGTH,
        without: LENGTH,
        steps: &[Ask(4, LaterAudit), Rule(4, NoFunds, LargeReset)],
    },
    Case {
        name: "numbering: applied before it was ruled",
        version: Version::First,
        keep: LENGTH,
        without: LENGTH,
        steps: &[Ask(4, LaterAudit), Apply(4, Granted)],
    },
    Case {
        name: "numbering: applied with another verdict",
        version: Version::First,
        keep: LENGTH,
        without: LENGTH,
        steps: &[
            Ask(4, LargeReset),
            Rule(4, Suspended, LargeReset),
            Apply(4, NoFunds),
        ],
    },
    Case {
        name: "debits: a piece skipped",
        version: Version::First,
        keep: LENGTH,
        without: LENGTH,
        steps: &[Debit(3, 550, 0, 1)],
    },
    Case {
        name: "debits: no postage",
        version: Version::First,
        keep: LENGTH,
        without: LENGTH,
        steps: &[Debit(2, 0, 0, 1)],
    },
    Case {
        name: "debits: a mark of version 3",
        version: Version::First,
        keep: LENGTH,
        without: LENGTH,
        steps: &[Debit(2, 550, 0, 3)],
    },
    Case {
        name: "several: a debit of more than is left",
        version: Version::First,
        keep: LENGTH,
        without: LENGTH,
        steps: &[Debit(2, 49451, 0, 1)],
    },
    Case {
        name: "releases: again with another mark",
        version: Version::First,
        keep: LENGTH,
        without: LENGTH,
        steps: &[Release(1, Other)],
    },
    Case {
        name: "releases: a mark in another version",
        version: Version::First,
        keep: LENGTH,
        without: LENGTH,
        steps: &[Debit(2, 550, 0, 2), Release(2, Second)],
    },
    Case {
        name: "releases: by a device that was not made",
        version: Version::First,
        keep: 32,
        without: 7,
        steps: &[Release(1, Unkeyed)],
    },
    Case {
        name: "releases: before the debit",
        version: Version::First,
        keep: LENGTH,
        without: LENGTH,
        steps: &[Release(2, Second)],
    },
    Case {
        name: "releases: of a torn debit that does not count",
        version: Version::First,
        keep: LENGTH,
        without: LENGTH,
        steps: &[TornDebit(2, 550), Up(8), Release(2, Second)],
    },
    Case {
        name: "refunds: of another amount",
        version: Version::First,
        keep: LENGTH,
        without: LENGTH,
        steps: &[Ask(4, SmallRefund), Rule(4, Granted, SmallRefund)],
    },
    Case {
        name: "registers: settled before it was applied",
        version: Version::First,
        keep: LENGTH,
        without: LENGTH,
        steps: &[Ask(4, LaterAudit), Rule(4, Granted, LaterAudit), Settle(4)],
    },
    Case {
        name: "balances: more bought than deposited",
        version: Version::First,
        keep: LENGTH,
        without: LENGTH,
        steps: &[Ask(4, LargeReset), Rule(4, Granted, LargeReset)],
    },
    Case {
        name: "days: more than small postage past the deadline",
        version: Version::First,
        keep: LENGTH,
        without: LENGTH,
        steps: &[Debit(2, 1001, 93, 2)],
    },
    Case {
        name: "days: past the days of grace",
        version: Version::First,
        keep: LENGTH,
        without: LENGTH,
        steps: &[Debit(2, 1, 100, 2)],
    },
    Case {
        name: "days: before the last day",
        version: Version::First,
        keep: LENGTH,
        without: LENGTH,
        steps: &[Debit(2, 550, -1, 1)],
    },
    Case {
        name: "days: while a refund is pending",
        version: Version::First,
        keep: LENGTH,
        without: LENGTH,
        steps: &[Ask(4, Refund), Debit(2, 550, 0, 1)],
    },
    Case {
        name: "days: before the first inspection",
        version: Version::First,
        keep: 17,
        without: LENGTH,
        steps: &[
            Ask(2, EarlyReset),
            Rule(2, Granted, EarlyReset),
            Apply(2, Granted),
            Debit(1, 550, 0, 1),
        ],
    },
    Case {
        name: "acceptances: a piece twice",
        version: Version::First,
        keep: LENGTH,
        without: LENGTH,
        steps: &[Accept(1, 2)],
    },
    Case {
        name: "acceptances: before its release",
        version: Version::First,
        keep: LENGTH,
        without: LENGTH,
        steps: &[Debit(2, 550, 0, 1), Accept(2, 2)],
    },
    Case {
        name: "prints: a line twice",
        version: Version::First,
        keep: LENGTH,
        without: LENGTH,
        steps: &[Print(1)],
    },
    Case {
        name: "prints: before its job is begun",
        version: Version::First,
        keep: LENGTH,
        without: 35,
        steps: &[],
    },
    Case {
        name: "prints: a mark held that was not released",
        version: Version::First,
        keep: LENGTH,
        without: LENGTH,
        steps: &[Order(2, 2), Hold(2, Other)],
    },
    Case {
        name: "prints: two jobs hold one piece",
        version: Version::First,
        keep: LENGTH,
        without: LENGTH,
        steps: &[Order(2, 1), Hold(2, First)],
    },
    Case {
        name: "prints: held without a job",
        version: Version::First,
        keep: LENGTH,
        without: LENGTH,
        steps: &[Hold(2, First)],
    },
    Case {
        name: "several: the debit left out",
        version: Version::First,
        keep: LENGTH,
        without: 31,
        steps: &[],
    },
];

fn note_of(asked: Asked) -> Note {
    match asked {
        EarlyReset => Note::of(&EARLY_RESET),
        LaterAudit => Note::of(&LATER_AUDIT),
        LargeReset => Note::of(&LARGE_RESET),
        Refund => Note::of(&REFUND),
        SmallRefund => Note::of(&SMALL_REFUND),
        FifthAudit => Note::of(&FIFTH_AUDIT),
    }
}

fn bytes_of(mark: Mark) -> [u8; 64] {
    match mark {
        First => FIRST_MARK,
        Other => OTHER_MARK,
        Second => SECOND_MARK,
        SecondToday => today::SECOND_MARK,
        Unkeyed => UNKEYED_MARK,
    }
}

// So many days after the first of the path, and that day itself where there is no such day.
fn day(later: i32) -> DayNo {
    let first = first_day();
    match first.get().checked_add(later) {
        Some(n) => DayNo::new(n).unwrap_or(first),
        None => first,
    }
}

fn commit_of(step: Step) -> Option<Commit> {
    let d = device();
    let commit = match step {
        Ask(n, asked) => Commit::Asked {
            device: d,
            number: n,
            request: note_of(asked),
        },
        Rule(n, verdict, asked) => Commit::Ruled {
            device: d,
            number: n,
            verdict,
            request: note_of(asked),
        },
        Apply(n, verdict) => Commit::Applied {
            device: d,
            number: n,
            verdict,
        },
        Settle(n) => Commit::Settled {
            device: d,
            number: n,
        },
        Debit(piece, postage, later, version) => Commit::Debited {
            device: d,
            piece,
            postage,
            class: 1,
            day: day(later),
            version,
        },
        Order(job, piece) => Commit::Ordered {
            job,
            device: d,
            piece,
            postage: 550,
            class: 1,
        },
        Hold(job, mark) => Commit::Held {
            job,
            mark: bytes_of(mark),
        },
        Accept(piece, scan) => Commit::Accepted {
            device: d,
            piece,
            scan,
        },
        _ => return None,
    };
    Some(commit)
}

/// The entry that a step represents.
pub fn entry_of(version: Version, step: Step) -> Entry {
    if let Some(commit) = commit_of(step) {
        return Entry::Commit(commit);
    }
    let d = device();
    match step {
        TornDebit(piece, postage) => Entry::Torn {
            node: Node::Device(d),
            commit: Commit::Debited {
                device: d,
                piece,
                postage,
                class: 1,
                day: first_day(),
                version: 1,
            },
        },
        Up(count) => Entry::Up {
            node: Node::Device(d),
            commits: count,
        },
        Release(piece, mark) => Entry::Released {
            device: d,
            piece,
            mark: bytes_of(mark),
        },
        Print(job) => Entry::Printed {
            job,
            mark: mark_of(version),
        },
        _ => Entry::Begin,
    }
}
