//! What is counted over the lines of runs: each commit that counts, in the journal, and the rest for the page. Amounts are in mills.
ghost use Rattle.std.specs.Prelude.{◌≡◌, ◌+◌, ◌-◌, ◌^◌, min, Some, MatchOption};

use crate::seen::Seen;
use crate::settling::{
    with_asked, with_class, with_job, with_money, with_piece, with_request, with_ruling,
};
use audit_facts::Facts;
use audit_journal::{
    At, BookFault, CommitKind, Form, Journal, JournalEntry, OwnEntry, OwnKind, Row, place_of,
};
use audit_tally::{
    Ask, Causes, Doing, Incidents, Job, Jobs, Mishap, Outcome, OwnSums, Piece, Pieces, Place,
    Sends, Tally, Ungranted, entry_of, is_given_again, mishap_at, one_more,
};
use audit_words::shown;
use bench_base::events::Reply;
use bench_base::numbers::{DayNo, DevNo};
use bench_base::words::{JobState, Node, Verdict};
use std::alloc::{AllocError, Global};
use trace_nodes::is_told;

/// A commit, and the line of the event that made it.
#[derive(Clone, Copy)]
pub struct Made {
    pub place: Place,
    pub entry: JournalEntry,
}

/// What a line of a run's own was answered, as it is shown.
#[derive(Drop)]
pub struct Answered {
    pub place: Place,
    pub text: String,
}

/// What runs came to, by the commits that count and the replies that were reported.
#[derive(Drop)]
pub struct Book {
    pub first_day: Option<DayNo>,
    pub last_day: Option<DayNo>,
    pub tally: Tally,
    pub held: u64,
    pub begun: u64,
    pub closed: u64,
    /// In mills, as what was accepted.
    pub franked: u64,
    pub accepted: u64,
    pub incidents: Incidents,
    pub causes: Causes,
    pub ungranted: Vec<Ungranted>,
    pub jobs: Jobs,
    pub pieces: Pieces,
    /// What checks of manifests, and statements as they were opened and closed, were answered.
    pub answered: Vec<Answered>,
    /// What lines of runs' own credited, and left to departments.
    pub own: OwnSums,
    /// What the page of an audit shows besides.
    pub facts: Facts,
    /// For each device, from device 1 on, what it asked last.
    asks: [Option<Ask>; 8],
    sends: Sends,
    /// For each node, the commit that is in doubt.
    open: [Option<Made>; 11],
    /// The line whose commit counted last at once.
    done: Option<Place>,
    journal: Journal,
}

// The first of the two days that is known.
fn known_day(day: &Option<DayNo>, other: &Option<DayNo>) -> Option<DayNo>
    ensures { MatchOption day.now (result ≡ other.now) (λ d. result ≡ Some d) }
{
    match day {
        Some(day) => Some(*day),
        None => *other,
    }
}

// The sum. All that was ever franked fits.
fn add(sum: &mut u64, amount: u64)
    ensures { sum.new ≡ min (sum.old + amount) (2 ^ 64 - 1) }
{
    *sum = sum.saturating_add(amount);
}

// What was made, or lack of memory.
fn or_memory<T>(made: Result<T, AllocError>) -> Result<T, BookFault> {
    match made {
        Ok(made) => Ok(made),
        Err(_) => Err(BookFault::Memory),
    }
}

// What the commit moved, without its sign.
fn size_of(entry: &JournalEntry) -> u64
    ensures { MatchOption entry.now.amount (result ≡ 0) (λ amount. result ≡ amount.size) }
{
    match entry.amount {
        Some(amount) => amount.size,
        None => 0,
    }
}

// The job that is to be printed.
fn printing(doing: &Doing) -> Option<u32> {
    match doing {
        Doing::Print(job) => Some(*job),
        _ => None,
    }
}

fn is_refusal(reply: &Reply) -> bool {
    matches!(
        reply,
        Reply::DevRefused { .. }
            | Reply::CentreRefused(_)
            | Reply::HostRefused(_)
            | Reply::ScanRefused(_)
    )
}

// The line, with the name of its run.
fn at_of<'a>(names: &'a [String], place: Place) -> Option<At<'a>> {
    let name = names.get(place.run)?;
    Some(At {
        run: name.as_str(),
        line: place.line,
    })
}

// What became of a print, if this was reported of it.
fn printed(job: u32, line: &[u8]) -> Option<CommitKind> {
    if is_told(&Reply::Printed(job), line) {
        return Some(CommitKind::Printed);
    }
    if is_told(&Reply::PrinterFault(job), line) {
        return Some(CommitKind::PrinterFault);
    }
    None
}

// The entry with all that is known of its node after the line.
fn completed(entry: &JournalEntry, seen: &Seen) -> JournalEntry {
    let paid = with_money(entry, seen);
    match entry.commit {
        CommitKind::Asked => with_asked(&paid, seen),
        CommitKind::Ruled | CommitKind::Settled => with_ruling(&paid, seen),
        CommitKind::Made
        | CommitKind::Applied
        | CommitKind::Debited
        | CommitKind::Registered
        | CommitKind::Opened
        | CommitKind::Deposited
        | CommitKind::Suspended
        | CommitKind::Resumed
        | CommitKind::Ordered
        | CommitKind::Held
        | CommitKind::Begun
        | CommitKind::Printed
        | CommitKind::PrinterFault
        | CommitKind::Closed
        | CommitKind::Trusted
        | CommitKind::Accepted => paid,
    }
}

impl Book {
    /// A book without a line, and a journal of this form; what the page of an audit shows besides is kept, or not. AllocError is lack of memory.
    pub fn new(alloc: Global, form: Form, has_facts: bool) -> Result<Book, AllocError> {
        let pieces = Pieces::new(alloc)?;
        let facts = Facts::new(alloc, has_facts)?;
        Ok(Book {
            first_day: None,
            last_day: None,
            tally: Tally::new(),
            held: 0,
            begun: 0,
            closed: 0,
            franked: 0,
            accepted: 0,
            incidents: Incidents::new(alloc),
            causes: Causes::new(alloc),
            ungranted: Vec::new(alloc),
            jobs: Jobs::new(alloc),
            pieces,
            answered: Vec::new(alloc),
            own: OwnSums::new(),
            facts,
            asks: [None; 8],
            sends: Sends::new(alloc),
            open: [None; 11],
            done: None,
            journal: Journal::new(alloc, form),
        })
    }

    /// What the device asked last, by the commits that count.
    pub fn ask_of(&self, device: DevNo) -> Option<Ask> {
        self.asks[device.get() as usize - 1]
    }

    /// Begins a run: no message was sent in it.
    pub fn begin_run(&mut self) {
        self.facts.begin();
        self.sends.begin();
    }

    /// Keeps what went wrong at a line. BookFault::Memory is lack of memory.
    pub fn note(
        &mut self,
        place: Place,
        mishap: Mishap,
        day: Option<DayNo>,
    ) -> Result<(), BookFault> {
        or_memory(self.incidents.note(place, mishap, day))
    }

    // Whether a commit of this line counted at once.
    fn is_done(&self, place: &Place) -> bool {
        match &self.done {
            Some(done) => done.is_at(place),
            None => false,
        }
    }

    /// Keeps that the run was stopped at this line, one of its own, unless that is what was kept last. The line is done if a commit of it counted at once;
    /// otherwise it may be in doubt whether anything was done. BookFault::Memory is lack of memory.
    pub fn stop_at(
        &mut self,
        place: Place,
        day: Option<DayNo>,
        is_open: bool,
    ) -> Result<(), BookFault> {
        if self.incidents.is_last_at(&place) {
            return Ok(());
        }
        self.note(place, Mishap::Stop, day)?;
        if self.is_done(&place) {
            self.incidents.decide_last(&place, Outcome::Done);
        } else if is_open {
            self.incidents.decide_last(&place, Outcome::Doubt);
        }
        Ok(())
    }

    // Counts the answer that was reported.
    fn hear_answer(
        &mut self,
        alloc: Global,
        place: Place,
        due: &Reply,
        line: &[u8],
    ) -> Result<(), BookFault> {
        self.tally.count(due);
        or_memory(self.sends.hear(due))?;
        if is_refusal(due) {
            return or_memory(self.causes.note(alloc, place, line));
        }
        Ok(())
    }

    // Keeps what the line refuses. An `off` of a node that is off is no refusal.
    fn hear_refusal(
        &mut self,
        place: Place,
        day: Option<DayNo>,
        doing: &Doing,
        line: &[u8],
    ) -> Result<(), BookFault> {
        if let Doing::Off = doing {
            return Ok(());
        }
        or_memory(self.facts.refuse(place, day, line))
    }

    /// Counts what the line reports on this day, if this answer was due. BookFault::Memory is lack of memory.
    pub fn hear(
        &mut self,
        alloc: Global,
        place: Place,
        day: Option<DayNo>,
        doing: &Doing,
        due: &Reply,
        line: &[u8],
    ) -> Result<(), BookFault> {
        if is_told(due, line) {
            self.hear_refusal(place, day, doing, line)?;
            return self.hear_answer(alloc, place, due, line);
        }
        match mishap_at(printing(doing), line) {
            Some(mishap) => self.note(place, mishap, day),
            None => Ok(()),
        }
    }

    /// Counts the day that was reported last.
    pub fn date(&mut self, day: Option<DayNo>) {
        self.facts.date(day);
        self.first_day = known_day(&self.first_day, &day);
        self.last_day = known_day(&day, &self.last_day);
    }

    /// Keeps which mark the line gives out, if this answer was due.
    pub fn give_out(&mut self, due: &Reply, line: &[u8]) {
        let Some(entry) = entry_of(&Doing::Other, due) else {
            return;
        };
        if !is_told(due, line) {
            return;
        }
        match (entry.commit, entry.device, entry.piece) {
            (CommitKind::Debited, Some(device), Some(piece)) => self.pieces.release(device, piece),
            _ => {}
        }
    }
}

impl Book {
    // The job with this message, if the message debits a piece.
    fn job_behind(&self, doing: &Doing, due: &Reply) -> Option<u32> {
        if is_given_again(due) {
            return None;
        }
        match doing {
            Doing::Deliver(message) => self.sends.job_of(*message),
            Doing::Give(debit) => self.jobs.asked_by(debit),
            _ => None,
        }
    }

    // The entry of a debit with its job.
    fn with_debit(&self, entry: &JournalEntry, doing: &Doing, due: &Reply) -> JournalEntry {
        let Some(job) = self.job_behind(doing, due) else {
            return *entry;
        };
        let served = JournalEntry {
            job: Some(job),
            ..*entry
        };
        with_class(&served, self.jobs.get(job))
    }

    // The job of the entry.
    fn job_of(&self, entry: &JournalEntry) -> Option<Job> {
        self.jobs.get(entry.job?)
    }

    // The piece of the entry.
    fn piece_of(&self, entry: &JournalEntry) -> Option<Piece> {
        self.pieces.get(entry.device?, entry.piece?)
    }

    // The request that the device of the entry has out.
    fn request_of(&self, entry: &JournalEntry) -> Option<Ask> {
        self.ask_of(entry.device?)
    }

    // The entry with what is known of its job, its piece or its request before the line.
    fn filled(&self, entry: &JournalEntry, doing: &Doing, due: &Reply) -> JournalEntry {
        match entry.commit {
            CommitKind::Debited => self.with_debit(entry, doing, due),
            CommitKind::Applied => with_request(entry, self.request_of(entry)),
            CommitKind::Held | CommitKind::Begun | CommitKind::Closed => with_job(
                entry,
                self.job_of(entry),
            ),
            CommitKind::Accepted => with_piece(entry, self.piece_of(entry)),
            CommitKind::Made
            | CommitKind::Asked
            | CommitKind::Registered
            | CommitKind::Ruled
            | CommitKind::Settled
            | CommitKind::Opened
            | CommitKind::Deposited
            | CommitKind::Suspended
            | CommitKind::Resumed
            | CommitKind::Ordered
            | CommitKind::Printed
            | CommitKind::PrinterFault
            | CommitKind::Trusted => *entry,
        }
    }

    /// The commit that the event of this line may make on this day: if it switches a node on, the one of the node that is in doubt.
    pub fn expected(
        &self,
        place: Place,
        day: Option<DayNo>,
        doing: &Doing,
        due: &Reply,
    ) -> Option<Made> {
        if let Doing::On(node) = doing {
            return self.open[place_of(node)];
        }
        let entry = entry_of(doing, due)?;
        let filled = self.filled(&entry, doing, due);
        Some(Made {
            place,
            entry: JournalEntry { day, ..filled },
        })
    }

    /// What became of the print of this event, if the line reports it: a row that is no commit.
    pub fn print_told(
        &mut self,
        day: Option<DayNo>,
        doing: &Doing,
        line: &[u8],
    ) -> Option<JournalEntry> {
        let job = printing(doing)?;
        let commit = printed(job, line)?;
        if matches!(commit, CommitKind::Printed) {
            self.jobs.print(job);
        }
        let entry = JournalEntry {
            day,
            number: job,
            job: Some(job),
            ..JournalEntry::new(Node::Host, commit)
        };
        Some(with_job(&entry, self.jobs.get(job)))
    }
}

impl Book {
    // Keeps a request.
    fn keep_ask(&mut self, entry: &JournalEntry) {
        let (Some(device), Some(kind)) = (entry.device, entry.request) else {
            return;
        };
        self.asks[device.get() as usize - 1] = Some(Ask {
            number: entry.number,
            kind,
            asked: entry.asked,
            day: entry.day,
        });
    }

    // Keeps a piece that was debited.
    fn keep_debit(&mut self, entry: &JournalEntry) -> Result<(), BookFault> {
        let postage = size_of(entry);
        add(&mut self.franked, postage);
        let Some(device) = entry.device else {
            return Ok(());
        };
        let piece = Piece {
            postage,
            class: entry.class,
            job: entry.job,
            released: false,
            accepted: false,
        };
        or_memory(self.pieces.debit(device, piece))
    }

    // Keeps a piece that was accepted.
    fn keep_acceptance(&mut self, entry: &JournalEntry) {
        add(&mut self.accepted, size_of(entry));
        let (Some(device), Some(piece)) = (entry.device, entry.piece) else {
            return;
        };
        self.pieces.accept(device, piece);
    }

    // Keeps a job that was ordered.
    fn keep_order(&mut self, entry: &JournalEntry) -> Result<(), BookFault> {
        let (Some(device), Some(piece)) = (entry.device, entry.piece) else {
            return Ok(());
        };
        let class = entry.class.unwrap_or(0);
        let postage = size_of(entry);
        or_memory(
            self.jobs
                .order(entry.number, device, piece, class, postage, entry.day),
        )
    }

    // Keeps that a job holds the mark of its piece.
    fn keep_hold(&mut self, entry: &JournalEntry) {
        one_more(&mut self.held);
        self.jobs.come(entry.number, JobState::Held, entry.day);
        let (Some(device), Some(piece)) = (entry.device, entry.piece) else {
            return;
        };
        self.pieces
            .hold(device, piece, entry.number, entry.class.unwrap_or(0));
    }

    // Keeps a ruling that grants nothing.
    fn keep_ruling(&mut self, place: Place, entry: &JournalEntry) -> Result<(), BookFault> {
        let (Some(device), Some(kind)) = (entry.device, entry.request) else {
            return Ok(());
        };
        let Some(verdict) = entry.verdict else {
            return Ok(());
        };
        if matches!(verdict, Verdict::Granted) {
            return Ok(());
        }
        let ask = Ask {
            number: entry.number,
            kind,
            asked: entry.asked,
            day: entry.day,
        };
        let found = Ungranted {
            place,
            device,
            ask,
            verdict,
        };
        match self.ungranted.push(found) {
            Ok(()) => Ok(()),
            Err(_) => Err(BookFault::Memory),
        }
    }

    // Keeps a commit that counts, which the event of this line made.
    fn keep(&mut self, place: Place, entry: &JournalEntry) -> Result<(), BookFault> {
        match entry.commit {
            CommitKind::Asked => self.keep_ask(entry),
            CommitKind::Debited => return self.keep_debit(entry),
            CommitKind::Accepted => self.keep_acceptance(entry),
            CommitKind::Ordered => return self.keep_order(entry),
            CommitKind::Held => self.keep_hold(entry),
            CommitKind::Begun => {
                one_more(&mut self.begun);
                self.jobs.come(entry.number, JobState::Begun, entry.day);
            }
            CommitKind::Closed => {
                one_more(&mut self.closed);
                self.jobs.come(entry.number, JobState::Closed, entry.day);
            }
            CommitKind::Ruled => return self.keep_ruling(place, entry),
            CommitKind::Made
            | CommitKind::Applied
            | CommitKind::Registered
            | CommitKind::Settled
            | CommitKind::Opened
            | CommitKind::Deposited
            | CommitKind::Suspended
            | CommitKind::Resumed
            | CommitKind::Printed
            | CommitKind::PrinterFault
            | CommitKind::Trusted => {}
        }
        Ok(())
    }
}

impl Book {
    /// Begins the journal. BookFault::Memory is lack of memory.
    pub fn begin(&mut self) -> Result<(), BookFault> {
        self.journal.begin()
    }

    /// Ends the journal, and writes what is left of it. BookFault::Write if standard output takes no more, BookFault::Memory is lack of memory.
    pub fn end(&mut self, rt: &HostRuntime) -> Result<(), BookFault> {
        self.journal.end(rt)
    }

    /// Adds what became of a print at this line. BookFault::Write if standard output takes no more, BookFault::Memory is lack of memory.
    pub fn add_print(
        &mut self,
        rt: &HostRuntime,
        names: &[String],
        place: Place,
        entry: JournalEntry,
    ) -> Result<(), BookFault> {
        if let CommitKind::Printed = entry.commit {
            or_memory(self.facts.print(place, entry.number))?;
        }
        let Some(at) = at_of(names, place) else {
            return Ok(());
        };
        let row = Row {
            at,
            entry,
            counted: None,
        };
        self.journal.add(rt, &row)
    }

    // Keeps what a check of a manifest or a statement was answered.
    fn keep_answer(
        &mut self,
        alloc: Global,
        place: Place,
        entry: &OwnEntry,
        answer: &[u8],
    ) -> Result<(), BookFault> {
        match entry.kind {
            OwnKind::Credited | OwnKind::Quota | OwnKind::Assigned => Ok(()),
            OwnKind::ManifestYes
            | OwnKind::ManifestNo
            | OwnKind::StatementOpened
            | OwnKind::StatementClosed => {
                let text = or_memory(shown(alloc, answer))?;
                match self.answered.push(Answered { place, text }) {
                    Ok(()) => Ok(()),
                    Err(_) => Err(BookFault::Memory),
                }
            }
        }
    }

    /// Adds what a line of a run's own did, with its answer. BookFault::Write if standard output takes no more, BookFault::Memory is lack of memory.
    pub fn enter_own(
        &mut self,
        rt: &HostRuntime,
        names: &[String],
        place: Place,
        entry: OwnEntry,
        answer: &[u8],
    ) -> Result<(), BookFault> {
        self.facts.change(&entry.amount);
        self.keep_answer(rt.alloc(), place, &entry, answer)?;
        match at_of(names, place) {
            Some(at) => self.journal.add_own(rt, at, &entry),
            None => Ok(()),
        }
    }

    // Counts a commit: at its own line, or by an `up` at another.
    fn count(
        &mut self,
        rt: &HostRuntime,
        names: &[String],
        place: Place,
        made: &Made,
        seen: &Seen,
    ) -> Result<(), BookFault> {
        let entry = completed(&made.entry, seen);
        self.keep(made.place, &entry)?;
        or_memory(self.facts.enter(&entry))?;
        let Some(at) = at_of(names, made.place) else {
            return Ok(());
        };
        let counted = if made.place.is_at(&place) {
            None
        } else {
            at_of(names, place)
        };
        let row = Row { at, entry, counted };
        self.journal.add(rt, &row)
    }

    // Notes that a commit of this line is in doubt.
    fn doubt(&mut self, rt: &HostRuntime, names: &[String], made: &Made) -> Result<(), BookFault> {
        let Some(at) = at_of(names, made.place) else {
            return Ok(());
        };
        let row = Row {
            at,
            entry: made.entry,
            counted: None,
        };
        self.journal.doubt(rt, &row)
    }

    // Notes that a commit which was in doubt does not count.
    fn void(
        &mut self,
        rt: &HostRuntime,
        names: &[String],
        place: Place,
        made: &Made,
    ) -> Result<(), BookFault> {
        let (Some(at), Some(up)) = (at_of(names, made.place), at_of(names, place)) else {
            return Ok(());
        };
        let row = Row {
            at,
            entry: made.entry,
            counted: None,
        };
        self.journal.void(rt, &row, up)
    }

    // Sees what became of a commit at its own line: it counts, is in doubt, or was not made.
    fn settle_here(
        &mut self,
        rt: &HostRuntime,
        names: &[String],
        made: &Made,
        seen: &Seen,
    ) -> Result<(), BookFault> {
        if seen.after.commits != seen.before.commits {
            self.done = Some(made.place);
            self.incidents.decide_last(&made.place, Outcome::Done);
            return self.count(rt, names, made.place, made, seen);
        }
        if seen.after.is_open {
            self.incidents.decide_last(&made.place, Outcome::Doubt);
            return self.doubt(rt, names, made);
        }
        Ok(())
    }

    // Sees what a later line shows of a commit that was in doubt: it counts, is still in doubt, or was not made.
    fn settle_late(
        &mut self,
        rt: &HostRuntime,
        names: &[String],
        place: Place,
        made: &Made,
        seen: &Seen,
    ) -> Result<(), BookFault> {
        if seen.after.commits != seen.before.commits {
            self.incidents.decide(&made.place, Outcome::Done);
            return self.count(rt, names, place, made, seen);
        }
        if seen.after.is_open {
            return Ok(());
        }
        self.incidents.decide(&made.place, Outcome::NotDone);
        self.void(rt, names, place, made)
    }

    /// Sees what this line shows of a commit: it counts, is in doubt until its node comes on, or was not made. BookFault::Write if standard
    /// output takes no more, BookFault::Memory is lack of memory.
    pub fn settle(
        &mut self,
        rt: &HostRuntime,
        names: &[String],
        place: Place,
        made: &Made,
        seen: &Seen,
    ) -> Result<(), BookFault> {
        let node = place_of(&made.entry.node);
        self.open[node] = if seen.after.is_open {
            Some(*made)
        } else {
            None
        };
        if made.place.is_at(&place) {
            self.settle_here(rt, names, made, seen)
        } else {
            self.settle_late(rt, names, place, made, seen)
        }
    }
}
