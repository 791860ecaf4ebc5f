//! Goes over runs that were judged once more, a line after the other, and has the book count what they report. An auditor of its own goes along: what is
//! known of a node before and after a line is what that knows.
ghost use Rattle.std.specs.Prelude.{IfOk};
ghost use Rattle.bench_base.specs.Events.{IsWholeEvent};
ghost use Rattle.trace_bench.specs.Seeing.{IsReady, audit_of};

use crate::figures::{figures_of, owner_of, seen_by};
use crate::hearing::{judged, line_of};
use crate::lines::{Left, Run, behind, behind_line, line_len};
use crate::own::{OwnLine, own_entry};
use audit_book::{Book, Figures, Made};
use audit_journal::{BookFault, Form, JournalEntry, OwnEntry};
use audit_tally::{Doing, Mishap, Place, doing_of};
use bench::MOST_MESSAGES;
use bench_base::events::{Event, Reply};
use bench_base::numbers::{Customer, DayNo};
use script_text::{Line, is_skipped, read_event};
use std::alloc::{AllocError, Global};
use trace_bench::{Auditor, Finding, due_to, stop};

// What judgements say of a line with a missing or a begun answer: the line of the reply with which its event was done, or None if that is in doubt.
fn broken_off(
    alloc: Global,
    auditor: &mut Auditor,
    event: &Event,
    rates: &[u8],
    prefix: &[u8],
) -> Result<Option<Line>, BookFault>
    requires whole { IsWholeEvent event.now }
    requires ready { IsReady (audit_of auditor.old) }
    ensures ready { IsReady (audit_of auditor.new) }
{
    // A run that is judged has at most as many lines.
    if auditor.message_count() >= MOST_MESSAGES {
        return Err(BookFault::Memory);
    }
    match stop(alloc, auditor, event, rates, prefix) {
        Ok(Some(reply)) => Ok(Some(line_of(reply))),
        Ok(None) => Ok(None),
        Err(Finding::Memory) => Err(BookFault::Memory),
        Err(Finding::Wrong(_)) => Err(BookFault::Counted),
    }
}

// The answer that is due to the event.
fn due(
    alloc: Global,
    auditor: &mut Auditor,
    event: &Event,
    rates: &[u8],
) -> Result<Reply, BookFault>
    requires whole { IsWholeEvent event.now }
    requires ready { IsReady (audit_of auditor.old) }
    ensures ready { IsReady (audit_of auditor.new) }
{
    // A run that is judged has at most as many lines.
    if auditor.message_count() >= MOST_MESSAGES {
        return Err(BookFault::Memory);
    }
    match due_to(alloc, auditor, event, rates) {
        Ok(due) => Ok(due),
        Err(_) => Err(BookFault::Memory),
    }
}

/// Goes over runs after they were judged.
#[derive(Drop)]
pub struct Recount {
    pub auditor: Auditor,
    pub book: Book,
    /// Whose statement was opened last.
    listed: Option<Customer>,
}

// What is known of the node of this commit.
fn known(auditor: &Auditor, made: &Option<Made>) -> Option<Figures>
    requires ready { IsReady (audit_of auditor.now) }
{
    match made {
        Some(made) => Some(figures_of(auditor, &made.entry)),
        None => None,
    }
}

// Sees what became of this commit, by what was known of its node before the line and is known after it.
fn settle(
    rt: &HostRuntime,
    names: &[String],
    place: Place,
    auditor: &Auditor,
    book: &mut Book,
    made: &Option<Made>,
    before: &Option<Figures>,
) -> Result<(), BookFault>
    requires ready { IsReady (audit_of auditor.now) }
{
    let Some(made) = made else {
        return Ok(());
    };
    let Some(before) = before else {
        return Ok(());
    };
    let seen = seen_by(auditor, &made.entry, *before);
    book.settle(rt, names, place, made, &seen)
}

// Adds a row for what became of a print, if the line reports it.
fn tell_print(
    rt: &HostRuntime,
    names: &[String],
    place: Place,
    auditor: &Auditor,
    book: &mut Book,
    doing: &Doing,
    line: &[u8],
) -> Result<(), BookFault> {
    let Some(entry) = book.print_told(auditor.day(), doing, line) else {
        return Ok(());
    };
    let customer = owner_of(auditor, &entry);
    book.add_print(rt, names, place, JournalEntry { customer, ..entry })
}

// Counts what a line of a run's own did on this day.
fn enter_own(
    rt: &HostRuntime,
    names: &[String],
    run: usize,
    day: &Option<DayNo>,
    own: &OwnLine,
    listed: &mut Option<Customer>,
    book: &mut Book,
) -> Result<(), BookFault> {
    let answer = own.answer.as_slice();
    let Some(entry) = own_entry(&mut book.own, listed, own.line.as_slice(), answer) else {
        return Ok(());
    };
    let place = Place {
        run,
        line: own.number,
    };
    book.enter_own(rt, names, place, OwnEntry { day: *day, ..entry }, answer)
}

// Counts the lines of a run's own from that of this number on that come before the line of this place among the events: the number of the next one.
fn enter_before(
    rt: &HostRuntime,
    names: &[String],
    run: usize,
    day: &Option<DayNo>,
    own: &[OwnLine],
    from: usize,
    place: usize,
    listed: &mut Option<Customer>,
    book: &mut Book,
) -> Result<usize, BookFault> {
    for at in from..own.len() {
        if own[at].place > place {
            return Ok(at);
        }
        enter_own(rt, names, run, day, &own[at], listed, book)?;
    }
    Ok(own.len())
}

impl Recount {
    /// A clerk that went over no run, with this auditor, and a journal of this form. What the page of an audit shows besides is kept, or not.
    /// AllocError is lack of memory.
    pub fn new(
        alloc: Global,
        auditor: Auditor,
        form: Form,
        has_facts: bool,
    ) -> Result<Recount, AllocError>
        requires ready { IsReady (audit_of auditor) }
        ensures ready { IfOk result (λ c. IsReady (audit_of c.auditor)) }
    {
        let book = Book::new(alloc, form, has_facts)?;
        Ok(Recount {
            auditor,
            book,
            listed: None,
        })
    }

    // Takes an event with its line of the report: how many bytes of the rates it took.
    fn take(
        &mut self,
        rt: &HostRuntime,
        names: &[String],
        place: Place,
        event: &Event,
        rates: &[u8],
        line: &[u8],
    ) -> Result<usize, BookFault>
        requires whole { IsWholeEvent event.now }
        requires ready { IsReady (audit_of self.old.auditor) }
        ensures ready { IsReady (audit_of self.new.auditor) }
    {
        match due(rt.alloc(), &mut self.auditor, event, rates) {
            Ok(due) => self.take_due(rt, names, place, event, rates, line, due),
            Err(fault) => Err(fault),
        }
    }

    // Settles the commit of an event with this line of the report, and counts the mark that it gives out and what became of its print.
    fn finish(
        &mut self,
        rt: &HostRuntime,
        names: &[String],
        place: Place,
        doing: &Doing,
        made: &Option<Made>,
        before: &Option<Figures>,
        due: &Reply,
        line: &[u8],
    ) -> Result<(), BookFault>
        requires ready { IsReady (audit_of self.old.auditor) }
        ensures ready { IsReady (audit_of self.new.auditor) }
    {
        settle(
            rt,
            names,
            place,
            &self.auditor,
            &mut self.book,
            made,
            before,
        )?;
        self.book.give_out(due, line);
        tell_print(rt, names, place, &self.auditor, &mut self.book, doing, line)
    }

    // Takes an event with its line of the report, where this answer was due without a failure.
    fn take_due(
        &mut self,
        rt: &HostRuntime,
        names: &[String],
        place: Place,
        event: &Event,
        rates: &[u8],
        line: &[u8],
        due: Reply,
    ) -> Result<usize, BookFault>
        requires whole { IsWholeEvent event.now }
        requires ready { IsReady (audit_of self.old.auditor) }
        ensures ready { IsReady (audit_of self.new.auditor) }
    {
        let doing = doing_of(event);
        let made = self.book.expected(place, self.auditor.day(), &doing, &due);
        let before = known(&self.auditor, &made);
        let taken = judged(rt.alloc(), &mut self.auditor, event, rates, line)?;
        self.hear(rt.alloc(), place, &doing, &due, line)?;
        self.finish(rt, names, place, &doing, &made, &before, &due, line)?;
        Ok(taken)
    }

    // Counts the day, and what the line reports.
    fn hear(
        &mut self,
        alloc: Global,
        place: Place,
        doing: &Doing,
        due: &Reply,
        line: &[u8],
    ) -> Result<(), BookFault>
        requires ready { IsReady (audit_of self.old.auditor) }
        ensures ready { IsReady (audit_of self.new.auditor) }
    {
        self.book.date(self.auditor.day());
        self.book
            .hear(alloc, place, self.auditor.day(), doing, due, line)
    }

    // Takes the event of the stop of the run: it was done with the reply that begins so, or its commit is in doubt, if it makes one.
    fn break_off(
        &mut self,
        rt: &HostRuntime,
        names: &[String],
        place: Place,
        event: &Event,
        left: Left<'_>,
    ) -> Result<(), BookFault>
        requires whole { IsWholeEvent event.now }
        requires ready { IsReady (audit_of self.old.auditor) }
        ensures ready { IsReady (audit_of self.new.auditor) }
    {
        match due(rt.alloc(), &mut self.auditor, event, left.rates) {
            Ok(due) => self.break_off_due(rt, names, place, event, left, due),
            Err(fault) => Err(fault),
        }
    }

    // Takes the event of the stop of the run, with the answer that was due without a failure.
    fn break_off_due(
        &mut self,
        rt: &HostRuntime,
        names: &[String],
        place: Place,
        event: &Event,
        left: Left<'_>,
        due: Reply,
    ) -> Result<(), BookFault>
        requires whole { IsWholeEvent event.now }
        requires ready { IsReady (audit_of self.old.auditor) }
        ensures ready { IsReady (audit_of self.new.auditor) }
    {
        let doing = doing_of(event);
        let made = self.book.expected(place, self.auditor.day(), &doing, &due);
        let before = known(&self.auditor, &made);
        let told = broken_off(
            rt.alloc(),
            &mut self.auditor,
            event,
            left.rates,
            left.report,
        )?;
        let line = match &told {
            Some(line) => line.as_slice(),
            None => &[],
        };
        if !line.is_empty() {
            self.hear(rt.alloc(), place, &doing, &due, line)?;
        }
        self.book.note(place, Mishap::Stop, self.auditor.day())?;
        self.finish(rt, names, place, &doing, &made, &before, &due, line)
    }

    // Takes the event of the first line of what is left, and gives what is left after it. None if there is no answer to it.
    fn answer<'a>(
        &mut self,
        rt: &HostRuntime,
        names: &[String],
        place: Place,
        left: Left<'a>,
        stopped: Option<u32>,
        event: &Event,
    ) -> Result<Option<Left<'a>>, BookFault>
        requires whole { IsWholeEvent event.now }
        requires ready { IsReady (audit_of self.old.auditor) }
        ensures ready { IsReady (audit_of self.new.auditor) }
    {
        let told = line_len(left.report);
        if told == left.report.len() {
            if stopped == Some(place.line) {
                self.break_off(rt, names, place, event, left)?;
            }
            return Ok(None);
        }
        let taken = self.take(rt, names, place, event, left.rates, &left.report[..told])?;
        Ok(Some(Left {
            script: behind_line(left.script),
            report: &left.report[told + 1..],
            rates: behind(left.rates, taken),
        }))
    }

    // Goes over the first line of what is left, and gives what is left after it. None if there is no line, or no answer to it.
    fn turn<'a>(
        &mut self,
        rt: &HostRuntime,
        names: &[String],
        place: Place,
        left: Left<'a>,
        stopped: Option<u32>,
    ) -> Result<Option<Left<'a>>, BookFault>
        requires ready { IsReady (audit_of self.old.auditor) }
        ensures ready { IsReady (audit_of self.new.auditor) }
    {
        if left.script.is_empty() {
            return Ok(None);
        }
        let line = &left.script[..line_len(left.script)];
        if is_skipped(line) {
            let script = behind_line(left.script);
            return Ok(Some(Left { script, ..left }));
        }
        match &read_event(line) {
            Ok(event) => self.answer(rt, names, place, left, stopped, event),
            Err(_) => Ok(None),
        }
    }

    // Counts the lines of the run's own from that of this number on that come before the line of this place among the events: the number of the next one.
    fn enter_before(
        &mut self,
        rt: &HostRuntime,
        names: &[String],
        place: usize,
        run: &Run,
        from: usize,
        count: usize,
    ) -> Result<usize, BookFault>
        requires ready { IsReady (audit_of self.old.auditor) }
        ensures ready { IsReady (audit_of self.new.auditor) }
    {
        let day = self.auditor.day();
        let own = run.own.as_slice();
        let (listed, book) = (&mut self.listed, &mut self.book);
        enter_before(rt, names, place, &day, own, from, count, listed, book)
    }

    // Goes over the events of the run of this place among the names, as far as its report has answers, and over the event of the line of the stop: how many
    // lines of the run's own come before the last of them.
    fn go_over_events(
        &mut self,
        rt: &HostRuntime,
        names: &[String],
        place: usize,
        run: &Run,
        stopped: Option<u32>,
    ) -> Result<usize, BookFault>
        requires ready { IsReady (audit_of self.old.auditor) }
        ensures ready { IsReady (audit_of self.new.auditor) }
    {
        let mut left = run.whole();
        let mut told = 0;
        for count in 0..run.most() {
            let at = Place {
                run: place,
                line: run.number_at(count),
            };
            told = self.enter_before(rt, names, place, run, told, count)?;
            match self.turn(rt, names, at, left, stopped)? {
                Some(next) => left = next,
                None => return Ok(told),
            }
        }
        Ok(told)
    }

    /// Goes over the run of this place among the names, as far as its report has answers, over the event of the line of the stop, and over the lines of its
    /// own that were answered. BookFault::Write if standard output takes no more, BookFault::Counted if a line is judged otherwise than before,
    /// BookFault::Memory is lack of memory.
    pub fn go_over(
        &mut self,
        rt: &HostRuntime,
        names: &[String],
        place: usize,
        run: &Run,
        stopped: Option<u32>,
    ) -> Result<(), BookFault>
        requires ready { IsReady (audit_of self.old.auditor) }
        ensures ready { IsReady (audit_of self.new.auditor) }
    {
        self.auditor.begin();
        self.book.begin_run();
        match self.go_over_events(rt, names, place, run, stopped) {
            Ok(told) => {
                self.enter_before(rt, names, place, run, told, usize::MAX)?;
                Ok(())
            }
            Err(fault) => Err(fault),
        }
    }

    /// Keeps that the run of this place among the names was stopped at this line, one of its own, unless that was kept with a step of it. The line is
    /// done if a commit of its steps counts; otherwise it may be in doubt whether anything was done. BookFault::Memory is lack of memory.
    pub fn stop_at(&mut self, run: usize, line: u32, is_open: bool) -> Result<(), BookFault>
        requires ready { IsReady (audit_of self.old.auditor) }
        ensures ready { IsReady (audit_of self.new.auditor) }
    {
        let place = Place { run, line };
        self.book.stop_at(place, self.auditor.day(), is_open)
    }
}
