//! What the desk does for a claim: before its scan, and after it.
ghost use Rattle.std.specs.Prelude.{◌≡◌, ◌⊎◌, ◌↔◌, ◌-◌, ◌≤◌, Some, None, IfSome, IsOk, IsTrue, length};
ghost use Rattle.bench_base.specs.declared.events.Event.TheVariants as ev;
ghost use Rattle.bench_base.specs.Events.{IsWholeEvent};
ghost use Rattle.line_extensions.specs.Wants.{MayAsk, IsStep};
ghost use Rattle.node_acts.specs.RowList.{put};
ghost use Rattle.indicium.specs.Marks.{read_mark};
ghost use Rattle.spoil_claims.specs.ClaimLines.{IsClaim, IsLine};
ghost use Rattle.spoil_claims.specs.Claims.{HasNoGaps, kept, last_claim, credits, credit_of, mark_of};
ghost use Rattle.spoil_claims.specs.Courses.{IsSame, row_for, Says, Tries, Known, Unknown, Begins, Credited, Scanned, scan_of};
ghost use Rattle.spoil_claims.specs.Payload.{IsFit};
ghost use Rattle.spoil_claims.specs.View.{said_of, rows_of};
ghost use Rattle.spoil_claims.specs.Waits.{IsStored, IsWaiting};
ghost use Rattle.spoil_claims.specs.declared.claim.TheConstants.{CLAIM_CELLS};

use crate::answer::Answer;
use crate::claim::{CLAIM_CELLS, ClaimLine, ClaimRow};
use crate::desk::Desk;
use crate::lines::LAST_SCAN;
use crate::payload::ClaimRows;
use bench_base::bytes::Given;
use bench_base::events::{Event, Reply};
use bench_base::numbers::Customer;
use bench_base::refusals::StoreFail;
use indicium::{Mark, read_indicium};
use line_extensions::Next;
use nv_model::Nv;
use row_store::{commit_row, row_in};

// The mark of bytes that read as one.
fn mark_in(bytes: &[u8; 64]) -> Mark
    requires reads { IsOk (read_mark bytes.now) }
    ensures { mark_of bytes.now ≡ Some result }
{
    match read_indicium(bytes) {
        Ok((mark, _)) => mark,
        Err(_) => unreachable!(),
    }
}

// What a claim adds to the credits of a customer, in mills.
fn postage(row: &ClaimRow, customer: Customer) -> u32
    requires reads { IsOk (read_mark row.now.mark) }
    ensures { result ≡ credit_of customer (Some row.now) }
{
    if row.credited && row.customer == customer {
        mark_in(&row.mark).postage
    } else {
        0
    }
}

fn is_same(row: &ClaimRow, customer: Customer, mark: &[u8; 64]) -> bool
    ensures { IsTrue result ↔ IsSame customer mark.now row.now }
{
    row.customer == customer && row.mark.as_slice() == mark.as_slice()
}

// A claim that is yet to be scanned.
fn open_claim(claim: u32, customer: Customer, mark: &[u8; 64]) -> ClaimRow
    ensures { result ≡ row_for claim customer mark.now }
{
    ClaimRow {
        claim,
        customer,
        credited: false,
        mark: *mark,
    }
}

// The scan of a mark under this number.
fn scan_under(number: u32, mark: &[u8]) -> Event
    requires first { 1 ≤ number }
    requires long { length mark.now ≡ 64 }
    ensures is { result ≡ ev.ScanHex number mark.now }
    ensures whole { IsWholeEvent result }
{
    match Given::new(mark) {
        Some(bytes) => Event::ScanHex {
            scan: number,
            bytes,
        },
        None => unreachable!(),
    }
}

// The scan that uses up the piece of a claim.
fn scan_for(row: &ClaimRow) -> Next
    requires last { row.now.claim ≤ CLAIM_CELLS }
    ensures is { result ≡ scan_of row.now }
    ensures may { MayAsk result 0 }
{
    Next::Step(scan_under(LAST_SCAN + row.claim, &row.mark))
}

impl<N: Nv> Desk<N> {
    // The claim of this number.
    pub(crate) fn kept(&self, claim: u32) -> Option<ClaimRow>
        requires first { 1 ≤ claim }
        ensures is { result ≡ kept (rows_of self.now) claim }
        ensures here { IfSome result (λ x. (x.claim ≡ claim) × IsStored (rows_of self.now) x) }
    {
        if claim > CLAIM_CELLS {
            return None;
        }
        row_in::<ClaimRows, 73>(&self.room, claim - 1)
    }

    /// The claim of this number, if it is kept.
    pub fn claim(&self, number: u32) -> Option<ClaimRow>
        requires first { 1 ≤ number }
        ensures { result ≡ kept (rows_of self.now) number }
    {
        self.kept(number)
    }

    // The last claim.
    fn last(&self) -> u32
        ensures is { result ≡ last_claim (rows_of self.now) }
        ensures range { result ≤ CLAIM_CELLS }
    {
        let mut last = 0;
        for cell in 0..CLAIM_CELLS {
            if row_in::<ClaimRows, 73>(&self.room, cell).is_some() {
                last += 1;
            }
        }
        last
    }

    // The postage of the credited claims of a customer, in mills.
    pub(crate) fn credits(&self, customer: Customer) -> u64
        ensures { result ≡ credits customer (rows_of self.now) }
    {
        let mut sum = 0;
        for cell in 0..CLAIM_CELLS {
            if let Some(row) = row_in::<ClaimRows, 73>(&self.room, cell) {
                sum += u64::from(postage(&row, customer));
            }
        }
        sum
    }

    // Answers so.
    pub(crate) fn say(&mut self, said: Answer) -> Next
        requires waits { IsWaiting (rows_of self.old) said }
        ensures says { Says said self.old result self.new }
    {
        self.said = said;
        Next::Say
    }

    // Commits a claim to its cell. What is meant follows once that is done.
    fn commit(&mut self, row: &ClaimRow, meant: Answer, then: Next) -> Next
        requires first { 1 ≤ row.now.claim }
        requires last { row.now.claim ≤ CLAIM_CELLS }
        requires fits { IsFit (row.now.claim - 1) row.now }
        requires packed { HasNoGaps (put (rows_of self.old) (row.now.claim - 1) row.now) }
        requires waits { IsWaiting (put (rows_of self.old) (row.now.claim - 1) row.now) meant }
        ensures tries { Tries row.now meant then self.old result self.new }
        ensures next { (result ≡ then) ⊎ (IsStep result → ⊥) }
    {
        if self.failed {
            self.said = Answer::Nothing;
            return Next::Stop;
        }
        let cell = row.claim - 1;
        match commit_row::<ClaimRows, N, 73>(&mut self.nv, &mut self.room, cell, row) {
            Ok(()) => {
                self.said = meant;
                then
            }
            Err(StoreFail::Worn) => {
                self.said = Answer::Worn;
                Next::Say
            }
            Err(_) => {
                self.failed = true;
                self.said = Answer::Nothing;
                Next::Stop
            }
        }
    }

    // A claim with a number that is kept.
    pub(crate) fn known(&mut self, row: &ClaimRow, customer: Customer, mark: &[u8; 64]) -> Next
        requires kept { IsStored (rows_of self.old) row.now }
        ensures begins { Known row.now.claim customer mark.now row.now self.old result self.new }
        ensures may { MayAsk result 0 }
    {
        if !is_same(row, customer, mark) {
            return self.say(Answer::Conflict);
        }
        if row.credited {
            return self.say(Answer::Credited(row.claim, mark_in(&row.mark), true));
        }
        self.said = Answer::Scanning(row.claim);
        scan_for(row)
    }

    // One with a number that is not kept.
    pub(crate) fn unknown(&mut self, claim: u32, customer: Customer, mark: &[u8; 64]) -> Next
        requires claim { IsClaim claim customer mark.now }
        requires new { kept (rows_of self.old) claim ≡ None }
        ensures begins { Unknown claim customer mark.now self.old result self.new }
        ensures may { MayAsk result 0 }
    {
        let last = self.last();
        if claim != last + 1 {
            return self.say(Answer::WrongClaim(last));
        }
        if claim == CLAIM_CELLS + 1 {
            return self.say(Answer::Full);
        }
        let row = open_claim(claim, customer, mark);
        let scan = scan_for(&row);
        self.commit(&row, Answer::Scanning(claim), scan)
    }

    // After the scan of a claim.
    pub(crate) fn scanned(&mut self, claim: u32, told: &Reply) -> Next
        requires waits { said_of self.old ≡ Answer.Scanning claim }
        ensures goes { Scanned claim told.now self.old result self.new }
        ensures last { IsStep result → ⊥ }
    {
        let Some(row) = self.kept(claim) else {
            unreachable!()
        };
        if told.is_accepted() {
            self.credit(&row)
        } else {
            self.say(Answer::Scan(*told))
        }
    }

    // Commits a claim as credited.
    fn credit(&mut self, row: &ClaimRow) -> Next
        requires kept { IsStored (rows_of self.old) row.now }
        ensures credited { Credited row.now self.old result self.new }
        ensures last { IsStep result → ⊥ }
    {
        let mut credited = *row;
        credited.credited = true;
        let meant = Answer::Credited(row.claim, mark_in(&row.mark), false);
        self.commit(&credited, meant, Next::Say)
    }

    /// What a line of its own begins with.
    pub(crate) fn begin_own(&mut self, own: &ClaimLine) -> Next
        requires line { IsLine own.now }
        ensures begins { Begins self.old own.now result self.new }
        ensures may { MayAsk result 0 }
    {
        match own {
            ClaimLine::Claim(claim, customer, mark) => match self.kept(*claim) {
                Some(row) => self.known(&row, *customer, mark),
                None => self.unknown(*claim, *customer, mark),
            },
            ClaimLine::Credits(customer) => {
                let sum = self.credits(*customer);
                self.say(Answer::Credits(*customer, sum))
            }
            ClaimLine::Reserved => self.say(Answer::Reserved),
        }
    }
}
