//! What the checker does for a line about the manifest, and after each scan.
ghost use Rattle.std.specs.Prelude.{◌≡◌, ◌≢◌, ◌↔◌, ◌-◌, ◌<◌, ◌≤◌, ◌+◌, Some, None, IfOk, OnErr, IsTrue, length};
ghost use Rattle.bench_base.specs.declared.events.Event.TheVariants as ev;
ghost use Rattle.bench_base.specs.Events.{IsWholeEvent};
ghost use Rattle.line_extensions.specs.Wants.{MayAsk, IsStep};
ghost use Rattle.mail_manifest.specs.Causes.{Finds, FindsMarks};
ghost use Rattle.mail_manifest.specs.Courses.{Answers, Scanning, Begins, Scanned, scan_of, yes_of};
ghost use Rattle.mail_manifest.specs.Listings.{IsOpening, opened, with_mark, code_of};
ghost use Rattle.mail_manifest.specs.declared.opening.ManifestLine.TheVariants as lines;
ghost use Rattle.mail_manifest.specs.ManifestLines.{IsInRange};
ghost use Rattle.mail_manifest.specs.Held.{listed};
ghost use Rattle.mail_manifest.specs.View.{listing_of, said_of};
ghost use Rattle.mail_manifest.specs.Waits.{IsWaiting, pieces_left};
ghost use Rattle.mail_manifest.specs.Wanting as wanting;

use crate::answer::Answer;
use crate::checker::Checker;
use crate::manifest::Manifest;
use crate::opening::{ManifestLine, Opening};
use bench_base::bytes::Given;
use bench_base::events::{Event, Reply};
use line_extensions::Next;
use std::alloc::{AllocError, Global};

// The scan of a mark under this number.
fn scan_under(number: u32, mark: &[u8]) -> Event
    requires first { 1 ≤ number }
    requires long { length mark.now ≡ 64 }
    ensures is { result ≡ ev.ScanHex number mark.now }
    ensures whole { IsWholeEvent result }
{
    match Given::new(mark) {
        Some(bytes) => Event::ScanHex {
            scan: number,
            bytes,
        },
        None => unreachable!(),
    }
}

// The scan of the piece of this number, counted from 1.
fn scan_for(manifest: &Manifest, number: u16) -> Next
    requires first { 1 ≤ number }
    requires last { number ≤ length (listed manifest.now).marks }
    ensures is { result ≡ Next.Step (scan_of (listed manifest.now) number) }
    ensures may { MayAsk result 0 }
{
    let at = number - 1;
    Next::Step(scan_under(manifest.number(at), &manifest.mark(at)))
}

// Why the marks are refused before any scan.
fn marks_cause(manifest: &Manifest) -> Option<Answer>
    ensures { FindsMarks (listed manifest.now) result }
{
    let sum = match manifest.postage() {
        Ok(sum) => sum,
        Err(number) => return Some(Answer::Unread(number)),
    };
    if sum == manifest.opening.total {
        return None;
    }
    Some(Answer::NoTotal(sum))
}

// Whether this is the code of the manifest.
fn is_coded(manifest: &Manifest, code: &[u8; 32]) -> bool
    ensures { IsTrue result ↔ (code.now ≡ code_of (listed manifest.now)) }
{
    code.as_slice() == manifest.code().as_slice()
}

// Why a manifest is refused before any scan, where a check has this code.
fn first_cause(manifest: &Manifest, code: &[u8; 32]) -> Option<Answer>
    ensures { Finds (listed manifest.now) code.now result }
{
    let pieces = manifest.pieces();
    if pieces != manifest.opening.count {
        return Some(Answer::NoCount(pieces));
    }
    if !is_coded(manifest, code) {
        return Some(Answer::NoCode);
    }
    marks_cause(manifest)
}

// Adds a piece to a manifest, where there is room for it.
fn add_to(manifest: &mut Manifest, mark: &[u8; 64]) -> Answer
    ensures full { length (listed manifest.old).marks ≡ (listed manifest.old).opening.count
        → (result ≡ Answer.Full) × (listed manifest.new ≡ listed manifest.old) }
    ensures adds { length (listed manifest.old).marks ≢ (listed manifest.old).opening.count
        → (result ≡ Answer.Piece (length (listed manifest.old).marks + 1))
        × (listed manifest.new ≡ with_mark (listed manifest.old) mark.now) }
{
    let pieces = manifest.pieces();
    if pieces == manifest.opening.count {
        return Answer::Full;
    }
    manifest.add(mark);
    Answer::Piece(pieces + 1)
}

// The answer where this piece, which was accepted, is the last one.
fn good_behind(manifest: &Manifest, number: u16) -> Option<Answer>
    ensures last { number ≡ length (listed manifest.now).marks → result ≡ Some (yes_of (listed manifest.now)) }
    ensures more { number ≢ length (listed manifest.now).marks → result ≡ None }
{
    if number == manifest.pieces() {
        return Some(Answer::Yes(manifest.opening.count, manifest.opening.total));
    }
    None
}

impl Checker {
    /// A checker with no manifest.
    pub fn new() -> Checker
        ensures none { listing_of result ≡ None }
        ensures silent { said_of result ≡ Answer.Nothing }
    {
        Checker {
            manifest: None,
            said: Answer::Nothing,
        }
    }

    // Answers so.
    fn say(&mut self, said: Answer) -> Next
        requires waits { IsWaiting (listing_of self.old) said }
        ensures { Answers said (listing_of self.old) result self.new }
    {
        self.said = said;
        Next::Say
    }

    // Opens a manifest, and drops an earlier one. If memory runs out all stays.
    fn open(&mut self, alloc: Global, opening: &Opening) -> Result<Next, AllocError>
        requires range { IsOpening opening.now }
        ensures opens { IfOk result (λ next. Answers (Answer.Opened opening.now.count) (Some (opened opening.now)) next self.new) }
        ensures stays { OnErr result (self.new ≡ self.old) }
    {
        let manifest = Manifest::open(alloc, *opening)?;
        self.said = Answer::Opened(opening.count);
        self.manifest = Some(manifest);
        Ok(Next::Say)
    }

    // Adds a piece, where there is room for it.
    fn piece(&mut self, mark: &[u8; 64]) -> Next
        ensures { Begins self.old (lines.Piece mark.now) result self.new }
    {
        self.said = Answer::Nothing;
        let said = match &mut self.manifest {
            None => Answer::NoManifest,
            Some(manifest) => add_to(manifest, mark),
        };
        self.say(said)
    }

    // Answers the code over the pieces so far.
    fn code(&mut self) -> Next
        ensures { Begins self.old lines.Code result self.new }
    {
        let said = match &self.manifest {
            None => Answer::NoManifest,
            Some(manifest) => Answer::Code(manifest.code()),
        };
        self.say(said)
    }

    // Asks for the scan of the piece of this number.
    fn scan(&mut self, number: u16) -> Next
        requires waits { IsWaiting (listing_of self.old) (Answer.Scanning number) }
        ensures scans { Scanning number self.old result self.new }
        ensures may { MayAsk result (pieces_left (listing_of self.new) (said_of self.new)) }
    {
        let next = match &self.manifest {
            None => unreachable!(),
            Some(manifest) => scan_for(manifest, number),
        };
        self.said = Answer::Scanning(number);
        next
    }

    // Checks the manifest: its pieces are scanned where no cause comes before.
    fn check(&mut self, code: &[u8; 32]) -> Next
        ensures begins { Begins self.old (lines.Check code.now) result self.new }
        ensures may { MayAsk result (pieces_left (listing_of self.new) (said_of self.new)) }
    {
        let cause = match &self.manifest {
            None => Some(Answer::NoManifest),
            Some(manifest) => first_cause(manifest, code),
        };
        match cause {
            Some(said) => self.say(said),
            None => self.scan(1),
        }
    }

    // After the scan of a piece.
    pub(crate) fn scanned(&mut self, number: u16, told: &Reply) -> Next
        requires waits { said_of self.old ≡ Answer.Scanning number }
        ensures goes { Scanned number told.now self.old result self.new }
        ensures may { MayAsk result (pieces_left (listing_of self.new) (said_of self.new)) }
        ensures fewer { IsStep result → pieces_left (listing_of self.new) (said_of self.new) < pieces_left
            (listing_of self.old) (said_of self.old) }
    {
        if !told.is_accepted() {
            return self.say(Answer::NoPiece(number, *told));
        }
        let good = match &self.manifest {
            None => unreachable!(),
            Some(manifest) => good_behind(manifest, number),
        };
        match good {
            Some(said) => self.say(said),
            None => self.scan(number + 1),
        }
    }

    /// What a line about the manifest begins with.
    pub(crate) fn begin_own(
        &mut self,
        alloc: Global,
        own: &ManifestLine,
    ) -> Result<Next, AllocError>
        requires line { IsInRange own.now }
        ensures begins { IfOk result (λ next. Begins self.old own.now next self.new) }
        ensures may { IfOk result (λ next. MayAsk next (pieces_left (listing_of self.new) (said_of self.new))) }
        ensures memory { OnErr result (wanting.MayWant own.now × (self.new ≡ self.old)) }
    {
        match own {
            ManifestLine::Open(opening) => self.open(alloc, opening),
            ManifestLine::Piece(mark) => Ok(self.piece(mark)),
            ManifestLine::Code => Ok(self.code()),
            ManifestLine::Check(code) => Ok(self.check(code)),
        }
    }
}
