//! The words of refusals.
ghost use Rattle.std.specs.Prelude.{◌≡◌, ◌+◌, ◌≤◌, ◌++◌, length};
ghost use Rattle.script_text.specs.Refusals.{dev_words, centre_words, rate_words, host_words, scan_words, phase_word, state_word, unread_word, fault_word};
ghost use Rattle.script_words.specs.Words.{spaced};

use bench_base::refusals::{
    CentreRefusal, DevRefusal, HostRefusal, MarkFault, RateRefusal, ScanRefusal, Unread,
};
use bench_base::words::{JobState, Phase};
use script_words::line::Line;

/// The word of the phase.
pub fn phase_word(phase: Phase) -> &'static [u8]
    ensures value { result.now ≡ phase_word phase }
    ensures short { length result.now ≤ 20 }
{
    match phase {
        Phase::Blank => b"blank",
        Phase::Manufactured => b"manufactured",
        Phase::Authorised => b"authorised",
        Phase::InService => b"in-service",
        Phase::Locked => b"locked",
        Phase::Withdrawn => b"withdrawn",
    }
}

// The word of the state of a job.
fn state_word(state: JobState) -> &'static [u8]
    ensures value { result.now ≡ state_word state }
    ensures short { length result.now ≤ 20 }
{
    match state {
        JobState::Ordered => b"ordered",
        JobState::Held => b"held",
        JobState::Begun => b"begun",
        JobState::Closed => b"closed",
    }
}

// The word of the cause.
fn unread_word(cause: Unread) -> &'static [u8]
    ensures value { result.now ≡ unread_word cause }
    ensures short { length result.now ≤ 20 }
{
    match cause {
        Unread::Length => b"length",
        Unread::Version => b"version",
        Unread::Tag => b"tag",
        Unread::Kind => b"kind",
        Unread::Verdict => b"verdict",
        Unread::Day => b"day",
        Unread::Mark => b"mark",
    }
}

// The word of the fault, without its number.
fn fault_word(fault: MarkFault) -> &'static [u8]
    ensures value { result.now ≡ fault_word fault }
    ensures short { length result.now ≤ 20 }
{
    match fault {
        MarkFault::Length(_) => b"length",
        MarkFault::Version(_) => b"version",
        MarkFault::Algorithm(_) => b"algorithm",
    }
}

// Adds the words of a device's refusal.
#[tactic(auto, unfolding(crate::specs::Refusals::dev_words))]
pub fn put_dev_refusal(line: &mut Line, refusal: DevRefusal)
    requires { length line.old ≤ 60 }
    ensures value { line.new ≡ line.old ++ spaced (dev_words refusal) }
    ensures short { length line.new ≤ length line.old + 80 }
{
    match refusal {
        DevRefusal::Blank => line.word(b"blank"),
        DevRefusal::Made => line.word(b"made"),
        DevRefusal::WrongDevice(device) => {
            line.word(b"wrong device");
            line.number(device);
        }
        DevRefusal::Conflict(postage, class) => {
            line.word(b"conflict");
            line.number(postage);
            line.number(class);
        }
        DevRefusal::WrongPiece(pieces) => {
            line.word(b"wrong piece");
            line.number(pieces);
        }
        DevRefusal::Phase(phase) => {
            line.word(b"phase");
            line.word(phase_word(phase));
        }
        DevRefusal::Frozen(kind) => {
            line.word(b"frozen");
            line.kind(kind);
        }
        DevRefusal::ClockBack(day) => {
            line.word(b"clock back");
            line.number(day);
        }
        DevRefusal::Due(day) => {
            line.word(b"due");
            line.number(day);
        }
        DevRefusal::BadAmount(amount) => {
            line.word(b"bad amount");
            line.number(amount);
        }
        DevRefusal::NoFunds(descending) => {
            line.word(b"no funds");
            line.number(descending);
        }
        DevRefusal::Busy(kind) => {
            line.word(b"busy");
            line.kind(kind);
        }
        DevRefusal::TotalFull(total) => {
            line.word(b"total full");
            line.number(total);
        }
        DevRefusal::NumberFull => line.word(b"number full"),
        DevRefusal::NothingPending => line.word(b"nothing pending"),
        DevRefusal::Stale(number) => {
            line.word(b"stale");
            line.number(number);
        }
        DevRefusal::Stray(kind) => {
            line.word(b"stray");
            line.kind(kind);
        }
        DevRefusal::NothingDone => line.word(b"nothing done"),
        DevRefusal::BadCode => line.word(b"bad code"),
        DevRefusal::Unread(cause) => {
            line.word(b"unread");
            line.word(unread_word(cause));
        }
    }
}

// Adds the words of a refusal of the centre.
#[tactic(auto, unfolding(crate::specs::Refusals::centre_words))]
pub fn put_centre_refusal(line: &mut Line, refusal: CentreRefusal)
    requires { length line.old ≤ 60 }
    ensures value { line.new ≡ line.old ++ spaced (centre_words refusal) }
    ensures short { length line.new ≤ length line.old + 80 }
{
    match refusal {
        CentreRefusal::Unread(cause) => {
            line.word(b"unread");
            line.word(unread_word(cause));
        }
        CentreRefusal::UnknownDevice(device) => {
            line.word(b"unknown device");
            line.number(device);
        }
        CentreRefusal::UnknownCustomer(customer) => {
            line.word(b"unknown customer");
            line.number(customer.get());
        }
        CentreRefusal::BadCode => line.word(b"bad code"),
        CentreRefusal::Old(number) => {
            line.word(b"old");
            line.number(number);
        }
        CentreRefusal::Ahead(number) => {
            line.word(b"ahead");
            line.number(number);
        }
        CentreRefusal::Changed(number) => {
            line.word(b"changed");
            line.number(number);
        }
        CentreRefusal::Known => line.word(b"known"),
        CentreRefusal::WrongReceipt(receipt) => {
            line.word(b"wrong receipt");
            line.number(receipt);
        }
        CentreRefusal::Conflict(amount) => {
            line.word(b"conflict");
            line.number(amount);
        }
        CentreRefusal::BadAmount(amount) => {
            line.word(b"bad amount");
            line.number(amount);
        }
        CentreRefusal::DepositsFull(total) => {
            line.word(b"deposits full");
            line.number(total);
        }
    }
}

// Adds the words of why there is no price.
fn put_rate_refusal(line: &mut Line, refusal: RateRefusal)
    requires { length line.old ≤ 60 }
    ensures value { line.new ≡ line.old ++ spaced (rate_words refusal) }
    ensures short { length line.new ≤ length line.old + 80 }
{
    match refusal {
        RateRefusal::NoClass => line.word(b"no class"),
        RateRefusal::NoZone(zones) => {
            line.word(b"no zone");
            line.number(zones);
        }
        RateRefusal::TooHeavy(grams) => {
            line.word(b"too heavy");
            line.number(grams);
        }
    }
}

// Adds the words of a refusal of the host.
#[tactic(auto, unfolding(crate::specs::Refusals::host_words))]
pub fn put_host_refusal(line: &mut Line, refusal: HostRefusal)
    requires { length line.old ≤ 60 }
    ensures value { line.new ≡ line.old ++ spaced (host_words refusal) }
    ensures short { length line.new ≤ length line.old + 80 }
{
    match refusal {
        HostRefusal::NoRates => line.word(b"no rates"),
        HostRefusal::Rate(refusal) => put_rate_refusal(line, refusal),
        HostRefusal::OpenJob(job) => {
            line.word(b"open job");
            line.number(job);
        }
        HostRefusal::Used(piece) => {
            line.word(b"piece used");
            line.number(piece);
        }
        HostRefusal::JobsFull(job) => {
            line.word(b"jobs full");
            line.number(job);
        }
        HostRefusal::NumberFull => line.word(b"number full"),
        HostRefusal::NoJob => line.word(b"no job"),
        HostRefusal::State(state) => {
            line.word(b"state");
            line.word(state_word(state));
        }
        HostRefusal::Unread(cause) => {
            line.word(b"unread");
            line.word(unread_word(cause));
        }
        HostRefusal::OtherPiece(piece) => {
            line.word(b"other piece");
            line.number(piece);
        }
        HostRefusal::OtherPostage(postage) => {
            line.word(b"other postage");
            line.number(postage);
        }
        HostRefusal::OtherClass(class) => {
            line.word(b"other class");
            line.number(class);
        }
    }
}

// Adds the words of a refusal of the verifier.
#[tactic(auto, unfolding(crate::specs::Refusals::scan_words))]
pub fn put_scan_refusal(line: &mut Line, refusal: ScanRefusal)
    requires { length line.old ≤ 60 }
    ensures value { line.new ≡ line.old ++ spaced (scan_words refusal) }
    ensures short { length line.new ≤ length line.old + 80 }
{
    match refusal {
        ScanRefusal::Unread(fault) => {
            line.word(b"unread");
            line.word(fault_word(fault));
        }
        ScanRefusal::Unknown(device) => {
            line.word(b"unknown device");
            line.number(device);
        }
        ScanRefusal::BadCode => line.word(b"bad code"),
        ScanRefusal::Duplicate(scan) => {
            line.word(b"duplicate");
            line.number(scan);
        }
        ScanRefusal::Future(day) => {
            line.word(b"future");
            line.number(day);
        }
        ScanRefusal::TooOld(day) => {
            line.word(b"too old");
            line.number(day);
        }
        ScanRefusal::BlocksFull => line.word(b"blocks full"),
        ScanRefusal::Known => line.word(b"known"),
    }
}
