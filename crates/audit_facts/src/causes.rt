//! Why something is refused, what that means, and what to do.
use crate::places::device_at;

// Who refuses, and why. The first ones are of devices: why alone.
const CAUSES: [&str; 66] = [
    "blank",
    "made",
    "wrong device",
    "conflict",
    "wrong piece",
    "phase",
    "frozen",
    "clock back",
    "due",
    "bad amount",
    "no funds",
    "busy",
    "total full",
    "number full",
    "nothing pending",
    "stale",
    "stray",
    "nothing done",
    "bad code",
    "unread",
    "centre unread",
    "centre unknown device",
    "centre unknown customer",
    "centre bad code",
    "centre old",
    "centre ahead",
    "centre changed",
    "centre known",
    "centre wrong receipt",
    "centre conflict",
    "centre bad amount",
    "centre deposits full",
    "host no rates",
    "host no class",
    "host no zone",
    "host too heavy",
    "host open job",
    "host piece used",
    "host jobs full",
    "host number full",
    "host no job",
    "host state ordered",
    "host state held",
    "host state begun",
    "host state closed",
    "host unread",
    "host other piece",
    "host other postage",
    "host other class",
    "verifier unread",
    "verifier unknown device",
    "verifier bad code",
    "verifier duplicate",
    "verifier future",
    "verifier too old",
    "verifier blocks full",
    "verifier known",
    "no day",
    "no message",
    "off",
    "rates fault",
    "rates length",
    "rates toml",
    "rates form",
    "worn",
    "damaged",
];

// What each cause means.
const MEANINGS: [&str; 66] = [
    "the device was never made",
    "it was made before",
    "the message is for another device",
    "the piece has another postage or class",
    "not the piece after the last one",
    "not yet, or no longer, in service",
    "a refund or withdrawal is out",
    "the day is before its last one",
    "its inspection is overdue",
    "0, or above the limit",
    "less is left than the postage",
    "a request is out",
    "its registers would pass their limit",
    "its numbers are used up",
    "a reply came late or twice",
    "the reply is of an older request",
    "ALARM: a reply that was never sent",
    "no request was applied yet",
    "not under the key of the device",
    "the bytes are no message",
    "the bytes are no message",
    "it was never registered",
    "the customer was never opened",
    "not under the key of the device",
    "an older request came again",
    "ALARM: a request was skipped",
    "ALARM: a request was altered",
    "it was done before",
    "not the receipt after the last one",
    "the receipt has another amount",
    "0, or above the limit",
    "the deposits would pass their limit",
    "no rates were read in this run",
    "the rates have no such class",
    "the rates have no such zone",
    "above the last step of the class",
    "the device has an open job",
    "the piece was ordered before",
    "an old job is still open",
    "the numbers of jobs are used up",
    "no open job is of this piece",
    "the job has no mark yet",
    "the job has its mark",
    "its print was begun",
    "the job is closed",
    "the bytes are no mark",
    "the mark is of another piece",
    "the mark has another postage",
    "the mark has another class",
    "the bytes are no mark",
    "the device is not trusted",
    "the mark is not genuine",
    "the piece was accepted before",
    "the mark's day is to come",
    "the mark is over 30 days old",
    "no room for another block of pieces",
    "the device was trusted before",
    "the run had no day yet",
    "no message has that number",
    "the node is off",
    "rates.toml can't be read",
    "rates.toml is too long",
    "rates.toml is no TOML",
    "rates.toml has another form, or was read before",
    "the storage has had all its commits",
    "ALARM: the storage holds no record",
];

// What to do about each cause.
const REMEDIES: [&str; 66] = [
    "make DEV KEY",
    "nothing",
    "deliver it there",
    "order the next piece",
    "use the next piece",
    "enrol and inspect it first",
    "resend DEV, deliver request and reply",
    "set the day right",
    "ask DEV audit, deliver request and reply",
    "another amount",
    "ask DEV reset AMOUNT",
    "resend DEV, deliver request and reply",
    "withdraw it",
    "withdraw it",
    "nothing",
    "nothing",
    "stop, and keep the folder",
    "nothing",
    "see Keys",
    "find out who gave them",
    "find out who gave them",
    "register DEV ORIGIN KEY",
    "customer C",
    "see Keys",
    "nothing",
    "stop, and keep the folder",
    "stop, and keep the folder",
    "nothing",
    "use the next receipt",
    "compare with the bank",
    "another amount",
    "another customer",
    "rates",
    "another class",
    "another zone",
    "another class",
    "finish that job",
    "the next piece",
    "close it",
    "a new folder",
    "nothing",
    "send JOB, deliver",
    "print JOB",
    "never print it again; close JOB",
    "nothing",
    "find out who gave them",
    "deliver the right one",
    "order the next piece",
    "order the next piece",
    "don't accept it",
    "trust DEV KEY",
    "don't accept it",
    "don't accept it again",
    "don't accept it",
    "don't accept it",
    "a new folder",
    "nothing",
    "begin with day DATE",
    "look at the replies before",
    "on NODE",
    "mend it, start again",
    "mend it, start again",
    "mend it, start again",
    "mend it, start again",
    "withdraw it",
    "stop, and keep the folder",
];

// How many of the causes are those of devices, which come first.
const OF_DEVICES: usize = 20;

// Whether the text begins with these words.
fn begins(words: &[u8], text: &[u8]) -> bool {
    match text.strip_prefix(words) {
        Some(rest) => rest.is_empty() || rest[0] == b' ',
        None => false,
    }
}

// What a device says after its name.
fn after_device(text: &[u8]) -> Option<&[u8]> {
    device_at(text)?;
    text.get(3..)
}

// The first of the causes from this one up to that one whose words the text begins with.
fn found(text: &[u8], first: usize, end: usize) -> Option<usize> {
    for at in first..end {
        if begins(cause_words(at).as_bytes(), text) {
            return Some(at);
        }
    }
    None
}

/// The place of the cause among all, if this line of a report is of one.
pub(crate) fn cause_of(line: &[u8]) -> Option<usize> {
    let Some(text) = line.strip_prefix(b"refused ".as_slice()) else {
        return found(line, OF_DEVICES, CAUSES.len());
    };
    match after_device(text) {
        Some(words) => found(words, 0, OF_DEVICES),
        None => found(text, OF_DEVICES, CAUSES.len()),
    }
}

/// Who refuses, and why. Of a device only why.
pub fn cause_words(cause: usize) -> &'static str {
    CAUSES.get(cause).copied().unwrap_or("")
}

/// What the cause means.
pub fn meaning_of(cause: usize) -> &'static str {
    MEANINGS.get(cause).copied().unwrap_or("")
}

/// What to do about the cause.
pub fn remedy_for(cause: usize) -> &'static str {
    REMEDIES.get(cause).copied().unwrap_or("")
}

/// Whether the cause is one of a device.
pub fn is_of_device(cause: usize) -> bool {
    cause < OF_DEVICES
}

/// Whether the cause is an alarm.
pub fn is_alarm(cause: usize) -> bool {
    meaning_of(cause).as_bytes().starts_with(b"ALARM")
}
