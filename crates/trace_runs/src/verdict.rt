//! What an audit says of one run.
use bench_base::events::Reply;

/// How the run over a script ends.
#[derive(Clone, Copy)]
pub enum Ending {
    /// `end` was answered.
    Done,
    /// The line of this number, counted from 1, is bad or missing.
    Script(u32),
    /// The script has 1,000,000 lines and no `end` among them.
    TooLong,
}

/// What an audit reads line by line.
#[derive(Clone, Copy, Debug, PartialEq, Eq)]
pub enum Input {
    /// The script of the run.
    Script,
    /// Its report.
    Report,
}

/// What an audit says of one run.
#[derive(Clone, Copy)]
pub enum Verdict {
    /// Each event may have got the line that the report has for it, and the report ends as the script does.
    Lawful(Ending),
    /// So far as for `Lawful`; but the report ends before the line end of the answer to the line of this number, which is that of an event. The
    /// report then ends with the prefix, which may be empty, of the line of a reply that the event may get.
    Stopped(u32),
    /// The lines before the line of this number may be so, but its event may get no reply with the line that the report has, and no reply with a
    /// line that begins with what it ends with. This was the answer.
    Wrong(u32, Reply),
    /// The lines before the line of this number may be so, and its event contains forged bytes. They have the right MAC of whoever they name, or are
    /// a mark for the host, and were not sent or released in any run before. What the report has for it is not looked at.
    Forged(u32),
    /// The lines before the line of this number may be so, and its event contains bytes. But the auditor does not keep what was sent and released,
    /// so it can't recognize forged ones.
    Unkept(u32),
    /// The script ends so at the line of this number, and the report goes on after that.
    More(u32, Ending),
    /// There was no memory, for rates or for a message.
    Memory,
    /// This failed to be read at the line of this number. The lines before it may be so.
    Unread(Input, u32),
}

/// What an audit says of one run, and how many answers it judged.
#[derive(Clone, Copy)]
pub struct Judgment {
    pub verdict: Verdict,
    /// How many lines the report has, if the run is lawful: each is the answer to an event.
    pub answers: u32,
}
