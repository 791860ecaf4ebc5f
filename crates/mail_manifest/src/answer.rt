//! What the checker answers, and its text.
ghost use Rattle.std.specs.Prelude.{◌≡◌, ◌<◌, [], ◌∷◌, length};
ghost use Rattle.mail_manifest.specs.Texts.{said_texts, open_text, piece_text, code_text, yes_text, no_count_text, unread_text, no_total_text, no_piece_text};

use bench_base::events::Reply;
use script_text::write_reply;
use script_words::Line;

/// What the checker answers its last line, or what it waits for.
#[derive(Clone, Copy)]
pub enum Answer {
    Nothing,
    /// The scan of the piece of this number, counted from 1, is awaited.
    Scanning(u16),
    NoManifest,
    Full,
    /// How many pieces the manifest is to have.
    Opened(u16),
    /// The number of the piece, counted from 1.
    Piece(u16),
    Code([u8; 32]),
    /// How many pieces were accepted, and their postage in mills.
    Yes(u16, u64),
    /// How many pieces there are.
    NoCount(u16),
    NoCode,
    /// The number of the first piece with a mark that does not read.
    Unread(u16),
    /// What the postage adds up to, in mills.
    NoTotal(u64),
    /// The number of the first piece with a scan that was not answered by `Accepted`, and that answer.
    NoPiece(u16, Reply),
}

#[tactic(auto, unfolding(crate::specs::Texts::open_text))]
fn put_open(line: &mut Line, count: u16)
    requires empty { line.old ≡ [] }
    ensures value { line.new ≡ open_text count }
    ensures short { length line.new < 256 }
{
    line.put(b"manifest open");
    line.number(count);
}

#[tactic(auto, unfolding(crate::specs::Texts::piece_text))]
fn put_piece(line: &mut Line, number: u16)
    requires empty { line.old ≡ [] }
    ensures value { line.new ≡ piece_text number }
    ensures short { length line.new < 256 }
{
    line.put(b"piece");
    line.number(number);
}

#[tactic(auto, unfolding(crate::specs::Texts::code_text))]
fn put_code(line: &mut Line, code: &[u8; 32])
    requires empty { line.old ≡ [] }
    ensures value { line.new ≡ code_text code.now }
    ensures short { length line.new < 256 }
{
    line.put(b"code");
    line.hex(code);
}

#[tactic(auto, unfolding(crate::specs::Texts::yes_text))]
fn put_yes(line: &mut Line, count: u16, total: u64)
    requires empty { line.old ≡ [] }
    ensures value { line.new ≡ yes_text count total }
    ensures short { length line.new < 256 }
{
    line.put(b"manifest yes");
    line.number(count);
    line.number(total);
}

#[tactic(auto, unfolding(crate::specs::Texts::no_count_text))]
fn put_no_count(line: &mut Line, count: u16)
    requires empty { line.old ≡ [] }
    ensures value { line.new ≡ no_count_text count }
    ensures short { length line.new < 256 }
{
    line.put(b"manifest no count");
    line.number(count);
}

#[tactic(auto, unfolding(crate::specs::Texts::unread_text))]
fn put_unread(line: &mut Line, number: u16)
    requires empty { line.old ≡ [] }
    ensures value { line.new ≡ unread_text number }
    ensures short { length line.new < 256 }
{
    line.put(b"manifest no unread");
    line.number(number);
}

#[tactic(auto, unfolding(crate::specs::Texts::no_total_text))]
fn put_no_total(line: &mut Line, sum: u64)
    requires empty { line.old ≡ [] }
    ensures value { line.new ≡ no_total_text sum }
    ensures short { length line.new < 256 }
{
    line.put(b"manifest no total");
    line.number(sum);
}

#[tactic(auto, unfolding(crate::specs::Texts::no_piece_text))]
fn put_no_piece(line: &mut Line, number: u16, reply: &Reply)
    requires empty { line.old ≡ [] }
    ensures value { line.new ≡ no_piece_text number reply.now }
    ensures short { length line.new < 256 }
{
    line.put(b"manifest no piece");
    line.number(number);
    let text = write_reply(reply);
    line.word(text.as_slice());
}

impl Answer {
    /// How many texts the answer has: one, or none while it waits.
    pub fn count(&self) -> u32
        ensures { result ≡ length (said_texts self.now) }
    {
        match self {
            Answer::Nothing | Answer::Scanning(_) => 0,
            Answer::NoManifest
            | Answer::Full
            | Answer::Opened(_)
            | Answer::Piece(_)
            | Answer::Code(_)
            | Answer::Yes(_, _)
            | Answer::NoCount(_)
            | Answer::NoCode
            | Answer::Unread(_)
            | Answer::NoTotal(_)
            | Answer::NoPiece(_, _) => 1,
        }
    }

    /// Writes the text of the answer.
    pub fn put(&self, line: &mut Line)
        requires some { 0 < length (said_texts self.now) }
        requires empty { line.old ≡ [] }
        ensures text { said_texts self.now ≡ line.new ∷ [] }
        ensures short { length line.new < 256 }
    {
        match self {
            Answer::Nothing | Answer::Scanning(_) => unreachable!(),
            Answer::NoManifest => line.put(b"refused manifest none"),
            Answer::Full => line.put(b"refused manifest full"),
            Answer::Opened(count) => put_open(line, *count),
            Answer::Piece(number) => put_piece(line, *number),
            Answer::Code(code) => put_code(line, code),
            Answer::Yes(count, total) => put_yes(line, *count, *total),
            Answer::NoCount(count) => put_no_count(line, *count),
            Answer::NoCode => line.put(b"manifest no code"),
            Answer::Unread(number) => put_unread(line, *number),
            Answer::NoTotal(sum) => put_no_total(line, *sum),
            Answer::NoPiece(number, reply) => put_no_piece(line, *number, reply),
        }
    }
}
