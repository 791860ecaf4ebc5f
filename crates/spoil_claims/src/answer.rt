//! What the desk answers, and its text.
ghost use Rattle.std.specs.Prelude.{◌≡◌, ◌<◌, ◌≤◌, ◌+◌, ◌++◌, [], ◌∷◌, length};
ghost use Rattle.spoil_claims.specs.Texts.{said_texts, credited_text, credits_text, wrong_claim_text};
ghost use Rattle.script_words.specs.Words.{device_word};

use bench_base::events::Reply;
use bench_base::numbers::Customer;
use indicium::Mark;
use itoa::Buffer;
use script_text::put_reply;
use script_words::Line;

/// What the desk answers its last line, or what it waits for.
#[derive(Clone, Copy)]
pub enum Answer {
    Nothing,
    /// The scan of this open claim is awaited.
    Scanning(u32),
    /// The claim, its mark, and whether it was credited before.
    Credited(u32, Mark, bool),
    /// The customer, and the postage of its credited claims in mills.
    Credits(Customer, u64),
    Conflict,
    /// The last claim.
    WrongClaim(u32),
    Full,
    Reserved,
    Worn,
    /// A scan was answered so.
    Scan(Reply),
}

// Adds a space and the name of the device of a mark, which may be of any number.
fn put_device(line: &mut Line, device: u32)
    requires { length line.old ≤ 200 }
    ensures value { line.new ≡ line.old ++ 32 ∷ device_word device }
    ensures short { length line.new ≤ length line.old + 12 }
{
    let mut buffer = Buffer::new();
    line.put(b" d");
    line.put(buffer.format(device).as_bytes());
}

#[tactic(auto, unfolding(crate::specs::Texts::credited_text))]
fn put_credited(line: &mut Line, claim: u32, mark: &Mark, again: bool)
    requires empty { line.old ≡ [] }
    ensures value { line.new ≡ credited_text claim mark.now again }
    ensures short { length line.new < 256 }
{
    line.put(b"credited");
    line.number(claim);
    put_device(line, mark.device);
    line.number(mark.piece);
    line.number(mark.postage);
    line.again(again);
}

#[tactic(auto, unfolding(crate::specs::Texts::credits_text))]
fn put_credits(line: &mut Line, customer: Customer, sum: u64)
    requires empty { line.old ≡ [] }
    ensures value { line.new ≡ credits_text customer sum }
    ensures short { length line.new < 256 }
{
    line.put(b"credits");
    line.number(customer.get());
    line.number(sum);
}

#[tactic(auto, unfolding(crate::specs::Texts::wrong_claim_text))]
fn put_wrong_claim(line: &mut Line, last: u32)
    requires empty { line.old ≡ [] }
    ensures value { line.new ≡ wrong_claim_text last }
    ensures short { length line.new < 256 }
{
    line.put(b"refused claim wrong claim");
    line.number(last);
}

impl Answer {
    /// How many texts the answer has: one, or none while it waits.
    pub fn count(&self) -> u32
        ensures { result ≡ length (said_texts self.now) }
    {
        match self {
            Answer::Nothing | Answer::Scanning(_) => 0,
            Answer::Credited(_, _, _)
            | Answer::Credits(_, _)
            | Answer::Conflict
            | Answer::WrongClaim(_)
            | Answer::Full
            | Answer::Reserved
            | Answer::Worn
            | Answer::Scan(_) => 1,
        }
    }

    /// Writes the text of the answer.
    pub fn put(&self, line: &mut Line)
        requires some { 0 < length (said_texts self.now) }
        requires empty { line.old ≡ [] }
        ensures text { said_texts self.now ≡ line.new ∷ [] }
        ensures short { length line.new < 256 }
    {
        match self {
            Answer::Nothing | Answer::Scanning(_) => unreachable!(),
            Answer::Credited(claim, mark, again) => put_credited(line, *claim, mark, *again),
            Answer::Credits(customer, sum) => put_credits(line, *customer, *sum),
            Answer::Conflict => line.put(b"refused claim conflict"),
            Answer::WrongClaim(last) => put_wrong_claim(line, *last),
            Answer::Full => line.put(b"refused claim full"),
            Answer::Reserved => line.put(b"refused claim reserved"),
            Answer::Worn => line.put(b"worn desk"),
            Answer::Scan(reply) => put_reply(line, reply),
        }
    }
}
