//! A line of the report.
ghost use Rattle.bench_base.specs.Ranges.{IsDevice, IsNode};
ghost use Rattle.std.specs.Prelude.{◌≡◌, ◌+◌, ◌*◌, ◌≤◌, ◌++◌, ◌∷◌, [], length};
ghost use Rattle.script_words.specs.Words.{device_word, node_word, hex_word, kind_word, new_word};

use bench_base::numbers::DevNo;
use bench_base::words::{Kind, Node};
use itoa::{Buffer, Integer};
use std::marker::Model;
use text_streams::put_digits;

/// A line of the report, of at most 256 bytes.
#[derive(Drop)]
pub struct Line {
    bytes: [u8; 256],
    len: usize,
}

impl Model for Line {
    ghost use Rattle.std.specs.Prelude.{List, ℕ, ◌≤◌, take};

    ghost Value = { List ℕ };

    ghost view = { λ l. take l.len l.bytes };

    ghost invariant = { λ l. l.len ≤ 256 };
}

impl Line {
    /// An empty line.
    pub fn new() -> Line
        ensures { result ≡ [] }
    {
        Line {
            bytes: [0; 256],
            len: 0,
        }
    }

    /// The bytes so far.
    pub fn as_slice(&self) -> &[u8]
        ensures { result.now ≡ self.now }
    {
        &self.bytes[..self.len]
    }

    /// Adds this text, which there is room for.
    pub fn put(&mut self, text: &[u8])
        requires { length self.old + length text.now ≤ 256 }
        ensures { self.new ≡ self.old ++ text.now }
    {
        let end = self.len + text.len();
        self.bytes[self.len..end].copy_from_slice(text);
        self.len = end;
    }

    /// Adds this byte, which there is room for.
    pub fn push(&mut self, byte: u8)
        requires { length self.old ≤ 255 }
        ensures { self.new ≡ self.old ++ byte ∷ [] }
    {
        self.bytes[self.len] = byte;
        self.len += 1;
    }

    /// Adds a space and the words.
    pub fn word(&mut self, words: &[u8])
        requires { length self.old + length words.now ≤ 255 }
        ensures value { self.new ≡ self.old ++ 32 ∷ words.now }
        ensures long { length self.new ≡ length self.old + 1 + length words.now }
    {
        self.push(b' ');
        self.put(words);
    }

    /// Adds a space and the number in decimal digits, with a minus sign where it is below zero.
    pub fn number<I: Integer>(&mut self, number: I)
        requires { length self.old ≤ 215 }
        ensures value { self.new ≡ self.old ++ 32 ∷ I.text number }
        ensures short { length self.new ≤ length self.old + 1 + I.MAX_STR_LEN }
        ensures bound { length self.new ≤ length self.old + 41 }
    {
        let mut buffer = Buffer::new();
        self.word(buffer.format(number).as_bytes());
    }

    /// Adds the name of a number, and the number, a space before each.
    pub fn named<I: Integer>(&mut self, name: &[u8], number: I)
        requires { length self.old + length name.now ≤ 214 }
        ensures value { self.new ≡ self.old ++ 32 ∷ (name.now ++ 32 ∷ I.text number) }
        ensures short { length self.new ≤ length self.old + length name.now + 2 + I.MAX_STR_LEN }
    {
        self.word(name);
        self.number(number);
    }

    /// Adds a space and two lower-case hexadecimal digits for each byte.
    pub fn hex(&mut self, bytes: &[u8])
        requires { length self.old + 2 * length bytes.now ≤ 255 }
        ensures value { self.new ≡ self.old ++ 32 ∷ hex_word bytes.now }
        ensures long { length self.new ≡ length self.old + 1 + 2 * length bytes.now }
    {
        self.push(b' ');
        let end = self.len + 2 * bytes.len();
        put_digits(bytes, &mut self.bytes[self.len..end]);
        self.len = end;
    }

    /// Adds a space and the name of the device.
    pub fn device(&mut self, device: DevNo)
        requires { length self.old ≤ 200 }
        ensures whole { IsDevice device }
        ensures value { self.new ≡ self.old ++ 32 ∷ device_word device }
        ensures short { length self.new ≤ length self.old + 12 }
    {
        let mut buffer = Buffer::new();
        self.push(b' ');
        self.push(b'd');
        self.put(buffer.format(device.get()).as_bytes());
    }

    /// Adds a space and the name of the node.
    pub fn node(&mut self, node: Node)
        requires { length self.old ≤ 200 }
        ensures whole { IsNode node }
        ensures value { self.new ≡ self.old ++ 32 ∷ node_word node }
        ensures short { length self.new ≤ length self.old + 12 }
    {
        match node {
            Node::Device(device) => self.device(device),
            Node::Centre => self.word(b"centre"),
            Node::Host => self.word(b"host"),
            Node::Verifier => self.word(b"verifier"),
        }
    }

    /// Adds a space and `again` or `new`.
    pub fn again(&mut self, again: bool)
        requires { length self.old ≤ 200 }
        ensures value { self.new ≡ self.old ++ 32 ∷ new_word again }
        ensures short { length self.new ≤ length self.old + 12 }
    {
        self.word(if again { b"again" } else { b"new" });
    }

    /// Adds a space and the kind.
    pub fn kind(&mut self, kind: Kind)
        requires { length self.old ≤ 240 }
        ensures value { self.new ≡ self.old ++ 32 ∷ kind_word kind }
        ensures short { length self.new ≤ length self.old + 12 }
    {
        self.word(match kind {
            Kind::Enrol => b"enrol",
            Kind::Reset => b"reset",
            Kind::Audit => b"audit",
            Kind::Refund => b"refund",
            Kind::Withdraw => b"withdraw",
        });
    }
}

/// Begins a line with these words.
pub fn starting(line: &mut Line, words: &[u8])
    requires empty { line.old ≡ [] }
    requires short { length words.now ≤ 20 }
    ensures value { line.new ≡ words.now }
{
    line.put(words);
}

/// Begins a line with these words and a number.
pub fn numbered<I: Integer>(line: &mut Line, words: &[u8], number: I)
    requires empty { line.old ≡ [] }
    requires short { length words.now ≤ 20 }
    ensures value { line.new ≡ words.now ++ 32 ∷ I.text number }
    ensures short { length line.new ≤ 61 }
{
    line.put(words);
    line.number(number);
}

/// Begins a line with these words and a device.
pub fn of_device(line: &mut Line, words: &[u8], device: DevNo)
    requires empty { line.old ≡ [] }
    requires short { length words.now ≤ 20 }
    ensures whole { IsDevice device }
    ensures value { line.new ≡ words.now ++ 32 ∷ device_word device }
    ensures short { length line.new ≤ 40 }
{
    line.put(words);
    line.device(device);
}

/// Begins a line with these words and a node.
pub fn of_node(line: &mut Line, words: &[u8], node: Node)
    requires empty { line.old ≡ [] }
    requires short { length words.now ≤ 20 }
    ensures whole { IsNode node }
    ensures value { line.new ≡ words.now ++ 32 ∷ node_word node }
    ensures short { length line.new ≤ 40 }
{
    line.put(words);
    line.node(node);
}
