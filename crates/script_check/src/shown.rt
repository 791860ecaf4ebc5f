//! Words as text: bytes that are no printable ASCII are written as digits.
ghost use Rattle.std.specs.Prelude.{◌≡◌, ◌<◌, [], ◌∷◌, false, flat_map, take, Some};
ghost use Rattle.std.specs.Fmt.{WritesOnOk, digit_glyph};
ghost use Rattle.script_check.specs.Texts as texts;
ghost use Rattle.script_check.specs.Texts.{digits_of_byte, more_text, quoted, shown_byte};

use std::fmt;

/// The most bytes of a word that are shown.
const MOST: usize = 40;

/// A word between quotes. A byte that is no printable ASCII is `\xNN`, a backslash is two, and what follows 40 bytes is left out.
#[derive(Clone, Copy)]
pub struct Shown<'a>(pub &'a [u8]);

// The digit of a value below 16.
fn digit(value: u8) -> u8
    requires { value < 16 }
    ensures { result ≡ digit_glyph false value }
{
    if value < 10 {
        value + b'0'
    } else {
        value + (b'a' - 10)
    }
}

fn is_printable(byte: u8) -> bool
    ensures { result ≡ texts.is_printable byte }
{
    byte >= 32 && byte < 127
}

// Writes a byte of ASCII.
fn write_byte<W: fmt::Write>(byte: u8, f: &mut fmt::Formatter<W>) -> fmt::Result
    requires { byte < 128 }
    ensures { WritesOnOk W.write_str_gives f.old result (byte ∷ []) f.new }
{
    f.write_char(byte as char)
}

// Writes `\x` and the digits of a byte.
fn write_digits<W: fmt::Write>(byte: u8, f: &mut fmt::Formatter<W>) -> fmt::Result
    ensures { WritesOnOk W.write_str_gives f.old result (digits_of_byte byte) f.new }
{
    f.write_str("\\x")?;
    write_byte(digit(byte / 16), f)?;
    write_byte(digit(byte % 16), f)
}

// Writes a byte as it is shown.
fn show_byte<W: fmt::Write>(byte: u8, f: &mut fmt::Formatter<W>) -> fmt::Result
    ensures { WritesOnOk W.write_str_gives f.old result (shown_byte byte) f.new }
{
    if byte == b'\\' {
        return f.write_str("\\\\");
    }
    if is_printable(byte) {
        return write_byte(byte, f);
    }
    write_digits(byte, f)
}

// Writes bytes as they are shown, one after another.
fn show_bytes<W: fmt::Write>(bytes: &[u8], f: &mut fmt::Formatter<W>) -> fmt::Result
    ensures { WritesOnOk W.write_str_gives f.old result (flat_map shown_byte bytes.now) f.new }
{
    for at in 0..bytes.len() {
        show_byte(bytes[at], f)?;
    }
    Ok(())
}

// The bytes of a word that are shown.
fn prefix_of(word: &[u8]) -> &[u8]
    ensures { result.now ≡ take 40 word.now }
{
    if word.len() < MOST {
        word
    } else {
        &word[..MOST]
    }
}

// What is written for the bytes that are left out.
fn more_of(word: &[u8]) -> &'static str
    ensures { result.now ≡ more_text word.now }
{
    if word.len() > MOST { ".." } else { "" }
}

impl<'a> fmt::Display for Shown<'a> {
    ghost output = { λ s. Some (quoted s.0.now) };

    fn fmt<W: fmt::Write>(&self, f: &mut fmt::Formatter<W>) -> fmt::Result {
        f.write_str("`")?;
        show_bytes(prefix_of(self.0), f)?;
        f.write_str(more_of(self.0))?;
        f.write_str("`")
    }
}
