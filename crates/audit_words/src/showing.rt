//! Bytes that may be no text, as text.
ghost use Rattle.std.specs.Prelude.{◌≡◌, ◌<◌, [], ◌∷◌, ◌++◌, false, All, IfOk, OnOk, string_bytes};
ghost use Rattle.std.specs.Fmt.{digit_glyph};
ghost use Rattle.audit_words.specs.Shown as shows;
ghost use Rattle.audit_words.specs.Shown.{IsPrintable, digits_of_byte, shown_byte, shown_bytes};

use std::alloc::{AllocError, Global};

// The digit of a value below 16.
fn digit(value: u8) -> u8
    requires { value < 16 }
    ensures { result ≡ digit_glyph false value }
{
    if value < 10 {
        value + b'0'
    } else {
        value + (b'a' - 10)
    }
}

// Whether the byte is printable ASCII.
fn is_printable(byte: u8) -> bool
    ensures { result ≡ shows.is_printable byte }
{
    byte >= 32 && byte < 127
}

// Adds a byte of ASCII.
fn push_byte(text: &mut String, byte: u8) -> Result<(), AllocError>
    requires { byte < 128 }
    ensures { OnOk result (string_bytes text.new ≡ string_bytes text.old ++ byte ∷ []) }
{
    text.push(byte as char)
}

// Adds `\x` and the digits of the byte.
fn show_digits(text: &mut String, byte: u8) -> Result<(), AllocError>
    ensures exact { OnOk result (string_bytes text.new ≡ string_bytes text.old ++ digits_of_byte byte) }
    ensures printable { All IsPrintable (digits_of_byte byte) }
{
    text.push_str("\\x")?;
    push_byte(text, digit(byte / 16))?;
    push_byte(text, digit(byte % 16))?;
    Ok(())
}

// Adds the byte as it is shown.
fn show_byte(text: &mut String, byte: u8) -> Result<(), AllocError>
    ensures exact { OnOk result (string_bytes text.new ≡ string_bytes text.old ++ shown_byte byte) }
    ensures printable { All IsPrintable (shown_byte byte) }
{
    if byte == b'\\' {
        return text.push_str("\\\\");
    }
    if is_printable(byte) {
        return push_byte(text, byte);
    }
    show_digits(text, byte)
}

/// The bytes as text: those that are no printable ASCII as `\xNN`, and a backslash twice. So no byte of them ends the line or reaches the
/// terminal as a command. AllocError is lack of memory.
pub fn shown(alloc: Global, bytes: &[u8]) -> Result<String, AllocError>
    ensures exact { IfOk result (λ text. string_bytes text ≡ shown_bytes bytes.now) }
    ensures printable { IfOk result (λ text. All IsPrintable (string_bytes text)) }
{
    let mut text = String::new(alloc);
    for at in 0..bytes.len() {
        show_byte(&mut text, bytes[at])?;
    }
    Ok(text)
}

/// The text as its bytes are shown, such as the name of a file. AllocError is lack of memory.
pub fn shown_text(alloc: Global, text: &str) -> Result<String, AllocError>
    ensures exact { IfOk result (λ shown. string_bytes shown ≡ shown_bytes text.now) }
    ensures printable { IfOk result (λ shown. All IsPrintable (string_bytes shown)) }
{
    shown(alloc, text.as_bytes())
}
