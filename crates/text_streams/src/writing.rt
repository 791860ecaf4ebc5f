//! Texts into a sink that takes its bytes in pieces of any size.
ghost use Rattle.std.specs.Prelude.{ℕ, ◌<◌, length, take, OnOk, OnErr};
ghost use Rattle.std.specs.Io.KnownBytes.{Appends};
ghost use Rattle.bench_base.specs.Causes.{HasCause};
ghost use Rattle.text_streams.specs.Texts.{print_line};

use crate::digits::put_digits;
use bench_base::stream::{Sink, WriteFail};

/// The hexadecimal digits of a mark, two for each of its 64 bytes.
const DIGITS: usize = 128;

/// Appends the whole text to the sink. With `WriteFail` a part of its prefix was appended that lacks at least one byte,
/// and the sink's count of faults rose.
pub fn put_text<K: Sink>(sink: &mut K, text: &[u8]) -> Result<(), WriteFail>
    ensures ok { OnOk result (Appends (K.taken sink.old) (K.taken sink.new) text.now) }
    ensures err { OnErr result ((n : ℕ) × (n < length text.now)
        × Appends (K.taken sink.old) (K.taken sink.new) (take n text.now)) }
    ensures cause { HasCause (K.faults sink.old) (K.faults sink.new) result }
{
    let mut at = 0;
    while at < text.len() {
        match sink.write(&text[at..]) {
            Ok(0) => return Err(WriteFail),
            Ok(count) => at += count,
            Err(fail) => return Err(fail),
        }
    }
    Ok(())
}

/// Prints a mark: its 128 lower-case hexadecimal digits and the line end. With `WriteFail` a part of the line's prefix was
/// printed that lacks at least one byte, and the printer's count of faults rose. It takes no memory.
pub fn print_mark<P: Sink>(printer: &mut P, mark: &[u8; 64]) -> Result<(), WriteFail>
    ensures ok { OnOk result (Appends (P.taken printer.old) (P.taken printer.new) (print_line mark.now)) }
    ensures err { OnErr result ((n : ℕ) × (n < length (print_line mark.now))
        × Appends (P.taken printer.old) (P.taken printer.new) (take n (print_line mark.now))) }
    ensures cause { HasCause (P.faults printer.old) (P.faults printer.new) result }
{
    let mut line = [b'\n'; DIGITS + 1];
    put_digits(mark.as_slice(), &mut line[..DIGITS]);
    put_text(printer, &line)
}
