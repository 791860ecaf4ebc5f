//! Whether a line is a mark.
ghost use Rattle.std.specs.Prelude.{◌≡◌, ℕ, List, length, IfErr, IfNone, IfOk, IfSome};
ghost use Rattle.audit_seen.specs.Lines.{IsMarkOf, IsWritten};

use bench_base::refusals::MarkFault;
use indicium::read_indicium;
use script_words::digits::read_hex;

/// The digits of a mark.
const DIGITS: usize = 128;

/// Why a line is no mark.
#[derive(Clone, Copy, Debug, PartialEq, Eq)]
pub enum NoMark {
    /// It has more than 600 bytes.
    Long,
    /// It ends with a carriage return, byte 13.
    Return,
    /// It has so many bytes, which are not 128.
    Length(usize),
    /// A byte of it is no hexadecimal digit.
    Digits,
    /// No mark has this version.
    Version(u8),
    /// No mark has this algorithm.
    Algorithm(u8),
}

// Why a line that has not 128 bytes is no mark.
fn other_length(line: &[u8]) -> NoMark {
    match line {
        [.., b'\r'] => NoMark::Return,
        _ => NoMark::Length(line.len()),
    }
}

// The bytes that these digits write, if they do.
fn bytes_of(line: &[u8]) -> Option<[u8; 64]>
    requires long { length line.now ≡ 128 }
    ensures found { IfSome result (λ mark. IsWritten line.now mark) }
    ensures none { IfNone result ((mark : List ℕ) → IsWritten line.now mark → ⊥) }
{
    let mut digits = [0; DIGITS];
    digits.copy_from_slice(line);
    digits.make_ascii_lowercase();
    let mut mark = [0; 64];
    if read_hex(&digits, &mut mark) {
        Some(mark)
    } else {
        None
    }
}

/// The mark that a line is: 128 hexadecimal digits, lower or upper case, which read as a mark of either version. Its MAC is not looked at. NoMark
/// says why the line is not a mark.
pub fn read_mark(line: &[u8]) -> Result<[u8; 64], NoMark>
    ensures found { IfOk result (λ mark. IsMarkOf line.now mark) }
    ensures none { IfErr result (λ why. (mark : List ℕ) → IsMarkOf line.now mark → ⊥) }
{
    if line.len() != DIGITS {
        return Err(other_length(line));
    }
    let Some(mark) = bytes_of(line) else {
        return Err(NoMark::Digits);
    };
    match read_indicium(&mark) {
        Ok(_) => Ok(mark),
        Err(MarkFault::Version(version)) => Err(NoMark::Version(version)),
        Err(MarkFault::Algorithm(algorithm)) => Err(NoMark::Algorithm(algorithm)),
        Err(MarkFault::Length(length)) => Err(NoMark::Length(length)),
    }
}
