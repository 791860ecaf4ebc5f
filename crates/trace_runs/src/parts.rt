//! The line of a mark, and parts of it, in the prints.
ghost use Rattle.std.specs.Prelude.{◌≡◌, ◌≢◌, ◌↔◌, ◌+◌, ◌<◌, ◌≤◌, IsTrue, drop, length, slice_index, take};
ghost use Rattle.hex.specs.Hex.{encode_lower};
ghost use Rattle.text_streams.specs.Texts.{print_line};
ghost use Rattle.trace_runs.specs.Places.{IsLast, IsLongest};

use crate::audit::behind;
use text_streams::put_digits;

/// The bytes of the line of a mark: two hexadecimal digits for each of its 64 bytes, and the line end.
pub(crate) const LINE: usize = 129;

// The digits of a mark.
fn digits_of(mark: &[u8; 64]) -> [u8; 128]
    ensures { result ≡ encode_lower mark.now }
{
    let mut digits = [0; 128];
    put_digits(mark.as_slice(), &mut digits);
    digits
}

// The line of a mark, as it is printed.
fn line_of(mark: &[u8; 64]) -> [u8; 129]
    ensures { result ≡ print_line mark.now }
{
    let mut line = [b'\n'; LINE];
    put_digits(mark.as_slice(), &mut line[..LINE - 1]);
    line
}

// As many bytes as a line has, where so many are left.
fn first_of(prints: &[u8]) -> &[u8]
    ensures { result.now ≡ take 129 prints.now }
{
    if prints.len() < LINE {
        prints
    } else {
        &prints[..LINE]
    }
}

// Whether the bytes begin with the line of the mark.
pub(crate) fn begins_whole(mark: &[u8; 64], bytes: &[u8]) -> bool
    ensures exact { IsTrue result ↔ (take 129 bytes.now ≡ print_line mark.now) }
    ensures long { length (print_line mark.now) ≡ 129 }
{
    let due = line_of(mark);
    due.as_slice() == first_of(bytes)
}

// With how many bytes both begin alike.
fn common(digits: &[u8], bytes: &[u8]) -> usize
    ensures within { result ≤ length digits.now }
    ensures inside { result ≤ length bytes.now }
    ensures alike { take result digits.now ≡ take result bytes.now }
    ensures most { result < length digits.now → result < length bytes.now → slice_index digits.now result ≢ slice_index bytes.now result }
{
    let most = digits.len().min(bytes.len());
    for at in 0..most {
        if digits[at] != bytes[at] {
            return at;
        }
    }
    most
}

// How many of the bytes are the longest part of the line of these digits with which they begin.
fn longest(digits: &[u8], bytes: &[u8]) -> usize
    ensures { IsLongest digits.now bytes.now result }
{
    let part = common(digits, bytes);
    if part < bytes.len() && bytes[part] == b'\n' {
        part + 1
    } else {
        part
    }
}

// The last place of the prints after a part of the line of the mark that begins at one of these places.
pub(crate) fn last_after(mark: &[u8; 64], prints: &[u8], first: usize, last: usize) -> usize
    requires some { first ≤ last }
    requires inside { last ≤ length prints.now }
    ensures later { last ≤ result }
    ensures is { IsLast (encode_lower mark.now) prints.now first (last + 1) last result }
{
    let digits = digits_of(mark);
    let mut found = last;
    for place in first..last + 1 {
        found = found.max(place + longest(&digits, behind(prints, place)));
    }
    found
}
