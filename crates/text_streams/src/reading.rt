//! A text out of a source that gives its bytes in pieces of any size.
ghost use Rattle.std.specs.Prelude.{◌≡◌, ◌≢◌, ◌≤◌, length, take, IfOk, IfErr, OnErr};
ghost use Rattle.bench_base.specs.Causes.{HasCause, Rose};
ghost use Rattle.text_streams.specs.Texts.{TakesUpTo, TakesFewer};

use bench_base::stream::{ReadFail, Source};
use std::alloc::{AllocError, Global};

/// Why no text was taken.
#[derive(Clone, Copy, Debug, PartialEq, Eq)]
pub enum TakeFail {
    /// There was no memory for it, and nothing was read.
    Memory(AllocError),
    /// The source failed. What was taken until then is lost.
    Fault,
}

/// Reads into the buffer until it is full or the source has ended, and answers how many bytes of it were read.
/// ReadFail if the source fails; its count of faults rose then, and what was taken until then is lost.
pub fn fill<R: Source>(source: &mut R, buffer: &mut [u8]) -> Result<usize, ReadFail>
    ensures long { length buffer.new ≡ length buffer.old }
    ensures inside { IfOk result (λ count. count ≤ length buffer.new) }
    ensures ok { IfOk result (λ count. TakesUpTo (length buffer.new) (take count buffer.new) (R.left source.old) (R.left source.new)) }
    ensures err { OnErr result (TakesFewer (length buffer.new) (R.left source.old) (R.left source.new)) }
    ensures cause { HasCause (R.faults source.old) (R.faults source.new) result }
{
    let mut count = 0;
    while count < buffer.len() {
        match source.read(&mut buffer[count..]) {
            Ok(0) => return Ok(count),
            Ok(more) => count += more,
            Err(fail) => return Err(fail),
        }
    }
    Ok(count)
}

/// Takes the bytes that are left in the source, at most `most` of them, and fewer only if the source has ended after them.
/// Memory for `most` bytes is asked for before anything is read. With `Fault` the source's count of faults rose.
pub fn take_text<R: Source>(alloc: Global, source: &mut R, most: usize) -> Result<Vec<u8>, TakeFail>
    ensures ok { IfOk result (λ text. TakesUpTo most text.items (R.left source.old) (R.left source.new)) }
    ensures memory { IfErr result (λ fail. fail ≢ TakeFail.Fault → source.new ≡ source.old) }
    ensures fault { IfErr result (λ fail. fail ≡ TakeFail.Fault → TakesFewer most (R.left source.old) (R.left source.new)) }
    ensures failed { IfErr result (λ fail. fail ≡ TakeFail.Fault → Rose (R.faults source.old) (R.faults source.new)) }
    ensures later { R.faults source.old ≤ R.faults source.new }
{
    let mut text = match vec![in alloc; 0; most] {
        Ok(text) => text,
        Err(error) => return Err(TakeFail::Memory(error)),
    };
    match fill(source, text.as_mut_slice()) {
        Ok(count) => {
            text.truncate(count);
            Ok(text)
        }
        Err(_) => Err(TakeFail::Fault),
    }
}
