//! Bytes of a source, as many as a buffer has.
ghost use Rattle.std.specs.Prelude.{◌≡◌, ◌≤◌, length, OnOk, OnErr};
ghost use Rattle.std.specs.Io.KnownBytes.{Consumes};
ghost use Rattle.trace_folder.specs.Sources.{IsUnread};

use bench_base::stream::{ReadFail, Source};
use text_streams::fill;

// Fills the whole buffer from the source. ReadFail if the source fails or has too few bytes.
pub(crate) fn fill_whole<S: Source>(source: &mut S, buffer: &mut [u8]) -> Result<(), ReadFail>
    ensures long { length buffer.new ≡ length buffer.old }
    ensures taken { OnOk result (Consumes (S.left source.old) (S.left source.new) buffer.new) }
    ensures later { S.faults source.old ≤ S.faults source.new }
    ensures failed { OnErr result (IsUnread (length buffer.old) (S.faults source.old) (S.faults source.new) (S.left source.old)) }
{
    match fill(source, buffer) {
        Ok(count) if count == buffer.len() => Ok(()),
        Ok(_) => Err(ReadFail),
        Err(fail) => Err(fail),
    }
}
