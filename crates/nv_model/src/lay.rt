//! Bytes laid over a content, and marks over its places.
ghost use Rattle.std.specs.Prelude.{◌≡◌, ◌+◌, ◌≤◌, ◌<◌, ◌^◌, false, length, get_or, replicate};
ghost use Rattle.nv_model.specs.Bytes.{laid, range};
ghost use Rattle.nv_model.specs.Moments.{Writes};

/// Lays bytes over a content.
pub fn lay(content: &mut Vec<u8>, at: u32, piece: &[u8])
    requires { at + length piece.now ≤ length content.old.items }
    ensures { content.new.items ≡ laid content.old.items at piece.now }
{
    let from = at as usize;
    content[from..from + piece.len()].copy_from_slice(piece);
}

/// Lays a run of one byte over a content.
pub fn lay_run(content: &mut Vec<u8>, at: u32, count: u32, byte: u8)
    requires { at + count ≤ length content.old.items }
    ensures { content.new.items ≡ laid content.old.items at (replicate count byte) }
{
    let from = at as usize;
    content[from..from + count as usize].fill(byte);
}

/// Reads bytes of a content.
pub fn take_from(content: &Vec<u8>, at: u32, buf: &mut [u8])
    requires { at + length buf.old ≤ length content.now.items }
    ensures bytes { buf.new ≡ range content.now.items at (length buf.new) }
    ensures length { length buf.new ≡ length buf.old }
{
    let from = at as usize;
    buf.copy_from_slice(&content[from..from + buf.len()]);
}

/// Marks the places of a range.
pub fn mark_range(marks: &mut Vec<bool>, at: u32, count: u32)
    requires inside { at + count ≤ length marks.old.items }
    requires fits { at + count < 2 ^ 32 }
    ensures places { Writes at count (λ i. get_or marks.old.items i false) (λ i. get_or marks.new.items i false) }
    ensures length { length marks.new.items ≡ length marks.old.items }
{
    for i in 0..count {
        marks[(at + i) as usize] = true;
    }
}
