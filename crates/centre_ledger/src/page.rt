//! The bytes of a payload: parts at their places, and zeros.
ghost use Rattle.std.specs.Prelude.{◌≡◌, ◌↔◌, ◌≤◌, ◌+◌, ◌++◌, IsTrue, length, replicate, take, drop};

/// Writes a part at its place; all other bytes stay.
pub fn put(bytes: &mut [u8; 192], at: usize, part: &[u8])
    requires { at + length part.now ≤ 192 }
    ensures { bytes.new ≡ take at bytes.old ++ (part.now ++ drop (at + length part.now) bytes.old) }
{
    bytes[at..at + part.len()].copy_from_slice(part);
}

pub fn is_zero(bytes: &[u8]) -> bool
    ensures { IsTrue result ↔ (replicate (length bytes.now) 0 ≡ bytes.now) }
{
    bytes.iter().all(|byte| *byte == 0)
}
