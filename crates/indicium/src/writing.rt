//! A mark as bytes.
ghost use Rattle.std.specs.Prelude.{◌≡◌, ◌++◌};
ghost use Rattle.hmac_core.specs.Hmac.{hmac};
ghost use Rattle.indicium.specs.Marks.{spell, body, IsWhole};

use crate::Mark;
use bench_base::fields::{put_i32, put_u16, put_u32, put_u40};
use bench_base::words::Key;
use hmac_core::ReadyKey;

// The 32 bytes that the code is over.
fn body_of(mark: &Mark) -> [u8; 32]
    requires { IsWhole mark.now }
    ensures { result ≡ body mark.now }
{
    if mark.version == 1 {
        first_body(mark)
    } else {
        second_body(mark)
    }
}

// The fields in version 1.
#[tactic(auto, unfolding(crate::specs::Marks::body, bench_base::specs::Table::spelled))]
fn first_body(mark: &Mark) -> [u8; 32]
    requires whole { IsWhole mark.now }
    requires version { mark.now.version ≡ 1 }
    ensures { result ≡ body mark.now }
{
    let mut bytes = [0; 32];
    bytes[0] = mark.version;
    bytes[1] = 1;
    put_u32(&mut bytes, 2, mark.device);
    put_u32(&mut bytes, 6, mark.piece);
    put_u32(&mut bytes, 10, mark.postage);
    put_u32(&mut bytes, 14, mark.ascending as u32);
    put_u32(&mut bytes, 18, mark.descending as u32);
    put_i32(&mut bytes, 22, mark.day);
    put_u32(&mut bytes, 26, mark.origin);
    put_u16(&mut bytes, 30, mark.class);
    bytes
}

// The fields in version 2.
#[tactic(auto, unfolding(crate::specs::Marks::body, bench_base::specs::Table::spelled))]
fn second_body(mark: &Mark) -> [u8; 32]
    requires whole { IsWhole mark.now }
    requires version { mark.now.version ≡ 2 }
    ensures { result ≡ body mark.now }
{
    let mut bytes = [0; 32];
    bytes[0] = mark.version;
    bytes[1] = 1;
    put_u16(&mut bytes, 2, mark.device as u16);
    put_u32(&mut bytes, 4, mark.piece);
    put_u32(&mut bytes, 8, mark.postage);
    put_u40(&mut bytes, 12, mark.ascending);
    put_u40(&mut bytes, 17, mark.descending);
    put_i32(&mut bytes, 22, mark.day);
    put_u32(&mut bytes, 26, mark.origin);
    put_u16(&mut bytes, 30, mark.class);
    bytes
}

/// The code of the mark's fields under the key. The mark is as for `write_indicium`.
pub fn code_of(mark: &Mark, key: &Key) -> [u8; 32]
    requires { IsWhole mark.now }
    ensures { result ≡ hmac key.now (body mark.now) }
{
    code_by(mark, &ReadyKey::new(key))
}

/// As `code_of`, under a key that was made ready.
pub fn code_by(mark: &Mark, key: &ReadyKey) -> [u8; 32]
    requires { IsWhole mark.now }
    ensures { result ≡ hmac key.now (body mark.now) }
{
    key.code(&body_of(mark))
}

/// The mark's fields, and after them a code that was made or checked before. The mark is as for `write_indicium`.
pub fn write_coded(mark: &Mark, code: &[u8; 32]) -> [u8; 64]
    requires { IsWhole mark.now }
    ensures { result ≡ body mark.now ++ code.now }
{
    let body = body_of(mark);
    let mut bytes = [0; 64];
    bytes[..32].copy_from_slice(&body);
    bytes[32..].copy_from_slice(code);
    bytes
}

/// The one spelling of the mark under the key: its fields, and the code of those 32 bytes.
///
/// The mark's version is 1 or 2, and its numbers fit their fields. In version 1 the registers are below 2^32. In version 2
/// they are below 2^40, and the device is below 2^16.
#[tactic(auto, unfolding(crate::specs::Marks::spell))]
pub fn write_indicium(mark: &Mark, key: &Key) -> [u8; 64]
    requires { IsWhole mark.now }
    ensures { result ≡ spell mark.now key.now }
{
    write_coded(mark, &code_of(mark, key))
}

/// As `write_indicium`, under a key that was made ready.
#[tactic(auto, unfolding(crate::specs::Marks::spell))]
pub fn write_indicium_by(mark: &Mark, key: &ReadyKey) -> [u8; 64]
    requires { IsWhole mark.now }
    ensures { result ≡ spell mark.now key.now }
{
    write_coded(mark, &code_by(mark, key))
}
