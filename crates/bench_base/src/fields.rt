//! Big-endian fields of bytes. Each field lies inside the bytes; a write leaves all other bytes as they are.
ghost use Rattle.std.specs.Prelude.{◌≡◌, ◌+◌, ◌<◌, ◌≤◌, ◌^◌, ◌++◌, length, take, drop};
ghost use Rattle.std.specs.Int.{w16, w32, w64, from_be_bytes, to_be_bytes, cast_signed, cast_unsigned};
ghost use Rattle.bench_base.specs.Table.{Five, number, spelled};

pub fn u16_at(bytes: &[u8], at: usize) -> u16
    requires { at + 2 ≤ length bytes.now }
    ensures { result ≡ from_be_bytes w16 (take 2 (drop at bytes.now)) }
{
    let mut field = [0u8; 2];
    field.copy_from_slice(&bytes[at..at + 2]);
    u16::from_be_bytes(field)
}

pub fn u32_at(bytes: &[u8], at: usize) -> u32
    requires { at + 4 ≤ length bytes.now }
    ensures { result ≡ from_be_bytes w32 (take 4 (drop at bytes.now)) }
{
    let mut field = [0u8; 4];
    field.copy_from_slice(&bytes[at..at + 4]);
    u32::from_be_bytes(field)
}

/// A number of five bytes.
#[tactic(auto, unfolding(crate::specs::Table::number))]
pub fn u40_at(bytes: &[u8], at: usize) -> u64
    requires { at + 5 ≤ length bytes.now }
    ensures { result ≡ number Five (take 5 (drop at bytes.now)) }
{
    u64::from(bytes[at]) * 4_294_967_296 + u64::from(u32_at(bytes, at + 1))
}

pub fn u64_at(bytes: &[u8], at: usize) -> u64
    requires { at + 8 ≤ length bytes.now }
    ensures { result ≡ from_be_bytes w64 (take 8 (drop at bytes.now)) }
{
    let mut field = [0u8; 8];
    field.copy_from_slice(&bytes[at..at + 8]);
    u64::from_be_bytes(field)
}

pub fn i32_at(bytes: &[u8], at: usize) -> i32
    requires { at + 4 ≤ length bytes.now }
    ensures { result ≡ cast_signed w32 (from_be_bytes w32 (take 4 (drop at bytes.now))) }
{
    u32_at(bytes, at).cast_signed()
}

pub fn put_u16(bytes: &mut [u8], at: usize, value: u16)
    requires { at + 2 ≤ length bytes.old }
    ensures { bytes.new ≡ take at bytes.old ++ to_be_bytes w16 value ++ drop (at + 2) bytes.old }
{
    bytes[at..at + 2].copy_from_slice(&value.to_be_bytes());
}

pub fn put_u32(bytes: &mut [u8], at: usize, value: u32)
    requires { at + 4 ≤ length bytes.old }
    ensures { bytes.new ≡ take at bytes.old ++ to_be_bytes w32 value ++ drop (at + 4) bytes.old }
{
    bytes[at..at + 4].copy_from_slice(&value.to_be_bytes());
}

/// Writes a number of five bytes; the value is below 2^40.
#[tactic(auto, unfolding(crate::specs::Table::spelled))]
pub fn put_u40(bytes: &mut [u8], at: usize, value: u64)
    requires inside { at + 5 ≤ length bytes.old }
    requires fits { value < 2 ^ 40 }
    ensures { bytes.new ≡ take at bytes.old ++ spelled Five value ++ drop (at + 5) bytes.old }
{
    bytes[at] = (value / 4_294_967_296) as u8;
    put_u32(bytes, at + 1, (value % 4_294_967_296) as u32);
}

pub fn put_u64(bytes: &mut [u8], at: usize, value: u64)
    requires { at + 8 ≤ length bytes.old }
    ensures { bytes.new ≡ take at bytes.old ++ to_be_bytes w64 value ++ drop (at + 8) bytes.old }
{
    bytes[at..at + 8].copy_from_slice(&value.to_be_bytes());
}

pub fn put_i32(bytes: &mut [u8], at: usize, value: i32)
    requires { at + 4 ≤ length bytes.old }
    ensures { bytes.new ≡ take at bytes.old ++ to_be_bytes w32 (cast_unsigned w32 value) ++ drop (at + 4) bytes.old }
{
    put_u32(bytes, at, value.cast_unsigned());
}
