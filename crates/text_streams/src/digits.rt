//! Lower-case hexadecimal digits, by arithmetic, so that a compiler can make many at once.
ghost use Rattle.std.specs.Prelude.{◌≡◌, ◌*◌, ◌<◌, length, slice_index};
ghost use Rattle.hex.specs.Hex.{lower_digits, encode_lower};

// The digit of a value below 16.
fn digit(value: u8) -> u8
    requires { value < 16 }
    ensures { result ≡ slice_index lower_digits value }
{
    if value < 10 {
        value + b'0'
    } else {
        value + (b'a' - 10)
    }
}

/// Writes two digits for each byte, the higher half of it first. There is room for exactly these.
pub fn put_digits(bytes: &[u8], digits: &mut [u8])
    requires room { length digits.old ≡ 2 * length bytes.now }
    ensures { digits.new ≡ encode_lower bytes.now }
{
    for at in 0..bytes.len() {
        digits[2 * at] = digit(bytes[at] / 16);
        digits[2 * at + 1] = digit(bytes[at] % 16);
    }
}
