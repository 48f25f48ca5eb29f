//! Bytes as hex digits, straight into a text.

ghost use Rattle.std.specs.Prelude.{◌≡◌, ◌*◌, ◌<◌, ◌++◌, OnOk, length, slice_index, string_bytes};
ghost use Rattle.hex.specs.Hex.{encode_lower, lower_digits};

use std::alloc::AllocError;
use std::str;

/// The digit of a number below 16.
fn digit_of(number: u8) -> u8
    requires { number < 16 }
    ensures { result ≡ slice_index lower_digits number }
{
    if number < 10 {
        b'0' + number
    } else {
        b'a' - 10 + number
    }
}

/// Spells bytes in a buffer that has room for just their digits.
fn spell(bytes: &[u8], digits: &mut [u8])
    requires { length digits.old ≡ 2 * length bytes.now }
    ensures { digits.new ≡ encode_lower bytes.now }
{
    for i in 0..bytes.len() {
        let byte = bytes[i];
        let high = digit_of(byte >> 4);
        let low = digit_of(byte & 15);
        digits[2 * i] = high;
        digits[2 * i + 1] = low;
    }
}

/// Writes the digits of bytes by way of a buffer that has room for just these.
fn push_spelled(out: &mut String, bytes: &[u8], digits: &mut [u8]) -> Result<(), AllocError>
    requires { length digits.old ≡ 2 * length bytes.now }
    ensures ok { OnOk result
        (string_bytes out.new ≡ string_bytes out.old ++ encode_lower bytes.now) }
{
    spell(bytes, digits);
    // Digits are text, so they are not read again.
    out.push_str(unsafe { str::from_utf8_unchecked(digits) })
}

/// Writes the digits of bytes, in parts whose digits stay near.
pub(crate) fn push_digits(out: &mut String, bytes: &[u8]) -> Result<(), AllocError>
    ensures ok { OnOk result
        (string_bytes out.new ≡ string_bytes out.old ++ encode_lower bytes.now) }
{
    let mut digits = [0u8; 4096];
    for part in bytes.chunks(2048) {
        push_spelled(out, part, &mut digits[..2 * part.len()])?;
    }
    Ok(())
}
