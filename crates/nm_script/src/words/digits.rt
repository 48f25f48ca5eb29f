//! Hex digits in lower case.

ghost use Rattle.std.specs.Prelude.{◌≡◌};
ghost use Rattle.std.specs.List.{list_all};
ghost use Rattle.nm_script.specs.Digits.{is_lower_digit};

/// `0` to `9`, or `a` to `f`.
fn is_lower_digit(byte: u8) -> bool
    ensures { result ≡ is_lower_digit byte }
{
    byte.is_ascii_digit() || (byte >= b'a' && byte <= b'f')
}

/// All of them are `0` to `9`, or `a` to `f`.
pub fn are_lower_digits(digits: &[u8]) -> bool
    ensures { result ≡ list_all is_lower_digit digits.now }
{
    digits.iter().all(|digit| is_lower_digit(*digit))
}
