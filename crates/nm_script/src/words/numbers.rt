//! Numbers in decimal.

ghost use Rattle.std.specs.Prelude.{◌≡◌, ◌≤◌, ◌<◌, ◌+◌, IfSome, decimal, length};
ghost use Rattle.nm_script.specs.Decimal.{number_of};

/// The number of at most `most` that the bytes spell: `0`, or digits that don't begin with `0`.
pub fn number_up_to(bytes: &[u8], most: u64) -> Option<u64>
    ensures exact { result ≡ number_of (most + 1) bytes.now }
    ensures within { IfSome result (λ n. n ≤ most) }
{
    if bytes.is_empty() || (bytes[0] == b'0' && bytes.len() > 1) {
        return None;
    }
    let mut value = 0u64;
    for byte in bytes {
        if !byte.is_ascii_digit() {
            return None;
        }
        let digit = u64::from(*byte - b'0');
        if value > most / 10 || digit > most - value * 10 {
            return None;
        }
        value = value * 10 + digit;
    }
    Some(value)
}

/// The number below `limit` that the bytes spell.
pub fn number(bytes: &[u8], limit: u64) -> Option<u64>
    ensures exact { result ≡ number_of limit bytes.now }
    ensures below { IfSome result (λ n. n < limit) }
{
    if limit == 0 {
        return None;
    }
    number_up_to(bytes, limit - 1)
}

/// How many digits a number has.
pub fn decimal_len(n: u64) -> u64
    ensures exact { result ≡ length (decimal n) }
    ensures few { result ≤ 20 }
{
    let mut rest = n;
    let mut len = 1u64;
    while rest >= 10 {
        rest /= 10;
        len += 1;
    }
    len
}
