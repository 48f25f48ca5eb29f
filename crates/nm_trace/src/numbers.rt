//! Numbers in decimal.

ghost use Rattle.std.specs.Prelude.{◌≡◌, ◌^◌};
ghost use Rattle.nm_script.specs.Decimal.{number_of};

use nm_script::words::number_up_to;

/// A rank, or a context.
pub fn small(word: &[u8]) -> Option<u8>
    ensures { result ≡ number_of (2 ^ 8) word.now }
{
    number_up_to(word, 255).map(|n| n as u8)
}

/// A tag.
pub fn middle(word: &[u8]) -> Option<u16>
    ensures { result ≡ number_of (2 ^ 16) word.now }
{
    number_up_to(word, 65535).map(|n| n as u16)
}

/// A length.
pub fn large(word: &[u8]) -> Option<u32>
    ensures { result ≡ number_of (2 ^ 32) word.now }
{
    number_up_to(word, 4294967295).map(|n| n as u32)
}

/// A line, a stamp, or a count.
pub fn huge(word: &[u8]) -> Option<u64>
    ensures { result ≡ number_of (2 ^ 64) word.now }
{
    number_up_to(word, u64::MAX)
}
