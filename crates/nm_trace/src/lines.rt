//! Lines.

ghost use Rattle.std.specs.Prelude.{◌≡◌, ◌<◌, IfSome, length};
ghost use Rattle.std.specs.Option.{option_map};
ghost use Rattle.nm_trace.specs.Lines.{first_line};

/// The first line of the bytes and what stands behind its line feed. There is none without a feed.
pub fn next_line(bytes: &[u8]) -> Option<(&[u8], &[u8])>
    ensures first { option_map (λ cut. (cut.0.now, cut.1.now)) result ≡ first_line bytes.now }
    ensures shorter { IfSome result (λ cut. length cut.1.now < length bytes.now) }
{
    for (at, byte) in bytes.iter().enumerate() {
        if *byte == b'\n' {
            return Some((&bytes[..at], &bytes[at + 1..]));
        }
    }
    None
}
