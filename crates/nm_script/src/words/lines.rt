//! Lines and their words.

ghost use Rattle.std.specs.Prelude.{◌≡◌, ◌<◌, ◌∷◌, ◌==◌, length, map, position, IfOk};
ghost use Rattle.nm_script.specs.Lines.{is_fed, is_printable, lines_of, words_of};

use std::alloc::{AllocError, Global};

/// The last byte is a line feed.
pub fn is_fed(bytes: &[u8]) -> bool
    ensures { result ≡ is_fed bytes.now }
{
    matches!(bytes, [.., b'\n'])
}

/// The place of the first line feed.
fn first_feed(bytes: &[u8]) -> Option<usize>
    ensures { result ≡ position (λ b. b == 10) bytes.now }
{
    bytes.iter().position(|byte| *byte == b'\n')
}

/// The first line of the bytes, and what stands after its line feed.
pub fn split_line(bytes: &[u8]) -> (&[u8], &[u8])
    requires { 0 < length bytes.now }
    ensures lines { lines_of bytes.now ≡ result.0.now ∷ lines_of result.1.now }
    ensures shorter { length result.1.now < length bytes.now }
{
    match first_feed(bytes) {
        Some(at) => (&bytes[..at], &bytes[at + 1..]),
        None => (bytes, &bytes[bytes.len()..]),
    }
}

/// No byte is a control character, or above ASCII.
pub fn is_printable(line: &[u8]) -> bool
    ensures { result ≡ is_printable line.now }
{
    line.iter().all(|b| *b >= 32 && *b <= 126)
}

/// The words of a line, with one space between each two.
pub fn words(alloc: Global, line: &[u8]) -> Result<Vec<&[u8]>, AllocError>
    ensures { IfOk result (λ words. map (λ word. word.now) words.items ≡ words_of line.now) }
{
    line.split(|b| *b == b' ').collect(alloc)
}
