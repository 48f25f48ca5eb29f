//! Bodies of messages, and the numbers in them.

ghost use Rattle.std.specs.Prelude.{◌≡◌, ◌<◌, ◌^◌, ℕ, IfOk, Some, option_and_then, option_map};
ghost use Rattle.std.specs.Int.{w64, to_le_bytes};
ghost use Rattle.nm_types.specs.Bodies.{body_len, bytes_of};
ghost use Rattle.nm_programs.specs.Calls.{number_in as number_in_lem, number_of as number_of_lem};

use nm_types::{Answer, Body, BoxedBytes, Bytes, Memory};
use std::alloc::Global;

/// A body of these bytes.
pub fn body(alloc: Global, bytes: Vec<u8>) -> Result<Body, Memory>
    ensures { IfOk result (λ body. bytes_of body ≡ bytes.items) }
{
    Ok(Body::Hex(BoxedBytes::of(alloc, Bytes::from_vec(bytes))?))
}

/// A body of so many bytes, that at place k being `(31k + 7) mod 251`. It takes no memory.
pub fn generated(len: u32) -> Body
    ensures { body_len result ≡ len }
{
    Body::Gen(len)
}

/// A body of a number: eight bytes, the lowest first.
pub fn number(alloc: Global, x: u64) -> Result<Body, Memory>
    ensures { IfOk result (λ body. bytes_of body ≡ to_le_bytes w64 x) }
{
    body(alloc, x.to_le_bytes().to_vec(alloc)?)
}

/// The number in the message that a receive got, if it got one of eight bytes.
pub fn number_in(answer: Option<&Answer>) -> Option<u64>
    ensures { result ≡ option_and_then number_in_lem (option_map (λ a. a.now) answer.entry) }
{
    match answer {
        Some(Answer::Got { body, .. }) => number_of(body.as_slice()),
        _ => None,
    }
}

/// The number that these bytes spell, if there are eight.
pub fn number_of(bytes: &[u8]) -> Option<u64>
    ensures { result ≡ number_of_lem bytes.now }
{
    if bytes.len() != 8 {
        return None;
    }
    let eight = [
        bytes[0], bytes[1], bytes[2], bytes[3], bytes[4], bytes[5], bytes[6], bytes[7],
    ];
    Some(u64::from_le_bytes(eight))
}

/// A number is read back from its body.
pub fn a_number_is_read_back()
    ensures { (x : ℕ) → x < 2 ^ 64 → number_of_lem (to_le_bytes w64 x) ≡ Some x }
{}
