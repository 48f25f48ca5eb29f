//! Bodies: `x` and hex digits in lower case, or `g` and how many bytes are generated.

ghost use Rattle.std.specs.Prelude.{◌≡◌};
ghost use Rattle.nm_script.specs.Faults.{Gives};
ghost use Rattle.nm_script.specs.Bodies.{body_of, generated_of, hex_of};

use crate::faults::{Kind, LineFault};
use crate::words::{are_lower_digits, number};
use hex::FromHexError;
use nm_types::{Body, BoxedBytes, Bytes, MAX_BODY};
use std::alloc::Global;

/// The body that hex digits spell, of the length that a body may have.
#[tactic(auto, unfolding(crate::specs::Bodies::hex_of))]
fn hex_from(alloc: Global, digits: &[u8]) -> Result<Body, LineFault<Kind>>
    ensures { Gives result (hex_of digits.now) }
{
    if digits.len() > 2 * MAX_BODY as usize || !are_lower_digits(digits) {
        return Err(LineFault::Bad(Kind::Body));
    }
    match hex::decode(alloc, digits) {
        Ok(bytes) => match BoxedBytes::of(alloc, Bytes::from_vec(bytes)) {
            Ok(bytes) => Ok(Body::Hex(bytes)),
            Err(_) => Err(LineFault::Memory),
        },
        Err(FromHexError::OutOfMemory) => Err(LineFault::Memory),
        Err(_) => Err(LineFault::Bad(Kind::Body)),
    }
}

/// The generated body whose length the digits spell.
#[tactic(auto, unfolding(crate::specs::Bodies::generated_of))]
fn generated(digits: &[u8]) -> Result<Body, Kind>
    ensures { result ≡ generated_of digits.now }
{
    number(digits, u64::from(MAX_BODY) + 1)
        .map(|len| Body::Gen(len as u32))
        .ok_or(Kind::Body)
}

/// The body that a word spells.
#[tactic(auto, unfolding(crate::specs::Bodies::body_of))]
pub fn body_from(alloc: Global, word: &[u8]) -> Result<Body, LineFault<Kind>>
    ensures { Gives result (body_of word.now) }
{
    match word {
        [b'x', digits @ ..] => hex_from(alloc, digits),
        [b'g', digits @ ..] => Ok(generated(digits)?),
        _ => Err(LineFault::Bad(Kind::Body)),
    }
}
