//! The parts of a body.

ghost use Rattle.std.specs.Prelude.{◌≡◌, ◌+◌, ◌<◌, ◌≤◌, ◌^◌, IfOk, IfSome};
ghost use Rattle.nm_types.specs.Bodies.{body_len, bytes_of};
ghost use Rattle.nm_plans.specs.Expansion.{part_of as part_of_lem};
ghost use Rattle.nm_plans.specs.Expansion.{part_start as part_start_lem};
ghost use Rattle.nm_plans.specs.Expansion.{part_body as part_body_lem};

use nm_types::laws::bodies_have_their_length;
use nm_types::{Body, BoxedBytes, Bytes, Memory};
use std::alloc::Global;

/// Where part k of so many begins, in a body of this length.
fn part_start(parts: u8, k: u8, len: u32) -> u32
    requires some { 0 < parts }
    requires within { k ≤ parts }
    ensures exact { result ≡ part_start_lem parts k len }
    ensures inside { result ≤ len }
{
    (u64::from(k) * u64::from(len) / u64::from(parts)) as u32
}

/// The bytes of part k of so many.
fn part_of(alloc: Global, parts: u8, k: u8, body: &Body) -> Result<Bytes, Memory>
    requires within { k < parts }
    requires short { body_len body.now < 2 ^ 32 }
    ensures { IfOk result (λ bytes. bytes ≡ part_of_lem parts k (bytes_of body.now)) }
{
    bodies_have_their_length();
    let start = part_start(parts, k, body.len());
    let end = part_start(parts, k + 1, body.len());
    let mut bytes = Bytes::new(alloc);
    for place in start..end {
        bytes.push(body.byte(place))?;
    }
    Ok(bytes)
}

/// What is sent as part k of a body: the body itself where there are no parts.
pub fn part_body(alloc: Global, parts: Option<u8>, k: u8, body: &Body) -> Result<Body, Memory>
    requires within { IfSome parts (λ n. k < n) }
    requires short { body_len body.now < 2 ^ 32 }
    ensures { IfOk result (λ part. part ≡ part_body_lem parts k body.now) }
{
    match parts {
        None => body.copy(),
        Some(parts) => {
            let part = part_of(alloc, parts, k, body)?;
            Ok(Body::Hex(BoxedBytes::of(alloc, part)?))
        }
    }
}
