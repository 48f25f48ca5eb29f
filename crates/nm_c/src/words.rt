//! Numbers of C as what the core takes.

ghost use Rattle.std.specs.Prelude.{◌≡◌, ◌<◌, IfErr, IfOk, length};
ghost use Rattle.nm_types.specs.declared.limits.TheConstants.{MAX_BODY, MAX_CONTEXT, MAX_NAME, MAX_TAG};
ghost use Rattle.nm_types.specs.Sizes.{IsShape};
ghost use Rattle.nm_c.specs.Causes.{IsNoPeer, IsNoPick};
ghost use Rattle.nm_c.specs.Codes.{peer_of, pick_of};
ghost use Rattle.nm_c.specs.Made.{sizes_of};
ghost use Rattle.nm_c.specs.declared.codes.Code.TheVariants as code;

use crate::codes::Code;
use nm_types::{MAX_BODY, MAX_CONTEXT, MAX_NAME, MAX_TAG, Peer, Shape, TagPick};

/// Any source, and any tag.
const ANY: u32 = 0xffff_ffff;

/// The name of a request, or of a handle.
pub(crate) fn name(number: u32) -> Result<u16, Code>
    ensures ok { IfOk result (λ n. n ≡ number) }
    ensures err { IfErr result (λ e. (e ≡ code.BadName) × (MAX_NAME < number)) }
{
    if number <= MAX_NAME as u32 {
        Ok(number as u16)
    } else {
        Err(Code::BadName)
    }
}

/// A rank. Whether it is one of the world is asked later.
pub(crate) fn rank(number: u32) -> Result<u8, Code>
    ensures ok { IfOk result (λ n. n ≡ number) }
    ensures err { IfErr result (λ e. (e ≡ code.BadRank) × (255 < number)) }
{
    if number < 256 {
        Ok(number as u8)
    } else {
        Err(Code::BadRank)
    }
}

/// A source.
pub(crate) fn peer(number: u32) -> Result<Peer, Code>
    ensures ok { IfOk result (λ n. n ≡ peer_of number) }
    ensures err { IfErr result (λ e. (e ≡ code.BadRank) × (255 < number)) }
    ensures none { IfErr result (IsNoPeer (peer_of number)) }
{
    if number == ANY {
        Ok(Peer::Any)
    } else {
        let one = rank(number)?;
        Ok(Peer::One(one))
    }
}

/// The tag of a send.
pub(crate) fn tag(number: u32) -> Result<u16, Code>
    ensures ok { IfOk result (λ n. n ≡ number) }
    ensures err { IfErr result (λ e. (e ≡ code.BadTag) × (MAX_TAG < number)) }
{
    if number <= MAX_TAG as u32 {
        Ok(number as u16)
    } else {
        Err(Code::BadTag)
    }
}

/// The tag of a receive or a probe.
pub(crate) fn pick(number: u32) -> Result<TagPick, Code>
    ensures ok { IfOk result (λ n. n ≡ pick_of number) }
    ensures err { IfErr result (λ e. (e ≡ code.BadTag) × (MAX_TAG < number)) }
    ensures none { IfErr result (IsNoPick (pick_of number)) }
{
    if number == ANY {
        Ok(TagPick::Any)
    } else {
        let one = tag(number)?;
        Ok(TagPick::One(one))
    }
}

/// A context.
pub(crate) fn context(number: u32) -> Result<u8, Code>
    ensures ok { IfOk result (λ n. n ≡ number) }
    ensures err { IfErr result (λ e. (e ≡ code.BadContext) × (MAX_CONTEXT < number)) }
{
    if number <= MAX_CONTEXT as u32 {
        Ok(number as u8)
    } else {
        Err(Code::BadContext)
    }
}

/// The shape of a world.
pub(crate) fn shape(ranks: usize, cells: u32, eager: u32) -> Result<Shape, Code>
    ensures ok { IfOk result (λ s. (s ≡ sizes_of ranks cells eager) × IsShape (sizes_of ranks cells eager)) }
    ensures err { IfErr result (λ e. (e ≡ code.BadWorld) × (¬ IsShape (sizes_of ranks cells eager))) }
{
    if ranks > 64 || cells > 64 || eager > 4096 {
        return Err(Code::BadWorld);
    }
    match Shape::new(ranks as u8, cells as u8, eager as u16) {
        Ok(shape) => Ok(shape),
        Err(_) => Err(Code::BadWorld),
    }
}

/// That a body is within its limit.
pub(crate) fn check_length(bytes: &[u8]) -> Result<(), Code>
    ensures err { IfErr result (λ e. (e ≡ code.BadLength) × (MAX_BODY < length bytes.now)) }
{
    if bytes.len() <= MAX_BODY as usize {
        Ok(())
    } else {
        Err(Code::BadLength)
    }
}
