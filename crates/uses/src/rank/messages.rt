//! A send of one rank and the receive of another.

ghost use Rattle.std.specs.Prelude.{◌≤◌, IfOk};
ghost use Rattle.nm_types.specs.declared.limits.TheConstants.{MAX_BODY};
ghost use Rattle.uses.specs.Steps.{AreInStep};

use crate::rank::moving::exchange;
use nm_rank::{FinishFault, Rank};
use nm_types::{Answer, Body, Memory, Peer, Shape, TagPick};
use std::alloc::Global;

/// Two new ranks. A message of more than 64 bytes is sent by asking.
pub fn two_ranks(alloc: Global) -> Result<(Rank, Rank), Memory>
    ensures { IfOk result (λ ranks. AreInStep 0 1 ranks.0 ranks.1) }
{
    let Ok(shape) = Shape::new(2, 8, 64) else {
        return Err(Memory);
    };
    let first = Rank::new(alloc, shape, 0)?;
    let second = Rank::new(alloc, shape, 1)?;
    Ok((first, second))
}

/// Sends so many bytes from rank 0 to rank 1, which receives them. The answers are those of the send
/// and of the receive.
pub fn send_and_receive(
    a: &mut Rank,
    b: &mut Rank,
    len: u32,
) -> Result<(Result<Answer, FinishFault>, Result<Answer, FinishFault>), Memory>
    requires step { AreInStep 0 1 a.old b.old }
    requires short { len ≤ MAX_BODY }
    ensures step { AreInStep 0 1 a.new b.new }
{
    if a.is_worn() || b.is_worn() {
        return Err(Memory);
    }
    let sent = a.isend(1, 7, 0, Body::Gen(len), false, 2)?;
    let received = b.irecv(Peer::Any, TagPick::One(7), 0, len, 3)?;
    exchange(a, b)?;
    Ok((a.finish(sent), b.finish(received)))
}
