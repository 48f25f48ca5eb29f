//! Which rank waits for which.

ghost use Rattle.std.specs.Prelude.{◌≡◌, IfOk};
ghost use Rattle.nm_waits.specs.Chains.{IsChain, awaited_by as awaited_by_lem};

use crate::waits::{Wait, awaited};
use nm_types::Memory;
use std::alloc::Global;

/// The rank that a rank waits for, if it waits and its need names one.
fn awaited_by(waits: &[Wait], rank: u8) -> Option<u8>
    ensures { result ≡ awaited_by_lem waits.now rank }
{
    for wait in waits {
        if wait.rank == rank {
            return awaited(wait.need);
        }
    }
    None
}

/// Ranks of which each waits for the next one: from this one on, until one stands there twice or one waits for none.
pub fn chain(alloc: Global, waits: &[Wait], first: u8) -> Result<Vec<u8>, Memory>
    ensures { IfOk result (λ ranks. IsChain waits.now first ranks.items) }
{
    let mut ranks = Vec::new(alloc);
    ranks.push(first)?;
    let mut last = first;
    for _step in 0..waits.len() {
        let Some(next) = awaited_by(waits, last) else {
            return Ok(ranks);
        };
        let met = ranks.contains(&next);
        ranks.push(next)?;
        if met {
            return Ok(ranks);
        }
        last = next;
    }
    Ok(ranks)
}
