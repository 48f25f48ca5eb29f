//! The ranks of a world, for C.

ghost use Rattle.std.specs.Prelude.{◌≡◌, IfErr, IfOk, OnErr, length};
ghost use Rattle.nm_c.specs.Made.{IsMade, IsNoWorld};

use crate::Rank;
use crate::codes::Code;
use crate::parts::Parts;
use crate::words::shape;
use nm_handle::{Handle, world};
use nm_types::Memory;
use std::alloc::Global;

// A handle on the heap.
fn boxed(alloc: Global, handle: Handle) -> Result<Rank, Memory> {
    match Box::new(alloc, handle) {
        Ok(it) => Ok(Rank::of_parts(Parts::of(it))),
        Err(_) => Err(Memory),
    }
}

// Puts one more at the end.
fn add(list: &mut Vec<Rank>, rank: Rank) -> Result<(), Memory> {
    match list.push(rank) {
        Ok(()) => Ok(()),
        Err(_) => Err(Memory),
    }
}

// The ranks of a world.
fn ranks_of(alloc: Global, handles: Vec<Handle>) -> Result<Vec<Rank>, Memory> {
    let mut ranks = Vec::new(alloc);
    for handle in handles {
        let rank = boxed(alloc, handle)?;
        add(&mut ranks, rank)?;
    }
    Ok(ranks)
}

/// Makes a world, and writes the ranks.
pub(crate) fn make(
    alloc: Global,
    places: &mut [*mut u8],
    cells: u32,
    eager: u32,
) -> Result<Code, Code>
    ensures made { IfOk result (IsMade (length places.old) cells eager) }
    ensures cause { IfErr result (IsNoWorld (length places.old) cells eager) }
    ensures same { OnErr result (places.new ≡ places.old) }
{
    let shape = shape(places.len(), cells, eager)?;
    let handles = world(alloc, shape)?;
    let ranks = ranks_of(alloc, handles)?;
    let mut ranks = ranks.into_iter();
    for place in places.iter_mut() {
        if let Some(rank) = ranks.next() {
            *place = rank.into_raw();
        }
    }
    Ok(Code::Done)
}
