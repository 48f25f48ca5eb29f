//! The parts of a rank's state, which a set may have.

ghost use Rattle.std.specs.Prelude.{◌≡◌, IfOk, map};
ghost use Rattle.nm_outcomes.specs.declared.spots.deeds.Part.TheVariants as part;
ghost use Rattle.nm_outcomes.specs.Parts.{parts_of as parts_of_lem};

use crate::spots::deeds::{Deed, Message, Part, Receive};
use crate::spots::hashes::of_part;
use crate::spots::ranks::Rank;
use nm_history::plain::Pair;
use nm_types::{Arrival, Memory};
use std::alloc::Global;
use std::hash::{Hash, Hasher};

impl Eq for Part {
    ghost use Rattle.nm_outcomes.specs.SameLaws.{parts_equiv};

    ghost laws = { parts_equiv };
}

impl Hash for Part {
    ghost use Rattle.std.specs.Hash as fed;
    ghost use Rattle.nm_outcomes.specs.Numbers.{part_number};
    ghost use Rattle.nm_outcomes.specs.SameLaws.{parts_alike};

    ghost hash_input = { λ a. fed.u64 (part_number a) };

    ghost respects_eq = { parts_alike.fed };

    fn hash<H: Hasher>(&self, state: &mut H) {
        state.write_u64(of_part(self));
    }
}

/// Deeds, as parts.
fn did(alloc: Global, deeds: &[Deed]) -> Result<Vec<Part>, Memory>
    ensures { IfOk result (λ all. all.items ≡ map part.Did deeds.now) }
{
    let all: Vec<Part> = deeds.iter().map(|d| Part::Did(*d)).collect(alloc)?;
    Ok(all)
}

/// Open receives, as parts.
fn opened(alloc: Global, receives: &[Receive]) -> Result<Vec<Part>, Memory>
    ensures { IfOk result (λ all. all.items ≡ map part.Open receives.now) }
{
    let all: Vec<Part> = receives.iter().map(|r| Part::Open(*r)).collect(alloc)?;
    Ok(all)
}

/// Free messages, as parts.
fn free(alloc: Global, free: &[Arrival]) -> Result<Vec<Part>, Memory>
    ensures { IfOk result (λ all. all.items ≡ map part.Free free.now) }
{
    let all: Vec<Part> = free.iter().map(|a| Part::Free(*a)).collect(alloc)?;
    Ok(all)
}

/// Receives with their messages, as parts.
fn paired(alloc: Global, pairs: &[Pair]) -> Result<Vec<Part>, Memory>
    ensures { IfOk result (λ all. all.items ≡ map part.Paired pairs.now) }
{
    let all: Vec<Part> = pairs.iter().map(|p| Part::Paired(*p)).collect(alloc)?;
    Ok(all)
}

/// Messages that came, as parts.
fn came(alloc: Global, came: &[Arrival]) -> Result<Vec<Part>, Memory>
    ensures { IfOk result (λ all. all.items ≡ map part.Came came.now) }
{
    let all: Vec<Part> = came.iter().map(|a| Part::Came(*a)).collect(alloc)?;
    Ok(all)
}

/// Messages that were withdrawn, as parts.
fn gone(alloc: Global, withdrawn: &[Message]) -> Result<Vec<Part>, Memory>
    ensures { IfOk result (λ all. all.items ≡ map part.Gone withdrawn.now) }
{
    let all: Vec<Part> = withdrawn.iter().map(|m| Part::Gone(*m)).collect(alloc)?;
    Ok(all)
}

/// The parts of a rank's state, in order.
pub fn parts_of(alloc: Global, rank: &Rank) -> Result<Vec<Part>, Memory>
    ensures { IfOk result (λ all. all.items ≡ parts_of_lem rank.now) }
{
    let mut all = did(alloc, rank.deeds())?;
    all.extend_from_slice(opened(alloc, rank.receives())?.as_slice())?;
    all.extend_from_slice(free(alloc, rank.free())?.as_slice())?;
    all.extend_from_slice(paired(alloc, rank.pairs())?.as_slice())?;
    all.extend_from_slice(came(alloc, rank.came())?.as_slice())?;
    all.extend_from_slice(gone(alloc, rank.withdrawn())?.as_slice())?;
    Ok(all)
}
