//! States of ranks as numbers of their parts.

ghost use Rattle.std.specs.Prelude.{◌≡◌, [], IfOk, IfSome, IsTrue, OnOk, Some, slice_get};
ghost use Rattle.std.specs.Option.{option_map_or};
ghost use Rattle.nm_outcomes.specs.Parts.{parts_of as parts_of_lem, with_part};
ghost use Rattle.nm_search.specs.Lists.{Extends, StandOnce};
ghost use Rattle.nm_explored.specs.Packs.{AreNumbers, spot_by};

use indexmap::IndexSet;
use nm_outcomes::spots::deeds::Part;
use nm_outcomes::spots::parts::parts_of;
use nm_outcomes::spots::ranks::Rank;
use nm_types::Memory;
use std::alloc::Global;
use std::marker::Model;

/// A number of four bytes. A set has room for fewer than there are of these.
pub fn short(number: usize) -> Result<u32, Memory>
    ensures { IfOk result (λ short. short ≡ number) }
{
    if number < 4294967296 {
        Ok(number as u32)
    } else {
        Err(Memory)
    }
}

/// Parts of ranks' states, each once.
pub struct Parts {
    items: IndexSet<Part>,
}

impl Drop for Parts {
    fn drop(self) {
        let Parts { items: _ } = self;
    }
}

impl Model for Parts {
    ghost use Rattle.std.specs.Prelude.{List};
    ghost use Rattle.nm_outcomes.specs.declared.spots.deeds.Part.{Part};

    ghost Value = { List Part };

    ghost view = { λ a. a.items.keys };
}

impl Parts {
    /// No part.
    pub fn new(alloc: Global) -> Parts
        ensures { result ≡ [] }
    {
        Parts {
            items: IndexSet::new(alloc),
        }
    }

    /// Each part is there once.
    #[tactic(auto, using(crate::proofs::PackLemmas::parts_once))]
    pub fn are_once(&self)
        ensures { StandOnce self.now }
    {
        let _items = self.items.as_slice();
    }

    /// The part with a number.
    pub fn part(&self, number: u32) -> Option<Part>
        ensures { result ≡ slice_get self.now number }
    {
        self.items.as_slice().get(number as usize).copied()
    }

    /// Whether a part has this number.
    fn is_at(&self, number: u32, part: &Part) -> bool
        ensures { IsTrue result → slice_get self.now number ≡ Some part.now }
    {
        match self.items.as_slice().get(number as usize) {
            Some(own) => *own == *part,
            None => false,
        }
    }

    /// The number of a part, which may be a new one.
    pub fn number(&mut self, part: Part) -> Result<u32, Memory>
        ensures there { IfOk result (λ number. slice_get self.new number ≡ Some part) }
        ensures kept { Extends self.old self.new }
    {
        let (number, _) = self.items.insert_full(part)?;
        short(number)
    }
}

/// The number of a part, if it stands at a place of a row.
fn number_at(parts: &Parts, part: &Part, row: &[u32], at: usize) -> Option<u32>
    ensures { IfSome result (λ number. slice_get parts.now number ≡ Some part.now) }
{
    match row.get(at) {
        Some(number) => if parts.is_at(*number, part) {
            Some(*number)
        } else {
            None
        },
        None => None,
    }
}

/// The number of a part, which is looked for at a place of a row and behind it first. The place goes on.
#[tactic(auto, using(nm_search::proofs::ListLemmas::keeps_all))]
fn number_near(parts: &mut Parts, part: Part, near: &[u32], at: &mut usize) -> Result<u32, Memory>
    ensures there { IfOk result (λ number. slice_get parts.new number ≡ Some part) }
    ensures kept { Extends parts.old parts.new }
{
    let place = *at;
    if let Some(number) = number_at(parts, &part, near, place) {
        *at = place.wrapping_add(1);
        return Ok(number);
    }
    if let Some(number) = number_at(parts, &part, near, place.wrapping_add(1)) {
        *at = place.wrapping_add(2);
        return Ok(number);
    }
    parts.number(part)
}

/// The numbers of the parts of a rank's state. Many of them are in the row of a state nearby.
pub fn row_of(
    alloc: Global,
    parts: &mut Parts,
    rank: &Rank,
    near: &[u32],
) -> Result<Vec<u32>, Memory>
    ensures row { IfOk result (λ row. AreNumbers parts.new row.items (parts_of_lem rank.now)) }
    ensures kept { Extends parts.old parts.new }
{
    let all = parts_of(alloc, rank)?;
    let mut row = Vec::with_capacity(alloc, all.len())?;
    let mut at = 0;
    for part in all.iter() {
        let number = number_near(parts, *part, near, &mut at)?;
        row.push(number)?;
    }
    Ok(row)
}

/// Puts a part, if there is one.
fn put(rank: &mut Rank, part: Option<Part>) -> Result<(), Memory>
    ensures { OnOk result (rank.new ≡ option_map_or (with_part rank.old) part rank.old) }
{
    match part {
        Some(part) => rank.put(part),
        None => Ok(()),
    }
}

/// The state of the parts with these numbers.
pub fn rank_of(alloc: Global, parts: &Parts, row: &[u32]) -> Result<Rank, Memory>
    ensures { IfOk result (λ rank. rank ≡ spot_by parts.now row.now) }
{
    let mut rank = Rank::new(alloc);
    for number in row {
        put(&mut rank, parts.part(*number))?;
    }
    Ok(rank)
}
