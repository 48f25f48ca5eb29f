//! How states were found, by the numbers of the moves.

ghost use Rattle.std.specs.Prelude.{◌≡◌, [], ◌∷◌, ◌++◌, IfOk, OnOk, Some, option_and_then, option_map, slice_get};
ghost use Rattle.nm_search.specs.Lists.{Extends};
ghost use Rattle.nm_explored.specs.Ways.{IsKnown, move_of_part, part_of_move, way_by};
ghost use Rattle.nm_explored.specs.Ways.{way_with as way_with_lem};

use crate::choices::moves::Move;
use crate::packs::{Parts, short};
use crate::stores::Way;
use nm_outcomes::spots::deeds::Part;
use nm_types::Memory;
use std::alloc::Global;
use std::marker::Model;

/// How a state was found: at which state, by the move with which number, and of which rank.
#[derive(Clone, Copy)]
pub struct Packed {
    before: u32,
    by: u32,
    rank: u8,
}

/// How each state was found, by number. The first one was not.
pub struct Ways {
    moves: Parts,
    items: Vec<Option<Packed>>,
}

impl Drop for Ways {
    fn drop(self) {
        let Ways { moves: _, items: _ } = self;
    }
}

impl Model for Ways {
    ghost use Rattle.std.specs.Prelude.{List, Option, map};
    ghost use Rattle.nm_explored.specs.declared.stores.Way.{Way};
    ghost use Rattle.nm_explored.specs.Ways.{AreKnown, way_by};

    ghost Value = { List (Option Way) };

    ghost view = { λ a. map (way_by a.moves) a.items.items };

    ghost invariant = { λ a. AreKnown a.moves a.items.items };
}

/// What a move adds to a state, as a part.
fn part_of(by: Move) -> Part
    ensures { result ≡ part_of_move by }
{
    match by {
        Move::Act(deed) => Part::Did(deed),
        Move::Arrive(a) => Part::Came(a),
        Move::Withdraw(message) => Part::Gone(message),
    }
}

/// The move that adds a part.
fn move_of(part: Part) -> Option<Move>
    ensures { result ≡ move_of_part part }
{
    match part {
        Part::Did(deed) => Some(Move::Act(deed)),
        Part::Came(a) => Some(Move::Arrive(a)),
        Part::Gone(message) => Some(Move::Withdraw(message)),
        _ => None,
    }
}

/// The move with a number.
fn move_by(moves: &Parts, number: u32) -> Option<Move>
    ensures { result ≡ option_and_then move_of_part (slice_get moves.now number) }
{
    match moves.part(number) {
        Some(part) => move_of(part),
        None => None,
    }
}

/// How a state was found, if by a move.
fn way_with(way: Packed, by: Option<Move>) -> Option<Way>
    ensures { result ≡ option_map (way_with_lem way) by }
{
    match by {
        Some(by) => Some(Way {
            before: way.before as usize,
            rank: way.rank,
            by,
        }),
        None => None,
    }
}

/// How a state was found.
fn way_of(moves: &Parts, way: Option<Packed>) -> Option<Way>
    ensures { result ≡ way_by moves.now way }
{
    match way {
        Some(way) => way_with(way, move_by(moves, way.by)),
        None => None,
    }
}

/// How the state with a number was found, with the number of the move.
fn item_at(items: &[Option<Packed>], k: usize) -> Option<Option<Packed>>
    ensures { result ≡ slice_get items.now k }
{
    items.get(k).copied()
}

/// .. with the number of the move.
#[tactic(auto, using(nm_search::proofs::ListLemmas::keeps_all))]
fn numbered(moves: &mut Parts, way: Option<Way>) -> Result<Option<Packed>, Memory>
    ensures way { IfOk result (λ packed. way_by moves.new packed ≡ way) }
    ensures known { IfOk result (λ packed. IsKnown moves.new packed) }
    ensures kept { Extends moves.old moves.new }
{
    match way {
        Some(way) => Ok(Some(numbered_way(moves, way)?)),
        None => Ok(None),
    }
}

/// .. if it was found.
fn numbered_way(moves: &mut Parts, way: Way) -> Result<Packed, Memory>
    ensures way { IfOk result (λ packed. way_by moves.new (Some packed) ≡ Some way) }
    ensures known { IfOk result (λ packed. IsKnown moves.new (Some packed)) }
    ensures kept { Extends moves.old moves.new }
{
    let by = moves.number(part_of(way.by))?;
    let before = short(way.before)?;
    Ok(Packed {
        before,
        by,
        rank: way.rank,
    })
}

impl Ways {
    /// No state.
    pub fn new(alloc: Global) -> Ways
        ensures { result ≡ [] }
    {
        Ways {
            moves: Parts::new(alloc),
            items: Vec::new(alloc),
        }
    }

    /// How the state with a number was found.
    pub fn get(&self, k: usize) -> Option<Way>
        ensures { result ≡ option_and_then (λ way. way) (slice_get self.now k) }
    {
        match item_at(self.items.as_slice(), k) {
            Some(way) => way_of(&self.moves, way),
            None => None,
        }
    }

    /// Adds how a state was found.
    pub fn push(&mut self, way: Option<Way>) -> Result<(), Memory>
        ensures { OnOk result (self.new ≡ self.old ++ way ∷ []) }
    {
        let packed = numbered(&mut self.moves, way)?;
        self.items.push(packed)?;
        Ok(())
    }
}
