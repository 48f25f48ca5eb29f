//! The states of the ranks after moves.

ghost use Rattle.std.specs.Prelude.{◌≡◌, ℕ, ◌<◌, ◌-◌, IfOk, OnOk, List, Some, length, replicate, slice_get};
ghost use Rattle.nm_types.specs.declared.scripts.Line as the_line;
ghost use Rattle.nm_outcomes.specs.RankStates as spots;
ghost use Rattle.nm_outcomes.specs.RankStates.{first_spot};
ghost use Rattle.nm_explored.specs.Met.{IsWay};
ghost use Rattle.nm_waits.specs.States.{states_by, states_next};

use nm_explored::choices::moves::{Turn, make};
use nm_outcomes::spots::ranks::Rank;
use nm_types::Memory;
use std::alloc::Global;

/// Ranks that did nothing.
fn idle(alloc: Global, ranks: u8) -> Result<Vec<Rank>, Memory>
    ensures { IfOk result (λ states. states.items ≡ replicate ranks first_spot) }
{
    let mut states = Vec::new(alloc);
    for _rank in 0..ranks {
        states.push(Rank::new(alloc))?;
    }
    Ok(states)
}

/// One move more.
fn follow(states: &mut Vec<Rank>, turn: Turn) -> Result<(), Memory>
    ensures { OnOk result (states.new.items ≡ states_next states.old.items turn) }
{
    match states.get_mut(usize::from(turn.rank)) {
        Some(rank) => make(rank, turn.by),
        None => Ok(()),
    }
}

/// The move at a place of a way, 0 for the oldest.
fn turn_at(path: &[Turn], k: usize) -> Turn
    requires { k < length path.now }
    ensures { slice_get path.now (length path.now - 1 - k) ≡ Some result }
{
    path[path.len() - 1 - k]
}

/// The states of the ranks after moves, the newest first.
pub fn states_after(alloc: Global, ranks: u8, path: &[Turn]) -> Result<Vec<Rank>, Memory>
    ensures by { IfOk result (λ states. states.items ≡ states_by ranks path.now) }
    ensures way { (eager : ℕ) (lines : List the_line.Line) (state : List spots.Spot) →
        IsWay eager ranks lines path.now state → IfOk result (λ states. states.items ≡ state) }
{
    let mut states = idle(alloc, ranks)?;
    for k in 0..path.len() {
        follow(&mut states, turn_at(path, k))?;
    }
    Ok(states)
}
