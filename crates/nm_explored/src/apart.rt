//! Groups of ranks that never speak to each other.

ghost use Rattle.std.specs.Prelude.{◌≡◌, ℕ, ◌<◌, ◌==◌, IfOk, IfSome, IsTrue, OnOk, length};
ghost use Rattle.std.specs.List.{list_all};
ghost use Rattle.nm_explored.specs.declared.choices.moves.Turn as the_turn;
ghost use Rattle.nm_explored.specs.Apart.{AreApart, group_of as group_of_lem, is_inside as is_inside_lem};
ghost use Rattle.nm_explored.specs.Coming.{AreEnoughTurns};
ghost use Rattle.nm_explored.specs.Ends.{AreShort};
ghost use Rattle.nm_explored.specs.Moves.{AreMovesOf, AreSendsShort, IsTurn};
ghost use Rattle.nm_explored.specs.Rests.{IsAtRest};
ghost use Rattle.nm_explored.specs.Successors.{spot_in};
ghost use Rattle.nm_search.specs.Lists.{AddsOnly, Extends, Has};

use crate::choices::choices::View;
use crate::choices::moves::{Turn, push_rank, turns};
use crate::ends::is_at_rest;
use nm_types::{Command, Line, Memory};
use std::alloc::Global;

/// The group of a rank.
fn group_of(groups: &[u8], i: u8) -> u8
    ensures { result ≡ group_of_lem groups.now i }
{
    match groups.get(i as usize) {
        Some(group) => *group,
        None => 0,
    }
}

/// Gives a rank another group.
fn set_group(groups: &mut Vec<u8>, i: u8, group: u8) {
    if (i as usize) < groups.len() {
        groups[i as usize] = group;
    }
}

/// Puts a rank and the one that a line of its sends to into one group. Answers whether they were in two.
fn join(groups: &mut Vec<u8>, line: &Line) -> bool {
    let Command::Send { to, .. } = &line.command else {
        return false;
    };
    let own = group_of(groups.as_slice(), line.rank);
    let other = group_of(groups.as_slice(), *to);
    let low = if own < other { own } else { other };
    set_group(groups, line.rank, low);
    set_group(groups, *to, low);
    own != other
}

/// Does so for each line. Answers whether any were in two.
fn join_all(groups: &mut Vec<u8>, lines: &[Line]) -> bool {
    let mut joined = false;
    for line in lines {
        if join(groups, line) {
            joined = true;
        }
    }
    joined
}

/// A group for each rank: at first each has its own.
fn groups_of(alloc: Global, lines: &[Line], ranks: u8) -> Result<Vec<u8>, Memory> {
    let mut groups = Vec::new(alloc);
    for i in 0..ranks {
        groups.push(i)?;
    }
    for _pass in 0..ranks {
        if !join_all(&mut groups, lines) {
            return Ok(groups);
        }
    }
    Ok(groups)
}

/// Whether a line sends to no rank of another group.
fn is_inside(groups: &[u8], line: &Line) -> bool
    ensures { result ≡ is_inside_lem groups.now line.now.rank line.now.command }
{
    match &line.command {
        Command::Send { to, .. } => group_of(groups, *to) == group_of(groups, line.rank),
        _ => true,
    }
}

/// Whether no line does.
fn are_apart(groups: &[u8], lines: &[Line]) -> bool
    ensures { result ≡ list_all (λ line. is_inside_lem groups.now line.rank line.command) lines.now }
{
    lines.iter().all(|line| is_inside(groups, line))
}

/// Whether a rank has a move left.
fn has_move(view: View, i: u8, ranks: u8) -> bool
    requires { AreShort view.lines.now }
    ensures { IsTrue result → IsAtRest ranks view.entry.lines.now
        (spot_in view.entry.table.now view.entry.ids.now) i → ⊥ }
{
    !is_at_rest(view, i, ranks)
}

/// The first rank that has one.
fn first_moving(view: View, ranks: u8) -> Option<u8>
    requires { AreShort view.lines.now }
    ensures { IfSome result (λ i. (i < ranks) × (IsAtRest ranks view.entry.lines.now
        (spot_in view.entry.table.now view.entry.ids.now) i → ⊥)) }
{
    for i in 0..ranks {
        if has_move(view, i, ranks) {
            return Some(i);
        }
    }
    None
}

/// Adds the moves of a rank, if it is of the group.
#[tactic(auto, using(nm_search::proofs::ListLemmas::only_all, nm_search::proofs::ListLemmas::keeps_all))]
fn push_if(view: View, i: u8, ranks: u8, own: bool, turns: &mut Vec<Turn>) -> Result<(), Memory>
    ensures kept { OnOk result (Extends turns.old.items turns.new.items) }
    ensures added { IsTrue own → length view.entry.lines.now < 4294967293 →
        OnOk result (AreMovesOf view.entry.eager ranks view.entry.lines.now
        (spot_in view.entry.table.now view.entry.ids.now) i turns.new.items) }
    ensures only { length view.entry.lines.now < 4294967293 → AreSendsShort view.entry.lines.now →
        OnOk result (AddsOnly (IsTurn view.entry.eager ranks view.entry.lines.now
        (spot_in view.entry.table.now view.entry.ids.now)) turns.old.items turns.new.items) }
{
    if own {
        push_rank(view, i, ranks, turns)?;
    }
    Ok(())
}

/// Whether two ranks are of one group.
fn are_of_one(groups: &[u8], i: u8, rank: u8) -> bool
    ensures { result ≡ (group_of_lem groups.now i == group_of_lem groups.now rank) }
{
    group_of(groups, i) == group_of(groups, rank)
}

/// All moves of the ranks of a group, that of this rank, which has a move left.
fn group_turns(
    alloc: Global,
    view: View,
    ranks: u8,
    groups: &[u8],
    rank: u8,
) -> Result<Vec<Turn>, Memory>
    requires apart { AreApart groups.now view.lines.now }
    requires inside { rank < ranks }
    requires moves { IsAtRest ranks view.lines.now (spot_in view.table.now view.ids.now) rank → ⊥ }
    ensures enough { length view.entry.lines.now < 4294967293 →
        IfOk result (λ turns. AreEnoughTurns view.entry.eager ranks view.entry.lines.now
        (spot_in view.entry.table.now view.entry.ids.now) turns.items) }
    ensures only { length view.entry.lines.now < 4294967293 → AreSendsShort view.entry.lines.now →
        IfOk result (λ turns. (t : the_turn.Turn) → Has turns.items t →
        IsTurn view.entry.eager ranks view.entry.lines.now
        (spot_in view.entry.table.now view.entry.ids.now) t) }
{
    let mut turns = Vec::new(alloc);
    for i in 0..ranks {
        push_if(view, i, ranks, are_of_one(groups, i, rank), &mut turns)?;
    }
    Ok(turns)
}

/// All moves of the group of a rank that has a move left, or all moves.
fn group_first(alloc: Global, view: View, ranks: u8, rank: u8) -> Result<Vec<Turn>, Memory>
    requires inside { rank < ranks }
    requires moves { IsAtRest ranks view.lines.now (spot_in view.table.now view.ids.now) rank → ⊥ }
    ensures enough { length view.entry.lines.now < 4294967293 →
        IfOk result (λ turns. AreEnoughTurns view.entry.eager ranks view.entry.lines.now
        (spot_in view.entry.table.now view.entry.ids.now) turns.items) }
    ensures only { length view.entry.lines.now < 4294967293 → AreSendsShort view.entry.lines.now →
        IfOk result (λ turns. (t : the_turn.Turn) → Has turns.items t →
        IsTurn view.entry.eager ranks view.entry.lines.now
        (spot_in view.entry.table.now view.entry.ids.now) t) }
{
    let groups = groups_of(alloc, view.lines, ranks)?;
    if are_apart(groups.as_slice(), view.lines) {
        group_turns(alloc, view, ranks, groups.as_slice(), rank)
    } else {
        turns(alloc, view, ranks)
    }
}

/// All moves of the ranks of one group, of which one has a move left, or all moves.
pub fn part(alloc: Global, view: View, ranks: u8) -> Result<Vec<Turn>, Memory>
    requires { AreShort view.lines.now }
    ensures enough { length view.entry.lines.now < 4294967293 →
        IfOk result (λ turns. AreEnoughTurns view.entry.eager ranks view.entry.lines.now
        (spot_in view.entry.table.now view.entry.ids.now) turns.items) }
    ensures only { length view.entry.lines.now < 4294967293 → AreSendsShort view.entry.lines.now →
        IfOk result (λ turns. (t : the_turn.Turn) → Has turns.items t →
        IsTurn view.entry.eager ranks view.entry.lines.now
        (spot_in view.entry.table.now view.entry.ids.now) t) }
{
    match first_moving(view, ranks) {
        Some(rank) => group_first(alloc, view, ranks, rank),
        None => turns(alloc, view, ranks),
    }
}
