//! The log of moves, with the states of the ranks beside it.

ghost use Rattle.std.specs.Prelude.{◌≡◌, ◌<◌, ◌-◌, IfOk, OnOk, Some, length, replicate, slice_get};
ghost use Rattle.nm_outcomes.specs.RankStates.{first_spot};
ghost use Rattle.nm_explored.specs.Moves.{moved_at};
ghost use Rattle.nm_explored.specs.Ends.{AreShort};
ghost use Rattle.nm_listed.specs.Tellings.{after_move, each_below, finished, first_told, over_pair};
ghost use Rattle.nm_listed.specs.Tellings.{over_rank, told_next, told_way};

use crate::retold::events::event_of_move;
use crate::retold::logs::Log;
use nm_explored::choices::moves::{Turn, make};
use nm_outcomes::spots::ranks::Rank;
use nm_types::{Line, Memory};
use std::alloc::Global;
use std::marker::Model;

/// A log, and the states of the ranks after it.
pub struct Telling {
    log: Log,
    states: Vec<Rank>,
}

impl Drop for Telling {
    fn drop(self) {
        let Telling { log: _, states: _ } = self;
    }
}

impl Model for Telling {
    ghost use Rattle.nm_listed.specs.Tellings.{Telling};

    ghost Value = { Telling };

    ghost view = { λ a. record { log = a.log; states = a.states.items } };
}

/// The turn at a place, 0 for the last one.
fn turn_at(path: &[Turn], k: usize) -> Turn
    requires { k < length path.now }
    ensures { slice_get path.now (length path.now - 1 - k) ≡ Some result }
{
    path[path.len() - 1 - k]
}

/// So many ranks that did nothing.
fn idle(alloc: Global, ranks: u8) -> Result<Vec<Rank>, Memory>
    ensures { IfOk result (λ states. states.items ≡ replicate ranks first_spot) }
{
    let mut states = Vec::new(alloc);
    for _rank in 0..ranks {
        states.push(Rank::new(alloc))?;
    }
    Ok(states)
}

/// A move of a rank: what it needs, and its event.
fn tell(alloc: Global, lines: &[Line], log: &mut Log, rank: &Rank, turn: Turn) -> Result<(), Memory>
    requires { AreShort lines.now }
    ensures { OnOk result (log.new ≡ after_move lines.now log.old turn.rank rank.now turn.by) }
{
    log.before_move(lines, turn.rank, rank, turn.by)?;
    let what = event_of_move(alloc, lines, turn.by)?;
    log.push(turn.rank, what)
}

/// .. and the rank's own move.
fn tell_at(
    alloc: Global,
    lines: &[Line],
    log: &mut Log,
    rank: &mut Rank,
    turn: Turn,
) -> Result<(), Memory>
    requires { AreShort lines.now }
    ensures log { OnOk result (log.new ≡ after_move lines.now log.old turn.rank rank.old turn.by) }
    ensures rank { OnOk result (rank.new ≡ moved_at rank.old turn.by) }
{
    tell(alloc, lines, log, rank, turn)?;
    make(rank, turn.by)
}

/// What is left of the messages of rank i to rank j, if both are there.
fn pair_over(log: &mut Log, states: &[Rank], i: u8, j: u8) -> Result<(), Memory>
    ensures { OnOk result (log.new ≡ over_pair states.now i j log.old) }
{
    match states.get(usize::from(i)) {
        Some(rank) => match states.get(usize::from(j)) {
            Some(other) => log.all_over(rank, other, i, j),
            None => Ok(()),
        },
        None => Ok(()),
    }
}

/// .. of rank i to all ranks.
fn rank_over(log: &mut Log, states: &[Rank], ranks: u8, i: u8) -> Result<(), Memory>
    ensures { OnOk result (log.new ≡ over_rank ranks states.now i log.old) }
{
    for j in 0..ranks {
        pair_over(log, states, i, j)?;
    }
    Ok(())
}

/// .. of all ranks.
fn ranks_over(log: &mut Log, states: &[Rank], ranks: u8) -> Result<(), Memory>
    ensures { OnOk result (log.new ≡ each_below (λ i log. over_rank ranks states.now i log) ranks log.old) }
{
    for i in 0..ranks {
        rank_over(log, states, ranks, i)?;
    }
    Ok(())
}

impl Telling {
    /// Nothing was told.
    pub fn new(alloc: Global, ranks: u8) -> Result<Telling, Memory>
        ensures { IfOk result (λ telling. telling ≡ first_told ranks) }
    {
        let states = idle(alloc, ranks)?;
        Ok(Telling {
            log: Log::new(alloc),
            states,
        })
    }

    /// A turn more.
    pub fn add(&mut self, alloc: Global, lines: &[Line], turn: Turn) -> Result<(), Memory>
        requires { AreShort lines.now }
        ensures { OnOk result (self.new ≡ told_next lines.now self.old turn) }
    {
        match self.states.get_mut(usize::from(turn.rank)) {
            Some(rank) => tell_at(alloc, lines, &mut self.log, rank, turn),
            None => Ok(()),
        }
    }

    /// The turns of a way, the newest first.
    pub fn of(alloc: Global, lines: &[Line], ranks: u8, path: &[Turn]) -> Result<Telling, Memory>
        requires { AreShort lines.now }
        ensures { IfOk result (λ telling. telling ≡ told_way lines.now ranks path.now) }
    {
        let mut telling = Telling::new(alloc, ranks)?;
        for k in 0..path.len() {
            telling.add(alloc, lines, turn_at(path, k))?;
        }
        Ok(telling)
    }

    /// All that is left of the messages.
    pub fn finish(&mut self, ranks: u8) -> Result<(), Memory>
        ensures { OnOk result (self.new ≡ finished ranks self.old) }
    {
        ranks_over(&mut self.log, self.states.as_slice(), ranks)
    }

    /// The log and the states.
    pub fn into_parts(self) -> (Log, Vec<Rank>)
        ensures log { result.0 ≡ self.log }
        ensures states { result.1.items ≡ self.states }
    {
        let Telling { log, states } = self;
        (log, states)
    }
}
