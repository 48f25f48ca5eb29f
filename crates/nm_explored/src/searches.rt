//! The search over the states of a script.

ghost use Rattle.std.specs.Prelude.{◌≡◌, ◌⊎◌, ℕ, ◌<◌, ◌++◌, ◌∷◌, [], IfOk, IsFalse, IsTrue, List, OnOk, Some};
ghost use Rattle.std.specs.Prelude.{if◌then◌else◌, length, option_and_then, slice_get, slice_set, unwrap_or};
ghost use Rattle.nm_types.specs.declared.scripts.Line as script_line;
ghost use Rattle.nm_outcomes.specs.RankStates as spots;
ghost use Rattle.nm_explored.specs.Successors.{spot_in};
ghost use Rattle.nm_search.specs.Lists.{Has, Extends};
ghost use Rattle.nm_explored.specs.declared.choices.moves.Turn as the_turn;
ghost use Rattle.nm_explored.specs.Moves.{AreSendsShort, IsTurn, moved_at};
ghost use Rattle.nm_explored.specs.Coming.{AreEnoughTurns};
ghost use Rattle.nm_explored.specs.Ends.{AreShort};
ghost use Rattle.nm_explored.specs.Met.{AreBack, IsMade};
ghost use Rattle.nm_explored.specs.Stores.{AreAllLow, AreExpanded, AreOf, Grows, IsExpanded, IsFirst, Leads, Shows};
ghost use Rattle.nm_search.specs.Lists.{StandOnce};

use crate::choices::choices::View;
use crate::choices::moves::{Turn, made};
use crate::chosen::enough;
use crate::stores::{States, Table, Unpacked, Way};
use crate::ways::Ways;
use nm_outcomes::spots::ranks::Rank;
use nm_types::{Line, Memory};
use std::alloc::Global;
use std::marker::Model;

/// A script with its sizes.
#[derive(Clone, Copy)]
pub struct Setting<'a> {
    pub lines: &'a [Line],
    pub ranks: u8,
    pub eager: u16,
}

/// What a search has found.
pub struct Search {
    pub table: Table,
    pub states: States,
    /// How each state was found, by number. The first one was not.
    pub ways: Ways,
}

impl Drop for Search {
    fn drop(self) {
        let Search {
            table: _,
            states: _,
            ways: _,
        } = self;
    }
}

impl Model for Search {
    ghost use Rattle.nm_explored.specs.Stores.{Store};

    ghost Value = { Store };

    ghost view = { λ a. record { table = a.table; states = a.states; ways = a.ways } };
}

/// The numbers of a state after one of its ranks came into another one.
fn with_id(alloc: Global, ids: &[u32], i: u8, id: u32) -> Result<Vec<u32>, Memory>
    ensures { IfOk result (λ new. new.items ≡ slice_set ids.now i id) }
{
    let mut new = ids.to_vec(alloc)?;
    if (i as usize) < new.len() {
        new[i as usize] = id;
    }
    Ok(new)
}

/// Adds how a state was found, if it is new.
fn note(ways: &mut Ways, new: bool, way: Way) -> Result<(), Memory>
    ensures { OnOk result (ways.new ≡ (if new then ways.old ++ Some way ∷ [] else ways.old)) }
{
    if new {
        ways.push(Some(way))?;
    }
    Ok(())
}

/// Moves that are enough where the ranks are in these states.
fn turns_at(alloc: Global, of: Setting, all: &Unpacked) -> Result<Vec<Turn>, Memory>
    requires { AreShort of.lines.now }
    ensures enough { length of.entry.lines.now < 4294967293 → IfOk result (λ turns.
        AreEnoughTurns of.entry.eager of.entry.ranks of.entry.lines.now
        (spot_in all.now.ranks.items all.now.places.items) turns.items) }
    ensures only { length of.entry.lines.now < 4294967293 → AreSendsShort of.entry.lines.now →
        IfOk result (λ turns. (t : the_turn.Turn) → Has turns.items t →
        IsTurn of.entry.eager of.entry.ranks of.entry.lines.now
        (spot_in all.now.ranks.items all.now.places.items) t) }
{
    let view = View {
        eager: of.eager,
        lines: of.lines,
        table: all.ranks.as_slice(),
        ids: all.places.as_slice(),
    };
    enough(alloc, view, of.ranks)
}

impl Search {
    /// The first state alone: no rank did anything.
    pub fn new(alloc: Global, ranks: u8) -> Result<Search, Memory>
        ensures first { IfOk result (IsFirst ranks) }
        ensures made { IfOk result (λ search. (eager : ℕ) (lines : List script_line.Line) →
            IsMade eager ranks lines search) }
        ensures back { IfOk result (λ search. (eager : ℕ) (lines : List script_line.Line) →
            AreBack eager ranks lines search) }
    {
        let mut table = Table::new(alloc);
        let mut states = States::new(alloc);
        let first = Rank::new(alloc);
        let id = table.number(alloc, &first, 0)?;
        let ids = vec![in alloc; id; ranks as usize]?;
        states.add(ids)?;
        let mut ways = Ways::new(alloc);
        ways.push(None)?;
        Ok(Search {
            table,
            states,
            ways,
        })
    }

    /// The numbers of the ranks' states at the state with a number, or none.
    pub fn ids_of(&self, k: usize) -> &[u32]
        ensures { result.now ≡ unwrap_or (slice_get self.now.states k) [] }
    {
        match self.states.as_slice().get(k) {
            Some(state) => state.as_slice(),
            None => &[],
        }
    }

    /// The states of all ranks at the state with a number.
    pub fn state_at(&self, alloc: Global, k: usize) -> Result<Unpacked, Memory>
        ensures shows { AreAllLow self.now → IfOk result (Shows self.now k) }
        ensures are { AreAllLow self.now → IfOk result (AreOf self.now.table) }
    {
        self.table.state(alloc, self.ids_of(k))
    }

    /// The states of all ranks become those at the state with a number.
    pub fn show(&self, alloc: Global, k: usize, all: &mut Unpacked) -> Result<(), Memory>
        ensures shows { AreAllLow self.now → AreOf self.now.table all.old → OnOk result (Shows self.now k all.new) }
        ensures are { AreAllLow self.now → AreOf self.now.table all.old → OnOk result (AreOf self.now.table all.new) }
    {
        self.table.show(alloc, self.ids_of(k), all)
    }

    /// The number of the state of a rank, by the number of the state of all.
    fn id_at(&self, k: usize, i: u8) -> Option<u32>
        ensures { (ids : List ℕ) → slice_get self.now.states k ≡ Some ids → result ≡ slice_get ids i }
    {
        let state = self.states.as_slice().get(k)?;
        state.as_slice().get(i as usize).copied()
    }

    /// The state of a rank with a number, if there is one.
    fn rank_by(&self, alloc: Global, id: Option<u32>) -> Result<Option<Rank>, Memory>
        ensures { IfOk result (λ rank. rank ≡ option_and_then (λ id. slice_get self.now.table id) id) }
    {
        match id {
            Some(id) => self.table.rank(alloc, id),
            None => Ok(None),
        }
    }

    /// How the state with a number was found. The first one was not.
    pub fn way(&self, k: usize) -> Option<Way>
        ensures { result ≡ option_and_then (λ way. way) (slice_get self.now.ways k) }
    {
        self.ways.get(k)
    }

    /// The state of a rank after a move.
    fn after(&self, alloc: Global, k: usize, turn: Turn) -> Result<Option<Rank>, Memory>
        ensures { IfOk result (λ after. (ids : List ℕ) (spot : spots.Spot) →
            slice_get self.now.states k ≡ Some ids →
            spot_in self.now.table ids turn.rank ≡ Some spot →
            after ≡ Some (moved_at spot turn.by)) }
    {
        match self.rank_by(alloc, self.id_at(k, turn.rank))? {
            Some(rank) => Ok(Some(made(rank, turn.by)?)),
            None => Ok(None),
        }
    }

    /// The number of the state of a rank, or that of the first one.
    fn near(&self, k: usize, i: u8) -> u32 {
        match self.id_at(k, i) {
            Some(id) => id,
            None => 0,
        }
    }

    /// Adds the state that comes of one where a rank goes into another state.
    fn add(&mut self, alloc: Global, k: usize, turn: Turn, id: u32) -> Result<(), Memory>
        ensures table { OnOk result (self.new.table ≡ self.old.table) }
        ensures kept { OnOk result (Extends self.old.states self.new.states) }
        ensures there { OnOk result ((ids : List ℕ) → slice_get self.old.states k ≡ Some ids →
            Has self.new.states (slice_set ids turn.rank id)) }
        ensures only { OnOk result ((self.new.states ≡ self.old.states)
            ⊎ ((ids : List ℕ) × (slice_get self.old.states k ≡ Some ids)
            × (self.new.states ≡ self.old.states ++ slice_set ids turn.rank id ∷ []))) }
        ensures ways { OnOk result (((self.new.states ≡ self.old.states) × (self.new.ways ≡ self.old.ways))
            ⊎ ((ids : List ℕ) × (slice_get self.old.states k ≡ Some ids)
            × (self.new.states ≡ self.old.states ++ slice_set ids turn.rank id ∷ [])
            × (self.new.ways ≡ self.old.ways
            ++ Some (record { before = k; rank = turn.rank; by = turn.by }) ∷ []))) }
        ensures once { StandOnce self.old.states → OnOk result (StandOnce self.new.states) }
    {
        let ids = match self.states.as_slice().get(k) {
            Some(state) => with_id(alloc, state.as_slice(), turn.rank, id)?,
            None => return Ok(()),
        };
        let way = Way {
            before: k,
            rank: turn.rank,
            by: turn.by,
        };
        let new = self.states.add(ids)?;
        note(&mut self.ways, new, way)?;
        Ok(())
    }

    /// Adds the state that a move leads to.
    fn follow(&mut self, alloc: Global, k: usize, turn: Turn) -> Result<(), Memory>
        ensures grows { OnOk result (Grows self.old self.new) }
        ensures leads { OnOk result ((ids : List ℕ) (spot : spots.Spot) →
            slice_get self.old.states k ≡ Some ids →
            spot_in self.old.table ids turn.rank ≡ Some spot →
            Leads self.new ids turn.rank (moved_at spot turn.by)) }
        ensures made { (eager ranks : ℕ) (lines : List script_line.Line) →
            IsMade eager ranks lines self.old → ((ids : List ℕ) →
            slice_get self.old.states k ≡ Some ids →
            IsTurn eager ranks lines (spot_in self.old.table ids) turn) →
            OnOk result (IsMade eager ranks lines self.new) }
        ensures back { (eager ranks : ℕ) (lines : List script_line.Line) →
            IsMade eager ranks lines self.old → AreBack eager ranks lines self.old → ((ids : List ℕ) →
            slice_get self.old.states k ≡ Some ids →
            IsTurn eager ranks lines (spot_in self.old.table ids) turn) →
            OnOk result (AreBack eager ranks lines self.new) }
    {
        let Some(after) = self.after(alloc, k, turn)? else {
            return Ok(());
        };
        let near = self.near(k, turn.rank);
        let id = self.table.number(alloc, &after, near)?;
        self.add(alloc, k, turn, id)?;
        Ok(())
    }

    /// Adds the states that enough moves lead to from one, at which the ranks are in these states.
    pub fn expand_from(
        &mut self,
        alloc: Global,
        of: Setting,
        k: usize,
        all: &Unpacked,
    ) -> Result<(), Memory>
        requires { AreShort of.lines.now }
        ensures grows { OnOk result (Grows self.old self.new) }
        ensures expanded { length of.entry.lines.now < 4294967293 → Shows self.old k all.now →
            IsMade of.entry.eager of.entry.ranks of.entry.lines.now self.old → OnOk result ((ids : List ℕ) →
            slice_get self.old.states k ≡ Some ids →
            IsExpanded of.entry.eager of.entry.ranks of.entry.lines.now self.new ids) }
        ensures made { length of.entry.lines.now < 4294967293 → AreSendsShort of.entry.lines.now →
            Shows self.old k all.now → k < length self.old.states →
            IsMade of.entry.eager of.entry.ranks of.entry.lines.now self.old →
            OnOk result (IsMade of.entry.eager of.entry.ranks of.entry.lines.now self.new) }
        ensures back { length of.entry.lines.now < 4294967293 → AreSendsShort of.entry.lines.now →
            Shows self.old k all.now → k < length self.old.states →
            IsMade of.entry.eager of.entry.ranks of.entry.lines.now self.old →
            AreBack of.entry.eager of.entry.ranks of.entry.lines.now self.old →
            OnOk result (AreBack of.entry.eager of.entry.ranks of.entry.lines.now self.new) }
    {
        let turns = turns_at(alloc, of, all)?;
        for turn in turns.iter() {
            self.follow(alloc, k, *turn)?;
        }
        Ok(())
    }

    /// Adds the states that enough moves lead to.
    pub fn expand(&mut self, alloc: Global, of: Setting, k: usize) -> Result<(), Memory>
        requires { AreShort of.lines.now }
        ensures grows { OnOk result (Grows self.old self.new) }
        ensures expanded { length of.entry.lines.now < 4294967293 →
            IsMade of.entry.eager of.entry.ranks of.entry.lines.now self.old → OnOk result ((ids : List ℕ) →
            slice_get self.old.states k ≡ Some ids →
            IsExpanded of.entry.eager of.entry.ranks of.entry.lines.now self.new ids) }
        ensures made { length of.entry.lines.now < 4294967293 → AreSendsShort of.entry.lines.now →
            k < length self.old.states → IsMade of.entry.eager of.entry.ranks of.entry.lines.now self.old →
            OnOk result (IsMade of.entry.eager of.entry.ranks of.entry.lines.now self.new) }
        ensures back { length of.entry.lines.now < 4294967293 → AreSendsShort of.entry.lines.now →
            k < length self.old.states → IsMade of.entry.eager of.entry.ranks of.entry.lines.now self.old →
            AreBack of.entry.eager of.entry.ranks of.entry.lines.now self.old →
            OnOk result (AreBack of.entry.eager of.entry.ranks of.entry.lines.now self.new) }
    {
        let all = self.state_at(alloc, k)?;
        self.expand_from(alloc, of, k, &all)
    }

    /// Finds the states that enough moves lead to, unless they are more than the limit. Answers whether it
    /// found all of these.
    pub fn run(&mut self, alloc: Global, of: Setting, limit: u32) -> Result<bool, Memory>
        requires { AreShort of.lines.now }
        ensures grows { OnOk result (Grows self.old self.new) }
        ensures all { length of.entry.lines.now < 4294967293 → AreSendsShort of.entry.lines.now →
            IsMade of.entry.eager of.entry.ranks of.entry.lines.now self.old → IfOk result (λ all. IsTrue all →
            AreExpanded of.entry.eager of.entry.ranks of.entry.lines.now self.new
            (length self.new.states)) }
        ensures made { length of.entry.lines.now < 4294967293 → AreSendsShort of.entry.lines.now →
            IsMade of.entry.eager of.entry.ranks of.entry.lines.now self.old →
            OnOk result (IsMade of.entry.eager of.entry.ranks of.entry.lines.now self.new) }
        ensures back { length of.entry.lines.now < 4294967293 → AreSendsShort of.entry.lines.now →
            IsMade of.entry.eager of.entry.ranks of.entry.lines.now self.old →
            AreBack of.entry.eager of.entry.ranks of.entry.lines.now self.old →
            OnOk result (AreBack of.entry.eager of.entry.ranks of.entry.lines.now self.new) }
        ensures over { IfOk result (λ all. IsFalse all → limit < length self.new.states) }
    {
        for k in 0..limit as usize {
            if k >= self.states.as_slice().len() {
                return Ok(true);
            }
            self.expand(alloc, of, k)?;
            if self.states.as_slice().len() > limit as usize {
                return Ok(false);
            }
        }
        Ok(self.states.as_slice().len() <= limit as usize)
    }
}
