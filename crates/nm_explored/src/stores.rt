//! States, each of them once.

ghost use Rattle.std.specs.Prelude.{◌≡◌, ◌⊎◌, ℕ, [], ◌∷◌, ◌++◌, ◌<◌, if◌then◌else◌, IfOk, IsTrue, List, OnOk, Some};
ghost use Rattle.std.specs.Prelude.{length, slice_get};
ghost use Rattle.std.specs.List.{cons_option, filter_map, range_with_len, slice_set};
ghost use Rattle.nm_outcomes.specs.RankStates as spots;
ghost use Rattle.nm_explored.specs.Stores.{AreAt, AreLow, AreOf};
ghost use Rattle.nm_search.specs.Lists.{Has, Extends};
ghost use Rattle.nm_search.specs.Lists.{StandOnce};

use crate::choices::moves::Move;
use crate::packs::{Parts, rank_of, row_of, short};
use indexmap::IndexSet;
use nm_outcomes::spots::ranks::Rank;
use nm_types::Memory;
use std::alloc::Global;
use std::hash::{Hash, Hasher};
use std::marker::Model;

/// How a state was found: by which move of which rank, at which state.
#[derive(Clone, Copy)]
pub struct Way {
    pub before: usize,
    pub rank: u8,
    pub by: Move,
}

/// States of single ranks, each once: the numbers of their parts.
pub struct Table {
    parts: Parts,
    rows: States,
}

impl Drop for Table {
    fn drop(self) {
        let Table { parts: _, rows: _ } = self;
    }
}

impl Model for Table {
    ghost use Rattle.std.specs.Prelude.{List, map};
    ghost use Rattle.nm_outcomes.specs.RankStates.{Spot};
    ghost use Rattle.nm_explored.specs.Packs.{AreWhole, spot_by};

    ghost Value = { List Spot };

    ghost view = { λ a. map (spot_by a.parts) a.rows };

    ghost invariant = { λ a. AreWhole a.parts a.rows };
}

/// The states of all ranks with their numbers, and the places of these.
pub struct Unpacked {
    pub ids: Vec<u32>,
    pub ranks: Vec<Rank>,
    pub places: Vec<usize>,
}

impl Drop for Unpacked {
    fn drop(self) {
        let Unpacked {
            ids: _,
            ranks: _,
            places: _,
        } = self;
    }
}

impl Unpacked {
    /// No rank.
    pub fn none(alloc: Global) -> Unpacked
        ensures { (table : List spots.Spot) → AreOf table result }
    {
        Unpacked {
            ids: Vec::new(alloc),
            ranks: Vec::new(alloc),
            places: Vec::new(alloc),
        }
    }
}

/// Whether a number stands at a place.
fn is_id(ids: &[u32], place: usize, id: u32) -> bool
    ensures { IsTrue result → slice_get ids.now place ≡ Some id }
{
    match ids.get(place) {
        Some(own) => *own == id,
        None => false,
    }
}

/// The number at a place.
fn id_at(ids: &[u32], place: usize) -> Option<u32>
    ensures { result ≡ slice_get ids.now place }
{
    ids.get(place).copied()
}

/// Whether there are as many numbers as others.
fn are_as_many(ids: &[u32], own: &[u32]) -> bool
    ensures { IsTrue result → length ids.now ≡ length own.now }
{
    ids.len() == own.len()
}

/// Puts a number at a place.
fn put_id(ids: &mut Vec<u32>, place: usize, id: u32)
    ensures { ids.new.items ≡ slice_set ids.old.items place id }
{
    if place < ids.len() {
        ids[place] = id;
    }
}

/// Puts a state at a place.
fn put_rank(ranks: &mut Vec<Rank>, place: usize, rank: Rank)
    ensures { ranks.new.items ≡ slice_set ranks.old.items place rank }
{
    if place < ranks.len() {
        ranks[place] = rank;
    }
}

/// The rank at a place comes into the state with a number.
fn put(all: &mut Unpacked, place: usize, id: u32, rank: Rank)
    ensures ids { all.new.ids.items ≡ slice_set all.old.ids.items place id }
    ensures ranks { all.new.ranks.items ≡ slice_set all.old.ranks.items place rank }
    ensures places { all.new.places.items ≡ all.old.places.items }
{
    put_id(&mut all.ids, place, id);
    put_rank(&mut all.ranks, place, rank);
}

/// A copy of some numbers.
fn copied(alloc: Global, ids: &[u32]) -> Result<Vec<u32>, Memory>
    ensures { IfOk result (λ copy. copy.items ≡ ids.now) }
{
    Ok(ids.to_vec(alloc)?)
}

/// The row with a number, or none.
fn row_at(alloc: Global, rows: &States, number: u32) -> Result<Vec<u32>, Memory> {
    match rows.as_slice().get(number as usize) {
        Some(row) => copied(alloc, row.as_slice()),
        None => Ok(Vec::new(alloc)),
    }
}

/// Adds a state, if there is one.
fn push_rank(all: &mut Vec<Rank>, rank: Option<Rank>) -> Result<(), Memory>
    ensures { OnOk result (all.new.items ≡ all.old.items ++ cons_option rank []) }
{
    if let Some(rank) = rank {
        all.push(rank)?;
    }
    Ok(())
}

/// The numbers from 0 up to one.
fn places(alloc: Global, count: usize) -> Result<Vec<usize>, Memory>
    ensures { IfOk result (λ all. all.items ≡ range_with_len 0 count) }
{
    let mut all = Vec::with_capacity(alloc, count)?;
    for k in 0..count {
        all.push(k)?;
    }
    Ok(all)
}

impl Table {
    /// No state.
    pub fn new(alloc: Global) -> Table
        ensures { result ≡ [] }
    {
        Table {
            parts: Parts::new(alloc),
            rows: States::new(alloc),
        }
    }

    /// The state with a number.
    pub fn rank(&self, alloc: Global, id: u32) -> Result<Option<Rank>, Memory>
        ensures { IfOk result (λ rank. rank ≡ slice_get self.now id) }
    {
        match self.rows.as_slice().get(id as usize) {
            Some(row) => Ok(Some(rank_of(alloc, &self.parts, row.as_slice())?)),
            None => Ok(None),
        }
    }

    /// The states with these numbers, as far as they are there.
    fn ranks(&self, alloc: Global, ids: &[u32]) -> Result<Vec<Rank>, Memory>
        ensures { IfOk result (λ all. all.items ≡ filter_map (λ id. slice_get self.now id) ids.now) }
    {
        let mut all = Vec::with_capacity(alloc, ids.len())?;
        for id in ids {
            let rank = self.rank(alloc, *id)?;
            push_rank(&mut all, rank)?;
        }
        Ok(all)
    }

    /// The states of all ranks, of which these are the numbers.
    pub fn state(&self, alloc: Global, ids: &[u32]) -> Result<Unpacked, Memory>
        ensures { IfOk result (λ all. AreLow self.now ids.now → AreAt self.now ids.now all) }
    {
        let own = copied(alloc, ids)?;
        let places = places(alloc, ids.len())?;
        let ranks = self.ranks(alloc, ids)?;
        Ok(Unpacked {
            ids: own,
            places,
            ranks,
        })
    }

    /// The state of the rank at a place becomes the one with a number.
    fn refresh_by(
        &self,
        alloc: Global,
        place: usize,
        id: u32,
        all: &mut Unpacked,
    ) -> Result<(), Memory>
        ensures { id < length self.now → place < length all.old.ids.items → AreOf self.now all.old →
            OnOk result (AreOf self.now all.new × (all.new.ids.items ≡ slice_set all.old.ids.items place id)) }
    {
        if is_id(all.ids.as_slice(), place, id) {
            return Ok(());
        }
        match self.rank(alloc, id)? {
            Some(rank) => {
                put(all, place, id, rank);
                Ok(())
            }
            None => Ok(()),
        }
    }

    /// .. the one whose number stands at the place.
    fn refresh_at(
        &self,
        alloc: Global,
        ids: &[u32],
        place: usize,
        all: &mut Unpacked,
    ) -> Result<(), Memory>
        ensures { (id : ℕ) → slice_get ids.now place ≡ Some id → id < length self.now →
            place < length all.old.ids.items → AreOf self.now all.old →
            OnOk result (AreOf self.now all.new × (all.new.ids.items ≡ slice_set all.old.ids.items place id)) }
    {
        match id_at(ids, place) {
            Some(id) => self.refresh_by(alloc, place, id, all),
            None => Ok(()),
        }
    }

    /// The states become those with these numbers, as many as there were.
    fn refresh(&self, alloc: Global, ids: &[u32], all: &mut Unpacked) -> Result<(), Memory>
        ensures { AreLow self.now ids.now → length ids.now ≡ length all.old.ids.items → AreOf self.now all.old →
            OnOk result (AreAt self.now ids.now all.new) }
    {
        for place in 0..ids.len() {
            self.refresh_at(alloc, ids, place, all)?;
        }
        Ok(())
    }

    /// .. of however many ranks.
    fn renew(&self, alloc: Global, ids: &[u32], all: &mut Unpacked) -> Result<(), Memory>
        ensures { AreLow self.now ids.now → OnOk result (AreAt self.now ids.now all.new) }
    {
        let new = self.state(alloc, ids)?;
        *all = new;
        Ok(())
    }

    /// The states become those with these numbers. One that has its number already stays.
    pub fn show(&self, alloc: Global, ids: &[u32], all: &mut Unpacked) -> Result<(), Memory>
        ensures { AreLow self.now ids.now → AreOf self.now all.old → OnOk result (AreAt self.now ids.now all.new) }
    {
        if are_as_many(ids, all.ids.as_slice()) {
            self.refresh(alloc, ids, all)
        } else {
            self.renew(alloc, ids, all)
        }
    }

    /// The number of a state, which may be a new one. Many of its parts are those of the state with another number.
    pub fn number(&mut self, alloc: Global, rank: &Rank, near: u32) -> Result<u32, Memory>
        ensures there { IfOk result (λ id. slice_get self.new id ≡ Some rank.now) }
        ensures kept { OnOk result (Extends self.old self.new) }
        ensures once { OnOk result (StandOnce self.new) }
    {
        let near = row_at(alloc, &self.rows, near)?;
        let row = row_of(alloc, &mut self.parts, rank, near.as_slice())?;
        let id = self.rows.number(row)?;
        self.parts.are_once();
        short(id)
    }
}

/// A state: the numbers of its ranks' states.
pub struct State {
    ids: Vec<u32>,
}

impl Drop for State {
    fn drop(self) {
        let State { ids: _ } = self;
    }
}

impl Model for State {
    ghost use Rattle.std.specs.Prelude.{List, ℕ};

    ghost Value = { List ℕ };

    ghost view = { λ a. a.ids.items };
}

impl PartialEq for State {
    ghost use Rattle.std.proofs.Common.{rules};
    ghost use Rattle.std.specs.Cmp.Lexicographic.{pointwise};
    ghost use Rattle.std.specs.Cmp.Rules.{comparing};
    ghost use Rattle.std.specs.Prelude.{nat_eq};

    ghost eq = { pointwise nat_eq };

    ghost laws = { Prim.search (comparing, rules) };

    fn eq(&self, other: &State) -> bool {
        self.ids == other.ids
    }
}

impl Eq for State {
    ghost use Rattle.std.proofs.Common.{rules};
    ghost use Rattle.std.specs.Cmp.Rules.{comparing};

    ghost laws = { Prim.search (comparing, rules) };
}

impl Hash for State {
    ghost use Rattle.std.proofs.Common.{rules};
    ghost use Rattle.std.specs.Cmp.Rules.{hashing};
    ghost use Rattle.std.specs.Hash as fed;

    ghost hash_input = { λ a. fed.slice fed.u32 a };

    ghost respects_eq = { Prim.search (hashing, rules) };

    fn hash<H: Hasher>(&self, state: &mut H) {
        self.ids.hash(state);
    }
}

impl State {
    /// The numbers, by rank.
    pub fn as_slice(&self) -> &[u32]
        ensures { result.now ≡ self.now }
    {
        self.ids.as_slice()
    }
}

/// The states of all ranks that were found, each once.
pub struct States {
    items: IndexSet<State>,
}

impl Drop for States {
    fn drop(self) {
        let States { items: _ } = self;
    }
}

impl Model for States {
    ghost use Rattle.std.specs.Prelude.{List, ℕ};

    ghost Value = { List (List ℕ) };

    ghost view = { λ a. a.items.keys };
}

impl States {
    /// No state.
    pub fn new(alloc: Global) -> States
        ensures { result ≡ [] }
    {
        States {
            items: IndexSet::new(alloc),
        }
    }

    /// The states, in the order in which they were found.
    pub fn as_slice(&self) -> &[State]
        ensures { result.now ≡ self.now }
    {
        self.items.as_slice()
    }

    /// Adds a state, unless it is there, and answers whether it is new.
    #[tactic(auto, using(crate::proofs::SetLemmas::ids_once, crate::proofs::SetLemmas::ids_new, crate::proofs::SetLemmas::ids_keep, crate::proofs::SetLemmas::ids_there))]
    pub fn add(&mut self, ids: Vec<u32>) -> Result<bool, Memory>
        ensures there { OnOk result (Has self.new ids.items) }
        ensures kept { OnOk result (Extends self.old self.new) }
        ensures added { IfOk result (λ new.
            self.new ≡ (if new then self.old ++ ids.items ∷ [] else self.old)) }
        ensures once { OnOk result (StandOnce self.new) }
    {
        let (_, new) = self.items.insert_full(State { ids })?;
        Ok(new)
    }

    /// The number of a state, which may be a new one.
    pub fn number(&mut self, ids: Vec<u32>) -> Result<usize, Memory>
        ensures there { IfOk result (λ number. slice_get self.new number ≡ Some ids.items) }
        ensures added { (self.new ≡ self.old) ⊎ (self.new ≡ self.old ++ ids.items ∷ []) }
        ensures once { StandOnce self.new }
    {
        let (number, _) = self.items.insert_full(State { ids })?;
        Ok(number)
    }
}
