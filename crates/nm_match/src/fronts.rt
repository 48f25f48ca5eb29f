//! The oldest receive of each ring, by what the receives of the ring name.

ghost use Rattle.std.specs.Prelude.{◌≡◌, ◌<◌, true, false, IfOk, IfSome, IsSome, IsTrue, None, OnErr, Some};
ghost use Rattle.std.specs.Option.{option_map_or};
ghost use Rattle.indexmap.specs.IndexMap.{get, index_map_len, index_of};
ghost use Rattle.nm_match.specs.declared.picks.Picks as picks;
ghost use Rattle.nm_match.specs.Fronts.{first_of, front_at, is_one as is_one_lem};
ghost use Rattle.nm_match.specs.Picks.{same_picks};
ghost use Rattle.nm_match.specs.Rings.{IsPassed, passed};

use crate::picks::Picks;
use indexmap::IndexMap;
use indexmap::map::Entry;
use nm_types::Memory;
use std::alloc::Global;

/// A key, and the number of the oldest receive under it, if one waits.
#[derive(Clone, Copy)]
pub struct One {
    pub key: Picks,
    pub first: Option<u64>,
}

/// The number of the oldest receive that names each key, where one does.
#[derive(Drop)]
pub struct Fronts {
    /// A key that came where no receive waited, by itself. So where one key is in use, nothing is hashed.
    pub one: Option<One>,
    /// Those of the other keys.
    pub map: IndexMap<Picks, u64>,
}

/// Whether no receive waits under a key of the map.
fn is_bare(map: &IndexMap<Picks, u64>) -> bool
    ensures { IsTrue result → (k : picks.Picks) → get same_picks map.now k ≡ None }
{
    map.is_empty()
}

/// Enters a receive that comes last under a key of the map, and answers the number of the oldest.
#[inline(always)]
fn enter_in(map: &mut IndexMap<Picks, u64>, key: Picks, number: u64) -> Result<u64, Memory>
    ensures first { IfOk result (λ first.
        first ≡ option_map_or (λ n. n) (get same_picks map.old key) number) }
    ensures own { IfOk result (λ first. get same_picks map.new key ≡ Some first) }
    ensures others { (k : picks.Picks) → same_picks key k ≡ false →
        get same_picks map.new k ≡ get same_picks map.old k }
    ensures err { OnErr result (get same_picks map.new key ≡ get same_picks map.old key) }
{
    match map.entry(key)? {
        Entry::Occupied(entry) => Ok(*entry.get()),
        Entry::Vacant(entry) => {
            let _ = entry.insert(number);
            Ok(number)
        }
    }
}

/// Where a receive leaves that another one is behind, that one is the oldest under the key at a place of the map if
/// this one was, and a key goes with its last.
fn pass_in(map: &mut IndexMap<Picks, u64>, place: usize, number: u64, next: u64)
    requires { place < index_map_len map.old }
    ensures { (key : picks.Picks) → index_of same_picks map.old key ≡ Some place →
        IsPassed key number next (get same_picks map.old) (get same_picks map.new) }
{
    if map[place] != number {
        return;
    }
    if next == number {
        let _ = map.swap_remove_index(place);
        return;
    }
    let (_, first) = map.pair_mut(place);
    *first = next;
}

/// The number of the oldest after a receive left that another one is behind.
fn next_first(first: Option<u64>, number: u64, next: u64) -> Option<u64>
    ensures { result ≡ passed number next first }
{
    match first {
        Some(first) if first == number => (next != number).then_some(next),
        _ => first,
    }
}

impl Fronts {
    /// No receive waits.
    pub(crate) fn new(alloc: Global) -> Self
        ensures { (k : picks.Picks) → front_at result k ≡ None }
    {
        Fronts {
            one: None,
            map: IndexMap::new(alloc),
        }
    }

    /// Whether this key stands by itself.
    #[inline(always)]
    pub(crate) fn is_one(&self, key: &Picks) -> bool
        ensures { result ≡ is_one_lem self.now.one key.now }
    {
        match &self.one {
            Some(one) => one.key == *key,
            None => false,
        }
    }

    /// The number of the oldest receive under the key that stands by itself.
    #[inline(always)]
    pub(crate) fn first_of_one(&self) -> Option<u64>
        ensures { result ≡ first_of self.now.one }
    {
        match &self.one {
            Some(one) => one.first,
            None => None,
        }
    }

    /// Whether no receive waits.
    pub(crate) fn is_empty(&self) -> bool
        ensures none { IsTrue result → (k : picks.Picks) → front_at self.now k ≡ None }
        ensures map { IsTrue result → (k : picks.Picks) → get same_picks self.now.map k ≡ None }
    {
        if self.first_of_one().is_some() {
            return false;
        }
        is_bare(&self.map)
    }

    /// The number of the oldest receive under a key.
    pub(crate) fn get(&self, key: Picks) -> Option<u64>
        ensures { result ≡ front_at self.now key }
    {
        if self.is_one(&key) {
            return self.first_of_one();
        }
        if self.map.is_empty() {
            return None;
        }
        let number = self.map.get(&key)?;
        Some(*number)
    }

    /// The place of a key of the map, if a receive waits under it.
    pub(crate) fn place(&self, key: Picks) -> Option<usize>
        requires { is_one_lem self.now.one key ≡ false }
        ensures place { result ≡ index_of same_picks self.now.map key }
        ensures within { IfSome result (λ place. place < index_map_len self.now.map) }
        ensures none { result ≡ None → front_at self.now key ≡ None }
    {
        self.map.get_index_of(&key)
    }

    /// The number of the oldest receive under the key at a place of the map.
    pub(crate) fn number(&self, place: usize) -> u64
        requires { place < index_map_len self.now.map }
        ensures { (key : picks.Picks) → is_one_lem self.now.one key ≡ false →
            index_of same_picks self.now.map key ≡ Some place → front_at self.now key ≡ Some result }
    {
        self.map[place]
    }

    /// Enters a receive that comes last under the key that stands by itself, and answers the number of the oldest.
    #[inline(always)]
    fn enter_one(&mut self, number: u64) -> u64
        requires { IsSome self.old.one }
        ensures first { result ≡ option_map_or (λ n. n) (first_of self.old.one) number }
        ensures own { first_of self.new.one ≡ Some result }
        ensures keys { (k : picks.Picks) → is_one_lem self.new.one k ≡ is_one_lem self.old.one k }
        ensures map { self.new.map ≡ self.old.map }
    {
        let Some(one) = &mut self.one else {
            return number;
        };
        let first = one.first.unwrap_or(number);
        one.first = Some(first);
        first
    }

    /// Enters a receive that comes last under a key, and answers the number of the oldest.
    #[inline(always)]
    pub(crate) fn enter(&mut self, key: Picks, number: u64) -> Result<u64, Memory>
        ensures first { IfOk result (λ first.
            first ≡ option_map_or (λ n. n) (front_at self.old key) number) }
        ensures own { IfOk result (λ first. front_at self.new key ≡ Some first) }
        ensures others { (k : picks.Picks) → same_picks key k ≡ false →
            front_at self.new k ≡ front_at self.old k }
        ensures err { OnErr result (front_at self.new key ≡ front_at self.old key) }
    {
        if self.is_one(&key) {
            return Ok(self.enter_one(number));
        }
        if self.is_empty() {
            let first = Some(number);
            self.one = Some(One { key, first });
            return Ok(number);
        }
        enter_in(&mut self.map, key, number)
    }

    /// Where a receive leaves that another one is behind, that one is the oldest under the key that stands by itself if
    /// this one was.
    #[inline(always)]
    pub(crate) fn pass_one(&mut self, number: u64, next: u64)
        ensures { (key : picks.Picks) → is_one_lem self.old.one key ≡ true →
            IsPassed key number next (front_at self.old) (front_at self.new) }
    {
        if let Some(one) = &mut self.one {
            one.first = next_first(one.first, number, next);
        }
    }

    /// The same under the key at a place of the map, where a key goes with its last.
    pub(crate) fn pass_at(&mut self, place: usize, number: u64, next: u64)
        requires { place < index_map_len self.old.map }
        ensures { (key : picks.Picks) → is_one_lem self.old.one key ≡ false →
            index_of same_picks self.old.map key ≡ Some place →
            IsPassed key number next (front_at self.old) (front_at self.new) }
    {
        pass_in(&mut self.map, place, number, next);
    }

    /// The same under a key.
    #[inline(always)]
    pub(crate) fn pass(&mut self, key: Picks, number: u64, next: u64)
        ensures { IsPassed key number next (front_at self.old) (front_at self.new) }
    {
        if self.is_one(&key) {
            self.pass_one(number, next);
            return;
        }
        if let Some(place) = self.place(key) {
            self.pass_at(place, number, next);
        }
    }
}
