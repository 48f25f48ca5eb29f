//! Classes of states that go on alike.

ghost use Rattle.std.specs.Prelude.{◌≡◌, ◌⊎◌, ℕ, ◌<◌, ◌≤◌, ◌++◌, ◌∷◌, [], IfOk, IfSome, List, None, Some, count_by};
ghost use Rattle.std.specs.Prelude.{if◌then◌else◌, length, slice_get, unwrap_or};
ghost use Rattle.nm_outcomes.specs.Looks.{is_receive_by};
ghost use Rattle.nm_explored.specs.Ends.{AreShort};
ghost use Rattle.nm_explored.specs.Stores.{AreLow};
ghost use Rattle.nm_explored.specs.Successors.{spot_in};
ghost use Rattle.nm_search.specs.Lists.{Has};
ghost use Rattle.nm_hangs.specs.Alike.{IsAlikeOr, IsAsked};
ghost use Rattle.nm_hangs.specs.Hunts.{AreAlikeIn, AreNear};

use crate::alike::{asked_numbers, go_alike};
use indexmap::IndexMap;
use nm_explored::stores::{States, Table};
use nm_history::plain::Pair;
use nm_outcomes::spots::ranks::Rank;
use nm_search::mixed;
use nm_types::{Arrival, Line, Memory};
use std::alloc::Global;
use std::marker::Model;

/// Classes of the states of ranks.
pub struct Classes {
    /// The first state of each class, by a number that tells classes apart, mostly.
    firsts: IndexMap<u64, u32>,
    /// The classes of the ranks' states, of each state of all ranks that was met.
    met: States,
}

impl Drop for Classes {
    fn drop(self) {
        let Classes { firsts: _, met: _ } = self;
    }
}

impl Model for Classes {
    ghost use Rattle.std.specs.Prelude.{List, ℕ};

    ghost Value = { List (List ℕ) };

    ghost view = { λ a. a.met };
}

/// A number of messages, in order, and of one before.
fn number_of_arrivals(before: u64, messages: &[Arrival]) -> u64 {
    let mut sum = before;
    for a in messages {
        sum = mixed(sum, mixed(u64::from(a.env.from), a.n));
    }
    sum
}

/// A number of the messages of these receives, and of one before.
fn number_of_pairs(before: u64, pairs: &[Pair], numbers: &[u64]) -> u64 {
    let mut sum = before;
    for p in pairs {
        if numbers.contains(&p.number) {
            sum = mixed(
                sum,
                mixed(p.number, mixed(u64::from(p.arrival.env.from), p.arrival.n)),
            );
        }
    }
    sum
}

/// A number of a state of a rank, which those that go on alike have too.
fn number_of(i: u8, rank: &Rank, numbers: &[u64]) -> u64 {
    let start = mixed(u64::from(i), rank.deeds().len() as u64);
    let came = number_of_arrivals(start, rank.came());
    let free = number_of_arrivals(mixed(came, 1), rank.free());
    number_of_pairs(mixed(free, 2), rank.pairs(), numbers)
}

/// A class, if a state is of it.
fn class_if(so: bool, class: u32) -> Option<u32>
    ensures { result ≡ (if so then Some class else None) }
{
    if so { Some(class) } else { None }
}

/// The state with a number, if a state of a rank goes on like that one.
fn joined(
    alloc: Global,
    lines: &[Line],
    table: &Table,
    i: u8,
    rank: &Rank,
    numbers: &[u64],
    class: u32,
) -> Result<Option<u32>, Memory>
    requires { (number : ℕ) → IsAsked lines.now i rank.now.deeds number →
        Has numbers.now number ⊎ (count_by is_receive_by rank.now.deeds ≤ number) }
    ensures { IfOk result (λ found. IfSome found
        (λ class. IsAlikeOr lines.now i (Some rank.now) (slice_get table.now class))) }
{
    match table.rank(alloc, class)? {
        Some(first) => {
            let so = go_alike(alloc, lines, i, rank, &first, numbers)?;
            Ok(class_if(so, class))
        }
        None => Ok(None),
    }
}

/// The first state of the class of a rank's state, if one is known.
fn known(
    alloc: Global,
    lines: &[Line],
    table: &Table,
    i: u8,
    rank: &Rank,
    numbers: &[u64],
    class: Option<u32>,
) -> Result<Option<u32>, Memory>
    requires { (number : ℕ) → IsAsked lines.now i rank.now.deeds number →
        Has numbers.now number ⊎ (count_by is_receive_by rank.now.deeds ≤ number) }
    ensures { IfOk result (λ found. IfSome found
        (λ class. IsAlikeOr lines.now i (Some rank.now) (slice_get table.now class))) }
{
    match class {
        Some(class) => joined(alloc, lines, table, i, rank, numbers, class),
        None => Ok(None),
    }
}

/// The class that the rank at a place has in a state nearby, if it is in the same state there.
fn class_near(near: &[u32], classes: &[u32], place: usize, id: u32) -> Option<u32>
    ensures same { IfSome result (λ class. slice_get near.now place ≡ Some id) }
    ensures class { IfSome result (λ class. slice_get classes.now place ≡ Some class) }
{
    match near.get(place) {
        Some(other) => if *other == id {
            classes.get(place).copied()
        } else {
            None
        },
        None => None,
    }
}

/// The first state of this number, if one is noted.
fn noted(firsts: &IndexMap<u64, u32>, number: u64) -> Option<u32> {
    firsts.get(&number).copied()
}

/// The first state of the class of a rank's state, which may be a new one.
#[tactic(auto, using(crate::proofs::ClassLemmas::or_self))]
fn class_of(
    firsts: &mut IndexMap<u64, u32>,
    alloc: Global,
    lines: &[Line],
    table: &Table,
    i: u8,
    id: u32,
    rank: &Rank,
) -> Result<u32, Memory>
    requires short { AreShort lines.now }
    requires here { slice_get table.now id ≡ Some rank.now }
    ensures { IfOk result (λ class. IsAlikeOr lines.now i (slice_get table.now id) (slice_get table.now class)) }
{
    let numbers = asked_numbers(alloc, lines, i, rank)?;
    let number = number_of(i, rank, numbers.as_slice());
    let before = noted(firsts, number);
    let found = known(alloc, lines, table, i, rank, numbers.as_slice(), before)?;
    match found {
        Some(class) => Ok(class),
        None => {
            firsts.insert(number, id)?;
            Ok(id)
        }
    }
}

/// The first state of the class of the state with a number, of the rank at a place.
#[tactic(auto, using(crate::proofs::ClassLemmas::or_self))]
fn class_at(
    firsts: &mut IndexMap<u64, u32>,
    alloc: Global,
    lines: &[Line],
    table: &Table,
    place: usize,
    id: u32,
) -> Result<u32, Memory>
    requires { AreShort lines.now }
    ensures { IfOk result (λ class. IsAlikeOr lines.now place (slice_get table.now id) (slice_get table.now class)) }
{
    if place >= 256 {
        return Ok(id);
    }
    match table.rank(alloc, id)? {
        Some(rank) => class_of(firsts, alloc, lines, table, place as u8, id, &rank),
        None => Ok(id),
    }
}

/// .. where the states of a state nearby have their classes.
fn class_by(
    firsts: &mut IndexMap<u64, u32>,
    alloc: Global,
    lines: &[Line],
    table: &Table,
    near: &[u32],
    classes: &[u32],
    place: usize,
    id: u32,
) -> Result<u32, Memory>
    requires short { AreShort lines.now }
    requires near { AreNear lines.now table.now near.now classes.now }
    ensures { IfOk result (λ class. IsAlikeOr lines.now place (slice_get table.now id) (slice_get table.now class)) }
{
    match class_near(near, classes, place, id) {
        Some(class) => Ok(class),
        None => class_at(firsts, alloc, lines, table, place, id),
    }
}

/// The state of the rank at a place.
fn id_at(ids: &[u32], place: usize) -> Option<u32>
    ensures { result ≡ slice_get ids.now place }
{
    ids.get(place).copied()
}

/// The class of the state of the rank at a place.
fn class_in(
    firsts: &mut IndexMap<u64, u32>,
    alloc: Global,
    lines: &[Line],
    table: &Table,
    near: &[u32],
    classes: &[u32],
    ids: &[u32],
    place: usize,
) -> Result<u32, Memory>
    requires short { AreShort lines.now }
    requires near { AreNear lines.now table.now near.now classes.now }
    requires inside { place < length ids.now }
    ensures { IfOk result
        (λ class. IsAlikeOr lines.now place (spot_in table.now ids.now place) (slice_get table.now class)) }
{
    match id_at(ids, place) {
        Some(id) => class_by(firsts, alloc, lines, table, near, classes, place, id),
        None => Ok(0),
    }
}

/// The classes of the states of all ranks, where those of a state nearby have theirs.
fn classes_of(
    firsts: &mut IndexMap<u64, u32>,
    alloc: Global,
    lines: &[Line],
    table: &Table,
    near: &[u32],
    classes: &[u32],
    ids: &[u32],
) -> Result<Vec<u32>, Memory>
    requires short { AreShort lines.now }
    requires low { AreLow table.now ids.now }
    requires near { AreNear lines.now table.now near.now classes.now }
    ensures { IfOk result (λ all. AreAlikeIn lines.now table.now ids.now all.items) }
{
    let mut all = Vec::with_capacity(alloc, ids.len())?;
    for place in 0..ids.len() {
        let class = class_in(firsts, alloc, lines, table, near, classes, ids, place)?;
        all.push(class)?;
    }
    Ok(all)
}

/// The classes that have this number among those that were met, or none.
fn classes_in(met: &States, number: usize) -> &[u32]
    ensures { result.now ≡ unwrap_or (slice_get met.now number) [] }
{
    match met.as_slice().get(number) {
        Some(state) => state.as_slice(),
        None => &[],
    }
}

/// A copy of some numbers.
fn copied(alloc: Global, ids: &[u32]) -> Result<Vec<u32>, Memory>
    ensures { IfOk result (λ copy. copy.items ≡ ids.now) }
{
    Ok(ids.to_vec(alloc)?)
}

/// A copy of these classes.
fn classes_at(alloc: Global, met: &States, number: usize) -> Result<Vec<u32>, Memory>
    ensures { IfOk result (λ classes. classes.items ≡ unwrap_or (slice_get met.now number) []) }
{
    copied(alloc, classes_in(met, number))
}

impl Classes {
    /// No class.
    pub fn new(alloc: Global) -> Classes
        ensures { result ≡ [] }
    {
        Classes {
            firsts: IndexMap::new(alloc),
            met: States::new(alloc),
        }
    }

    /// How many were met.
    pub fn len(&self) -> usize
        ensures { result ≡ length self.now }
    {
        self.met.as_slice().len()
    }

    /// Notes the classes of the states of all ranks, where a state nearby has those of this number. Answers whether
    /// they are new.
    pub fn note(
        &mut self,
        alloc: Global,
        lines: &[Line],
        table: &Table,
        near: &[u32],
        number: usize,
        ids: &[u32],
    ) -> Result<bool, Memory>
        requires short { AreShort lines.now }
        requires low { AreLow table.now ids.now }
        requires near { (classes : List ℕ) → slice_get self.old number ≡ Some classes →
            AreNear lines.now table.now near.now classes }
        ensures { IfOk result (λ new. (classes : List ℕ) × AreAlikeIn lines.now table.now ids.now classes
            × Has self.new classes × (self.new ≡ (if new then self.old ++ classes ∷ [] else self.old))) }
    {
        let nearby = classes_at(alloc, &self.met, number)?;
        let classes = classes_of(
            &mut self.firsts,
            alloc,
            lines,
            table,
            near,
            nearby.as_slice(),
            ids,
        )?;
        let new = self.met.add(classes)?;
        Ok(new)
    }
}
