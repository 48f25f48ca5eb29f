//! The messages that wait, in buckets by what names them.

ghost use Rattle.std.specs.Prelude.{◌≡◌, ℕ, ◌++◌, [], ◌∷◌, Bool, None, Some};
ghost use Rattle.std.specs.Prelude.{IfOk, IfSome, IsTrue, List, OnErr, OnOk, false, find};
ghost use Rattle.indexmap.specs.IndexMap.{index_map_len};
ghost use Rattle.nm_types.specs.declared.messages.Arrival as arrival;
ghost use Rattle.nm_match.specs.declared.picks.Picks as picks;
ghost use Rattle.nm_match.specs.Buckets.{AreBuckets, IsPutLast, IsTaken, bucket_at, bucket_of, fitting_at};
ghost use Rattle.nm_match.specs.Buckets.{with_entries};
ghost use Rattle.nm_match.specs.Picks.{fits_picks, picks_of_arrival, same_picks};
ghost use Rattle.nm_match.specs.Queues.{without_first};
ghost use Rattle.nm_match.specs.Wildcards.{AreByWildcard, IndexQueue};

use crate::buckets::{Bucket, Buckets, earlier, first};
use crate::picks::{Picks, is_named, of_arrival};
use crate::wildcards::Wildcards;
use nm_types::{Arrival, Memory, Peer, TagPick};
use std::alloc::Global;
use std::collections::BTreeMap;

/// As many buckets as a receive with a wildcard looks through.
const FEW: usize = 64;

/// The messages that wait.
#[derive(Drop)]
pub struct Waiting {
    /// By source, tag and context.
    pub named: Buckets<Arrival>,
    /// By each wildcard, too, from where a receive with one would have had many buckets to look
    /// through until none waits.
    pub wildcards: Option<Wildcards>,
}

/// Whether a receive or a probe that names this selects the messages of a bucket.
fn fits(wanted: &Picks, key: &Picks) -> bool
    ensures { result ≡ fits_picks wanted.now key.now }
{
    wanted.ctx == key.ctx
        && (wanted.from == Peer::Any || wanted.from == key.from)
        && (wanted.tag == TagPick::Any || wanted.tag == key.tag)
}

/// The oldest message of the bucket at this place of the map, if it is selected.
fn fitting(named: &Buckets<Arrival>, wanted: Picks, index: usize) -> Option<(u128, Arrival)>
    ensures { result ≡ fitting_at (fits_picks wanted) named.now.map index }
{
    let (key, bucket) = named.map.get_index(index)?;
    if fits(&wanted, key) {
        first(bucket)
    } else {
        None
    }
}

/// The oldest of the first messages of all buckets that a receive or a probe selects.
#[inline(always)]
fn best(named: &Buckets<Arrival>, wanted: Picks) -> Option<(u128, Arrival)>
    ensures { (queue : List (ℕ × arrival.Arrival)) (next : ℕ) →
        AreBuckets picks_of_arrival queue next (bucket_of named.now.map) →
        result ≡ find (λ x. fits_picks wanted (picks_of_arrival x.1)) queue }
{
    let mut best = None;
    for index in 0..named.map.len() {
        best = earlier(best, fitting(named, wanted, index));
    }
    best
}

/// Puts what the bucket at a place of the map has among others, in order of age.
fn pour(
    named: &Buckets<Arrival>,
    index: usize,
    by_age: &mut BTreeMap<u128, Arrival>,
) -> Result<(), Memory>
    ensures { OnOk result (by_age.new.entries
        ≡ with_entries by_age.old.entries (bucket_at named.now.map index)) }
{
    let Some((_, bucket)) = named.map.get_index(index) else {
        return Ok(());
    };
    let (order, a) = bucket.oldest;
    by_age.insert(order, a)?;
    for (order, a) in &bucket.rest {
        by_age.insert(*order, *a)?;
    }
    Ok(())
}

/// All that waits, in order of age.
fn by_age(named: &Buckets<Arrival>) -> Result<BTreeMap<u128, Arrival>, Memory>
    ensures { IfOk result (λ m. (queue : List (ℕ × arrival.Arrival)) (next : ℕ) →
        AreBuckets picks_of_arrival queue next (bucket_of named.now.map) → m.entries ≡ queue) }
{
    let mut by_age = BTreeMap::new(*named.map.allocator());
    for index in 0..named.map.len() {
        pour(named, index, &mut by_age)?;
    }
    Ok(by_age)
}

/// All that waits, by each wildcard.
fn by_wildcard(named: &Buckets<Arrival>) -> Result<Wildcards, Memory>
    ensures { IfOk result (λ w. (queue : List (ℕ × arrival.Arrival)) (next : ℕ) →
        AreBuckets picks_of_arrival queue next (bucket_of named.now.map) → AreByWildcard queue w) }
{
    let mut wildcards = Wildcards::new(*named.map.allocator());
    for (order, a) in &by_age(named)? {
        wildcards.put(*order, *a)?;
    }
    Ok(wildcards)
}

impl Waiting {
    /// No message waits.
    pub(crate) fn new(alloc: Global) -> Self
        ensures named { (k : picks.Picks) → bucket_of result.named.map k ≡ [] }
        ensures wildcards { result.wildcards ≡ None }
    {
        Waiting {
            named: Buckets::new(alloc),
            wildcards: None,
        }
    }

    /// Whether none waits.
    pub(crate) fn is_empty(&self) -> bool
        ensures { IsTrue result → (k : picks.Picks) → bucket_of self.now.named.map k ≡ [] }
    {
        self.named.is_empty()
    }

    /// The oldest message that a receive or a probe selects, with its order number.
    #[inline(always)]
    pub(crate) fn oldest(&self, wanted: Picks) -> Option<(u128, Arrival)>
        ensures { (queue : List (ℕ × arrival.Arrival)) (next : ℕ) →
            AreBuckets picks_of_arrival queue next (bucket_of self.now.named.map) →
            IndexQueue queue self.now.wildcards →
            result ≡ find (λ x. fits_picks wanted (picks_of_arrival x.1)) queue }
    {
        if is_named(&wanted) {
            return self.named.front(wanted);
        }
        match &self.wildcards {
            Some(wildcards) => wildcards.front(wanted),
            None => best(&self.named, wanted),
        }
    }

    /// Puts a message last under each wildcard, where they are kept. Where memory is refused they are
    /// kept no more.
    #[inline(always)]
    fn put_by_wildcard(&mut self, order: u128, a: Arrival)
        ensures named { self.new.named ≡ self.old.named }
        ensures wildcards { (queue : List (ℕ × arrival.Arrival))
            (bucket : picks.Picks → List (ℕ × arrival.Arrival)) →
            AreBuckets picks_of_arrival queue order bucket → IndexQueue queue self.old.wildcards →
            IndexQueue (queue ++ (order, a) ∷ []) self.new.wildcards }
    {
        if let Some(wildcards) = &mut self.wildcards {
            if let Err(_) = wildcards.put(order, a) {
                self.wildcards = None;
            }
        }
    }

    /// Puts a message last.
    #[inline(always)]
    pub(crate) fn put(&mut self, order: u128, a: Arrival) -> Result<(), Memory>
        ensures own { OnOk result (IsPutLast order a
            (bucket_of self.old.named.map (picks_of_arrival a))
            (bucket_of self.new.named.map (picks_of_arrival a))) }
        ensures others { (k : picks.Picks) → same_picks (picks_of_arrival a) k ≡ false →
            bucket_of self.new.named.map k ≡ bucket_of self.old.named.map k }
        ensures wildcards { OnOk result ((queue : List (ℕ × arrival.Arrival))
            (bucket : picks.Picks → List (ℕ × arrival.Arrival)) →
            AreBuckets picks_of_arrival queue order bucket → IndexQueue queue self.old.wildcards →
            IndexQueue (queue ++ (order, a) ∷ []) self.new.wildcards) }
        ensures err { OnErr result ((bucket_of self.new.named.map (picks_of_arrival a)
            ≡ bucket_of self.old.named.map (picks_of_arrival a))
            × (self.new.wildcards ≡ self.old.wildcards)) }
    {
        self.named.put(of_arrival(&a), order, a)?;
        self.put_by_wildcard(order, a);
        Ok(())
    }

    /// Takes the message of this order number, which these picks name, from under each wildcard, where
    /// they are kept.
    #[inline(always)]
    fn take_by_wildcard(&mut self, key: Picks, order: u128)
        ensures named { self.new.named ≡ self.old.named }
        ensures wildcards { (queue : List (ℕ × arrival.Arrival)) (next : ℕ)
            (bucket : picks.Picks → List (ℕ × arrival.Arrival))
            (test : ℕ × arrival.Arrival → Bool) (x : ℕ × arrival.Arrival) →
            AreBuckets picks_of_arrival queue next bucket → find test queue ≡ Some x →
            x.0 ≡ order → picks_of_arrival x.1 ≡ key → IndexQueue queue self.old.wildcards →
            IndexQueue (without_first test queue) self.new.wildcards }
        ensures ends { index_map_len self.old.named.map ≡ 0 → self.new.wildcards ≡ None }
    {
        if let Some(wildcards) = &mut self.wildcards {
            wildcards.take(key, order);
            if self.named.is_empty() {
                self.wildcards = None;
            }
        }
    }

    /// Takes the message of this order number, which these picks name.
    pub(crate) fn take(&mut self, key: Picks, order: u128)
        ensures named { IsTaken key order (bucket_of self.old.named.map) (bucket_of self.new.named.map) }
        ensures wildcards { (queue : List (ℕ × arrival.Arrival)) (next : ℕ)
            (bucket : picks.Picks → List (ℕ × arrival.Arrival))
            (test : ℕ × arrival.Arrival → Bool) (x : ℕ × arrival.Arrival) →
            AreBuckets picks_of_arrival queue next bucket → find test queue ≡ Some x →
            x.0 ≡ order → picks_of_arrival x.1 ≡ key → IndexQueue queue self.old.wildcards →
            IndexQueue (without_first test queue) self.new.wildcards }
        ensures ends { index_map_len self.new.named.map ≡ 0 → self.new.wildcards ≡ None }
    {
        self.named.take(key, order);
        self.take_by_wildcard(key, order);
    }

    /// Keeps what waits under each wildcard, too, from here on, where it is in many buckets and memory
    /// is not refused.
    pub(crate) fn index(&mut self)
        ensures named { self.new.named ≡ self.old.named }
        ensures wildcards { (queue : List (ℕ × arrival.Arrival)) (next : ℕ) →
            AreBuckets picks_of_arrival queue next (bucket_of self.old.named.map) →
            IndexQueue queue self.old.wildcards → IndexQueue queue self.new.wildcards }
    {
        if self.wildcards.is_none() && self.named.map.len() > FEW {
            if let Ok(wildcards) = by_wildcard(&self.named) {
                self.wildcards = Some(wildcards);
            }
        }
    }

    /// Takes the oldest message that a receive or a probe selects, by each wildcard or out of all
    /// buckets.
    fn take_selected(&mut self, wanted: Picks) -> Option<(u128, Arrival)>
        ensures oldest { (queue : List (ℕ × arrival.Arrival)) (next : ℕ) →
            AreBuckets picks_of_arrival queue next (bucket_of self.old.named.map) →
            IndexQueue queue self.old.wildcards →
            result ≡ find (λ x. fits_picks wanted (picks_of_arrival x.1)) queue }
        ensures taken { (queue : List (ℕ × arrival.Arrival)) (next : ℕ) →
            AreBuckets picks_of_arrival queue next (bucket_of self.old.named.map) →
            IndexQueue queue self.old.wildcards → IfSome result (λ x.
            IsTaken (picks_of_arrival x.1) x.0 (bucket_of self.old.named.map)
            (bucket_of self.new.named.map)
            × ((test : ℕ × arrival.Arrival → Bool) → find test queue ≡ Some x →
            IndexQueue (without_first test queue) self.new.wildcards)) }
        ensures none { result ≡ None → (self.new.named ≡ self.old.named)
            × ((queue : List (ℕ × arrival.Arrival)) (next : ℕ) →
            AreBuckets picks_of_arrival queue next (bucket_of self.old.named.map) →
            IndexQueue queue self.old.wildcards → IndexQueue queue self.new.wildcards) }
    {
        self.index();
        let (order, a) = self.oldest(wanted)?;
        self.take(of_arrival(&a), order);
        Some((order, a))
    }

    /// Takes the oldest message that a receive or a probe selects.
    #[inline(always)]
    pub(crate) fn take_oldest(&mut self, wanted: Picks) -> Option<(u128, Arrival)>
        ensures oldest { (queue : List (ℕ × arrival.Arrival)) (next : ℕ) →
            AreBuckets picks_of_arrival queue next (bucket_of self.old.named.map) →
            IndexQueue queue self.old.wildcards →
            result ≡ find (λ x. fits_picks wanted (picks_of_arrival x.1)) queue }
        ensures taken { (queue : List (ℕ × arrival.Arrival)) (next : ℕ) →
            AreBuckets picks_of_arrival queue next (bucket_of self.old.named.map) →
            IndexQueue queue self.old.wildcards → IfSome result (λ x.
            IsTaken (picks_of_arrival x.1) x.0 (bucket_of self.old.named.map)
            (bucket_of self.new.named.map)
            × ((test : ℕ × arrival.Arrival → Bool) → find test queue ≡ Some x →
            IndexQueue (without_first test queue) self.new.wildcards)) }
        ensures none { result ≡ None → (self.new.named ≡ self.old.named)
            × ((queue : List (ℕ × arrival.Arrival)) (next : ℕ) →
            AreBuckets picks_of_arrival queue next (bucket_of self.old.named.map) →
            IndexQueue queue self.old.wildcards → IndexQueue queue self.new.wildcards) }
    {
        if is_named(&wanted) && self.wildcards.is_none() {
            return self.named.take_front(wanted);
        }
        self.take_selected(wanted)
    }
}
