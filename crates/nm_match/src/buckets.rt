//! Buckets of what waits: one for each key, each in order of age.

ghost use Rattle.std.specs.Prelude.{◌≡◌, ◌∷◌, [], false, IsTrue, OnOk, OnErr};
ghost use Rattle.std.specs.Prelude.{◌<◌, IfSome, None, Some, slice_get};
ghost use Rattle.std.specs.Ordering.{nat_cmp};
ghost use Rattle.std.specs.BTreeMap.{is_at};
ghost use Rattle.std.specs.Map.{remove_entry};
ghost use Rattle.indexmap.specs.IndexMap.{index_map_len, index_of};
ghost use Rattle.nm_match.specs.declared.picks.Picks as picks;
ghost use Rattle.nm_match.specs.Buckets.{IsPutLast, IsTaken, bucket_of, earlier_of, entries_of};
ghost use Rattle.nm_match.specs.Picks.{same_picks};

use crate::picks::Picks;
use indexmap::IndexMap;
use indexmap::map::Entry;
use nm_types::Memory;
use std::alloc::Global;
use std::collections::BTreeMap;

/// What waits under one key: the oldest entry by itself, since most keys have one, and the others in
/// order of age. So no bucket is empty.
#[derive(Drop)]
pub struct Bucket<T> {
    pub oldest: (u128, T),
    pub rest: BTreeMap<u128, T>,
}

/// What waits, in a bucket for each key. Each entry has an order number, which grows with age.
#[derive(Drop)]
pub struct Buckets<T> {
    pub map: IndexMap<Picks, Bucket<T>>,
}

/// The entry with the smaller order number.
pub(crate) fn earlier<T: Copy>(a: Option<(u128, T)>, b: Option<(u128, T)>) -> Option<(u128, T)>
    ensures { result ≡ earlier_of a b }
{
    match (a, b) {
        (Some(x), Some(y)) => Some(if x.0 <= y.0 { x } else { y }),
        (Some(x), None) => Some(x),
        (None, b) => b,
    }
}

/// The oldest entry of a bucket.
pub(crate) fn first<T: Copy>(bucket: &Bucket<T>) -> Option<(u128, T)>
    ensures { result ≡ slice_get (entries_of bucket.now) 0 }
{
    Some(bucket.oldest)
}

impl<T: Copy> Bucket<T> {
    /// The bucket of one entry.
    fn of(alloc: Global, order: u128, item: T) -> Self
        ensures { entries_of result ≡ (order, item) ∷ [] }
    {
        Bucket {
            oldest: (order, item),
            rest: BTreeMap::new(alloc),
        }
    }

    /// Puts an item last, whose order number is above the others.
    fn put(&mut self, order: u128, item: T) -> Result<(), Memory>
        ensures ok { OnOk result (IsPutLast order item (entries_of self.old) (entries_of self.new)) }
        ensures err { OnErr result (entries_of self.new ≡ entries_of self.old) }
    {
        self.rest.insert(order, item)?;
        Ok(())
    }

    /// Takes the oldest entry, and answers whether it was the only one.
    fn take_oldest(&mut self) -> bool
        ensures left { result ≡ false → entries_of self.new ≡ self.old.rest.entries }
        ensures only { IsTrue result → self.old.rest.entries ≡ [] }
    {
        match self.rest.pop_first() {
            Some(next) => {
                self.oldest = next;
                false
            }
            None => true,
        }
    }

    /// Takes the entry of this order number, and answers whether it was the only one.
    #[inline(always)]
    fn take(&mut self, order: u128) -> bool
        ensures left { result ≡ false → entries_of self.new
            ≡ remove_entry (is_at (nat_cmp order)) (entries_of self.old) }
        ensures only { IsTrue result → remove_entry (is_at (nat_cmp order)) (entries_of self.old)
            ≡ [] }
    {
        if order == self.oldest.0 {
            return self.take_oldest();
        }
        let _ = self.rest.remove(&order);
        false
    }
}

/// Puts an item last into the bucket of its key, which may be a new one.
fn add<T: Copy>(
    map: &mut IndexMap<Picks, Bucket<T>>,
    key: Picks,
    order: u128,
    item: T,
) -> Result<(), Memory>
    ensures own { OnOk result (IsPutLast order item (bucket_of map.old key) (bucket_of map.new key)) }
    ensures others { (k : picks.Picks) → same_picks key k ≡ false →
        bucket_of map.new k ≡ bucket_of map.old k }
    ensures err { OnErr result (bucket_of map.new key ≡ bucket_of map.old key) }
{
    let alloc = *map.allocator();
    match map.entry(key)? {
        Entry::Occupied(entry) => entry.into_mut().put(order, item),
        Entry::Vacant(entry) => {
            let _ = entry.insert(Bucket::of(alloc, order, item));
            Ok(())
        }
    }
}

/// Takes the entry of this order number out of the bucket at a place of the map, and an emptied
/// bucket with it.
#[inline(always)]
fn take_at<T: Copy>(map: &mut IndexMap<Picks, Bucket<T>>, place: usize, order: u128)
    requires { place < index_map_len map.old }
    ensures { (key : picks.Picks) → index_of same_picks map.old key ≡ Some place →
        IsTaken key order (bucket_of map.old) (bucket_of map.new) }
{
    let (_, bucket) = map.pair_mut(place);
    if bucket.take(order) {
        let _ = map.swap_remove_index(place);
    }
}

impl<T: Copy> Buckets<T> {
    /// Buckets where nothing waits.
    pub(crate) fn new(alloc: Global) -> Self
        ensures { (k : picks.Picks) → bucket_of result.map k ≡ [] }
    {
        Buckets {
            map: IndexMap::new(alloc),
        }
    }

    /// The oldest entry under a key.
    pub(crate) fn front(&self, key: Picks) -> Option<(u128, T)>
        ensures { result ≡ slice_get (bucket_of self.now.map key) 0 }
    {
        if self.map.is_empty() {
            return None;
        }
        first(self.map.get(&key)?)
    }

    /// Whether nothing waits.
    pub(crate) fn is_empty(&self) -> bool
        ensures none { IsTrue result → (k : picks.Picks) → bucket_of self.now.map k ≡ [] }
        ensures all { index_map_len self.now.map ≡ 0 → IsTrue result }
    {
        self.map.is_empty()
    }

    /// Puts an item last into the bucket of its key.
    pub(crate) fn put(&mut self, key: Picks, order: u128, item: T) -> Result<(), Memory>
        ensures own { OnOk result
            (IsPutLast order item (bucket_of self.old.map key) (bucket_of self.new.map key)) }
        ensures others { (k : picks.Picks) → same_picks key k ≡ false →
            bucket_of self.new.map k ≡ bucket_of self.old.map k }
        ensures err { OnErr result (bucket_of self.new.map key ≡ bucket_of self.old.map key) }
    {
        add(&mut self.map, key, order, item)
    }

    /// Takes the entry of this order number out of a bucket, and an emptied bucket with it.
    pub(crate) fn take(&mut self, key: Picks, order: u128)
        ensures { IsTaken key order (bucket_of self.old.map) (bucket_of self.new.map) }
    {
        if let Some(place) = self.map.get_index_of(&key) {
            take_at(&mut self.map, place, order);
        }
    }

    /// Takes the oldest entry under a key, and an emptied bucket with it.
    #[inline(always)]
    pub(crate) fn take_front(&mut self, key: Picks) -> Option<(u128, T)>
        ensures oldest { result ≡ slice_get (bucket_of self.old.map key) 0 }
        ensures taken { IfSome result (λ x.
            IsTaken key x.0 (bucket_of self.old.map) (bucket_of self.new.map)) }
        ensures none { result ≡ None → self.new ≡ self.old }
    {
        if self.map.is_empty() {
            return None;
        }
        let place = self.map.get_index_of(&key)?;
        let oldest = self.map[place].oldest;
        take_at(&mut self.map, place, oldest.0);
        Some(oldest)
    }
}
