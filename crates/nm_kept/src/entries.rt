//! Entries by number, of which memory holds those that are not let go.

ghost use Rattle.std.specs.Prelude.{◌≡◌, ◌+◌, ◌<◌, ◌≤◌, [], ◌∷◌, ◌++◌, length, nat_eq, is_some};
ghost use Rattle.std.specs.Prelude.{if◌then◌else◌, Some, None, IsOk, IsSome, OnOk, OnErr, option_copied};
ghost use Rattle.std.specs.Map.{lookup, set_value};
ghost use Rattle.nm_kept.specs.Entering.{SetsLive};

use indexmap::IndexMap;
use nm_ghost::Trace;
use nm_types::Memory;
use std::alloc::Global;
use std::marker::Model;
use std::mem;

/// Entries by number. Memory holds those that did not end.
pub struct Entries<T> {
    // each number and value that was put or set, in order
    log: Trace<(u64, T)>,
    live: IndexMap<u64, T>,
}

impl<T: Drop> Drop for Entries<T> {
    fn drop(self) {
        let Entries { log: _, live: _ } = self;
    }
}

impl<T> Model for Entries<T> {
    ghost use Rattle.indexmap.specs.IndexMap.{spare as room};
    ghost use Rattle.nm_kept.specs.Entering.{Entering, noted};

    ghost Value = { Entering T };

    ghost view = { λ a. record {
      entries = noted a.log.items;
      live = a.live.entries;
      spare = room a.live;
    } };
}

impl<T: Drop> Entries<T> {
    /// No entries.
    pub fn new(alloc: Global) -> Entries<T>
        ensures entries { result.entries ≡ [] }
        ensures live { result.live ≡ [] }
    {
        Entries {
            log: Trace::new(),
            live: IndexMap::new(alloc),
        }
    }

    /// How many entries are in memory.
    pub fn held(&self) -> usize
        ensures { result ≡ length self.now.live }
    {
        self.live.len()
    }

    /// Makes room for one entry more.
    pub fn reserve(&mut self) -> Result<(), Memory>
        ensures room { OnOk result (0 < self.new.spare) }
        ensures entries { self.new.entries ≡ self.old.entries }
        ensures live { self.new.live ≡ self.old.live }
        ensures kept { self.old.spare ≤ self.new.spare }
    {
        self.live.reserve(1)?;
        Ok(())
    }

    /// Puts an entry behind the others.
    #[inline(always)]
    pub fn put(&mut self, n: u64, item: T) -> Result<(), Memory>
        requires is_new { lookup (nat_eq n) self.old.entries ≡ None }
        requires is_absent { lookup (nat_eq n) self.old.live ≡ None }
        ensures entries { OnOk result (self.new.entries ≡ self.old.entries ++ (n, item) ∷ []) }
        ensures live { OnOk result (self.new.live ≡ self.old.live ++ (n, item) ∷ []) }
        ensures err { OnErr result (self.new.entries ≡ self.old.entries) }
        ensures err_live { OnErr result (self.new.live ≡ self.old.live) }
        ensures succeeds { 0 < self.old.spare → IsOk result }
    {
        let entry = (n, item);
        let log = self.log.then(&entry);
        let (n, item) = entry;
        self.live.insert(n, item)?;
        self.log = log;
        Ok(())
    }

    /// The value of a number, where it is in memory.
    #[inline(always)]
    pub fn get(&self, n: u64) -> Option<&T>
        ensures { option_copied result ≡ lookup (nat_eq n) self.now.live }
    {
        self.live.get(&n)
    }

    /// Gives a number in memory this value. The one that it had comes back.
    #[inline(always)]
    pub fn replace(&mut self, n: u64, item: T) -> T
        requires known { IsSome (lookup (nat_eq n) self.old.entries) }
        requires live { IsSome (lookup (nat_eq n) self.old.live) }
        ensures before { lookup (nat_eq n) self.old.live ≡ Some result }
        ensures entries { self.new.entries ≡ set_value (nat_eq n) self.old.entries item }
        ensures live { self.new.live ≡ set_value (nat_eq n) self.old.live item }
        ensures room { self.new.spare ≡ self.old.spare }
    {
        let entry = (n, item);
        self.log = self.log.then(&entry);
        let (n, item) = entry;
        mem::replace(self.live.get_mut(&n).unwrap(), item)
    }

    /// Gives a number its last value, and lets it go.
    #[inline(always)]
    pub fn end(&mut self, n: u64, item: T)
        requires { IsSome (lookup (nat_eq n) self.old.entries) }
        ensures entries { self.new.entries ≡ set_value (nat_eq n) self.old.entries item }
        ensures live { SetsLive n None self.old.live self.new.live }
        ensures many { length self.new.live + (if is_some (lookup (nat_eq n) self.old.live) then 1 else 0)
            ≡ length self.old.live }
        ensures room { self.old.spare ≤ self.new.spare }
    {
        let entry = (n, item);
        self.log = self.log.then(&entry);
        let _before = self.live.swap_remove(&n);
    }
}
