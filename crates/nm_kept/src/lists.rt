//! A list whose front is let go.

ghost use Rattle.std.specs.Prelude.{◌≡◌, ◌+◌, ◌-◌, ◌^◌, ◌<◌, ◌≤◌, [], ◌∷◌, ◌++◌, length};
ghost use Rattle.std.specs.Prelude.{◌↔◌, slice_get, slice_set, option_copied, Some, IsOk, IsSome};
ghost use Rattle.std.specs.Prelude.{IfOk, IfSome, OnOk, OnErr};
ghost use Rattle.nm_kept.specs.Keeping.{IsHeld};

use nm_ghost::Trace;
use nm_types::Memory;
use std::alloc::Global;
use std::collections::VecDeque;
use std::marker::Model;
use std::mem;

/// A list, of which memory holds the items that were not let go.
pub struct Kept<T> {
    /// How many were let go. It stops at 2^64 - 1, which no list reaches.
    forgotten: u64,
    past: Trace<T>,
    window: VecDeque<T>,
}

impl<T: Drop> Drop for Kept<T> {
    fn drop(self) {
        let Kept {
            forgotten: _,
            past: _,
            window: _,
        } = self;
    }
}

impl<T> Model for Kept<T> {
    ghost use Rattle.std.specs.Prelude.{◌≡◌, ◌+◌, ◌-◌, ◌^◌, ◌++◌, length, min};
    ghost use Rattle.std.specs.VecDeque.{deque_capacity};
    ghost use Rattle.nm_kept.specs.Keeping.{Keeping};

    ghost Value = { Keeping T };

    ghost view = { λ a. record {
      items = a.past.items ++ a.window.items;
      forgotten = length a.past.items;
      places = length a.past.items + deque_capacity a.window;
    } };

    ghost invariant = { λ a. a.forgotten ≡ min (length a.past.items) (2 ^ 64 - 1) };
}

impl<T: Drop> Kept<T> {
    /// No items.
    pub fn new(alloc: Global) -> Kept<T>
        ensures items { result.items ≡ [] }
        ensures forgotten { result.forgotten ≡ 0 }
    {
        Kept {
            forgotten: 0,
            past: Trace::new(),
            window: VecDeque::new(alloc),
        }
    }

    /// No items, and places for so many.
    pub fn with_capacity(alloc: Global, places: usize) -> Result<Kept<T>, Memory>
        ensures items { IfOk result (λ kept. kept.items ≡ []) }
        ensures forgotten { IfOk result (λ kept. kept.forgotten ≡ 0) }
        ensures places { IfOk result (λ kept. kept.places ≡ places) }
    {
        let window = VecDeque::with_capacity(alloc, places)?;
        Ok(Kept {
            forgotten: 0,
            past: Trace::new(),
            window,
        })
    }

    /// How many items there are, with those that were let go.
    pub fn len(&self) -> u64
        requires { length self.now.items < 2 ^ 64 }
        ensures { result ≡ length self.now.items }
    {
        self.forgotten + self.window.len() as u64
    }

    /// How many items were let go.
    pub fn forgotten(&self) -> u64
        requires { length self.now.items < 2 ^ 64 }
        ensures { result ≡ self.now.forgotten }
    {
        self.forgotten
    }

    /// How many items are in memory.
    pub fn held(&self) -> usize
        ensures { self.now.forgotten + result ≡ length self.now.items }
    {
        self.window.len()
    }

    /// For how many items memory has a place.
    pub fn capacity(&self) -> usize
        ensures { self.now.forgotten + result ≡ self.now.places }
    {
        self.window.capacity()
    }

    /// A law: memory has places for fewer items than 2^63.
    #[inline(always)]
    pub fn places_are_few(&self)
        ensures forgotten { self.now.forgotten ≤ length self.now.items }
        ensures few { self.now.places < self.now.forgotten + 2 ^ 63 }
    {
        let _window = &self.window;
    }

    /// Makes places for so many items more.
    pub fn reserve(&mut self, additional: usize) -> Result<(), Memory>
        ensures same { self.new ≡ record self.old { places = self.new.places } }
        ensures kept { self.old.places ≤ self.new.places }
        ensures ok { OnOk result (length self.new.items + additional ≤ self.new.places) }
        ensures succeeds { length self.old.items + additional ≤ self.old.places → IsOk result }
    {
        self.window.reserve(additional)?;
        Ok(())
    }

    /// Puts an item behind the others.
    pub fn push(&mut self, item: T) -> Result<(), Memory>
        ensures ok { OnOk result (self.new ≡ record self.old {
          items = self.old.items ++ item ∷ [];
          places = self.new.places;
        }) }
        ensures err { OnErr result (self.new ≡ record self.old { places = self.new.places }) }
        ensures kept { self.old.places ≤ self.new.places }
        ensures succeeds { length self.old.items < self.old.places → IsOk result }
    {
        self.reserve(1)?;
        self.push_reserved(item);
        Ok(())
    }

    /// Puts an item behind the others, where there is a place.
    pub fn push_reserved(&mut self, item: T)
        requires room { length self.old.items < self.old.places }
        ensures { self.new ≡ record self.old { items = self.old.items ++ item ∷ [] } }
    {
        self.window.push_back_reserved(item);
    }

    /// The first item in memory, if there is one.
    pub fn first(&self) -> Option<&T>
        ensures { option_copied result ≡ slice_get self.now.items self.now.forgotten }
    {
        self.window.front()
    }

    /// Item n, where it is in memory.
    pub fn get(&self, n: u64) -> Option<&T>
        requires { length self.now.items < 2 ^ 64 }
        ensures held { IsSome result ↔ IsHeld self.now n }
        ensures item { IfSome result (λ item. slice_get self.now.items n ≡ Some item.now) }
    {
        if n < self.forgotten {
            return None;
        }
        self.window.get((n - self.forgotten) as usize)
    }

    /// Puts an item in the place of item n, which comes back.
    pub fn replace(&mut self, n: u64, item: T) -> T
        requires { IsHeld self.old n }
        ensures before { slice_get self.old.items n ≡ Some result }
        ensures after { self.new ≡ record self.old { items = slice_set self.old.items n item } }
    {
        let place = (n - self.forgotten) as usize;
        mem::replace(&mut self.window[place], item)
    }

    /// Puts an item in the place of item n.
    pub fn set(&mut self, n: u64, item: T)
        requires { IsHeld self.old n }
        ensures { self.new ≡ record self.old { items = slice_set self.old.items n item } }
    {
        let _before = self.replace(n, item);
    }

    /// Lets go the first item in memory. Its place is a later one's.
    pub fn forget_first(&mut self)
        requires { self.old.forgotten < length self.old.items }
        ensures { self.new ≡ record self.old {
          forgotten = self.old.forgotten + 1;
          places = self.old.places + 1;
        } }
    {
        let Some(item) = self.window.pop_front() else {
            unreachable!()
        };
        self.past = self.past.then(&item);
        self.forgotten = self.forgotten.saturating_add(1);
    }

    /// Lets go all items before item n. Their places are later ones'.
    pub fn forget_to(&mut self, n: u64)
        requires behind { self.old.forgotten ≤ n }
        requires within { n ≤ length self.old.items }
        ensures { self.new ≡ record self.old {
          forgotten = n;
          places = self.old.places + (n - self.old.forgotten);
        } }
    {
        for _number in self.forgotten..n {
            self.forget_first();
        }
    }
}
