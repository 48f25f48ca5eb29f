//! Numbers of which those that came in order take no place.

ghost use Rattle.std.specs.Prelude.{◌≡◌, ℕ, ◌+◌, ◌-◌, ◌<◌, ◌==◌, ◌&&◌, ◌||◌, not, []};
ghost use Rattle.std.specs.Prelude.{IsTrue, OnOk};
ghost use Rattle.nm_receiving.specs.StreamViews.{counts};

use crate::streams::apart::Apart;
use nm_types::Memory;
use std::alloc::Global;

/// Numbers, each once. Those that came in order, counted from 0, take no place: each below the next one is among
/// them. Beside them stand those that came before their time, until the ones before them come.
#[derive(Drop)]
pub struct Counted {
    pub next: u64,
    pub apart: Apart,
}

impl Counted {
    /// No numbers.
    pub fn new(alloc: Global) -> Self
        ensures next { result.next ≡ 0 }
        ensures apart { result.apart.blocks ≡ [] }
    {
        Counted {
            next: 0,
            apart: Apart::new(alloc),
        }
    }

    /// Whether the number is among them.
    pub fn has(&self, n: u64) -> bool
        ensures { result ≡ counts self.now.next self.now.apart.blocks n }
    {
        n < self.next || self.apart.has(n)
    }

    /// Makes room for one more.
    #[inline(always)]
    pub fn reserve(&mut self) -> Result<(), Memory>
        ensures room { OnOk result (0 < self.new.apart.spare) }
        ensures next { self.new.next ≡ self.old.next }
        ensures apart { self.new.apart.blocks ≡ self.old.apart.blocks }
    {
        self.apart.reserve()
    }

    /// Whether a number is the next one, and not the last number that there is.
    fn is_next(&self, n: u64) -> bool
        ensures { result ≡ (n == self.now.next && not (self.now.next == 18446744073709551615)) }
    {
        let next = self.next;
        n == next && next != u64::MAX
    }

    /// Counts the next number.
    #[inline(always)]
    fn count(&mut self)
        requires { self.old.next < 18446744073709551615 }
        ensures next { self.new.next ≡ self.old.next + 1 }
        ensures counted { (m : ℕ) → counts self.new.next self.new.apart.blocks m
            ≡ (counts self.old.next self.old.apart.blocks m || self.old.next == m) }
    {
        self.apart.pass(self.next);
        self.next += 1;
    }

    /// Counts the next number, if it stands apart, and answers whether it did.
    fn absorb_one(&mut self) -> bool
        ensures same { (m : ℕ) → counts self.new.next self.new.apart.blocks m
            ≡ counts self.old.next self.old.apart.blocks m }
        ensures fewer { IsTrue result
            → 18446744073709551615 - self.new.next < 18446744073709551615 - self.old.next }
    {
        let next = self.next;
        if !self.apart.has(next) {
            return false;
        }
        if !self.is_next(next) {
            return false;
        }
        self.count();
        true
    }

    /// Counts the numbers that stand apart and come next, one after another.
    fn absorb(&mut self)
        ensures { (m : ℕ) → counts self.new.next self.new.apart.blocks m
            ≡ counts self.old.next self.old.apart.blocks m }
    {
        while self.absorb_one() {}
    }

    /// Counts a number that is the next one, or else sets it apart.
    #[inline(always)]
    fn note(&mut self, n: u64)
        requires { 0 < self.old.apart.spare }
        ensures { (m : ℕ) → counts self.new.next self.new.apart.blocks m
            ≡ (counts self.old.next self.old.apart.blocks m || n == m) }
    {
        if self.is_next(n) {
            self.count();
            return;
        }
        self.apart.add(n);
    }

    /// Takes a number. Those that stand apart and come next are counted, too.
    #[inline(always)]
    pub fn add(&mut self, n: u64)
        requires { 0 < self.old.apart.spare }
        ensures { (m : ℕ) → counts self.new.next self.new.apart.blocks m
            ≡ (counts self.old.next self.old.apart.blocks m || n == m) }
    {
        self.note(n);
        self.absorb();
    }
}
