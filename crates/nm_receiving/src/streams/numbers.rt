//! Numbers of messages.

ghost use Rattle.std.specs.Prelude.{◌≡◌, ◌<◌, ◌∷◌, [], ◌++◌, false, OnOk};
ghost use Rattle.nm_history.specs.Continues.{has as has_lem};

use crate::streams::counted::Counted;
use nm_ghost::Trace;
use nm_types::Memory;
use std::alloc::Global;
use std::marker::Model;

/// Numbers of messages, each once, in the order in which they came, which only proofs read. Those that came in
/// order, counted from 0, take no memory.
pub struct Numbers {
    all: Trace<u64>,
    counted: Counted,
}

impl Drop for Numbers {
    fn drop(self) {
        let Numbers { all: _, counted: _ } = self;
    }
}

impl Model for Numbers {
    ghost use Rattle.nm_receiving.specs.StreamViews.{IsCounted, Noted};

    ghost Value = { Noted };

    ghost view = { λ a.
        record {
          numbers = a.all.items;
          spare = a.counted.apart.spare;
        } };

    ghost invariant = { λ a. IsCounted a.all.items a.counted.next a.counted.apart.blocks };
}

impl Numbers {
    /// No numbers.
    pub fn new(alloc: Global) -> Self
        ensures { result.numbers ≡ [] }
    {
        Numbers {
            all: Trace::new(),
            counted: Counted::new(alloc),
        }
    }

    /// Whether the number is among them.
    pub fn has(&self, n: u64) -> bool
        ensures { result ≡ has_lem self.now.numbers n }
    {
        self.counted.has(n)
    }

    /// Makes room for one more.
    #[inline(always)]
    pub fn reserve(&mut self) -> Result<(), Memory>
        ensures room { OnOk result (0 < self.new.spare) }
        ensures same { self.new.numbers ≡ self.old.numbers }
    {
        self.counted.reserve()
    }

    /// Puts a new one behind them.
    #[inline(always)]
    pub fn add(&mut self, n: u64)
        requires new { has_lem self.old.numbers n ≡ false }
        requires room { 0 < self.old.spare }
        ensures { self.new.numbers ≡ self.old.numbers ++ n ∷ [] }
    {
        self.all = self.all.then(&n);
        self.counted.add(n);
    }
}
