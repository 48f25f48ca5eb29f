//! How many packets went from rank to rank.

ghost use Rattle.std.specs.Prelude.{◌≡◌, ◌≤◌, ◌↔◌, [], ◌∷◌, ◌++◌, length, IsNone, IsTrue};
ghost use Rattle.std.specs.Prelude.{OnOk, OnErr, slice_get, option_copied};

use nm_types::Memory;
use std::alloc::Global;
use std::marker::Model;

/// How many packets went from one rank to another. Pieces of long messages aren't counted.
#[derive(Clone, Copy)]
pub struct PairCount {
    pub from: u8,
    pub to: u8,
    pub packets: u64,
}

/// A list of counts, by sender and then destination. A pair with no packet is left out.
pub struct Pairs {
    items: Vec<PairCount>,
}

impl Drop for Pairs {
    fn drop(self) {
        let Pairs { items: _ } = self;
    }
}

impl Model for Pairs {
    ghost use Rattle.std.specs.Prelude.{List};
    ghost use Rattle.nm_report.specs.declared.pairs.PairCount.{PairCount};

    ghost Value = { List PairCount };

    ghost view = { λ a. a.items.items };
}

impl Pairs {
    /// The empty list.
    pub fn new(alloc: Global) -> Self
        ensures { result ≡ [] }
    {
        Pairs {
            items: Vec::new(alloc),
        }
    }

    /// The list of these counts.
    pub fn from_vec(items: Vec<PairCount>) -> Self
        ensures { result ≡ items.items }
    {
        Pairs { items }
    }

    /// The counts, given away.
    pub fn into_vec(self) -> Vec<PairCount>
        ensures { result.items ≡ self }
    {
        let Pairs { items } = self;
        items
    }

    /// Puts a count at the end.
    pub fn push(&mut self, pair: PairCount) -> Result<(), Memory>
        ensures ok { OnOk result (self.new ≡ self.old ++ pair ∷ []) }
        ensures err { OnErr result (self.new ≡ self.old) }
    {
        self.items.push(pair)?;
        Ok(())
    }

    /// How many counts there are.
    pub fn len(&self) -> usize
        ensures { result ≡ length self.now }
    {
        self.items.len()
    }

    /// Whether there is none.
    pub fn is_empty(&self) -> bool
        ensures { IsTrue result ↔ (self.now ≡ []) }
    {
        self.items.is_empty()
    }

    /// The count at place k, from 0; `None` where there are at most k.
    pub fn get(&self, k: usize) -> Option<&PairCount>
        ensures value { option_copied result ≡ slice_get self.now k }
        ensures none { IsNone result ↔ (length self.now ≤ k) }
    {
        self.items.get(k)
    }

    /// The counts, in order.
    pub fn as_slice(&self) -> &[PairCount]
        ensures { result.now ≡ self.now }
    {
        self.items.as_slice()
    }
}
