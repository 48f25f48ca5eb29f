//! The messages that wait, in buckets by what receives with a wildcard name.

ghost use Rattle.std.specs.Prelude.{◌≡◌, ℕ, ◌+◌, ◌++◌, [], ◌∷◌, Bool, IsTrue, List, OnOk, Some, find, not};
ghost use Rattle.nm_types.specs.declared.messages.Arrival as arrival;
ghost use Rattle.nm_match.specs.declared.picks.Picks as picks;
ghost use Rattle.nm_match.specs.Buckets.{AreBuckets};
ghost use Rattle.nm_match.specs.Picks.{fits_picks, names_both, picks_of_arrival};
ghost use Rattle.nm_match.specs.Queues.{without_first};
ghost use Rattle.nm_match.specs.Wildcards.{AreByWildcard};

use crate::buckets::Buckets;
use crate::picks::{Picks, of_arrival, with_any_message, with_any_source, with_any_tag};
use nm_types::{Arrival, Memory, Peer, TagPick};
use std::alloc::Global;

/// The messages that wait, by each wildcard that selects them: so the oldest that a receive with a
/// wildcard selects is the first of one bucket.
pub struct Wildcards {
    /// By source and context.
    pub any_tag: Buckets<Arrival>,
    /// By tag and context.
    pub any_source: Buckets<Arrival>,
    /// By context.
    pub any_message: Buckets<Arrival>,
}

impl Drop for Wildcards {
    fn drop(self) {
        let Wildcards {
            any_tag: _,
            any_source: _,
            any_message: _,
        } = self;
    }
}

impl Wildcards {
    /// No message waits.
    pub(crate) fn new(alloc: Global) -> Self
        ensures { AreByWildcard [] result }
    {
        Wildcards {
            any_tag: Buckets::new(alloc),
            any_source: Buckets::new(alloc),
            any_message: Buckets::new(alloc),
        }
    }

    /// Puts a message last.
    pub(crate) fn put(&mut self, order: u128, a: Arrival) -> Result<(), Memory>
        ensures { OnOk result ((queue : List (ℕ × arrival.Arrival))
            (bucket : picks.Picks → List (ℕ × arrival.Arrival)) →
            AreBuckets picks_of_arrival queue order bucket → AreByWildcard queue self.old →
            AreByWildcard (queue ++ (order, a) ∷ []) self.new) }
    {
        let key = of_arrival(&a);
        self.any_tag.put(with_any_tag(key), order, a)?;
        self.any_source.put(with_any_source(key), order, a)?;
        self.any_message.put(with_any_message(key), order, a)
    }

    /// Takes the message of this order number, which these picks name.
    pub(crate) fn take(&mut self, key: Picks, order: u128)
        ensures { (queue : List (ℕ × arrival.Arrival)) (next : ℕ)
            (bucket : picks.Picks → List (ℕ × arrival.Arrival))
            (test : ℕ × arrival.Arrival → Bool) (x : ℕ × arrival.Arrival) →
            AreBuckets picks_of_arrival queue next bucket → find test queue ≡ Some x →
            x.0 ≡ order → picks_of_arrival x.1 ≡ key → AreByWildcard queue self.old →
            AreByWildcard (without_first test queue) self.new }
    {
        self.any_tag.take(with_any_tag(key), order);
        self.any_source.take(with_any_source(key), order);
        self.any_message.take(with_any_message(key), order);
    }

    /// The oldest message that a receive or a probe with a wildcard selects.
    pub(crate) fn front(&self, wanted: Picks) -> Option<(u128, Arrival)>
        ensures { (queue : List (ℕ × arrival.Arrival)) → IsTrue (not (names_both wanted)) →
            AreByWildcard queue self.now →
            result ≡ find (λ x. fits_picks wanted (picks_of_arrival x.1)) queue }
    {
        match (wanted.from, wanted.tag) {
            (Peer::One(_), _) => self.any_tag.front(wanted),
            (Peer::Any, TagPick::One(_)) => self.any_source.front(wanted),
            (Peer::Any, TagPick::Any) => self.any_message.front(wanted),
        }
    }
}
