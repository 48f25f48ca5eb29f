//! What records the events of a rank.

ghost use Rattle.std.specs.Prelude.{◌≡◌, ◌+◌, ◌-◌, ◌<◌, ◌≤◌, ℕ, List, [], ◌∷◌, ◌++◌};
ghost use Rattle.std.specs.Prelude.{OnOk, length, option_map, slice_get};
ghost use Rattle.nm_history.specs.declared.events.Event.{Event};

use nm_history::{Event, History};
use nm_types::Memory;
use std::alloc::Global;

/// What records the events of a rank. A `History` keeps them all, and `Erased` the last one alone;
/// contracts see them all, oldest first, and the number of events for which there is room.
pub trait Recorder: Drop {
    ghost events: { Self → List Event };

    ghost spare: { Self → ℕ };

    /// Nothing happened.
    fn empty(alloc: Global) -> Self
        ensures { events result ≡ [] };

    /// Makes room for this many events more.
    fn make_room(&mut self, extra: usize) -> Result<(), Memory>
        ensures events { events self.new ≡ events self.old }
        ensures ok { OnOk result (extra ≤ spare self.new) }
        ensures spare { spare self.old ≤ spare self.new };

    /// Puts an event at the end. There is room for it.
    fn put(&mut self, e: Event)
        requires room { 0 < spare self.old }
        ensures events { events self.new ≡ events self.old ++ e ∷ [] }
        ensures spare { spare self.old ≤ spare self.new + 1 };

    /// The last event, if there is one.
    fn last(&self) -> Option<&Event>
        ensures { option_map (λ e. e.now) result
            ≡ slice_get (events self.now) (length (events self.now) - 1) };
}

impl Recorder for History {
    ghost events = { λ h. h.events };

    ghost spare = { λ h. h.spare };

    fn empty(alloc: Global) -> History {
        History::new(alloc)
    }

    fn make_room(&mut self, extra: usize) -> Result<(), Memory> {
        self.reserve(extra)
    }

    #[inline(always)]
    fn put(&mut self, e: Event) {
        self.push_reserved(e);
    }

    fn last(&self) -> Option<&Event> {
        self.as_slice().last()
    }
}
