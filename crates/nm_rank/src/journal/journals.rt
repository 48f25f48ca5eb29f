//! A history with the clock that stamps its events.

ghost use Rattle.std.specs.Prelude.{◌≡◌, ◌+◌, ◌-◌, ◌<◌, ◌≤◌, [], ◌∷◌, ◌++◌, max, OnOk};
ghost use Rattle.nm_types.specs.declared.limits.TheConstants.{MAX_STAMP};
ghost use Rattle.nm_history.specs.Clock.{stamped};
ghost use Rattle.nm_rank.specs.Journals.{IsJournal};

use crate::journal::Recorder;
use nm_history::{Event, Happened, History};
use nm_types::{MAX_STAMP, Memory};
use std::alloc::Global;
use std::marker::Model;

/// What happened at a rank, and its clock, which is 0 at the start.
pub struct Journal<H: Recorder = History> {
    history: H,
    clock: u64,
}

impl<H: Recorder> Drop for Journal<H> {
    fn drop(self) {
        let Journal {
            history: _,
            clock: _,
        } = self;
    }
}

impl<H: Recorder> Model for Journal<H> {
    ghost use Rattle.nm_rank.specs.Journals.{IsJournal, JournalView};

    ghost Value = { JournalView };

    ghost view = { λ j.
        record { events = H.events j.history; clock = j.clock; spare = H.spare j.history } };

    ghost invariant = { λ j. IsJournal (H.events j.history) j.clock };
}

impl<H: Recorder> Journal<H> {
    /// Nothing happened.
    pub fn new(alloc: Global) -> Self
        ensures events { result.events ≡ [] }
        ensures clock { result.clock ≡ 0 }
    {
        Journal {
            history: H::empty(alloc),
            clock: 0,
        }
    }

    /// The clock: the stamp of the last event, or a greater one that a packet brought.
    pub fn clock(&self) -> u64
        ensures value { result ≡ self.now.clock }
        ensures in_time { self.now.clock ≤ MAX_STAMP }
    {
        self.clock
    }

    /// What happened, oldest first.
    pub fn history(&self) -> &H
        ensures events { H.events result.now ≡ self.now.events }
        ensures lawful { IsJournal self.now.events self.now.clock }
    {
        &self.history
    }

    /// What happened, oldest first, when the journal is used no more.
    pub fn into_history(self) -> H
        ensures events { H.events result ≡ self.events }
        ensures lawful { IsJournal self.events self.clock }
    {
        let Journal { history, clock: _ } = self;
        history
    }

    /// Makes room for this many events more.
    pub fn reserve(&mut self, extra: usize) -> Result<(), Memory>
        ensures same { self.new ≡ record self.old { spare = self.new.spare } }
        ensures kept { self.old.spare ≤ self.new.spare }
        ensures ok { OnOk result (extra ≤ self.new.spare) }
    {
        self.history.make_room(extra)
    }

    /// Sets the clock forward to a packet's stamp, if it isn't there yet.
    pub fn raise(&mut self, stamp: u64)
        requires { stamp ≤ MAX_STAMP }
        ensures { self.new ≡ record self.old { clock = max self.old.clock stamp } }
    {
        self.clock = self.clock.max(stamp);
    }

    /// Records what happened, one tick later. There is room for it.
    #[inline(always)]
    pub fn add(&mut self, what: Happened)
        requires room { 0 < self.old.spare }
        requires in_time { self.old.clock < MAX_STAMP }
        ensures events { self.new.events
            ≡ self.old.events ++ stamped self.old.clock (what ∷ []) }
        ensures clock { self.new.clock ≡ self.old.clock + 1 }
        ensures room { self.old.spare ≤ self.new.spare + 1 }
    {
        self.clock += 1;
        let stamp = self.clock;
        self.history.put(Event { stamp, what });
    }
}
