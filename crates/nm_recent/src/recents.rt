//! Events of which memory keeps the last ones.

ghost use Rattle.std.specs.Prelude.{◌≡◌, ◌+◌, ◌-◌, ◌≤◌, ◌<◌, if◌then◌else◌, nat_le, List, OnOk, drop};
ghost use Rattle.std.specs.List.{Contains};
ghost use Rattle.std.specs.VecDeque.{deque_capacity, deque_len};
ghost use Rattle.nm_history.specs.declared.events.Event.{Event};
ghost use Rattle.nm_recent.specs.declared.recents.TheConstants.{KEPT};
ghost use Rattle.nm_recent.specs.Recents.{AreOf, last_items};

use crate::ends::ends;
use nm_ghost::Trace;
use nm_history::{Event, Happened};
use nm_rank::journal::Recorder;
use nm_types::Memory;
use std::alloc::Global;
use std::collections::VecDeque;
use std::marker::Model;

/// How many events memory keeps, besides those that are pending.
pub const KEPT: usize = 64;

/// A history of which memory keeps the last events, and of those before them the sends, receives and arrivals that
/// were not over then. Contracts know all.
pub struct Recent {
    all: Trace<Event>,
    window: VecDeque<Event>,
    pending: VecDeque<Event>,
}

impl Drop for Recent {
    fn drop(self) {
        let Recent {
            all: _,
            window: _,
            pending: _,
        } = self;
    }
}

impl Model for Recent {
    ghost use Rattle.std.specs.Prelude.{◌≡◌, ◌-◌};
    ghost use Rattle.std.specs.VecDeque.{deque_capacity, deque_len};
    ghost use Rattle.nm_recent.specs.declared.recents.TheConstants.{KEPT};
    ghost use Rattle.nm_recent.specs.Recents.{AreOf, RecentView, last_items};

    ghost Value = { RecentView };

    ghost view = { λ r. record {
      events = r.all.items;
      pending = r.pending.items;
      places = deque_capacity r.window;
      room = deque_capacity r.pending - deque_len r.pending;
    } };

    ghost invariant = { λ r. (r.window.items ≡ last_items KEPT r.all.items) × AreOf r.all.items r.pending.items };
}

impl Recent {
    /// The last events of the history, oldest first: 64, or all where they are fewer.
    pub fn events(&self) -> &VecDeque<Event>
        ensures { result.now.items ≡ last_items KEPT self.now.events }
    {
        &self.window
    }

    /// The events before those that were not over, oldest first: receives and messages that were not matched, and sends
    /// that had not left.
    pub fn pending(&self) -> &VecDeque<Event>
        ensures { AreOf self.now.events result.now.items }
    {
        &self.pending
    }

    /// The events that were not over, and the last ones.
    pub fn into_parts(self) -> (VecDeque<Event>, VecDeque<Event>)
        ensures pending { AreOf self.events result.0.items }
        ensures last { result.1.items ≡ last_items KEPT self.events }
    {
        let Recent {
            all: _,
            window,
            pending,
        } = self;
        (pending, window)
    }
}

// A place for each of the last events.
fn make_places(window: &mut VecDeque<Event>) -> Result<(), Memory>
    ensures items { window.new.items ≡ window.old.items }
    ensures capacity { deque_capacity window.old ≤ deque_capacity window.new }
    ensures ok { OnOk result (KEPT ≤ deque_capacity window.new) }
{
    if window.capacity() < KEPT {
        window.reserve(KEPT)?;
    }
    Ok(())
}

// Which of these is over by what happened, if one is: the first one.
fn ended_by(pending: &VecDeque<Event>, what: &Happened) -> Option<usize> {
    for place in 0..pending.len() {
        if let Some(before) = pending.get(place) {
            if ends(what, &before.what) {
                return Some(place);
            }
        }
    }
    None
}

// Whether an event begins what another one ends.
fn begins(what: &Happened) -> bool {
    matches!(
        what,
        Happened::Send { .. } | Happened::Post { .. } | Happened::Arrive { .. }
    )
}

// A pending event is over.
fn take_out(pending: &mut VecDeque<Event>, place: usize)
    ensures capacity { deque_capacity pending.new ≡ deque_capacity pending.old }
    ensures fewer { deque_len pending.new ≤ deque_len pending.old }
    ensures of { (history : List Event) → AreOf history pending.old.items → AreOf history pending.new.items }
{
    let _ended = pending.remove(place);
}

// An event is one of the last no more: it ends one that is pending, or is pending itself, or neither.
fn leave(pending: &mut VecDeque<Event>, event: Event)
    requires room { deque_len pending.old < deque_capacity pending.old }
    ensures capacity { deque_capacity pending.new ≡ deque_capacity pending.old }
    ensures grows { deque_len pending.new ≤ deque_len pending.old + 1 }
    ensures of { (history : List Event) → AreOf history pending.old.items → Contains history event →
        AreOf history pending.new.items }
{
    if let Some(place) = ended_by(pending, &event.what) {
        take_out(pending, place);
    } else if begins(&event.what) {
        pending.push_back_reserved(event);
    }
}

// The first of the last events is one of them no more.
fn pass(window: &mut VecDeque<Event>, pending: &mut VecDeque<Event>)
    requires some { 0 < deque_len window.old }
    requires room { deque_len pending.old < deque_capacity pending.old }
    ensures window { (window.new.items ≡ drop 1 window.old.items) × (deque_len window.new + 1 ≡ deque_len window.old)
        × (deque_capacity window.new ≡ deque_capacity window.old) }
    ensures capacity { deque_capacity pending.new ≡ deque_capacity pending.old }
    ensures grows { deque_len pending.new ≤ deque_len pending.old + 1 }
    ensures of { (history : List Event) → AreOf history pending.old.items → AreOf history window.old.items →
        AreOf history pending.new.items }
{
    let Some(first) = window.pop_front() else {
        unreachable!()
    };
    leave(pending, first);
}

// A place for one more of the last events: where there are as many as are kept, the first of them goes.
fn make_place(window: &mut VecDeque<Event>, pending: &mut VecDeque<Event>)
    requires few { deque_len window.old ≤ KEPT }
    requires room { deque_len pending.old < deque_capacity pending.old }
    ensures window { window.new.items ≡ drop (deque_len window.old + 1 - KEPT) window.old.items }
    ensures place { deque_len window.new < KEPT }
    ensures places { deque_capacity window.new ≡ deque_capacity window.old }
    ensures capacity { deque_capacity pending.new ≡ deque_capacity pending.old }
    ensures grows { deque_len pending.new ≤ deque_len pending.old + 1 }
    ensures of { (history : List Event) → AreOf history pending.old.items → AreOf history window.old.items →
        AreOf history pending.new.items }
{
    if window.len() < KEPT {
        return;
    }
    pass(window, pending);
}

impl Recorder for Recent {
    ghost events = { λ r. r.events };

    // there is room in the list of pending events only where there is a place for each of the last ones
    ghost spare = { λ r. if nat_le KEPT r.places then r.room else 0 };

    fn empty(alloc: Global) -> Recent {
        Recent {
            all: Trace::new(),
            window: VecDeque::new(alloc),
            pending: VecDeque::new(alloc),
        }
    }

    fn make_room(&mut self, extra: usize) -> Result<(), Memory> {
        make_places(&mut self.window)?;
        self.pending.reserve(extra)?;
        Ok(())
    }

    fn put(&mut self, e: Event) {
        self.all = self.all.then(&e);
        make_place(&mut self.window, &mut self.pending);
        self.window.push_back_reserved(e);
    }

    fn last(&self) -> Option<&Event> {
        self.window.back()
    }
}
