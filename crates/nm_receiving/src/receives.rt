//! The receives of a rank, by number.

ghost use Rattle.std.specs.Prelude.{◌≡◌, ◌+◌, ◌<◌, ◌≤◌, ◌^◌, true, false, [], ◌∷◌, ◌++◌, length, min};
ghost use Rattle.std.specs.Prelude.{Some, IfOk, IfSome, IsSome, IsTrue, OnOk, slice_set};
ghost use Rattle.std.specs.List.{slice_get};
ghost use Rattle.std.specs.Option.{option_map_or};
ghost use Rattle.nm_receiving.specs.Receives.{first_live, goes, has_ended_at, is_live, live_at};
ghost use Rattle.nm_receiving.specs.Steps.{with_cancelled, with_ended, with_taken};

use crate::receipts::Receive;
use nm_kept::Kept;
use nm_types::{Arrival, Memory};
use std::alloc::Global;
use std::marker::Model;

/// At most so many receives are let go, which no run reaches. So their numbers have 64 bits.
const MOST: u64 = 4611686018427387904;

/// The receives of a rank, by number. Memory holds those from the first on that did not end.
pub(crate) struct Receives {
    kept: Kept<Receive>,
}

impl Drop for Receives {
    fn drop(self) {
        let Receives { kept: _ } = self;
    }
}

impl Model for Receives {
    ghost use Rattle.std.specs.Prelude.{◌-◌, length};
    ghost use Rattle.nm_receiving.specs.Receives.{ReceivesInvariant, ReceivesView};

    ghost Value = { ReceivesView };

    ghost view = { λ a.
        record { items = a.kept.items; room = a.kept.places - length a.kept.items } };

    ghost invariant = { λ a. ReceivesInvariant a.kept };
}

/// Whether the first receive in memory is let go: it ended, and not too many were.
#[inline(always)]
fn first_goes(kept: &Kept<Receive>) -> bool
    requires { length kept.now.items < 2 ^ 64 }
    ensures { result ≡ goes kept.now.items kept.now.forgotten }
{
    match kept.first() {
        Some(receive) => receive.ended && kept.forgotten() < MOST,
        None => false,
    }
}

/// Lets go the receives at the front that ended.
#[inline(always)]
fn let_go(kept: &mut Kept<Receive>)
    requires few { length kept.old.items < 2 ^ 64 }
    requires behind { kept.old.forgotten ≤ min (first_live kept.old.items) (2 ^ 62) }
    ensures items { kept.new.items ≡ kept.old.items }
    ensures first { kept.new.forgotten ≡ min (first_live kept.old.items) (2 ^ 62) }
    ensures room { kept.old.places ≤ kept.new.places }
{
    for _gone in 0..kept.held() {
        if !first_goes(kept) {
            return;
        }
        kept.forget_first();
    }
}

impl Receives {
    /// No receives, and places for so many.
    pub(crate) fn with_capacity(alloc: Global, places: usize) -> Result<Receives, Memory>
        ensures { IfOk result (λ receives. receives.items ≡ []) }
    {
        let kept = Kept::with_capacity(alloc, places)?;
        Ok(Receives { kept })
    }

    /// A law: there are fewer than 2^64 receives.
    #[inline(always)]
    fn are_few(&self)
        ensures { length self.now.items < 2 ^ 64 }
    {
        self.kept.places_are_few();
    }

    /// How many receives there are, with those that were let go.
    #[inline(always)]
    pub(crate) fn count(&self) -> u64
        ensures { result ≡ length self.now.items }
    {
        self.are_few();
        self.kept.len()
    }

    /// How many receives are in memory: those from the first on that did not end.
    pub(crate) fn held(&self) -> usize
        ensures { first_live self.now.items ≤ 2 ^ 62
            → first_live self.now.items + result ≡ length self.now.items }
    {
        self.kept.held()
    }

    /// Makes a place for one receive more.
    #[inline(always)]
    pub(crate) fn reserve(&mut self) -> Result<(), Memory>
        ensures items { self.new.items ≡ self.old.items }
        ensures room { OnOk result (0 < self.new.room) }
    {
        self.kept.reserve(1)
    }

    /// Adds the next receive, which did not end. There is a place for it.
    #[inline(always)]
    pub(crate) fn push(&mut self, receive: Receive)
        requires live { receive.ended ≡ false }
        requires room { 0 < self.old.room }
        ensures { self.new.items ≡ self.old.items ++ receive ∷ [] }
    {
        self.kept.push_reserved(receive);
    }

    /// The receive of this number, if it did not end.
    #[inline(always)]
    pub(crate) fn live(&self, number: u64) -> Option<Receive>
        ensures { result ≡ live_at self.now.items number }
    {
        self.are_few();
        match self.kept.get(number) {
            Some(receive) => (!receive.ended).then_some(*receive),
            None => None,
        }
    }

    /// Puts a receive that did not end in the place of one that did not.
    #[inline(always)]
    fn set(&mut self, number: u64, receive: Receive)
        requires there { IsSome (live_at self.old.items number) }
        requires live { receive.ended ≡ false }
        ensures { self.new.items ≡ slice_set self.old.items number receive }
    {
        self.kept.set(number, receive);
    }

    /// The receive of this number is cancelled, if it did not end. One that ended was cancelled before.
    pub(crate) fn cancel(&mut self, number: u64)
        requires { has_ended_at self.old.items number ≡ true
            → option_map_or (λ r. r.cancelled) (slice_get self.old.items number) false ≡ true }
        ensures { self.new.items ≡ with_cancelled self.old.items number }
    {
        match self.live(number) {
            Some(mut receive) => {
                receive.cancelled = true;
                self.set(number, receive);
            }
            None => {}
        }
    }

    /// The receive of this number takes a message. It did not end.
    #[inline(always)]
    fn take(&mut self, number: u64, a: Arrival)
        requires { IsSome (live_at self.old.items number) }
        ensures { self.new.items ≡ with_taken self.old.items (Some number) a }
    {
        let mut receive = self.live(number).unwrap();
        receive.taken = Some(a);
        self.set(number, receive);
    }

    /// The receive of this number ends. It is let go with those before it, once all of them ended.
    #[inline(always)]
    pub(crate) fn end(&mut self, number: u64)
        requires { IsSome (live_at self.old.items number) }
        ensures { self.new.items ≡ with_ended self.old.items number }
    {
        self.are_few();
        let mut receive = self.live(number).unwrap();
        receive.ended = true;
        self.kept.set(number, receive);
        let_go(&mut self.kept);
    }
}

/// The receive of this number takes a message, where there is one. It did not end.
#[inline(always)]
pub(crate) fn give(receives: &mut Receives, taker: Option<u64>, a: Arrival)
    requires { IfSome taker (λ number. IsSome (live_at receives.old.items number)) }
    ensures { receives.new.items ≡ with_taken receives.old.items taker a }
{
    if let Some(number) = taker {
        receives.take(number, a);
    }
}
