//! What became of each message to one rank.

ghost use Rattle.std.specs.Prelude.{◌≡◌, ◌+◌, ◌<◌, ◌≤◌, ◌^◌, ◌&&◌, [], ◌∷◌, ◌++◌, true, length, not, Some};
ghost use Rattle.std.specs.Prelude.{slice_get, slice_set, nat_eq, option_map, OnOk};
ghost use Rattle.std.specs.Map.{lookup};
ghost use Rattle.nm_sending.specs.Departures.{fresh, passes, was_undone};
ghost use Rattle.nm_sending.specs.declared.departures.Departure.{Departure};
ghost use Rattle.nm_sending.specs.Rows.{all_recalled, fate, gone, is_settled as is_settled_lem, stays, with_recalled};

use crate::departures::Departure;
use crate::recalls::Recalls;
use nm_kept::Kept;
use nm_types::{How, Memory};
use std::alloc::Global;
use std::marker::Model;

/// What became of each message to one rank, by number. Memory holds those from the first on that may still leave,
/// and each recall.
pub(crate) struct Row {
    // without their recalls
    sent: Kept<Departure>,
    recalls: Recalls,
}

impl Drop for Row {
    fn drop(self) {
        let Row {
            sent: _,
            recalls: _,
        } = self;
    }
}

impl Model for Row {
    ghost use Rattle.std.specs.Prelude.{◌-◌, length};
    ghost use Rattle.nm_sending.specs.Rows.{RowKeeps, RowView, all_recalled};

    ghost Value = { RowView };

    ghost view = { λ a. record {
      items = all_recalled a.recalls.entries 0 a.sent.items;
      room = a.sent.places - length a.sent.items;
      spare = a.recalls.spare;
    } };

    ghost invariant = { λ a. RowKeeps a.sent a.recalls.entries };
}

/// Whether message `n` has left, or never will.
#[inline(always)]
fn is_settled(departure: &Departure, recalls: &Recalls, n: u64) -> bool
    ensures { result ≡ is_settled_lem
        (with_recalled departure.now (lookup (nat_eq n) recalls.now.entries)) }
{
    if departure.out {
        return true;
    }
    departure.with_recalled(recalls.get(n)).is_settled()
}

/// Whether the first message in memory has left, or never will.
#[inline(always)]
fn is_first_settled(sent: &Kept<Departure>, recalls: &Recalls) -> bool
    requires few { length sent.now.items < 2 ^ 64 }
    ensures { result ≡ passes is_settled_lem
        (slice_get (all_recalled recalls.now.entries 0 sent.now.items) sent.now.forgotten) }
{
    match sent.first() {
        Some(departure) => is_settled(departure, recalls, sent.forgotten()),
        None => false,
    }
}

/// Lets go the messages at the front that have left, or never will.
#[inline(always)]
fn let_go(sent: &mut Kept<Departure>, recalls: &Recalls)
    requires few { length sent.old.items < 2 ^ 64 }
    requires low { sent.old.forgotten ≤ gone (all_recalled recalls.now.entries 0 sent.old.items) }
    ensures same { sent.new.items ≡ sent.old.items }
    ensures first { sent.new.forgotten ≡ gone (all_recalled recalls.now.entries 0 sent.old.items) }
{
    for _gone in 0..sent.held() {
        if !is_first_settled(sent, recalls) {
            return;
        }
        sent.forget_first();
    }
}

impl Row {
    /// No messages.
    pub(crate) fn new(alloc: Global) -> Row
        ensures { result.items ≡ [] }
    {
        Row {
            sent: Kept::new(alloc),
            recalls: Recalls::new(alloc),
        }
    }

    /// How many messages there are.
    pub(crate) fn count(&self) -> u64
        ensures { result ≡ length self.now.items }
    {
        self.sent.len()
    }

    /// How many messages are in memory: those from the first on that may still leave.
    pub(crate) fn held(&self) -> usize
        ensures { gone self.now.items + result ≡ length self.now.items }
    {
        self.sent.held()
    }

    /// Makes room for one message more.
    pub(crate) fn reserve(&mut self) -> Result<(), Memory>
        ensures items { self.new.items ≡ self.old.items }
        ensures ok { OnOk result (0 < self.new.room) }
    {
        self.sent.reserve(1)
    }

    /// Makes room for one recall more.
    pub(crate) fn reserve_recall(&mut self) -> Result<(), Memory>
        ensures items { self.new.items ≡ self.old.items }
        ensures ok { OnOk result (0 < self.new.spare) }
    {
        self.recalls.reserve()
    }

    /// Adds the next message. There is room for it.
    pub(crate) fn push(&mut self, how: How, len: u32)
        requires room { 0 < self.old.room }
        requires few { length self.old.items + 1 < 2 ^ 64 }
        ensures { self.new.items ≡ self.old.items ++ fresh how len ∷ [] }
    {
        let departure = Departure::new(how, len);
        self.sent.push_reserved(departure);
    }

    /// What became of message `n`, if it was sent. Where it was let go its way and its length are not known.
    pub(crate) fn get(&self, n: u64) -> Option<Departure>
        ensures { option_map fate result ≡ option_map fate (slice_get self.now.items n) }
    {
        if n >= self.sent.len() {
            return None;
        }
        let recall = self.recalls.get(n);
        Some(match self.sent.get(n) {
            Some(departure) => departure.with_recalled(recall),
            None => Departure::gone().with_recalled(recall),
        })
    }

    /// A message has left.
    pub(crate) fn leave(&mut self, n: u64)
        requires { passes stays (slice_get self.old.items n) ≡ true }
        ensures { (d : Departure) → slice_get self.old.items n ≡ Some d →
            self.new.items ≡ slice_set self.old.items n (record d { out = true }) }
    {
        let departure = *self.sent.get(n).unwrap();
        self.sent.set(n, departure.left());
        let_go(&mut self.sent, &self.recalls);
    }

    /// The receiver of a message was asked to withdraw it. There is room for that.
    pub(crate) fn recall(&mut self, n: u64)
        requires room { 0 < self.old.spare }
        requires is_new { passes (λ d. not d.recalled) (slice_get self.old.items n) ≡ true }
        ensures { (d : Departure) → slice_get self.old.items n ≡ Some d →
            self.new.items ≡ slice_set self.old.items n (record d { recalled = true }) }
    {
        self.recalls.add(n);
    }

    /// The answer to a message's recall came back, which had none. One that was withdrawn is let go with those
    /// before it, once none of them may leave.
    pub(crate) fn answer(&mut self, n: u64, done: bool)
        requires { passes (λ d. d.recalled && not (was_undone true d)) (slice_get self.old.items n)
            ≡ true }
        ensures { (d : Departure) → slice_get self.old.items n ≡ Some d →
            self.new.items ≡ slice_set self.old.items n (record d { undone = Some done }) }
    {
        self.recalls.answer(n, done);
        let_go(&mut self.sent, &self.recalls);
    }
}
