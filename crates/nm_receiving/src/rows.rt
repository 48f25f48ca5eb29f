//! The messages that came of one sender.

ghost use Rattle.std.specs.Prelude.{◌≡◌, ◌+◌, ◌<◌, ◌≤◌, ◌^◌, [], ◌∷◌, ◌++◌, true, false, length, slice_set};
ghost use Rattle.std.specs.Prelude.{IsSomeAnd, OnOk};
ghost use Rattle.std.specs.List.{slice_get};
ghost use Rattle.std.specs.Option.{option_map_or};
ghost use Rattle.nm_history.specs.Sends.{is_ask};
ghost use Rattle.nm_receiving.specs.Rows.{settled_before, settled_front};
ghost use Rattle.nm_receiving.specs.Steps.{with_whole};

use crate::receipts::Receipt;
use nm_ghost::Trace;
use nm_kept::Kept;
use nm_types::Memory;
use std::alloc::Global;
use std::marker::Model;

/// What is noted of a sender's messages.
#[derive(Clone, Copy)]
pub(crate) enum Mark {
    /// The next one came.
    Came(Receipt),
    /// The one with this number is here whole.
    Whole(u64),
}

/// The messages that came of one sender, by number.
///
/// What came only proofs read. Memory holds whether each message is settled, from the first on that is not: of
/// one that was sent by asking its bytes tell whether it is whole, and of eager ones the last one alone may lack
/// bytes.
pub(crate) struct Row {
    marks: Trace<Mark>,
    settled: Kept<bool>,
}

impl Drop for Row {
    fn drop(self) {
        let Row {
            marks: _,
            settled: _,
        } = self;
    }
}

impl Model for Row {
    ghost use Rattle.std.specs.Prelude.{◌-◌, length};
    ghost use Rattle.nm_receiving.specs.Rows.{RowKeeps, RowView, messages_of};

    ghost Value = { RowView };

    ghost view = { λ a.
        record {
          messages = messages_of a.marks.items;
          room = a.settled.places - length a.settled.items;
        } };

    ghost invariant = { λ a. RowKeeps (messages_of a.marks.items) a.settled };
}

/// Whether the first message in memory is let go: it is settled.
#[inline(always)]
fn first_goes(settled: &Kept<bool>) -> bool
    ensures { result
        ≡ option_map_or (λ b. b) (slice_get settled.now.items settled.now.forgotten) false }
{
    match settled.first() {
        Some(first) => *first,
        None => false,
    }
}

/// Lets go the messages at the front that are settled.
#[inline(always)]
fn let_go(settled: &mut Kept<bool>)
    requires { settled.old.forgotten ≤ settled_before settled.old.items }
    ensures items { settled.new.items ≡ settled.old.items }
    ensures first { settled.new.forgotten ≡ settled_before settled.old.items }
{
    for _gone in 0..settled.held() {
        if !first_goes(settled) {
            return;
        }
        settled.forget_first();
    }
}

/// Notes that message `n` is settled.
#[inline(always)]
fn settle(settled: &mut Kept<bool>, n: u64)
    requires few { length settled.old.items < 2 ^ 64 }
    requires first { settled.old.forgotten ≡ settled_before settled.old.items }
    requires within { n < length settled.old.items }
    ensures items { settled.new.items ≡ slice_set settled.old.items n true }
    ensures first { settled.new.forgotten ≡ settled_before settled.new.items }
{
    match settled.get(n) {
        Some(_) => {}
        None => return,
    }
    settled.set(n, true);
    let_go(settled);
}

impl Row {
    /// No messages.
    pub(crate) fn new(alloc: Global) -> Self
        ensures { result.messages ≡ [] }
    {
        Row {
            marks: Trace::new(),
            settled: Kept::new(alloc),
        }
    }

    /// How many messages came.
    pub(crate) fn count(&self) -> u64
        ensures { result ≡ length self.now.messages }
    {
        self.settled.len()
    }

    /// How many messages are in memory: those from the first on that is not settled.
    pub(crate) fn held(&self) -> usize
        ensures { settled_front self.now.messages + result ≡ length self.now.messages }
    {
        self.settled.held()
    }

    /// Makes room for one message more.
    #[inline(always)]
    pub(crate) fn reserve(&mut self) -> Result<(), Memory>
        ensures same { self.new.messages ≡ self.old.messages }
        ensures ok { OnOk result (0 < self.new.room) }
    {
        self.settled.reserve(1)
    }

    /// Adds the next message. There is room for it.
    pub(crate) fn push(&mut self, receipt: Receipt)
        requires room { 0 < self.old.room }
        requires few { length self.old.messages + 1 < 2 ^ 64 }
        ensures { self.new.messages ≡ self.old.messages ++ receipt ∷ [] }
    {
        let is_settled = receipt.is_settled();
        self.marks = self.marks.then(&Mark::Came(receipt));
        self.settled.push_reserved(is_settled);
        let_go(&mut self.settled);
    }

    /// Message `n` is here whole.
    pub(crate) fn make_whole(&mut self, n: u64)
        requires { n < length self.old.messages }
        ensures { self.new.messages ≡ with_whole self.old.messages n }
    {
        self.marks = self.marks.then(&Mark::Whole(n));
        settle(&mut self.settled, n);
    }

    /// Whether the eager message `n` is here whole.
    pub(crate) fn is_whole(&self, n: u64) -> bool
        requires { IsSomeAnd (slice_get self.now.messages n) (λ r. is_ask r.arrival.env.how ≡ false) }
        ensures { result ≡ option_map_or (λ r. r.whole) (slice_get self.now.messages n) false }
    {
        match self.settled.get(n) {
            Some(settled) => *settled,
            None => true,
        }
    }
}
