//! What became of the messages that came, and of the receives.

ghost use Rattle.std.specs.Prelude.{◌≡◌, ◌+◌, ◌<◌, ◌^◌, [], ◌∷◌, ◌++◌, length, replicate, slice_index};
ghost use Rattle.std.specs.Prelude.{if◌then◌else◌, slice_set, false, IfOk, IsSome, IsSomeAnd, OnOk};
ghost use Rattle.std.specs.List.{slice_get};
ghost use Rattle.std.specs.Option.{option_map_or};
ghost use Rattle.nm_history.specs.Sends.{is_ask};
ghost use Rattle.nm_receiving.specs.Rows.{is_settled as is_settled_lem, settled_front};
ghost use Rattle.nm_receiving.specs.Steps.{rows_from, with_whole};

use crate::rows::Row;
use nm_types::{Arrival, How, Memory};
use std::alloc::Global;
use std::marker::Model;

/// A message that came.
#[derive(Clone, Copy)]
pub struct Receipt {
    pub arrival: Arrival,
    /// Whether all of it is here.
    pub whole: bool,
}

impl Receipt {
    /// Whether it is here whole, or was sent by asking.
    pub(crate) fn is_settled(&self) -> bool
        ensures { result ≡ is_settled_lem self.now }
    {
        self.arrival.env.how == How::Ask || self.whole
    }
}

/// A receive that was posted, or that took a claimed message.
#[derive(Clone, Copy)]
pub struct Receive {
    /// How many bytes it takes at most.
    pub cap: u32,
    pub cancelled: bool,
    /// Whether its result was given, with the bytes of its message.
    pub ended: bool,
    /// The message that it took, if it took one.
    pub taken: Option<Arrival>,
}

impl Receive {
    /// A receive of at most so many bytes, and the message that it takes.
    pub(crate) fn new(cap: u32, taken: Option<Arrival>) -> Self
        ensures { result
            ≡ record { cap = cap; taken = taken; cancelled = false; ended = false } }
    {
        Receive {
            cap,
            taken,
            cancelled: false,
            ended: false,
        }
    }
}

/// The messages that came, by sender and number.
pub(crate) struct Receipts {
    rows: Vec<Row>,
}

impl Drop for Receipts {
    fn drop(self) {
        let Receipts { rows: _ } = self;
    }
}

impl Model for Receipts {
    ghost use Rattle.std.specs.Prelude.{map};
    ghost use Rattle.nm_receiving.specs.Steps.{ReceiptsView};

    ghost Value = { ReceiptsView };

    ghost view = { λ a.
        record {
          rows = map (λ row. row.messages) a.rows.items;
          room = map (λ row. row.room) a.rows.items;
        } };
}

impl Receipts {
    /// No messages, of so many senders.
    pub(crate) fn new(alloc: Global, ranks: u8) -> Result<Receipts, Memory>
        ensures { IfOk result (λ receipts. receipts.rows ≡ replicate ranks []) }
    {
        let mut rows = Vec::new(alloc);
        for _ in 0..ranks {
            rows.push(Row::new(alloc))?;
        }
        Ok(Receipts { rows })
    }

    /// How many messages came from a sender.
    pub(crate) fn count(&self, from: u8) -> u64
        requires { from < length self.now.rows }
        ensures { result ≡ length (rows_from self.now.rows from) }
    {
        self.rows[from as usize].count()
    }

    /// How many messages of a sender are in memory: those from the first on that was neither sent by asking nor is
    /// whole.
    pub(crate) fn held(&self, from: u8) -> usize
        requires { from < length self.now.rows }
        ensures { settled_front (rows_from self.now.rows from) + result
            ≡ length (rows_from self.now.rows from) }
    {
        self.rows[from as usize].held()
    }

    /// Makes room for one message more of a sender.
    #[inline(always)]
    pub(crate) fn reserve(&mut self, from: u8) -> Result<(), Memory>
        requires { from < length self.old.rows }
        ensures rows { self.new.rows ≡ self.old.rows }
        ensures ok { OnOk result (0 < slice_index self.new.room from) }
    {
        self.rows[from as usize].reserve()?;
        Ok(())
    }

    /// Adds the next message of a sender. There is room for it.
    pub(crate) fn push(&mut self, from: u8, receipt: Receipt)
        requires from { from < length self.old.rows }
        requires room { 0 < slice_index self.old.room from }
        requires few { length (rows_from self.old.rows from) + 1 < 2 ^ 64 }
        ensures { self.new.rows
            ≡ slice_set self.old.rows from (rows_from self.old.rows from ++ receipt ∷ []) }
    {
        self.rows[from as usize].push(receipt);
    }

    /// Message `n` of a sender is here whole, where this is true.
    pub(crate) fn make_whole_if(&mut self, whole: bool, from: u8, n: u64)
        requires { IsSome (slice_get (rows_from self.old.rows from) n) }
        ensures { self.new.rows
            ≡ (if whole then slice_set self.old.rows from (with_whole (rows_from self.old.rows from) n)
            else self.old.rows) }
    {
        if whole {
            self.rows[from as usize].make_whole(n);
        }
    }

    /// Whether the eager message `n` of a sender is here whole.
    pub(crate) fn eager_is_whole(&self, from: u8, n: u64) -> bool
        requires { IsSomeAnd (slice_get (rows_from self.now.rows from) n)
            (λ r. is_ask r.arrival.env.how ≡ false) }
        ensures { result
            ≡ option_map_or (λ r. r.whole) (slice_get (rows_from self.now.rows from) n) false }
    {
        self.rows[from as usize].is_whole(n)
    }
}
